ghost use Rattle.std.specs.Prelude.{◌≡◌, ◌≤◌, ◌+◌, IfOk, OnOk};
ghost use Rattle.plan_exec.specs.RunPairs.{rewrapped_pairs, run_pairs, wrapped_pairs};
ghost use Rattle.plan_exec.specs.Runs.{CanRun, IsRunOf, steps_bound};
ghost use Rattle.plan_tables.specs.StoredRows.{rows_of};
ghost use Rattle.plan_operators.specs.Operators.{filtered_table};
ghost use Rattle.plan_exec.specs.RunTables.{rewrapped_table, run_table, table_by, wrapped_table};

use condition_sat::Model;
use feature_expr::Expr;
use plan_merges::{aliased, joined, kept};
use plan_operators::{chosen, excepted, filtered, united};
use plan_tables::{Rows, TableRows};
use query_meaning::{Plan, bound_laws};
use std::alloc::Global;
use std::sync::ledger::Ledger;
use steps::Steps;
use values::{Memory, Name, TryCopy};
use vra_syntax::{Cond, Items};
use vtable::VTable;

/// One step of a plan that is taken apart from the left: what goes round the left side's table.
#[derive(Drop)]
pub enum PlanStep<'a> {
    Filter(&'a Cond),
    Keep(&'a Items),
    Join(VTable, &'a Cond),
    Union(VTable),
    Except(VTable),
    Rename(&'a Name),
    Choose(&'a Expr, VTable),
}

/// The plan's answer in all variants at once. Nothing is done for each variant: the model is asked nothing. Each pair of
/// rows that is formed is a step.
pub fn run<L: Ledger>(
    alloc: Global,
    plan: &Plan,
    model: &Model,
    rows: &Rows,
    steps: &mut Steps<L>,
) -> Result<VTable, Memory>
    requires { CanRun model.now rows.now.tables plan.now }
    ensures made { IfOk result (λ table. IsRunOf model.now rows.now.tables plan.now table) }
    ensures steps { steps.new ≤ steps.old + steps_bound rows.now.tables plan.now }
{
    let _model = model;
    bound_laws();
    let table = run_plan(alloc, plan, rows.tables.as_slice(), steps)?;
    Ok(table)
}

/// The table of a plan. A condition on a stored table is judged on its lent rows, and only those that stay are copied.
fn run_plan<L: Ledger>(
    alloc: Global,
    plan: &Plan,
    tables: &[TableRows],
    steps: &mut Steps<L>,
) -> Result<VTable, Memory>
    ensures made { IfOk result (λ table. table ≡ run_table tables.now plan.now) }
    ensures steps { steps.new ≤ steps.old + run_pairs tables.now plan.now }
{
    let mut chain = Vec::new(alloc);
    let mut at = plan;
    loop {
        match at {
            Plan::Scan(number) => {
                let base = copied_table(alloc, tables, *number)?;
                return rebuilt(alloc, base, chain, steps);
            }
            Plan::Filter(source, cond) => {
                if let Plan::Scan(number) = source.get() {
                    let base = filtered_scan(alloc, cond, tables, *number)?;
                    return rebuilt(alloc, base, chain, steps);
                }
                put_step(&mut chain, PlanStep::Filter(cond), source.get(), tables)?;
                at = source.get();
            }
            Plan::Keep(source, items) => {
                put_step(&mut chain, PlanStep::Keep(items), source.get(), tables)?;
                at = source.get();
            }
            Plan::Join(left, right, cond) => {
                let right = run_plan(alloc, right.get(), tables, steps)?;
                put_step(&mut chain, PlanStep::Join(right, cond), left.get(), tables)?;
                at = left.get();
            }
            Plan::Union(left, right) => {
                let right = run_plan(alloc, right.get(), tables, steps)?;
                put_step(&mut chain, PlanStep::Union(right), left.get(), tables)?;
                at = left.get();
            }
            Plan::Except(left, right) => {
                let right = run_plan(alloc, right.get(), tables, steps)?;
                put_step(&mut chain, PlanStep::Except(right), left.get(), tables)?;
                at = left.get();
            }
            Plan::Rename(source, alias) => {
                put_step(&mut chain, PlanStep::Rename(alias), source.get(), tables)?;
                at = source.get();
            }
            Plan::Choose(expr, left, right) => {
                let right = run_plan(alloc, right.get(), tables, steps)?;
                put_step(
                    &mut chain,
                    PlanStep::Choose(expr, right),
                    left.get(),
                    tables,
                )?;
                at = left.get();
            }
            Plan::Nothing => return rebuilt(alloc, VTable::empty(alloc), chain, steps),
        }
    }
}

/// Adds the innermost step so far, the one round `inner`.
#[tactic(auto, using(crate::proofs::StepLaws::rewrapped_table_push, crate::proofs::PairLaws::rewrapped_pairs_push))]
fn put_step<'a>(
    chain: &mut Vec<PlanStep<'a>>,
    step: PlanStep<'a>,
    inner: &Plan,
    tables: &[TableRows],
) -> Result<(), Memory>
    ensures made { OnOk result (let table = run_table tables.now inner.now in rewrapped_table chain.new.items table ≡ rewrapped_table chain.old.items (wrapped_table step.entry table)) }
    ensures pairs { OnOk result (let table = run_table tables.now inner.now in rewrapped_pairs chain.new.items table ≡ rewrapped_pairs chain.old.items (wrapped_table step.entry table) + wrapped_pairs step.entry table) }
{
    chain.push(step)?;
    Ok(())
}

/// The table that the steps make of the innermost left side's. The first step is the outermost.
#[tactic(auto, using(crate::proofs::StepLaws::rewrapped_table_push, crate::proofs::PairLaws::rewrapped_pairs_push))]
fn rebuilt<L: Ledger>(
    alloc: Global,
    base: VTable,
    chain: Vec<PlanStep>,
    steps: &mut Steps<L>,
) -> Result<VTable, Memory>
    ensures made { IfOk result (λ table. table ≡ rewrapped_table chain.entry.items base) }
    ensures steps { steps.new ≤ steps.old + rewrapped_pairs chain.entry.items base }
{
    let mut chain = chain;
    let mut whole = base;
    while let Some(step) = chain.pop() {
        whole = wrap(alloc, step, whole, steps)?;
    }
    Ok(whole)
}

fn wrap<L: Ledger>(
    alloc: Global,
    step: PlanStep,
    table: VTable,
    steps: &mut Steps<L>,
) -> Result<VTable, Memory>
    ensures made { IfOk result (λ it. it ≡ wrapped_table step.entry table) }
    ensures steps { steps.new ≤ steps.old + wrapped_pairs step.entry table }
{
    match step {
        PlanStep::Filter(cond) => filtered(alloc, cond, &table),
        PlanStep::Keep(items) => kept(alloc, items, table),
        PlanStep::Join(right, cond) => joined(alloc, cond, &table, &right, steps),
        PlanStep::Union(right) => united(alloc, table, right),
        PlanStep::Except(right) => excepted(alloc, &table, &right),
        PlanStep::Rename(alias) => aliased(alloc, alias, table),
        PlanStep::Choose(expr, right) => chosen(alloc, expr, table, right),
    }
}

/// A copy of the table with the number, or one without columns.
fn copied_table(alloc: Global, tables: &[TableRows], number: u32) -> Result<VTable, Memory>
    ensures { IfOk result (λ it. it ≡ table_by (rows_of tables.now number)) }
{
    let mut tables = tables;
    while let Some((table, more)) = tables.split_first() {
        if table.table == number {
            return table.rows.copy(alloc);
        }
        tables = more;
    }
    Ok(VTable::empty(alloc))
}

/// The rows of the table with the number of which the condition is true. They alone are copied.
fn filtered_scan(
    alloc: Global,
    cond: &Cond,
    tables: &[TableRows],
    number: u32,
) -> Result<VTable, Memory>
    ensures { IfOk result (λ it. it ≡ filtered_table cond.now (table_by (rows_of tables.now number))) }
{
    let mut tables = tables;
    while let Some((table, more)) = tables.split_first() {
        if table.table == number {
            return filtered(alloc, cond, &table.rows);
        }
        tables = more;
    }
    Ok(VTable::empty(alloc))
}
