ghost use Rattle.std.specs.Prelude.{◌≡◌, ◌++◌, IfOk, OnOk};
ghost use Rattle.row_conditions.specs.RowConditions.{IsTruthOn};
ghost use Rattle.row_conditions.specs.Truths.{choice_of, rewrapped_truth, slots_of, truth_of, wrapped_truth};

use crate::comparison::{Part, compared};
use feature_expr::{Expr, and, not, or};
use std::alloc::Global;
use values::{List, Memory, TryCopy, Value};
use vra_syntax::Cond;
use vtable::{VColumn, VRow};

/// One step of a condition that is taken apart from the left: what goes round the left side's expression.
#[derive(Drop)]
pub enum TruthStep {
    Not,
    And(Expr),
    Or(Expr),
    Choice(Expr, Expr),
}

/// Where the condition is true of the row. A parameter compares to nothing, and so does a column that isn't there.
#[tactic(auto, using(crate::proofs::TruthOn::truth_is_on))]
pub fn cond_on_row(
    alloc: Global,
    cond: &Cond,
    columns: &List<VColumn>,
    row: &VRow,
) -> Result<Expr, Memory>
    ensures { IfOk result (λ truth. IsTruthOn cond.now columns.now row.now truth) }
{
    let truth = row_truth(alloc, cond, columns.as_slice(), row.cells.as_slice())?;
    Ok(truth)
}

/// The same of a row's cells.
pub fn row_truth(
    alloc: Global,
    cond: &Cond,
    columns: &[VColumn],
    cells: &[Option<Value>],
) -> Result<Expr, Memory>
    ensures { IfOk result (λ truth. truth ≡ truth_of (slots_of columns.now cells.now) cond.now) }
{
    let whole = Part { columns, cells };
    let none = Part {
        columns: &[],
        cells: &[],
    };
    let truth = truth_on(alloc, cond, whole, none)?;
    Ok(truth)
}

/// The same of a row in two parts, which are copied nowhere.
pub fn truth_on(alloc: Global, cond: &Cond, left: Part, right: Part) -> Result<Expr, Memory>
    ensures { IfOk result (λ truth. truth ≡ truth_of (slots_of left.entry.columns.now left.entry.cells.now ++ slots_of right.entry.columns.now right.entry.cells.now) cond.now) }
{
    let mut steps = Vec::new(alloc);
    let mut at = cond;
    loop {
        match at {
            Cond::Cmp(one, sign, other) => {
                let base = compared(alloc, left, right, one, *sign, other)?;
                return rebuilt(alloc, base, steps);
            }
            Cond::Not(inner) => {
                put_step(&mut steps, TruthStep::Not, inner.get(), left, right)?;
                at = inner.get();
            }
            Cond::And(first, second) => {
                let second = truth_on(alloc, second.get(), left, right)?;
                put_step(&mut steps, TruthStep::And(second), first.get(), left, right)?;
                at = first.get();
            }
            Cond::Or(first, second) => {
                let second = truth_on(alloc, second.get(), left, right)?;
                put_step(&mut steps, TruthStep::Or(second), first.get(), left, right)?;
                at = first.get();
            }
            Cond::Choice(expr, first, second) => {
                let expr = expr.copy(alloc)?;
                let second = truth_on(alloc, second.get(), left, right)?;
                let step = TruthStep::Choice(expr, second);
                put_step(&mut steps, step, first.get(), left, right)?;
                at = first.get();
            }
            Cond::True => return rebuilt(alloc, Expr::True, steps),
            Cond::False => return rebuilt(alloc, Expr::False, steps),
        }
    }
}

/// Adds the innermost step so far, the one round `inner`.
#[tactic(auto, using(crate::proofs::ChainLaws::rewrapped_truth_push))]
fn put_step(
    steps: &mut Vec<TruthStep>,
    step: TruthStep,
    inner: &Cond,
    left: Part,
    right: Part,
) -> Result<(), Memory>
    ensures { OnOk result (let truth = truth_of (slots_of left.entry.columns.now left.entry.cells.now ++ slots_of right.entry.columns.now right.entry.cells.now) inner.now in rewrapped_truth steps.new.items truth ≡ rewrapped_truth steps.old.items (wrapped_truth step truth)) }
{
    steps.push(step)?;
    Ok(())
}

/// The expression that the steps make of the innermost left side's. The first step is the outermost.
#[tactic(auto, using(crate::proofs::ChainLaws::rewrapped_truth_push))]
fn rebuilt(alloc: Global, base: Expr, steps: Vec<TruthStep>) -> Result<Expr, Memory>
    ensures { IfOk result (λ it. it ≡ rewrapped_truth steps.items base) }
{
    let mut steps = steps;
    let mut whole = base;
    while let Some(step) = steps.pop() {
        whole = wrap(alloc, step, whole)?;
    }
    Ok(whole)
}

fn wrap(alloc: Global, step: TruthStep, inner: Expr) -> Result<Expr, Memory>
    ensures { IfOk result (λ it. it ≡ wrapped_truth step inner) }
{
    match step {
        TruthStep::Not => not(alloc, inner),
        TruthStep::And(right) => and(alloc, inner, right),
        TruthStep::Or(right) => or(alloc, inner, right),
        TruthStep::Choice(expr, right) => choice(alloc, expr, inner, right),
    }
}

/// The left expression where the first holds, else the right one.
fn choice(alloc: Global, expr: Expr, left: Expr, right: Expr) -> Result<Expr, Memory>
    ensures { IfOk result (λ it. it ≡ choice_of expr left right) }
{
    let chosen = expr.copy(alloc)?;
    let left = and(alloc, chosen, left)?;
    let otherwise = not(alloc, expr)?;
    let right = and(alloc, otherwise, right)?;
    or(alloc, left, right)
}
