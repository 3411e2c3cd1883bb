ghost use Rattle.std.specs.Prelude.{◌≡◌, ◌++◌, ◌∷◌, ◌+◌, ◌<◌, ℕ, [], List as Items, OnOk, if◌then◌else◌};
ghost use Rattle.feature_expr.specs.Satisfaction.{satisfies};
ghost use Rattle.plain_relation.specs.Relations.{Column};
ghost use Rattle.values.specs.declared.value.Kind.{Kind as TheKind};
ghost use Rattle.query_meaning.specs.Cases.{case, operand_name};
ghost use Rattle.query_meaning.specs.PlainTypes.{asked, comparison_cases, kinds_differ, operand_kinds};
ghost use Rattle.query_meaning.specs.Typing.{columns_at};
ghost use Rattle.query_names.specs.Waiting.{nodes};
ghost use Rattle.query_typing.specs.Faults.{faults_at, name_at};
ghost use Rattle.query_typing.specs.Waiting.{waiting_at, waiting_count};

use crate::absent::add_absent_operand;
use crate::fault::{Fault, ShownName, add_fault, and_too};
use crate::kinds::{differ, operand_kinds};
use feature_expr::{Expr, and, not};
use query_meaning::{IllCase, TypedColumn};
use std::alloc::Global;
use values::{Kind, Memory, TryCopy};
use vra_syntax::{Cond, Operand};

/// A condition that waits to be read, and the path on which it is reached.
#[derive(Drop)]
pub struct WaitingCond<'a> {
    path: Expr,
    cond: &'a Cond,
}

/// Puts the cases of a condition over the columns that are there behind others.
///
/// What is still to be read waits in a list, so that no chain takes stack.
pub fn add_cond<'a>(
    alloc: Global,
    kinds: &[Kind],
    columns: &[TypedColumn],
    cond: &'a Cond,
    faults: &mut Vec<Fault<'a>>,
) -> Result<(), Memory>
    ensures { OnOk result ((c : Items ℕ) → faults_at c faults.new.items ≡ faults_at c faults.old.items ++ asked c kinds.now cond.now (columns_at c columns.now)) }
{
    let mut waiting = Vec::new(alloc);
    waiting.push(WaitingCond {
        path: Expr::True,
        cond,
    })?;
    while let Some(next) = waiting.pop() {
        add_next(alloc, kinds, columns, next, &mut waiting, faults)?;
    }
    Ok(())
}

/// Puts the cases of a comparison behind others. The parts of another condition wait.
fn add_next<'a>(
    alloc: Global,
    kinds: &[Kind],
    columns: &[TypedColumn],
    next: WaitingCond<'a>,
    waiting: &mut Vec<WaitingCond<'a>>,
    faults: &mut Vec<Fault<'a>>,
) -> Result<(), Memory>
    ensures cases { OnOk result ((c : Items ℕ) → faults_at c faults.new.items ++ waiting_at c kinds.now (columns_at c columns.now) waiting.new.items ≡ faults_at c faults.old.items ++ ((if satisfies c next.entry.path then asked c kinds.now next.entry.cond.now (columns_at c columns.now) else []) ++ waiting_at c kinds.now (columns_at c columns.now) waiting.old.items)) }
    ensures fewer { OnOk result (waiting_count waiting.new.items < waiting_count waiting.old.items + nodes next.entry.cond.now) }
{
    let WaitingCond { path, cond } = next;
    match cond {
        Cond::Cmp(left, _sign, right) => {
            add_comparison(alloc, kinds, columns, &path, left, right, faults)?;
            Ok(())
        }
        Cond::Not(inner) => {
            put_one(waiting, path, inner.get())?;
            Ok(())
        }
        Cond::And(left, right) => {
            put_both(alloc, waiting, path, left.get(), right.get())?;
            Ok(())
        }
        Cond::Or(left, right) => {
            put_both(alloc, waiting, path, left.get(), right.get())?;
            Ok(())
        }
        Cond::Choice(expr, left, right) => {
            put_sides(alloc, waiting, path, expr, left.get(), right.get())?;
            Ok(())
        }
        Cond::True => Ok(()),
        Cond::False => Ok(()),
    }
}

#[tactic(auto, using(crate::proofs::WaitingLaws::count_push))]
fn put_one<'a>(
    waiting: &mut Vec<WaitingCond<'a>>,
    path: Expr,
    inner: &'a Cond,
) -> Result<(), Memory>
    ensures cases { OnOk result ((c : Items ℕ) (kinds : Items TheKind) (columns : Items Column) → waiting_at c kinds columns waiting.new.items ≡ (if satisfies c path then asked c kinds inner.now columns else []) ++ waiting_at c kinds columns waiting.old.items) }
    ensures count { OnOk result (waiting_count waiting.new.items ≡ waiting_count waiting.old.items + nodes inner.now) }
{
    waiting.push(WaitingCond { path, cond: inner })?;
    Ok(())
}

/// Puts the left part before the right one.
fn put_both<'a>(
    alloc: Global,
    waiting: &mut Vec<WaitingCond<'a>>,
    path: Expr,
    left: &'a Cond,
    right: &'a Cond,
) -> Result<(), Memory>
    ensures cases { OnOk result ((c : Items ℕ) (kinds : Items TheKind) (columns : Items Column) → waiting_at c kinds columns waiting.new.items ≡ (if satisfies c path then asked c kinds left.now columns ++ asked c kinds right.now columns else []) ++ waiting_at c kinds columns waiting.old.items) }
    ensures count { OnOk result (waiting_count waiting.new.items ≡ waiting_count waiting.old.items + nodes left.now + nodes right.now) }
{
    let same = path.copy(alloc)?;
    put_one(waiting, same, right)?;
    put_one(waiting, path, left)?;
    Ok(())
}

/// Puts each side of a choice on the path that takes it.
fn put_sides<'a>(
    alloc: Global,
    waiting: &mut Vec<WaitingCond<'a>>,
    path: Expr,
    expr: &Expr,
    left: &'a Cond,
    right: &'a Cond,
) -> Result<(), Memory>
    ensures cases { OnOk result ((c : Items ℕ) (kinds : Items TheKind) (columns : Items Column) → waiting_at c kinds columns waiting.new.items ≡ (if satisfies c path then (if satisfies c expr.now then asked c kinds left.now columns else asked c kinds right.now columns) else []) ++ waiting_at c kinds columns waiting.old.items) }
    ensures count { OnOk result (waiting_count waiting.new.items ≡ waiting_count waiting.old.items + nodes left.now + nodes right.now) }
{
    let taken = and_too(alloc, &path, expr)?;
    let expr = expr.copy(alloc)?;
    let other = not(alloc, expr)?;
    let other = and(alloc, path, other)?;
    put_one(waiting, other, right)?;
    put_one(waiting, taken, left)?;
    Ok(())
}

fn add_comparison<'a>(
    alloc: Global,
    kinds: &[Kind],
    columns: &[TypedColumn],
    path: &Expr,
    left: &'a Operand,
    right: &'a Operand,
    faults: &mut Vec<Fault<'a>>,
) -> Result<(), Memory>
    ensures { OnOk result ((c : Items ℕ) → faults_at c faults.new.items ≡ faults_at c faults.old.items ++ (if satisfies c path.now then comparison_cases kinds.now (columns_at c columns.now) left.now right.now else [])) }
{
    add_absent_operand(alloc, columns, path, left, faults)?;
    add_absent_operand(alloc, columns, path, right, faults)?;
    add_kinds_differ(alloc, kinds, columns, path, left, right, faults)?;
    Ok(())
}

/// Puts the case that the operands of a comparison have two kinds behind others.
fn add_kinds_differ<'a>(
    alloc: Global,
    kinds: &[Kind],
    columns: &[TypedColumn],
    path: &Expr,
    left: &'a Operand,
    right: &Operand,
    faults: &mut Vec<Fault<'a>>,
) -> Result<(), Memory>
    ensures { OnOk result ((c : Items ℕ) → faults_at c faults.new.items ≡ faults_at c faults.old.items ++ (if satisfies c path.now then (if kinds_differ (operand_kinds kinds.now (columns_at c columns.now) left.now) (operand_kinds kinds.now (columns_at c columns.now) right.now) then case IllCase.KindsDiffer (operand_name left.now) ∷ [] else []) else [])) }
{
    let left_kinds = operand_kinds(alloc, kinds, columns, left)?;
    let right_kinds = operand_kinds(alloc, kinds, columns, right)?;
    let other = differ(alloc, left_kinds, right_kinds)?;
    let path = path.copy(alloc)?;
    let cond = and(alloc, path, other)?;
    add_fault(faults, cond, IllCase::KindsDiffer, operand_name(left))?;
    Ok(())
}

fn operand_name<'a>(operand: &'a Operand) -> ShownName<'a>
    ensures { (c : Items ℕ) → name_at c result ≡ operand_name operand.now }
{
    match operand {
        Operand::Column(name) => ShownName::Of(name),
        Operand::Literal(_value) => ShownName::Empty,
        Operand::Param(_number) => ShownName::Empty,
    }
}
