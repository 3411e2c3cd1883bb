ghost use Rattle.std.specs.Prelude.{◌≡◌, ◌++◌, OnOk, IfOk};
ghost use Rattle.std.specs.Option.{option_to_list};
ghost use Rattle.feature_expr.specs.declared.expr.Expr.{out-Expr};
ghost use Rattle.plan_tables.specs.Tables.{and_once, has_side, heading, is_false, is_last_link, is_true, is_within, or_once, row_under};
ghost use Rattle.relational_algebra.specs.Columns.{same_column};

use feature_expr::{Expr, and, is_same_expr, or};
use std::alloc::Global;
use values::{List, Memory, TryCopy, Value};
use vtable::{VColumn, VRow};

/// Whether the expression is the constant `false`.
pub fn is_false(expr: &Expr) -> bool
    ensures { result ≡ is_false expr.now }
{
    match expr {
        Expr::False => true,
        _ => false,
    }
}

/// Whether the expression is the constant `true`.
pub fn is_true(expr: &Expr) -> bool
    ensures { result ≡ is_true expr.now }
{
    match expr {
        Expr::True => true,
        _ => false,
    }
}

/// Whether an expression is the condition, or a conjunction with it: then it holds only where the condition does.
fn is_within(cond: &Expr, expr: &Expr) -> bool
    ensures { result ≡ is_within cond.now expr.now }
{
    is_same_expr(cond, expr) || has_side(cond, expr)
}

fn has_side(cond: &Expr, expr: &Expr) -> bool
    ensures { result ≡ has_side cond.now expr.now }
{
    match expr {
        Expr::And(left, right) => is_same_expr(cond, left.get()) || is_same_expr(cond, right.get()),
        _ => false,
    }
}

/// Holds where a side holds. A condition that stands on both stands once, and a conjunction with it doesn't stand.
pub fn or_once(alloc: Global, left: Expr, right: &Expr) -> Result<Expr, Memory>
    ensures { IfOk result (λ it. it ≡ or_once left right.now) }
{
    if is_within(&left, right) {
        return Ok(left);
    }
    let other = right.copy(alloc)?;
    if is_within(right, &left) {
        return Ok(other);
    }
    or(alloc, left, other)
}

/// Holds where both do; a condition that is all of the left side, or its last link, isn't added again.
pub fn and_once(alloc: Global, left: Expr, right: &Expr) -> Result<Expr, Memory>
    ensures { IfOk result (λ it. it ≡ and_once left right.now) }
{
    if is_same_expr(&left, right) || is_last_link(&left, right) {
        return Ok(left);
    }
    let right = right.copy(alloc)?;
    and(alloc, left, right)
}

fn is_last_link(expr: &Expr, link: &Expr) -> bool
    ensures { result ≡ is_last_link (out-Expr expr.now) link.now }
{
    match expr {
        Expr::And(_rest, last) => is_same_expr(last.get(), link),
        _ => false,
    }
}

pub fn is_same_column(one: &VColumn, other: &VColumn) -> bool
    ensures { result ≡ same_column (heading one.now) (heading other.now) }
{
    one.name == other.name && one.kind == other.kind
}

/// Adds a row of these cells, unless it is there nowhere.
pub fn put_under(cells: List<Option<Value>>, cond: Expr, out: &mut Vec<VRow>) -> Result<(), Memory>
    ensures { OnOk result (out.new.items ≡ out.old.items ++ option_to_list (row_under cells cond)) }
{
    if !is_false(&cond) {
        out.push(VRow { cells, cond })?;
    }
    Ok(())
}

/// The same with a copy of the cells.
pub fn put_copied(
    alloc: Global,
    cells: &List<Option<Value>>,
    cond: Expr,
    out: &mut Vec<VRow>,
) -> Result<(), Memory>
    ensures { OnOk result (out.new.items ≡ out.old.items ++ option_to_list (row_under cells.now cond)) }
{
    if is_false(&cond) {
        return Ok(());
    }
    let cells = cells.copy(alloc)?;
    out.push(VRow { cells, cond })?;
    Ok(())
}
