ghost use Rattle.std.specs.Prelude.{◌≡◌, ◌++◌, fold, map, IfOk, OnOk};
ghost use Rattle.plan_tables.specs.Tables.{heading, any_of, column_cond, column_under, columns_under, headings, settled, with_column_cond, with_settled};
ghost use Rattle.relational_algebra.specs.Columns.{among};

use crate::place::{and_once, is_same_column, or_once};
use feature_expr::Expr;
use std::alloc::Global;
use values::{List, Memory, TryCopy};
use vtable::VColumn;

/// Each pair of name and kind once, there in the variants in which one of its columns is.
pub fn settled(alloc: Global, all: &[VColumn]) -> Result<List<VColumn>, Memory>
    ensures { IfOk result (λ it. it ≡ settled all.now) }
{
    let mut out = Vec::new(alloc);
    let mut left = all;
    while let Some((column, more)) = left.split_first() {
        put_settled(alloc, all, &mut out, column)?;
        left = more;
    }
    Ok(List::from_vec(out))
}

fn put_settled(
    alloc: Global,
    all: &[VColumn],
    out: &mut Vec<VColumn>,
    column: &VColumn,
) -> Result<(), Memory>
    ensures { OnOk result (out.new.items ≡ with_settled all.now out.old.items column.now) }
{
    if has_column(out.as_slice(), column) {
        return Ok(());
    }
    let name = column.name.copy(alloc)?;
    let kind = column.kind;
    let cond = column_cond(alloc, column, all)?;
    out.push(VColumn { name, kind, cond })?;
    Ok(())
}

/// Whether one of the columns has its name and kind.
fn has_column(columns: &[VColumn], column: &VColumn) -> bool
    ensures { result ≡ among (heading column.now) (headings columns.now) }
{
    let mut columns = columns;
    while let Some((one, more)) = columns.split_first() {
        if is_same_column(column, one) {
            return true;
        }
        columns = more;
    }
    false
}

/// Where one of the columns with its name and kind is there.
fn column_cond(alloc: Global, key: &VColumn, columns: &[VColumn]) -> Result<Expr, Memory>
    ensures { IfOk result (λ it. it ≡ column_cond (heading key.now) columns.now) }
{
    let mut out = Expr::False;
    let mut columns = columns;
    while let Some((column, more)) = columns.split_first() {
        if is_same_column(key, column) {
            out = or_once(alloc, out, &column.cond)?;
        }
        columns = more;
    }
    Ok(out)
}

/// Where some column is there.
pub fn any_of(alloc: Global, columns: &[VColumn]) -> Result<Expr, Memory>
    ensures { IfOk result (λ it. it ≡ any_of columns.now) }
{
    let mut out = Expr::False;
    let mut columns = columns;
    while let Some((column, more)) = columns.split_first() {
        out = or_once(alloc, out, &column.cond)?;
        columns = more;
    }
    Ok(out)
}

/// The columns where the condition holds too.
pub fn put_columns_under(
    alloc: Global,
    cond: &Expr,
    columns: &[VColumn],
    out: &mut Vec<VColumn>,
) -> Result<(), Memory>
    ensures { OnOk result (out.new.items ≡ out.old.items ++ columns_under cond.now columns.now) }
{
    for column in columns {
        let column = column_under(alloc, cond, column)?;
        out.push(column)?;
    }
    Ok(())
}

fn column_under(alloc: Global, cond: &Expr, column: &VColumn) -> Result<VColumn, Memory>
    ensures { IfOk result (λ it. it ≡ column_under cond.now column.now) }
{
    let name = column.name.copy(alloc)?;
    let kind = column.kind;
    let here = column.cond.copy(alloc)?;
    let cond = and_once(alloc, here, cond)?;
    Ok(VColumn { name, kind, cond })
}

/// The columns as they are.
pub fn put_columns(alloc: Global, columns: &[VColumn], out: &mut Vec<VColumn>) -> Result<(), Memory>
    ensures { OnOk result (out.new.items ≡ out.old.items ++ columns.now) }
{
    for column in columns {
        let column = column.copy(alloc)?;
        out.push(column)?;
    }
    Ok(())
}
