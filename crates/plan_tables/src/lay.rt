ghost use Rattle.std.specs.Prelude.{◌≡◌, ◌++◌, true, length, map, IfOk, OnOk};
ghost use Rattle.std.specs.Option.{option_to_list};
ghost use Rattle.std.specs.List.{filter_map};
ghost use Rattle.plan_tables.specs.Tables.{cell_under, heading, headings, laid_cells, once_each, row_laid, rows_laid};
ghost use Rattle.row_conditions.specs.Truths.{slots_of};

use crate::place::{and_once, is_false, is_same_column, put_under};
use feature_expr::Expr;
use std::alloc::Global;
use values::{List, Memory, TryCopy, Value};
use vtable::{VColumn, VRow, VTable};

/// Adds the rows in the order of other columns, where the condition holds.
pub fn put_laid(
    alloc: Global,
    to: &[VColumn],
    columns: &[VColumn],
    cond: &Expr,
    rows: &[VRow],
    out: &mut Vec<VRow>,
) -> Result<(), Memory>
    ensures { OnOk result (out.new.items ≡ out.old.items ++ rows_laid to.now columns.now cond.now rows.now) }
{
    for row in rows {
        put_row(alloc, to, columns, cond, row, out)?;
    }
    Ok(())
}

fn put_row(
    alloc: Global,
    to: &[VColumn],
    columns: &[VColumn],
    cond: &Expr,
    row: &VRow,
    out: &mut Vec<VRow>,
) -> Result<(), Memory>
    ensures { OnOk result (out.new.items ≡ out.old.items ++ option_to_list (row_laid to.now columns.now cond.now row.now)) }
{
    let here = row.cond.copy(alloc)?;
    let both = and_once(alloc, here, cond)?;
    if is_false(&both) {
        return Ok(());
    }
    let cells = laid_cells(alloc, to, columns, row.cells.as_slice())?;
    put_under(cells, both, out)?;
    Ok(())
}

/// Adds the rows of a table that is given up. Where the columns stay the same in name, kind and order, the cells are
/// moved.
pub fn put_moved(
    alloc: Global,
    to: &[VColumn],
    table: VTable,
    cond: &Expr,
    out: &mut Vec<VRow>,
) -> Result<(), Memory>
    requires { once_each (headings to.now) ≡ true }
    ensures { OnOk result (out.new.items ≡ out.old.items ++ rows_laid to.now table.columns cond.now table.rows) }
{
    let VTable { columns, rows } = table;
    if have_same_headings(to, columns.as_slice()) {
        move_rows(alloc, to, columns.as_slice(), cond, rows, out)
    } else {
        put_laid(alloc, to, columns.as_slice(), cond, rows.as_slice(), out)
    }
}

/// Whether the columns have the same names and kinds in one order.
#[tactic(auto, using(crate::proofs::SameLaws::headings_more))]
fn have_same_headings(one: &[VColumn], other: &[VColumn]) -> bool
    ensures { result ≡ true → headings one.now ≡ headings other.now }
{
    let mut one = one;
    let mut other = other;
    while let Some((column, more)) = one.split_first() {
        let Some((second, rest)) = other.split_first() else {
            return false;
        };
        if !is_same_column(column, second) {
            return false;
        }
        one = more;
        other = rest;
    }
    other.is_empty()
}

fn move_rows(
    alloc: Global,
    to: &[VColumn],
    columns: &[VColumn],
    cond: &Expr,
    rows: List<VRow>,
    out: &mut Vec<VRow>,
) -> Result<(), Memory>
    requires once { once_each (headings to.now) ≡ true }
    requires same { headings to.now ≡ headings columns.now }
    ensures { OnOk result (out.new.items ≡ out.old.items ++ rows_laid to.now columns.now cond.now rows) }
{
    for row in rows.into_vec() {
        move_row(alloc, to, columns, cond, row, out)?;
    }
    Ok(())
}

fn move_row(
    alloc: Global,
    to: &[VColumn],
    columns: &[VColumn],
    cond: &Expr,
    row: VRow,
    out: &mut Vec<VRow>,
) -> Result<(), Memory>
    requires once { once_each (headings to.now) ≡ true }
    requires same { headings to.now ≡ headings columns.now }
    ensures { OnOk result (out.new.items ≡ out.old.items ++ option_to_list (row_laid to.now columns.now cond.now row)) }
{
    if row.cells.len() != columns.len() {
        return put_row(alloc, to, columns, cond, &row, out);
    }
    let VRow { cells, cond: here } = row;
    let moved = and_once(alloc, here, cond)?;
    put_under(cells, moved, out)?;
    Ok(())
}

/// The cells in the order of other columns, none where a column isn't among theirs.
pub fn laid_cells(
    alloc: Global,
    to: &[VColumn],
    columns: &[VColumn],
    cells: &[Option<Value>],
) -> Result<List<Option<Value>>, Memory>
    ensures { IfOk result (λ it. it ≡ laid_cells to.now (slots_of columns.now cells.now)) }
{
    let mut out = Vec::with_capacity(alloc, to.len())?;
    for column in to {
        let cell = copied_cell(alloc, columns, cells, column)?;
        out.push(cell)?;
    }
    Ok(List::from_vec(out))
}

/// A copy of the cell in the column of this name and kind.
fn copied_cell(
    alloc: Global,
    columns: &[VColumn],
    cells: &[Option<Value>],
    key: &VColumn,
) -> Result<Option<Value>, Memory>
    ensures { IfOk result (λ it. it ≡ cell_under (slots_of columns.now cells.now) (heading key.now)) }
{
    let mut columns = columns;
    let mut cells = cells;
    while let Some((column, more)) = columns.split_first() {
        let Some((cell, rest)) = cells.split_first() else {
            return Ok(None);
        };
        if is_same_column(key, column) {
            return cell.copy(alloc);
        }
        columns = more;
        cells = rest;
    }
    Ok(None)
}
