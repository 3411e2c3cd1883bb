ghost use Rattle.std.specs.Prelude.{◌≡◌, ◌&&◌, ◌++◌, IfOk, OnOk};
ghost use Rattle.std.specs.List.{flat_map};
ghost use Rattle.std.specs.Option.{option_to_list};
ghost use Rattle.plan_merges.specs.Merges.{is_taken, merged_table, row_by_slots, rows_by_slots, taken_slots};
ghost use Rattle.plan_tables.specs.Tables.{heading, cell_under, laid_cells};
ghost use Rattle.relational_algebra.specs.Columns.{same_column};

use crate::way::{Ranked, Way, all_ways, is_taken, repeated_names, with_ranks};
use feature_expr::and;
use plan_tables::{is_false, is_same_column, put_under, settled};
use std::alloc::Global;
use values::{ColName, List, Memory, TryCopy, Value};
use vtable::{VColumn, VRow, VTable};

/// The table with each name and kind once. Where a name's columns come from several places, a row becomes one row for
/// each place, in the variants in which the name comes from there.
pub fn merged(alloc: Global, table: &VTable) -> Result<VTable, Memory>
    ensures { IfOk result (λ it. it ≡ merged_table table.now) }
{
    let columns = settled(alloc, table.columns.as_slice())?;
    let ranked = with_ranks(alloc, table.columns.as_slice())?;
    let names = repeated_names(alloc, ranked.as_slice())?;
    let ways = all_ways(alloc, names, ranked.as_slice())?;
    let rows = rows_in_ways(
        alloc,
        columns.as_slice(),
        ranked.as_slice(),
        table.rows.as_slice(),
        ways.as_slice(),
    )?;
    Ok(VTable { columns, rows })
}

fn rows_in_ways(
    alloc: Global,
    to: &[VColumn],
    columns: &[Ranked],
    rows: &[VRow],
    ways: &[Way],
) -> Result<List<VRow>, Memory>
    ensures { IfOk result (λ it. it ≡ flat_map (rows_by_slots to.now columns.now rows.now) ways.now) }
{
    let mut out = Vec::new(alloc);
    for way in ways {
        put_way(alloc, to, columns, rows, way, &mut out)?;
    }
    Ok(List::from_vec(out))
}

fn put_way(
    alloc: Global,
    to: &[VColumn],
    columns: &[Ranked],
    rows: &[VRow],
    way: &Way,
    out: &mut Vec<VRow>,
) -> Result<(), Memory>
    ensures { OnOk result (out.new.items ≡ out.old.items ++ rows_by_slots to.now columns.now rows.now way.now) }
{
    for row in rows {
        put_row(alloc, to, columns, way, row, out)?;
    }
    Ok(())
}

fn put_row(
    alloc: Global,
    to: &[VColumn],
    columns: &[Ranked],
    way: &Way,
    row: &VRow,
    out: &mut Vec<VRow>,
) -> Result<(), Memory>
    ensures { OnOk result (out.new.items ≡ out.old.items ++ option_to_list (row_by_slots to.now columns.now way.now row.now)) }
{
    let here = row.cond.copy(alloc)?;
    let there = way.cond.copy(alloc)?;
    let both = and(alloc, here, there)?;
    if is_false(&both) {
        return Ok(());
    }
    let ranks = way.ranks.as_slice();
    let cells = taken_cells(alloc, to, ranks, columns, row.cells.as_slice())?;
    put_under(cells, both, out)?;
    Ok(())
}

fn taken_cells(
    alloc: Global,
    to: &[VColumn],
    ranks: &[(ColName, usize)],
    columns: &[Ranked],
    cells: &[Option<Value>],
) -> Result<List<Option<Value>>, Memory>
    ensures { IfOk result (λ it. it ≡ laid_cells to.now (taken_slots ranks.now columns.now cells.now)) }
{
    let mut out = Vec::with_capacity(alloc, to.len())?;
    for column in to {
        let cell = taken_cell(alloc, ranks, columns, cells, column)?;
        out.push(cell)?;
    }
    Ok(List::from_vec(out))
}

/// A copy of the cell in the taken column of this name and kind.
fn taken_cell(
    alloc: Global,
    ranks: &[(ColName, usize)],
    columns: &[Ranked],
    cells: &[Option<Value>],
    key: &VColumn,
) -> Result<Option<Value>, Memory>
    ensures { IfOk result (λ it. it ≡ cell_under (taken_slots ranks.now columns.now cells.now) (heading key.now)) }
{
    let mut columns = columns;
    let mut cells = cells;
    while let Some((x, more)) = columns.split_first() {
        let Some((cell, rest)) = cells.split_first() else {
            return Ok(None);
        };
        if is_wanted(ranks, x, key) {
            return cell.copy(alloc);
        }
        columns = more;
        cells = rest;
    }
    Ok(None)
}

fn is_wanted(ranks: &[(ColName, usize)], x: &Ranked, key: &VColumn) -> bool
    ensures { result ≡ (is_taken ranks.now x.now && same_column (heading key.now) (heading x.now.column)) }
{
    is_taken(ranks, x) && is_same_column(key, &x.column)
}
