ghost use Rattle.std.specs.Prelude.{◌≡◌, ◌++◌, map, IfOk, OnOk};
ghost use Rattle.std.specs.List.{flat_map};
ghost use Rattle.std.specs.Option.{option_to_list};
ghost use Rattle.relational_algebra.specs.Items.{given};
ghost use Rattle.plan_merges.specs.Merges.{cells_of_item, column_of_item, columns_of_item, cond_of_item, items_table, kept_table, merged_table, row_of_items};

use crate::merge::merged;
use crate::way::is_same_name;
use feature_expr::{Expr, and};
use std::alloc::Global;
use values::{ColName, List, Memory, TryCopy, Value};
use vra_syntax::{Item, Items};
use vtable::{VColumn, VRow, VTable};

/// The columns and cells that the items keep. All columns are the table itself, which is copied nowhere.
pub fn kept(alloc: Global, items: &Items, table: VTable) -> Result<VTable, Memory>
    ensures made { IfOk result (λ it. it ≡ kept_table items.now table) }
{
    match items {
        Items::All => Ok(table),
        Items::Listed(items) => {
            let table = kept_listed(alloc, items.as_slice(), &table)?;
            Ok(table)
        }
    }
}

fn kept_listed(alloc: Global, items: &[Item], table: &VTable) -> Result<VTable, Memory>
    ensures { IfOk result (λ it. it ≡ merged_table (items_table items.now table.now)) }
{
    let wide = items_table(alloc, items, table)?;
    let table = merged(alloc, &wide)?;
    Ok(table)
}

/// The columns of each item, behind one another.
fn items_table(alloc: Global, items: &[Item], table: &VTable) -> Result<VTable, Memory>
    ensures { IfOk result (λ it. it ≡ items_table items.now table.now) }
{
    let columns = columns_of_items(alloc, items, table.columns.as_slice())?;
    let rows = rows_of_items(
        alloc,
        items,
        table.columns.as_slice(),
        table.rows.as_slice(),
    )?;
    Ok(VTable { columns, rows })
}

fn columns_of_items(
    alloc: Global,
    items: &[Item],
    columns: &[VColumn],
) -> Result<List<VColumn>, Memory>
    ensures { IfOk result (λ it. it ≡ flat_map (columns_of_item columns.now) items.now) }
{
    let mut out = Vec::new(alloc);
    for item in items {
        put_columns(alloc, item, columns, &mut out)?;
    }
    Ok(List::from_vec(out))
}

fn put_columns(
    alloc: Global,
    item: &Item,
    columns: &[VColumn],
    out: &mut Vec<VColumn>,
) -> Result<(), Memory>
    ensures { OnOk result (out.new.items ≡ out.old.items ++ columns_of_item columns.now item.now) }
{
    for column in columns {
        put_column(alloc, item, column, out)?;
    }
    Ok(())
}

fn put_column(
    alloc: Global,
    item: &Item,
    column: &VColumn,
    out: &mut Vec<VColumn>,
) -> Result<(), Memory>
    ensures { OnOk result (out.new.items ≡ out.old.items ++ option_to_list (column_of_item item.now column.now)) }
{
    if is_same_name(&column.name, &item.column) {
        let name = given_name(alloc, item)?;
        let kind = column.kind;
        let cond = cond_of_item(alloc, &item.cond, &column.cond)?;
        out.push(VColumn { name, kind, cond })?;
    }
    Ok(())
}

/// The name that the item gives.
fn given_name(alloc: Global, item: &Item) -> Result<ColName, Memory>
    ensures { IfOk result (λ it. it ≡ given item.now) }
{
    match &item.rename {
        Some(name) => name.copy(alloc),
        None => item.column.copy(alloc),
    }
}

fn cond_of_item(alloc: Global, kept: &Option<Expr>, cond: &Expr) -> Result<Expr, Memory>
    ensures { IfOk result (λ it. it ≡ cond_of_item kept.now cond.now) }
{
    let cond = cond.copy(alloc)?;
    match kept {
        None => Ok(cond),
        Some(kept) => {
            let kept = kept.copy(alloc)?;
            and(alloc, kept, cond)
        }
    }
}

fn rows_of_items(
    alloc: Global,
    items: &[Item],
    columns: &[VColumn],
    rows: &[VRow],
) -> Result<List<VRow>, Memory>
    ensures { IfOk result (λ it. it ≡ map (row_of_items columns.now items.now) rows.now) }
{
    let mut out = Vec::with_capacity(alloc, rows.len())?;
    for row in rows {
        let row = row_of_items(alloc, items, columns, row)?;
        out.push(row)?;
    }
    Ok(List::from_vec(out))
}

fn row_of_items(
    alloc: Global,
    items: &[Item],
    columns: &[VColumn],
    row: &VRow,
) -> Result<VRow, Memory>
    ensures { IfOk result (λ it. it ≡ row_of_items columns.now items.now row.now) }
{
    let cond = row.cond.copy(alloc)?;
    let cells = cells_of_items(alloc, items, columns, row.cells.as_slice())?;
    Ok(VRow { cells, cond })
}

fn cells_of_items(
    alloc: Global,
    items: &[Item],
    columns: &[VColumn],
    cells: &[Option<Value>],
) -> Result<List<Option<Value>>, Memory>
    ensures { IfOk result (λ it. it ≡ flat_map (cells_of_item columns.now cells.now) items.now) }
{
    let mut out = Vec::with_capacity(alloc, items.len())?;
    for item in items {
        put_cells(alloc, item, columns, cells, &mut out)?;
    }
    Ok(List::from_vec(out))
}

fn put_cells(
    alloc: Global,
    item: &Item,
    columns: &[VColumn],
    cells: &[Option<Value>],
    out: &mut Vec<Option<Value>>,
) -> Result<(), Memory>
    ensures { OnOk result (out.new.items ≡ out.old.items ++ cells_of_item columns.now cells.now item.now) }
{
    let mut columns = columns;
    let mut cells = cells;
    while let Some((column, more)) = columns.split_first() {
        let Some((cell, rest)) = cells.split_first() else {
            return Ok(());
        };
        if is_same_name(&column.name, &item.column) {
            let cell = cell.copy(alloc)?;
            out.push(cell)?;
        }
        columns = more;
        cells = rest;
    }
    Ok(())
}
