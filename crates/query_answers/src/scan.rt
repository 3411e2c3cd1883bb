//! What a table says in every variant before any commit.

ghost use Rattle.std.specs.Prelude.{◌≡◌, ◌++◌, map, IfOk, OnOk};
ghost use Rattle.query_answers.specs.Held.{held_column};
ghost use Rattle.query_answers.specs.Scans.{row_of_table, scanned, scanned_rows};

use feature_expr::and;
use std::alloc::Global;
use values::{ColName, List, Memory, TryCopy};
use vschema::{Column, OpeningRow, Table};
use vtable::{VColumn, VRow, VTable};

/// A table with this number, in every variant at once: its columns, each under the table's condition too, and its
/// opening rows in their order.
pub fn scan(
    alloc: Global,
    number: u32,
    table: &Table,
    rows: &[OpeningRow],
) -> Result<VTable, Memory>
    ensures { IfOk result (λ it. it ≡ scanned number table.now rows.now) }
{
    let columns = scan_columns(alloc, table)?;
    let rows = scan_rows(alloc, number, rows)?;
    Ok(VTable { columns, rows })
}

fn scan_columns(alloc: Global, table: &Table) -> Result<List<VColumn>, Memory>
    ensures { IfOk result (λ it. it ≡ map (held_column table.now) table.now.columns) }
{
    let mut columns = Vec::with_capacity(alloc, table.columns.len())?;
    'columns: for column in table.columns.as_slice() {
        columns.push(scan_column(alloc, table, column)?)?;
    }
    Ok(List::from_vec(columns))
}

fn scan_column(alloc: Global, table: &Table, column: &Column) -> Result<VColumn, Memory>
    ensures { IfOk result (λ it. it ≡ held_column table.now column.now) }
{
    let base = column.name.copy(alloc)?;
    let table_cond = table.cond.copy(alloc)?;
    let column_cond = column.cond.copy(alloc)?;
    let cond = and(alloc, table_cond, column_cond)?;
    Ok(VColumn {
        name: ColName { prefix: None, base },
        kind: column.kind,
        cond,
    })
}

#[tactic(auto, using(crate::proofs::ScanLaws::scanned_more))]
fn scan_rows(alloc: Global, number: u32, rows: &[OpeningRow]) -> Result<List<VRow>, Memory>
    ensures { IfOk result (λ it. it ≡ scanned_rows number rows.now) }
{
    let mut scanned = Vec::new(alloc);
    'rows: for row in rows {
        scan_row(alloc, number, row, &mut scanned)?;
    }
    Ok(List::from_vec(scanned))
}

/// Adds a row if it is one of the table's.
fn scan_row(
    alloc: Global,
    number: u32,
    row: &OpeningRow,
    scanned: &mut Vec<VRow>,
) -> Result<(), Memory>
    ensures { OnOk result (scanned.new.items ≡ scanned.old.items ++ row_of_table number row.now) }
{
    if row.table == number {
        let cells = row.cells.copy(alloc)?;
        let cond = row.cond.copy(alloc)?;
        scanned.push(VRow { cells, cond })?;
    }
    Ok(())
}
