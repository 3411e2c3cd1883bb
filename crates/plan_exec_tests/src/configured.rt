//! What a table for all variants is in one of them.

use feature_expr::{Config, eval};
use plain_evaluator::{Cell, Column, Relation};
use std::alloc::Global;
use values::{TryCopy, Value};
use vtable::{VColumn, VRow, VTable};

/// The columns and the rows that are there, the rows cut to the columns. A cell that is missing there is a fault.
pub fn configured(alloc: Global, table: &VTable, config: &Config) -> Option<Relation> {
    let columns = columns_in(alloc, table.columns.as_slice(), config)?;
    let rows = rows_in(alloc, table, config)?;
    Some(Relation::new(alloc, columns, rows))
}

fn columns_in(alloc: Global, columns: &[VColumn], config: &Config) -> Option<Vec<Column>> {
    let mut there = Vec::new(alloc);
    for column in columns {
        if eval(&column.cond, config) {
            there.push(plain_column(alloc, column)?).ok()?;
        }
    }
    Some(there)
}

fn plain_column(alloc: Global, column: &VColumn) -> Option<Column> {
    let name = column.name.copy(alloc).ok()?;
    let kind = column.kind;
    Some(Column { name, kind })
}

fn rows_in(alloc: Global, table: &VTable, config: &Config) -> Option<Vec<Vec<Cell>>> {
    let mut rows = Vec::new(alloc);
    for row in table.rows.as_slice() {
        if eval(&row.cond, config) {
            rows.push(cells_of(alloc, table.columns.as_slice(), row, config)?)
                .ok()?;
        }
    }
    Some(rows)
}

fn cells_of(alloc: Global, columns: &[VColumn], row: &VRow, config: &Config) -> Option<Vec<Cell>> {
    let mut cells = Vec::new(alloc);
    for (column, cell) in columns.iter().zip(row.cells.as_slice()) {
        if eval(&column.cond, config) {
            cells.push(plain_cell(alloc, column, cell)?).ok()?;
        }
    }
    Some(cells)
}

fn plain_cell(alloc: Global, column: &VColumn, cell: &Option<Value>) -> Option<Cell> {
    let value = cell.as_ref()?.copy(alloc).ok()?;
    let name = column.name.copy(alloc).ok()?;
    Some(Cell { name, value })
}
