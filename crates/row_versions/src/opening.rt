ghost use Rattle.std.specs.Prelude.{◌≡◌, ◌+◌, length, IfOk};
ghost use Rattle.row_versions.specs.Openings.{first_marks, marks_from};
ghost use Rattle.row_versions.specs.Stored.{row_count};

use crate::mark::Mark;
use plan_tables::TableRows;
use std::alloc::Global;
use values::{List, Memory};
use vtable::VRow;

/// The marks of the rows of tables before any commit, and the number of the next version.
pub fn first_marks(alloc: Global, tables: &[TableRows]) -> Result<(List<List<Mark>>, u64), Memory>
    ensures marks { IfOk result (λ it. it.0 ≡ first_marks 0 tables.now) }
    ensures next { IfOk result (λ it. it.1 ≡ row_count tables.now) }
{
    let mut all = Vec::with_capacity(alloc, tables.len())?;
    let mut number = 0;
    let mut tables = tables;
    while let Some((table, more)) = tables.split_first() {
        let (marks, next) = marks_from(alloc, number, table.rows.rows.as_slice())?;
        all.push(marks)?;
        number = next;
        tables = more;
    }
    Ok((List::from_vec(all), number))
}

/// Marks of a table's rows from this number on, and the number behind them. There is none behind the last number.
fn marks_from(alloc: Global, number: u64, rows: &[VRow]) -> Result<(List<Mark>, u64), Memory>
    ensures marks { IfOk result (λ it. it.0 ≡ marks_from number rows.now) }
    ensures next { IfOk result (λ it. it.1 ≡ number + length rows.now) }
{
    let mut marks = Vec::with_capacity(alloc, rows.len())?;
    let mut number = number;
    let mut rows = rows;
    while let Some((_row, more)) = rows.split_first() {
        let Some(next) = number.checked_add(1) else {
            return Err(Memory);
        };
        marks.push(Mark { number, begins: 0 })?;
        number = next;
        rows = more;
    }
    Ok((List::from_vec(marks), number))
}
