//! The rows of a catalogue's tables before any commit.

ghost use Rattle.std.specs.Prelude.{◌≡◌, ◌<◌, ◌^◌, ◌++◌, length, drop, IfOk};
ghost use Rattle.query_answers.specs.Openings.{opening_from, opening_tables};

use crate::scan::scan;
use plan_tables::{Rows, TableRows};
use std::alloc::Global;
use values::{List, Memory};
use vschema::{Catalog, OpeningRow};

/// Each table of the catalogue with its columns and its opening rows. It takes time in the number of tables times the
/// number of rows.
pub fn opening_rows(alloc: Global, catalog: &Catalog, rows: &[OpeningRow]) -> Result<Rows, Memory>
    requires countable { length catalog.now.tables < 2 ^ 32 }
    ensures { IfOk result (λ it. it.tables ≡ opening_tables catalog.now.tables rows.now) }
{
    let mut number = 0;
    let mut tables = Vec::with_capacity(alloc, catalog.tables.len())?;
    'tables: for table in catalog.tables.as_slice() {
        let rows = scan(alloc, number, table, rows)?;
        tables.push(TableRows {
            table: number,
            rows,
        })?;
        number += 1;
    }
    let tables = List::from_vec(tables);
    Ok(Rows { tables })
}
