ghost use Rattle.std.specs.Prelude.{◌≡◌, IfOk};
ghost use Rattle.write_meaning.specs.StoredTables.{stored_column, stored_columns};

use feature_expr::and;
use std::alloc::Global;
use values::{ColName, List, Memory, TryCopy};
use vschema::{Column, Table};
use vtable::VColumn;

/// The columns of a stored table, each under the table's condition too.
pub fn stored_columns(alloc: Global, table: &Table) -> Result<List<VColumn>, Memory>
    ensures { IfOk result (λ it. it ≡ stored_columns table.now) }
{
    let mut columns = Vec::with_capacity(alloc, table.columns.len())?;
    for column in table.columns.as_slice() {
        columns.push(stored_column(alloc, table, column)?)?;
    }
    Ok(List::from_vec(columns))
}

fn stored_column(alloc: Global, table: &Table, column: &Column) -> Result<VColumn, Memory>
    ensures { IfOk result (λ it. it ≡ stored_column table.now column.now) }
{
    let base = column.name.copy(alloc)?;
    let table_cond = table.cond.copy(alloc)?;
    let column_cond = column.cond.copy(alloc)?;
    let cond = and(alloc, table_cond, column_cond)?;
    Ok(VColumn {
        name: ColName { prefix: None, base },
        kind: column.kind,
        cond,
    })
}
