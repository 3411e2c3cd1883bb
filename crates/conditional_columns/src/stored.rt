ghost use Rattle.std.specs.Prelude.{◌≡◌, ◌≤◌, true, ℕ, map, List as Items, IfOk};
ghost use Rattle.query_meaning.specs.Bounds.{table_column_weight};
ghost use Rattle.query_meaning.specs.Sources.{table_source};
ghost use Rattle.query_meaning.specs.Typing.{columns_at, columns_weight, headings, stored_column, table_mentions};
ghost use Rattle.conditional_columns.specs.ColumnLists.{columns_mention};

use crate::put::and_too;
use query_meaning::TypedColumn;
use std::alloc::Global;
use values::{ColName, Memory, TryCopy};
use vschema::{Column, Table};

/// The columns of a stored table, each under the table's condition and its own.
pub fn table_columns(alloc: Global, table: &Table) -> Result<Vec<TypedColumn>, Memory>
    ensures exact { IfOk result (λ it. it.items ≡ map (stored_column table.now) table.now.columns) }
    ensures there { IfOk result (λ it. (c : Items ℕ) → columns_at c it.items ≡ (table_source table.now).columns_at c) }
    ensures headings { IfOk result (λ it. headings it.items ≡ (table_source table.now).possible) }
    ensures weight { IfOk result (λ it. columns_weight it.items ≤ table_column_weight table.now) }
    ensures known { IfOk result (λ it. (i : ℕ) → columns_mention i it.items ≡ true → table_mentions i table.now ≡ true) }
{
    let columns = all_stored(alloc, table)?;
    Ok(columns)
}

fn all_stored(alloc: Global, table: &Table) -> Result<Vec<TypedColumn>, Memory>
    ensures { IfOk result (λ it. it.items ≡ map (stored_column table.now) table.now.columns) }
{
    let mut columns = Vec::new(alloc);
    for column in table.columns.as_slice() {
        let column = stored(alloc, table, column)?;
        columns.push(column)?;
    }
    Ok(columns)
}

fn stored(alloc: Global, table: &Table, column: &Column) -> Result<TypedColumn, Memory>
    ensures { IfOk result (λ it. it ≡ stored_column table.now column.now) }
{
    let base = column.name.copy(alloc)?;
    let cond = and_too(alloc, &table.cond, &column.cond)?;
    Ok(TypedColumn {
        name: ColName { prefix: None, base },
        kind: column.kind,
        cond,
    })
}
