ghost use Rattle.std.specs.Prelude.{◌≡◌, IfOk};
ghost use Rattle.std.specs.Option.{option_copied};
ghost use Rattle.query_typing.specs.Bounded.{IsBounded};
ghost use Rattle.query_typing.specs.Leaves.{leaf_stored, stored_of};
ghost use Rattle.query_typing.specs.Steps.{leaf_query};

use conditional_columns::table_columns;
use feature_expr::List;
use query_meaning::{TypedColumn, column_laws};
use query_names::TableNames;
use std::alloc::Global;
use values::{Memory, Name};
use vschema::Table;

/// The columns of a query's innermost left side. A table that isn't in the catalogue has none.
pub fn leaf_columns(
    alloc: Global,
    tables: &TableNames<'_>,
    leaf: Option<&Name>,
) -> Result<List<TypedColumn>, Memory>
    ensures exact { IfOk result (λ it. it ≡ leaf_stored tables.now.tables.now (option_copied leaf.entry)) }
    ensures bounded { IfOk result (IsBounded tables.now.tables.now (leaf_query (option_copied leaf.entry))) }
{
    column_laws();
    let columns = first_columns(alloc, tables, leaf)?;
    Ok(columns)
}

fn first_columns(
    alloc: Global,
    tables: &TableNames<'_>,
    leaf: Option<&Name>,
) -> Result<List<TypedColumn>, Memory>
    ensures { IfOk result (λ it. it ≡ leaf_stored tables.now.tables.now (option_copied leaf.entry)) }
{
    match leaf {
        Some(name) => {
            let columns = named_columns(alloc, tables.named(name))?;
            Ok(columns)
        }
        None => Ok(List::new(alloc)),
    }
}

fn named_columns(alloc: Global, table: Option<&Table>) -> Result<List<TypedColumn>, Memory>
    ensures { IfOk result (λ it. it ≡ stored_of (option_copied table.entry)) }
{
    match table {
        Some(table) => {
            let columns = table_columns(alloc, table)?;
            Ok(List::from_vec(columns))
        }
        None => Ok(List::new(alloc)),
    }
}
