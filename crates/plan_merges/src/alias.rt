ghost use Rattle.std.specs.Prelude.{◌≡◌, map, IfOk};
ghost use Rattle.relational_algebra.specs.Columns.{prefixed};
ghost use Rattle.plan_merges.specs.Merges.{aliased_column, aliased_table};

use crate::merge::merged;
use std::alloc::Global;
use values::{ColName, List, Memory, Name, TryCopy};
use vtable::{VColumn, VTable};

/// The table with each column's prefix replaced by the name.
pub fn aliased(alloc: Global, alias: &Name, table: VTable) -> Result<VTable, Memory>
    ensures made { IfOk result (λ it. it ≡ aliased_table alias.now table) }
{
    let columns = aliased_columns(alloc, alias, table.columns.as_slice())?;
    let VTable {
        columns: _old,
        rows,
    } = table;
    let wide = VTable { columns, rows };
    let table = merged(alloc, &wide)?;
    Ok(table)
}

fn aliased_columns(
    alloc: Global,
    alias: &Name,
    columns: &[VColumn],
) -> Result<List<VColumn>, Memory>
    ensures { IfOk result (λ it. it ≡ map (aliased_column alias.now) columns.now) }
{
    let mut out = Vec::with_capacity(alloc, columns.len())?;
    for column in columns {
        let column = aliased_column(alloc, alias, column)?;
        out.push(column)?;
    }
    Ok(List::from_vec(out))
}

fn aliased_column(alloc: Global, alias: &Name, column: &VColumn) -> Result<VColumn, Memory>
    ensures { IfOk result (λ it. it ≡ aliased_column alias.now column.now) }
{
    let prefix = alias.copy(alloc)?;
    let base = column.name.base.copy(alloc)?;
    let name = ColName {
        prefix: Some(prefix),
        base,
    };
    let kind = column.kind;
    let cond = column.cond.copy(alloc)?;
    Ok(VColumn { name, kind, cond })
}
