ghost use Rattle.std.specs.Prelude.{◌≡◌, [], filter, map, not, IfOk};
ghost use Rattle.commit_changes.specs.Stored.{is_idle, no_change};

use plan_tables::TableRows;
use std::alloc::Global;
use table_changes::TableChange;
use values::{List, Memory};

/// For each table the change that changes nothing. Of each but its number it takes no memory.
pub fn no_changes(alloc: Global, newest: &[TableRows]) -> Result<Vec<TableChange>, Memory>
    ensures { IfOk result (λ it. it.items ≡ map no_change newest.now) }
{
    let mut changes = Vec::with_capacity(alloc, newest.len())?;
    for rows in newest {
        changes.push(no_change(alloc, rows.table))?;
    }
    Ok(changes)
}

fn no_change(alloc: Global, table: u32) -> TableChange
    ensures { result ≡ record { table = table; ends = []; begun = [] } }
{
    TableChange {
        table,
        ends: List::new(alloc),
        begun: List::new(alloc),
    }
}

/// The changes that change something.
pub fn without_idle(changes: Vec<TableChange>) -> Vec<TableChange>
    ensures { result.items ≡ filter (λ change. not (is_idle change)) changes.items }
{
    let mut changes = changes;
    changes.retain(|change| !is_idle(change));
    changes
}

fn is_idle(change: &TableChange) -> bool
    ensures { result ≡ is_idle change.now }
{
    change.ends.is_empty() && change.begun.is_empty()
}
