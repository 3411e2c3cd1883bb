//! The tables of a store, after what a snapshot sees and own writes.

ghost use Rattle.std.specs.Prelude.{◌≡◌, true, IfOk};
ghost use Rattle.live_snapshots.specs.Snapshots.{IsLive};
ghost use Rattle.stored_versions.specs.Logs.{all_taken};
ghost use Rattle.transaction_answers.specs.TablesAfter.{AreTablesAfter};

use commit_log::Keeper;
use live_snapshots::Snap;
use plan_tables::{Rows, TableRows};
use snapshot_store::Store;
use std::alloc::Global;
use values::{List, Memory};
use vra_syntax::Write;

/// Each table of the store's catalogue after the snapshot's commits and these writes, copied.
pub fn tables_after<K: Keeper>(
    alloc: Global,
    store: &Store<K>,
    snap: &Snap,
    writes: &List<Write>,
) -> Result<Rows, Memory>
    requires live { IsLive store.now.live snap.now }
    requires taken { all_taken store.now.catalog writes.now ≡ true }
    ensures { IfOk result (λ it. AreTablesAfter store.now snap.now writes.now it.tables) }
{
    store.known();
    let catalog = store.catalog();
    let mut number = 0;
    let mut tables = Vec::with_capacity(alloc, catalog.tables.len())?;
    'tables: for table in catalog.tables.as_slice() {
        let rows = store.rows_at(snap, number, writes, writes.len())?;
        tables.push(TableRows {
            table: number,
            rows,
        })?;
        number += 1;
    }
    let tables = List::from_vec(tables);
    Ok(Rows { tables })
}
