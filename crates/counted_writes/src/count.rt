ghost use Rattle.std.specs.Prelude.{◌≡◌, ◌<◌, length, true, IfOk};
ghost use Rattle.std.specs.List.{list_any};
ghost use Rattle.counted_writes.specs.Counted.{IsCountOf, is_insert};
ghost use Rattle.live_snapshots.specs.Snapshots.{IsLive};
ghost use Rattle.query_meaning.specs.WriteTyping.{table_name_of};
ghost use Rattle.snapshot_store.specs.Parts.{IsCounted};
ghost use Rattle.stored_versions.specs.Catalogues.{written_number};
ghost use Rattle.stored_versions.specs.Conflicts.{names_table};
ghost use Rattle.stored_versions.specs.Logs.{all_taken};

use asked_conditions::Questions;
use commit_log::Keeper;
use live_snapshots::Snap;
use row_writes::stored_columns;
use snapshot_store::Store;
use std::alloc::Global;
use values::{List, Memory, Name};
use vra_syntax::Write;
use vtable::VRow;

/// The number in the tag of a write that comes behind these own writes. An INSERT needs no row for it; a DELETE or UPDATE of a
/// table that no own write names goes by the newest rows, which are lent, where the snapshot sees them.
pub fn count_write<K: Keeper>(
    alloc: Global,
    store: &Store<K>,
    snap: &Snap,
    writes: &List<Write>,
    write: &Write,
) -> Result<u64, Memory>
    requires live { IsLive store.now.live snap.now }
    requires taken { all_taken store.now.catalog writes.now ≡ true }
    ensures { IfOk result (IsCounted store.now snap.now writes.now write.now) }
{
    store.known();
    let Some(number) = written_number(store, write) else {
        return Ok(0);
    };
    if is_insert(write) {
        return count_over(alloc, store, number, write, &[]);
    }
    if !names_one(table_name(write), writes.as_slice()) {
        if let Some(rows) = store.newest(snap) {
            let lent = &rows.tables.as_slice()[number as usize];
            return count_over(alloc, store, number, write, lent.rows.rows.as_slice());
        }
    }
    let table = store.rows_at(snap, number, writes, writes.len())?;
    count_over(alloc, store, number, write, table.rows.as_slice())
}

/// The number in the tag of a write of the table with this number, over its rows.
fn count_over<K: Keeper>(
    alloc: Global,
    store: &Store<K>,
    number: u32,
    write: &Write,
    rows: &[VRow],
) -> Result<u64, Memory>
    requires number { number < length store.now.catalog.tables }
    ensures { IfOk result (IsCountOf store.now.catalog number write.now rows.now) }
{
    store.known();
    let table = &store.catalog().tables.as_slice()[number as usize];
    let columns = stored_columns(alloc, table)?;
    let mut questions = Questions::new(alloc, store.model());
    write_counts::count_write(alloc, &mut questions, table, &columns, write, rows)
}

/// The number of the table that the write names.
fn written_number<K: Keeper>(store: &Store<K>, write: &Write) -> Option<u32>
    ensures { result ≡ written_number store.now.catalog write.now }
{
    store.known();
    store.catalog().find_table(table_name(write))
}

/// Whether one of the writes names the table.
fn names_one(table: &Name, writes: &[Write]) -> bool
    ensures { result ≡ list_any (names_table table.now) writes.now }
{
    writes.iter().any(|write| names_table(table, write))
}

fn names_table(table: &Name, write: &Write) -> bool
    ensures { result ≡ names_table table.now write.now }
{
    *table_name(write) == *table
}

fn is_insert(write: &Write) -> bool
    ensures { result ≡ is_insert write.now }
{
    matches!(write, Write::Insert(_, _, _, _))
}

fn table_name(write: &Write) -> &Name
    ensures { result.now ≡ table_name_of write.now }
{
    match write {
        Write::Insert(table, _names, _rows, _expr) => table,
        Write::Delete(table, _cond, _expr) => table,
        Write::Update(table, _items, _cond, _expr) => table,
    }
}
