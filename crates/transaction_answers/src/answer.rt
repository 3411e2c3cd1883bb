//! The answer to a typed query over a snapshot and own writes.

ghost use Rattle.std.specs.Prelude.{◌≡◌, [], true, IfOk};
ghost use Rattle.live_snapshots.specs.Snapshots.{IsLive};
ghost use Rattle.stored_versions.specs.Logs.{all_taken};
ghost use Rattle.transaction_answers.specs.Answers.{IsAnswerOf, IsTypedQuery};
ghost use Rattle.transaction_answers.specs.TablesAfter.{AreTablesAfter};

use crate::counted::answer_of;
use crate::tables::tables_after;
use commit_log::Keeper;
use live_snapshots::Snap;
use plan_tables::Rows;
use query_meaning::bound_laws;
use query_names::Typed;
use snapshot_store::Store;
use std::alloc::Global;
use store_states::store_laws;
use values::{List, Memory};
use vra_syntax::Write;
use vtable::OutTable;
use write_meaning::write_laws;

/// The answer to a typed query over what a snapshot sees, after own writes. Without any, a snapshot of all that is applied
/// has it from the store's own rows; else each table of the catalogue is copied.
pub fn answer_over<K: Keeper>(
    alloc: Global,
    store: &Store<K>,
    snap: &Snap,
    writes: &List<Write>,
    typed: &Typed,
) -> Result<OutTable, Memory>
    requires live { IsLive store.now.live snap.now }
    requires taken { all_taken store.now.catalog writes.now ≡ true }
    requires typed { IsTypedQuery store.now.catalog typed.now }
    ensures { IfOk result (λ out. IsAnswerOf store.now snap.now writes.now typed.now out) }
{
    if writes.is_empty() {
        return answer_seen(alloc, store, snap, writes, typed);
    }
    answer_after(alloc, store, snap, writes, typed)
}

/// The answer without own writes.
#[tactic(auto, using(crate::proofs::SeenLaws::seen_after))]
fn answer_seen<K: Keeper>(
    alloc: Global,
    store: &Store<K>,
    snap: &Snap,
    writes: &List<Write>,
    typed: &Typed,
) -> Result<OutTable, Memory>
    requires live { IsLive store.now.live snap.now }
    requires none { writes.now ≡ [] }
    requires typed { IsTypedQuery store.now.catalog typed.now }
    ensures { IfOk result (λ out. IsAnswerOf store.now snap.now writes.now typed.now out) }
{
    store.known();
    store_laws();
    match store.newest(snap) {
        Some(rows) => answer_from(alloc, store, snap, writes, typed, rows),
        None => answer_after(alloc, store, snap, writes, typed),
    }
}

/// The answer from a copy of the tables.
fn answer_after<K: Keeper>(
    alloc: Global,
    store: &Store<K>,
    snap: &Snap,
    writes: &List<Write>,
    typed: &Typed,
) -> Result<OutTable, Memory>
    requires live { IsLive store.now.live snap.now }
    requires taken { all_taken store.now.catalog writes.now ≡ true }
    requires typed { IsTypedQuery store.now.catalog typed.now }
    ensures { IfOk result (λ out. IsAnswerOf store.now snap.now writes.now typed.now out) }
{
    let rows = tables_after(alloc, store, snap, writes)?;
    answer_from(alloc, store, snap, writes, typed, &rows)
}

/// The answer from the tables at hand.
#[tactic(auto, using(crate::proofs::OverLaws::over_answers, crate::proofs::OverLaws::can_answer))]
fn answer_from<K: Keeper>(
    alloc: Global,
    store: &Store<K>,
    snap: &Snap,
    writes: &List<Write>,
    typed: &Typed,
    rows: &Rows,
) -> Result<OutTable, Memory>
    requires after { AreTablesAfter store.now snap.now writes.now rows.now.tables }
    requires typed { IsTypedQuery store.now.catalog typed.now }
    ensures { IfOk result (λ out. IsAnswerOf store.now snap.now writes.now typed.now out) }
{
    store.known();
    bound_laws();
    write_laws();
    answer_of(alloc, store.model(), typed, rows)
}
