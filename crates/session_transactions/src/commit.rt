ghost use Rattle.std.specs.Prelude.{◌≡◌, true};
ghost use Rattle.live_snapshots.specs.Snapshots.{IsLive};
ghost use Rattle.session_transactions.specs.Goings.{FitsStore};
ghost use Rattle.session_transactions.specs.Outcomes.{EndsAs, Spends};
ghost use Rattle.stored_versions.specs.Logs.{all_taken};

use crate::ending::Ending;
use crate::transaction::Transaction;
use commit_log::Keeper;
use live_snapshots::Snap;
use snapshot_store::{CommitAnswer, Store};
use values::List;
use vra_syntax::Write;

#[tactic(auto, using(crate::proofs::EndLaws::ends_implicit, crate::proofs::EndLaws::ends_block, crate::proofs::GoingLaws::goes_itself, crate::proofs::GoingLaws::failed_goes_idle))]
impl Transaction {
    /// Ends it, and commits its own writes where there are any. Whatever comes of it, none is open, and its snapshot is
    /// released.
    pub fn commit<K: Keeper>(&mut self, store: &mut Store<K>) -> Ending
        requires fits { FitsStore self.old store.old }
        ensures { EndsAs self.old store.old result self.new store.new }
    {
        match self.take() {
            Transaction::Implicit(snap, writes) => commit_writes(store, snap, writes),
            Transaction::Block(snap, writes) => commit_writes(store, snap, writes),
            Transaction::Idle => Ending::Nothing,
            Transaction::Failed => Ending::Nothing,
        }
    }
}

/// Commits the writes where there are any, and releases the snapshot.
#[tactic(auto, using(crate::proofs::EndLaws::spends_nothing))]
fn commit_writes<K: Keeper>(store: &mut Store<K>, snap: Snap, writes: List<Write>) -> Ending
    requires live { IsLive store.old.live snap }
    requires taken { all_taken store.old.catalog writes ≡ true }
    ensures { Spends store.old snap writes result store.new }
{
    if writes.is_empty() {
        store.release(snap);
        return Ending::Nothing;
    }
    match store.commit(snap, writes) {
        CommitAnswer::At(place) => Ending::At(place),
        CommitAnswer::Conflict(table, place) => Ending::Conflict(table, place),
        CommitAnswer::Behind(place, snap, _writes) => {
            store.release(snap);
            Ending::Behind(place)
        }
        CommitAnswer::KeeperFault(snap, _writes) => {
            store.release(snap);
            Ending::KeeperFault
        }
        CommitAnswer::LogFull(number, snap, _writes) => {
            store.release(snap);
            Ending::LogFull(number)
        }
        CommitAnswer::Memory(snap, _writes) => {
            store.release(snap);
            Ending::Memory
        }
    }
}
