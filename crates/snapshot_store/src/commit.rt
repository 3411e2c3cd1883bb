ghost use Rattle.std.specs.Prelude.{◌≡◌, [], ◌≢◌, true, IfOk, length};
ghost use Rattle.live_snapshots.specs.Snapshots.{IsLive};
ghost use Rattle.snapshot_store.specs.Commits.{Adds, Answers, IsAppended, IsBefore, next_after, told};
ghost use Rattle.store_states.specs.Promises.{Leaves};
ghost use Rattle.store_states.specs.Stored.{log_of};
ghost use Rattle.stored_versions.specs.Conflicts.{conflict_of};
ghost use Rattle.stored_versions.specs.Logs.{all_taken};

use crate::answers::CommitAnswer;
use crate::store::Store;
use applied_commits::append_commit;
use commit_conflicts::first_conflict;
use commit_log::{Append, Commit, Keeper};
use live_snapshots::Snap;
use values::{List, Memory, Name, TryCopy};
use vra_syntax::Write;

impl<K: Keeper> Store<K> {
    /// Adds the writes of a transaction over a snapshot to the log, if no commit past the snapshot wrote a table that they
    /// write.
    pub fn commit(&mut self, snap: Snap, writes: List<Write>) -> CommitAnswer
        requires live { IsLive self.old.live snap }
        requires some { writes ≢ [] }
        requires taken { all_taken self.old.catalog writes ≡ true }
        ensures leaves { Leaves self.old self.new }
        ensures answered { Answers self.old snap writes result self.new }
    {
        match self.conflict(&snap, &writes) {
            Ok(Some((table, place))) => {
                self.release(snap);
                CommitAnswer::Conflict(table, place)
            }
            Ok(None) => self.add(snap, writes),
            Err(Memory) => CommitAnswer::Memory(snap, writes),
        }
    }

    /// The first conflict, with a copy of its table's name.
    fn conflict(&self, snap: &Snap, writes: &List<Write>) -> Result<Option<(Name, u64)>, Memory>
        ensures { IfOk result (λ it. told it ≡ conflict_of (log_of self.now) snap.now.1 writes.now) }
    {
        match first_conflict(&self.keeper, snap.number(), writes.as_slice()) {
            Some(found) => {
                let table = found.table.copy(self.alloc)?;
                Ok(Some((table, found.place)))
            }
            None => Ok(None),
        }
    }

    /// Adds writes that are in no conflict.
    fn add(&mut self, snap: Snap, writes: List<Write>) -> CommitAnswer
        requires live { IsLive self.old.live snap }
        requires taken { all_taken self.old.catalog writes ≡ true }
        ensures leaves { Leaves self.old self.new }
        ensures added { Adds self.old snap writes result self.new }
    {
        match self.apply_seen() {
            Ok(()) => {}
            Err(Memory) => return CommitAnswer::Memory(snap, writes),
        }
        let commit = Commit {
            base: snap.number(),
            loop_no: self.loop_no,
            sequence: self.next,
            writes,
        };
        match self.append(commit) {
            Append::At(place) => {
                self.release(snap);
                CommitAnswer::At(place)
            }
            Append::Behind(place, Commit { writes, .. }) => {
                CommitAnswer::Behind(place, snap, writes)
            }
            Append::Failed(Commit { writes, .. }) => CommitAnswer::KeeperFault(snap, writes),
            Append::Full(number, Commit { writes, .. }) => {
                CommitAnswer::LogFull(number, snap, writes)
            }
            Append::Memory(Commit { writes, .. }) => CommitAnswer::Memory(snap, writes),
        }
    }

    /// Adds a commit to the log, of which all is applied, and applies it.
    fn append(&mut self, commit: Commit) -> Append
        requires applied { self.old.rows.applied ≡ length (log_of self.old) }
        requires taken { all_taken self.old.catalog commit.writes ≡ true }
        ensures { IsAppended self.old commit result self.new }
    {
        self.versions.known();
        let answer = append_commit(
            self.alloc,
            &self.catalog,
            &self.model,
            &mut self.versions,
            &mut self.keeper,
            commit,
        );
        self.next = next_after(self.next, &answer);
        self.versions.clean(self.live.oldest());
        answer
    }
}

/// The number of the next commit, after an answer.
fn next_after(next: u64, answer: &Append) -> u64
    requires { IsBefore next answer.now }
    ensures { result ≡ next_after next answer.now }
{
    match answer {
        Append::At(place) => {
            let _last = *place;
            next + 1
        }
        _ => next,
    }
}
