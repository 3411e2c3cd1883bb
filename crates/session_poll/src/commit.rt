//! The commit step.

ghost use Rattle.session_poll.specs.Commits.{Commits, Ends};
ghost use Rattle.session_poll.specs.Parts.{Done};
ghost use Rattle.session_poll.specs.Rooms.{HasStatementRoom, HasTagRoom};
ghost use Rattle.session_transactions.specs.Goings.{FitsStore};

use crate::session::Session;
use commit_log::Keeper;
use session_replies::Refusal;
use session_transactions::{Ending, Transaction};
use snapshot_store::Store;

impl Session {
    /// Commits the own writes, where there are any. Whatever comes of it, no transaction is open. The place of a commit is
    /// told without memory.
    #[tactic(auto, using(crate::proofs::CommitLaws::nothing, crate::proofs::CommitLaws::placed, crate::proofs::CommitLaws::conflict, crate::proofs::CommitLaws::behind, crate::proofs::CommitLaws::keeper_failed, crate::proofs::CommitLaws::log_full, crate::proofs::CommitLaws::no_memory))]
    pub(crate) fn commit<K: Keeper>(&mut self, store: &mut Store<K>) -> Option<Refusal>
        requires fits { FitsStore self.old.transaction store.old }
        requires room { HasStatementRoom self.old }
        ensures done { Done Commits self.old store.old result self.new store.new }
        ensures room { HasTagRoom self.new }
    {
        match self.transaction.commit(store) {
            Ending::Nothing => None,
            Ending::At(place) => {
                self.output.tell_commit(place);
                None
            }
            Ending::Conflict(table, place) => Some(Refusal::Conflict(table, place)),
            Ending::Behind(place) => Some(Refusal::CameFirst(place)),
            Ending::KeeperFault => Some(Refusal::KeeperFault),
            Ending::LogFull(number) => Some(Refusal::LogFull(number)),
            Ending::Memory => Some(Refusal::OutOfMemory),
        }
    }

    /// The same at the end of a Query, for a transaction that no BEGIN began.
    #[tactic(auto, using(crate::proofs::CommitLaws::ended, crate::proofs::CommitLaws::idle_stays, crate::proofs::CommitLaws::block_stays, crate::proofs::CommitLaws::failed_stays))]
    pub(crate) fn end_implicit<K: Keeper>(&mut self, store: &mut Store<K>) -> Option<Refusal>
        requires fits { FitsStore self.old.transaction store.old }
        requires room { HasStatementRoom self.old }
        ensures done { Done Ends self.old store.old result self.new store.new }
        ensures room { HasTagRoom self.new }
    {
        match &self.transaction {
            Transaction::Implicit(_, _) => self.commit(store),
            Transaction::Idle => None,
            Transaction::Block(_, _) => None,
            Transaction::Failed => None,
        }
    }
}
