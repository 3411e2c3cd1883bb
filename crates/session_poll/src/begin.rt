//! The transaction rule.

ghost use Rattle.session_poll.specs.Begins.{Begins};
ghost use Rattle.session_poll.specs.Parts.{Done};
ghost use Rattle.session_poll.specs.Rooms.{HasStatementRoom, HasStepRoom};
ghost use Rattle.session_transactions.specs.Goings.{FitsStore};

use crate::session::Session;
use commit_log::Keeper;
use session_replies::Refusal;
use snapshot_store::{BeginRefused, Store};

impl Session {
    /// Where no transaction is open, one begins, and its snapshot is told. To tell it takes no memory.
    #[tactic(auto, using(crate::proofs::BeginLaws::begun, crate::proofs::BeginLaws::goes_on, crate::proofs::BeginLaws::keeper_failed, crate::proofs::BeginLaws::no_memory))]
    pub(crate) fn begin<K: Keeper>(&mut self, store: &mut Store<K>) -> Option<Refusal>
        requires fits { FitsStore self.old.transaction store.old }
        requires room { HasStepRoom self.old }
        ensures done { Done Begins self.old store.old result self.new store.new }
        ensures room { HasStatementRoom self.new }
    {
        match self.transaction.begin(self.alloc, store) {
            Ok(Some(number)) => {
                self.output.tell_snapshot(number);
                None
            }
            Ok(None) => None,
            Err(BeginRefused::KeeperFault) => Some(Refusal::KeeperFault),
            Err(BeginRefused::Memory) => Some(Refusal::OutOfMemory),
        }
    }
}
