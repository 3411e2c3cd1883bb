ghost use Rattle.std.specs.Prelude.{◌≡◌, []};
ghost use Rattle.session_transactions.specs.Goings.{FitsStore, Goes};
ghost use Rattle.session_transactions.specs.Transactions.{broken, transaction_of};
ghost use Rattle.session_transactions.specs.declared.transaction.Transaction.TheVariants as held;

use crate::transaction::Transaction;
use commit_log::Keeper;
use snapshot_store::Store;

#[tactic(auto, using(crate::proofs::GoingLaws::dropped_implicit, crate::proofs::GoingLaws::dropped_block, crate::proofs::GoingLaws::failed_block, crate::proofs::GoingLaws::goes_itself, crate::proofs::GoingLaws::failed_goes_idle))]
impl Transaction {
    /// Drops it with its own writes, and its snapshot is released. It takes no memory.
    pub fn roll_back<K: Keeper>(&mut self, store: &mut Store<K>)
        requires fits { FitsStore self.old store.old }
        ensures idle { self.new ≡ held.Idle }
        ensures goes { Goes self.old store.old [] self.new store.new }
    {
        match self.take() {
            Transaction::Implicit(snap, _writes) => store.release(snap),
            Transaction::Block(snap, _writes) => store.release(snap),
            Transaction::Idle => {}
            Transaction::Failed => {}
        }
    }

    /// An error came: its own writes are dropped and its snapshot is released, and one that BEGIN began has failed. It takes
    /// no memory.
    pub fn fail<K: Keeper>(&mut self, store: &mut Store<K>)
        requires fits { FitsStore self.old store.old }
        ensures broken { transaction_of self.new ≡ broken (transaction_of self.old) }
        ensures goes { Goes self.old store.old [] self.new store.new }
    {
        match self.take() {
            Transaction::Implicit(snap, _writes) => store.release(snap),
            Transaction::Block(snap, _writes) => {
                store.release(snap);
                *self = Transaction::Failed;
            }
            Transaction::Idle => {}
            Transaction::Failed => *self = Transaction::Failed,
        }
    }
}
