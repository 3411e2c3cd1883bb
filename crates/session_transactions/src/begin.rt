ghost use Rattle.session_transactions.specs.Outcomes.{BeginsAs};

use crate::transaction::Transaction;
use commit_log::Keeper;
use snapshot_store::{BeginRefused, Store};
use std::alloc::Global;
use values::List;

#[tactic(auto, using(crate::proofs::EndLaws::refused_goes))]
impl Transaction {
    /// Where none is open and none has failed, one begins over a snapshot of all commits that were added by now. The number
    /// of its snapshot.
    pub fn begin<K: Keeper>(
        &mut self,
        alloc: Global,
        store: &mut Store<K>,
    ) -> Result<Option<u64>, BeginRefused>
        ensures { BeginsAs self.old store.old result self.new store.new }
    {
        match self {
            Transaction::Idle => {}
            _ => return Ok(None),
        }
        let snap = store.begin()?;
        let number = snap.number();
        *self = Transaction::Implicit(snap, List::new(alloc));
        Ok(Some(number))
    }
}
