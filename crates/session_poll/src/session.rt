ghost use Rattle.std.specs.Prelude.{◌≡◌, ◌+◌, ◌-◌, true, false, [], ◌++◌, length, take, drop, min, IfOk};
ghost use Rattle.session_poll.specs.declared.inbox.TheConstants.{INBOX_SIZE};

use crate::inbox::Inbox;
use crate::state::Phase;
use commit_log::Keeper;
use feature_expr::Memory;
use session_replies::Output;
use session_transactions::Transaction;
use snapshot_store::Store;
use std::alloc::Global;

/// A client's session.
#[derive(Drop)]
pub struct Session {
    pub(crate) alloc: Global,
    pub(crate) phase: Phase,
    pub(crate) transaction: Transaction,
    pub(crate) inbox: Inbox,
    pub(crate) is_over: bool,
    pub(crate) output: Output,
}

impl Session {
    ghost use Rattle.std.specs.Prelude.{ℕ, List};
    ghost use Rattle.session_poll.specs.Runs.{Did, IsAt};
    ghost use Rattle.session_poll.specs.Session.{held_of, waiting_of, is_over};
    ghost use Rattle.session_transactions.specs.Goings.{FitsStore, Goes};
    ghost use Rattle.session_transactions.specs.declared.transaction.Transaction.TheVariants as transactions;
    ghost use Rattle.stored_versions.specs.Openings.{Opening};

    /// A session that has taken nothing yet, with the memory for its inbox.
    #[tactic(auto, using(crate::proofs::SessionLaws::at_start))]
    pub fn open(alloc: Global) -> Result<Session, Memory>
        ensures waiting { IfOk result (λ session. waiting_of session ≡ []) }
        ensures held { IfOk result (λ session. held_of session ≡ []) }
        ensures over { IfOk result (λ session. is_over session ≡ false) }
        ensures transaction { IfOk result (λ session. session.transaction ≡ transactions.Idle) }
        // It stands at the end of the empty run.
        ensures at { IfOk result (λ session. (opening : Opening) → IsAt opening [] [] [] session) }
    {
        let inbox = Inbox::new(alloc)?;
        let output = Output::new(alloc)?;
        Ok(Session {
            alloc,
            phase: Phase::Start,
            transaction: Transaction::Idle,
            inbox,
            is_over: false,
            output,
        })
    }

    /// How many bytes more the inbox holds.
    pub fn space(&self) -> usize
        ensures { result + length (held_of self.now) ≡ INBOX_SIZE }
    {
        self.inbox.space()
    }

    /// Takes the first bytes that fit, and answers how many. It takes no memory.
    #[tactic(auto, using(crate::proofs::SessionLaws::at_fed))]
    pub fn feed(&mut self, bytes: &[u8]) -> usize
        ensures count { result ≡ min (length bytes.now) (INBOX_SIZE - length (held_of self.old)) }
        ensures held { held_of self.new ≡ held_of self.old ++ take result bytes.now }
        ensures waiting { waiting_of self.new ≡ waiting_of self.old }
        ensures over { is_over self.new ≡ is_over self.old }
        ensures transaction { self.new.transaction ≡ self.old.transaction }
        // Each run goes on, with these bytes fed.
        ensures at { (opening : Opening) (fed taken : List ℕ) (run : List Did) → IsAt opening fed taken run self.old → IsAt opening (fed ++ take result bytes.now) taken run self.new }
    {
        self.inbox.feed(bytes)
    }

    /// Says that nothing more comes.
    #[tactic(auto, using(crate::proofs::SessionLaws::at_ended))]
    pub fn end_input(&mut self)
        ensures waiting { waiting_of self.new ≡ waiting_of self.old }
        ensures held { held_of self.new ≡ held_of self.old }
        ensures over { is_over self.new ≡ true }
        ensures transaction { self.new.transaction ≡ self.old.transaction }
        ensures at { (opening : Opening) (fed taken : List ℕ) (run : List Did) → IsAt opening fed taken run self.old → IsAt opening fed taken run self.new }
    {
        self.is_over = true;
    }

    /// How many bytes wait to be sent.
    pub fn waiting(&self) -> usize
        ensures { result ≡ length (waiting_of self.now) }
    {
        self.output.len()
    }

    /// The bytes that wait to be sent, in order.
    pub fn bytes(&self) -> &[u8]
        ensures { result.now ≡ waiting_of self.now }
    {
        self.output.bytes()
    }

    /// Drops the first bytes that wait, which were sent.
    #[tactic(auto, using(crate::proofs::SessionLaws::at_taken))]
    pub fn take(&mut self, count: usize)
        ensures waiting { waiting_of self.new ≡ drop (min count (length (waiting_of self.old))) (waiting_of self.old) }
        ensures held { held_of self.new ≡ held_of self.old }
        ensures over { is_over self.new ≡ is_over self.old }
        ensures transaction { self.new.transaction ≡ self.old.transaction }
        // Each run goes on, with these bytes taken.
        ensures at { (opening : Opening) (fed taken : List ℕ) (run : List Did) → IsAt opening fed taken run self.old → IsAt opening fed (taken ++ take count (waiting_of self.old)) run self.new }
    {
        let count = count.min(self.output.len());
        self.output.take(count);
    }

    /// Ends the session. Its transaction is dropped, and what it still had for the client. It takes no memory.
    pub fn close<K: Keeper>(self, store: &mut Store<K>)
        requires { FitsStore self.transaction store.old }
        ensures { Goes self.transaction store.old [] transactions.Idle store.new }
    {
        let Session { transaction, .. } = self;
        let mut transaction = transaction;
        transaction.roll_back(store);
    }
}
