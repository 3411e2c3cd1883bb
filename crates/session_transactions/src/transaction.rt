ghost use Rattle.std.specs.Prelude.{◌≡◌, ◌++◌, ◌∷◌, [], None, Some, MatchOption, OnErr, OnOk, false, true};
ghost use Rattle.session_transactions.specs.Transactions.{blocked, is_block, is_failed, is_open, snap_of, transaction_of, writes_of, wrote};
ghost use Rattle.session_transactions.specs.declared.transaction.Transaction.TheVariants as held;

use live_snapshots::Snap;
use std::mem;
use values::{List, Memory};
use vra_syntax::Write;

/// The transaction of one session.
#[derive(Drop)]
pub enum Transaction {
    /// None is open.
    Idle,
    /// One that a statement began over a snapshot, with its own writes. It ends with its Query.
    Implicit(Snap, List<Write>),
    /// One that BEGIN began.
    Block(Snap, List<Write>),
    /// One in which an error came. Nothing of it is left but that it is to be ended.
    Failed,
}

impl Transaction {
    /// Whether one is open.
    pub fn is_open(&self) -> bool
        ensures { result ≡ is_open (transaction_of self.now) }
    {
        match self {
            Transaction::Implicit(_, _) => true,
            Transaction::Block(_, _) => true,
            Transaction::Idle => false,
            Transaction::Failed => false,
        }
    }

    /// Whether one is open that BEGIN began.
    pub fn is_block(&self) -> bool
        ensures { result ≡ is_block (transaction_of self.now) }
    {
        matches!(self, Transaction::Block(_, _))
    }

    pub fn is_failed(&self) -> bool
        ensures { result ≡ is_failed (transaction_of self.now) }
    {
        matches!(self, Transaction::Failed)
    }

    /// The snapshot and the own writes of an open one.
    pub fn view(&self) -> Option<(&Snap, &List<Write>)>
        ensures snap { MatchOption result (snap_of self.now ≡ None) (λ it. snap_of self.now ≡ Some it.0.now) }
        ensures writes { MatchOption result (is_open (transaction_of self.now) ≡ false) (λ it. writes_of (transaction_of self.now) ≡ it.1.now) }
    {
        match self {
            Transaction::Implicit(snap, writes) => Some((snap, writes)),
            Transaction::Block(snap, writes) => Some((snap, writes)),
            Transaction::Idle => None,
            Transaction::Failed => None,
        }
    }

    /// BEGIN: an open one goes on until COMMIT or ROLLBACK. It takes no memory.
    pub fn block(&mut self)
        ensures blocked { transaction_of self.new ≡ blocked (transaction_of self.old) }
        ensures snap { snap_of self.new ≡ snap_of self.old }
    {
        match self.take() {
            Transaction::Implicit(snap, writes) => *self = Transaction::Block(snap, writes),
            other => *self = other,
        }
    }

    /// One more own write.
    pub fn add(&mut self, write: Write) -> Result<(), Memory>
        requires is_open { is_open (transaction_of self.old) ≡ true }
        ensures ok { OnOk result (transaction_of self.new ≡ wrote write (transaction_of self.old)) }
        ensures err { OnErr result (self.new ≡ self.old) }
        ensures snap { snap_of self.new ≡ snap_of self.old }
    {
        match self {
            Transaction::Implicit(_snap, writes) => push(writes, write),
            Transaction::Block(_snap, writes) => push(writes, write),
            Transaction::Idle => Err(Memory),
            Transaction::Failed => Err(Memory),
        }
    }

    /// It goes out, and none is open.
    pub(crate) fn take(&mut self) -> Transaction
        ensures taken { result ≡ self.old }
        ensures idle { self.new ≡ held.Idle }
    {
        mem::replace(self, Transaction::Idle)
    }
}

fn push(writes: &mut List<Write>, write: Write) -> Result<(), Memory>
    ensures ok { OnOk result (writes.new ≡ writes.old ++ write ∷ []) }
    ensures err { OnErr result (writes.new ≡ writes.old) }
{
    match writes.push(write) {
        Ok(()) => Ok(()),
        Err(_write) => Err(Memory),
    }
}
