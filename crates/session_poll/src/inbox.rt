ghost use Rattle.std.specs.Prelude.{◌≡◌, ◌+◌, ◌-◌, ◌≤◌, [], ◌++◌, length, take, drop, min, vec_len, vec_capacity, IfOk};
ghost use Rattle.session_poll.specs.declared.inbox.TheConstants.{INBOX_SIZE};

use feature_expr::Memory;
use std::alloc::Global;
use std::marker::Model;

/// How many bytes an inbox holds: the longest message, with its type byte.
pub const INBOX_SIZE: usize = 1_048_581;

/// The bytes that were fed and not yet taken, in a list whose memory is taken at once.
#[derive(Drop)]
pub struct Inbox {
    bytes: Vec<u8>,
    start: usize,
}

impl Model for Inbox {
    ghost use Rattle.std.specs.Prelude.{ℕ, ◌≤◌, List, drop, vec_len, vec_capacity};
    ghost use Rattle.std.specs.Coded.{coded_list, coded_ℕ};
    ghost use Rattle.session_poll.specs.declared.inbox.TheConstants.{INBOX_SIZE};

    ghost Value = { List ℕ };

    ghost coded = { coded_list coded_ℕ };

    ghost view = { λ it. drop it.start it.bytes.items };

    ghost invariant = { λ it. (it.start ≤ vec_len it.bytes) × (vec_len it.bytes ≤ INBOX_SIZE) × (INBOX_SIZE ≤ vec_capacity it.bytes) };
}

impl Inbox {
    pub fn new(alloc: Global) -> Result<Inbox, Memory>
        ensures { IfOk result (λ inbox. inbox ≡ []) }
    {
        let bytes = Vec::with_capacity(alloc, INBOX_SIZE)?;
        Ok(Inbox { bytes, start: 0 })
    }

    /// The bytes that are held.
    pub fn bytes(&self) -> &[u8]
        ensures held { result.now ≡ self.now }
        ensures within { length self.now ≤ INBOX_SIZE }
    {
        let (_, held) = self.bytes.as_slice().split_at(self.start);
        held
    }

    /// How many bytes more fit.
    pub fn space(&self) -> usize
        ensures { result + length self.now ≡ INBOX_SIZE }
    {
        INBOX_SIZE - (self.bytes.len() - self.start)
    }

    /// Takes the first bytes that fit, and answers how many. It takes no memory.
    pub fn feed(&mut self, bytes: &[u8]) -> usize
        ensures count { result ≡ min (length bytes.now) (INBOX_SIZE - length self.old) }
        ensures held { self.new ≡ self.old ++ take result bytes.now }
    {
        let count = bytes.len().min(self.space());
        let (fitting, _) = bytes.split_at(count);
        self.put(fitting);
        count
    }

    /// Puts bytes behind those that are held.
    fn put(&mut self, bytes: &[u8])
        requires { length self.old + length bytes.now ≤ INBOX_SIZE }
        ensures { self.new ≡ self.old ++ bytes.now }
    {
        self.start = made_room(&mut self.bytes, self.start, bytes.len());
        let _fits = self.bytes.extend_from_slice(bytes);
    }

    /// Drops the first bytes.
    pub fn discard(&mut self, count: usize)
        requires { count ≤ length self.old }
        ensures { self.new ≡ drop count self.old }
    {
        self.start += count;
    }
}

/// Moves the bytes from `start` on to the front of the list where so many more don't fit behind them, and answers
/// where they start then.
fn made_room(bytes: &mut Vec<u8>, start: usize, count: usize) -> usize
    requires order { start ≤ vec_len bytes.old }
    requires within { vec_len bytes.old ≤ INBOX_SIZE }
    requires fits { vec_len bytes.old - start + count ≤ INBOX_SIZE }
    ensures held { drop result bytes.new.items ≡ drop start bytes.old.items }
    ensures order { result ≤ vec_len bytes.new }
    ensures room { vec_len bytes.new + count ≤ INBOX_SIZE }
    ensures capacity { vec_capacity bytes.new ≡ vec_capacity bytes.old }
{
    if INBOX_SIZE - bytes.len() >= count {
        return start;
    }
    straighten(bytes, start);
    0
}

fn straighten(bytes: &mut Vec<u8>, start: usize)
    requires { start ≤ vec_len bytes.old }
    ensures held { bytes.new.items ≡ drop start bytes.old.items }
    ensures capacity { vec_capacity bytes.new ≡ vec_capacity bytes.old }
{
    let held = bytes.len() - start;
    bytes.copy_within(start.., 0);
    bytes.truncate(held);
}
