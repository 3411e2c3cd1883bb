ghost use Rattle.std.specs.Prelude.{◌≡◌, ◌≤◌, ◌<◌, ◌+◌, ◌-◌, false, [], ◌++◌, length, take, drop, min, vec_len, vec_capacity, IfOk, OnOk, OnErr};
ghost use Rattle.session_replies.specs.DataRows.{row_bytes};
ghost use Rattle.session_replies.specs.declared.output.TheConstants.{CELLS_LIMIT, KEPT_ROOM, STEP_ROOM};
ghost use Rattle.pg_messages.specs.Back.{back_bytes};
ghost use Rattle.session_replies.specs.Replies.{spelled};
ghost use Rattle.session_replies.specs.AnswerMessages.{message_too_long, too_long_by};
ghost use Rattle.session_replies.specs.Output.{HasRoom, KeepsFront, is_empty};
ghost use Rattle.session_replies.specs.Sends.{Sends};

use crate::refusal::Refusal;
use feature_expr::Memory;
use pg_messages::{Back, EncodeRefused, encode_back};
use std::alloc::Global;
use std::marker::Model;

/// How many bytes can be put without memory at the start of a step.
pub const STEP_ROOM: usize = 256;

/// How many of them are left behind a reply that takes memory.
pub const KEPT_ROOM: usize = 192;

/// The greatest number of cells of a row of data, and of their bytes.
const COUNT_LIMIT: usize = 65_535;

const CELLS_LIMIT: usize = 2_147_483_641;

/// The bytes that wait to be sent. The list grows as it has to. Room for the short replies of a step is taken before it,
/// so that what was done, or that memory ran out, can always be told.
#[derive(Drop)]
pub struct Output {
    bytes: Vec<u8>,
    start: usize,
    message: Vec<u8>,
}

impl Model for Output {
    ghost use Rattle.std.specs.Prelude.{◌≤◌, ◌<◌, ◌+◌, ◌-◌, drop, vec_len, vec_capacity};
    ghost use Rattle.session_replies.specs.Output.{Waiting};
    ghost use Rattle.session_replies.specs.declared.output.TheConstants.{STEP_ROOM};

    ghost Value = { Waiting };

    ghost view = { λ it. record { bytes = drop it.start it.bytes.items; spare = vec_capacity it.bytes - vec_len it.bytes } };

    ghost invariant = { λ it. (it.start ≤ vec_len it.bytes) × (STEP_ROOM ≤ vec_capacity it.bytes)
        × (vec_capacity it.bytes < vec_len it.bytes + STEP_ROOM → it.start < vec_len it.bytes) };
}

impl Output {
    pub fn new(alloc: Global) -> Result<Output, Memory>
        ensures bytes { IfOk result (λ output. output.bytes ≡ []) }
        ensures room { IfOk result (λ output. HasRoom STEP_ROOM output) }
    {
        let bytes = Vec::with_capacity(alloc, STEP_ROOM)?;
        Ok(Output {
            bytes,
            start: 0,
            message: Vec::new(alloc),
        })
    }

    pub fn len(&self) -> usize
        ensures { result ≡ length self.now.bytes }
    {
        self.bytes.len() - self.start
    }

    pub fn bytes(&self) -> &[u8]
        ensures { result.now ≡ self.now.bytes }
    {
        let (_, waiting) = self.bytes.as_slice().split_at(self.start);
        waiting
    }

    /// Drops the first bytes, which were sent.
    pub fn take(&mut self, count: usize)
        requires { count ≤ length self.old.bytes }
        ensures bytes { self.new.bytes ≡ drop count self.old.bytes }
        ensures room { self.old.spare ≤ self.new.spare }
    {
        self.start += count;
        if self.start == self.bytes.len() {
            self.bytes.clear();
            self.start = 0;
        }
    }

    /// Makes room for a step. It takes memory only where there is none, and where nothing waits there is.
    #[tactic(auto, using(crate::proofs::OutputLaws::drop_not_empty))]
    pub fn make_room(&mut self) -> Result<(), Memory>
        ensures bytes { self.new.bytes ≡ self.old.bytes }
        ensures ok { OnOk result (HasRoom STEP_ROOM self.new) }
        ensures err { OnErr result (self.new ≡ self.old) }
        ensures wants { OnErr result ((self.old.spare < STEP_ROOM) × (is_empty self.old.bytes ≡ false)) }
    {
        self.bytes.reserve(STEP_ROOM)?;
        Ok(())
    }

    /// Puts bytes for which there is room. It takes no memory.
    pub fn put_fixed(&mut self, bytes: &[u8])
        requires { HasRoom (length bytes.now) self.old }
        ensures bytes { self.new.bytes ≡ self.old.bytes ++ bytes.now }
        ensures room { self.old.spare ≤ self.new.spare + length bytes.now }
    {
        let _fits = self.bytes.extend_from_slice(bytes);
    }

    /// Puts a message behind the bytes that wait. One that can't be told counts as want of memory.
    pub fn put(&mut self, back: &Back) -> Result<(), Memory>
        ensures ok { OnOk result (self.new.bytes ≡ self.old.bytes ++ back_bytes back.now) }
        ensures err { OnErr result (self.new.bytes ≡ self.old.bytes) }
        ensures room { min KEPT_ROOM self.old.spare ≤ self.new.spare }
    {
        match self.put_or_refuse(back) {
            Ok(()) => Ok(()),
            Err(_refused) => Err(Memory),
        }
    }

    /// Puts a message behind the bytes that wait, or refuses one that is too long to be told.
    pub(crate) fn put_or_refuse(&mut self, back: &Back) -> Result<(), Refusal>
        ensures ok { OnOk result (self.new.bytes ≡ self.old.bytes ++ back_bytes back.now) }
        ensures err { OnErr result (self.new.bytes ≡ self.old.bytes) }
        ensures sends { Sends (message_too_long back.now) result }
        ensures room { min KEPT_ROOM self.old.spare ≤ self.new.spare }
    {
        self.message.clear();
        match encode_back(back, &mut self.message) {
            Ok(()) => {
                append(&mut self.bytes, self.message.as_slice())?;
                Ok(())
            }
            Err(EncodeRefused::TooLong(length)) => Err(Refusal::TooLong(length)),
            Err(_refused) => Err(Refusal::OutOfMemory),
        }
    }

    /// Puts a row of data, whose cells are these bytes, so many cells, or refuses one that is too long to be told.
    pub(crate) fn put_row(&mut self, count: usize, cells: &[u8]) -> Result<(), Refusal>
        ensures ok { OnOk result (self.new.bytes ≡ self.old.bytes ++ row_bytes count cells.now) }
        ensures err { OnErr result (self.new.bytes ≡ self.old.bytes) }
        ensures sends { Sends (too_long_by (length cells.now + 6)) result }
        ensures room { min KEPT_ROOM self.old.spare ≤ self.new.spare }
    {
        if cells.len() > CELLS_LIMIT {
            return Err(Refusal::TooLong(cells.len() as u64 + 6));
        }
        if count > COUNT_LIMIT {
            return Err(Refusal::OutOfMemory);
        }
        append_row(&mut self.bytes, count as u16, cells)?;
        Ok(())
    }

    /// Keeps the first bytes alone.
    pub(crate) fn truncate(&mut self, count: usize)
        requires { count ≤ length self.old.bytes }
        ensures bytes { self.new.bytes ≡ take count self.old.bytes }
        ensures room { self.old.spare ≤ self.new.spare }
    {
        if count == 0 {
            self.bytes.clear();
            self.start = 0;
        } else {
            self.bytes.truncate(self.start + count);
        }
    }

    /// Puts messages one behind the other, all of them or none.
    pub fn put_all(&mut self, messages: &[Back]) -> Result<(), Memory>
        ensures ok { OnOk result (self.new.bytes ≡ self.old.bytes ++ spelled messages.now) }
        ensures err { OnErr result (self.new.bytes ≡ self.old.bytes) }
        ensures room { min KEPT_ROOM self.old.spare ≤ self.new.spare }
    {
        let before = self.len();
        let put = self.put_each(messages);
        if put.is_err() {
            self.truncate(before);
        }
        put
    }

    #[tactic(auto, using(crate::proofs::OutputLaws::begins_same, crate::proofs::OutputLaws::begins_as, crate::proofs::OutputLaws::begins_put, crate::proofs::OutputLaws::put_more))]
    fn put_each(&mut self, messages: &[Back]) -> Result<(), Memory>
        ensures ok { OnOk result (self.new.bytes ≡ self.old.bytes ++ spelled messages.now) }
        ensures begins { KeepsFront self.old.bytes self.new.bytes }
        ensures room { min KEPT_ROOM self.old.spare ≤ self.new.spare }
    {
        'messages: for message in messages {
            self.put(message)?;
        }
        Ok(())
    }
}

/// Appends bytes and keeps room behind them, or leaves all as it was.
fn append(bytes: &mut Vec<u8>, more: &[u8]) -> Result<(), Memory>
    ensures ok { OnOk result (bytes.new.items ≡ bytes.old.items ++ more.now) }
    ensures err { OnErr result (bytes.new.items ≡ bytes.old.items) }
    ensures room { OnOk result (vec_len bytes.new + KEPT_ROOM ≤ vec_capacity bytes.new) }
    ensures capacity { vec_capacity bytes.old ≤ vec_capacity bytes.new }
{
    bytes.reserve(more.len() + KEPT_ROOM)?;
    let _fits = bytes.extend_from_slice(more);
    Ok(())
}

/// Appends a row of so many cells and keeps room behind it, or leaves all as it was.
fn append_row(bytes: &mut Vec<u8>, count: u16, cells: &[u8]) -> Result<(), Memory>
    requires { length cells.now ≤ CELLS_LIMIT }
    ensures ok { OnOk result (bytes.new.items ≡ bytes.old.items ++ row_bytes count cells.now) }
    ensures err { OnErr result (bytes.new.items ≡ bytes.old.items) }
    ensures room { OnOk result (vec_len bytes.new + KEPT_ROOM ≤ vec_capacity bytes.new) }
    ensures capacity { vec_capacity bytes.old ≤ vec_capacity bytes.new }
{
    let length = cells.len() as u32 + 6;
    bytes.reserve(cells.len() + 7 + KEPT_ROOM)?;
    put(b"D", bytes);
    put(&length.to_be_bytes(), bytes);
    put(&count.to_be_bytes(), bytes);
    put(cells, bytes);
    Ok(())
}

/// Appends bytes for which there is room.
fn put(more: &[u8], bytes: &mut Vec<u8>)
    requires { vec_len bytes.old + length more.now ≤ vec_capacity bytes.old }
    ensures bytes { bytes.new.items ≡ bytes.old.items ++ more.now }
    ensures capacity { vec_capacity bytes.old ≤ vec_capacity bytes.new }
{
    let _fits = bytes.extend_from_slice(more);
}
