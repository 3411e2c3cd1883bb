//! Replies that are put without memory: what a step did, that a message may come, and why it stopped.

ghost use Rattle.std.specs.Prelude.{◌≡◌, ◌≤◌, ◌+◌, ◌++◌, [], ◌∷◌, false, true, length, min, decimal, OnOk, OnErr};
ghost use Rattle.std.specs.Int.{w32, to_be_bytes};
ghost use Rattle.pg_messages.specs.Back.{back_bytes};
ghost use Rattle.session_replies.specs.Errors.{Told, has_name};
ghost use Rattle.session_replies.specs.Output.{HasRoom};
ghost use Rattle.session_replies.specs.Pieces.{IsShort, error_bytes, error_size, field_bytes, number_text, parameter_bytes, place_bytes, plain_fault, tag_bytes};
ghost use Rattle.session_replies.specs.Replies.{commit_told, empty_query, error_of, error_with, ready_for_query, snapshot_told};
ghost use Rattle.session_replies.specs.Tags as tags;
ghost use Rattle.session_replies.specs.declared.output.TheConstants.{KEPT_ROOM};
ghost use Rattle.session_replies.specs.declared.tell.TheConstants.{ERROR_SIZE, READY_SIZE, TOLD_SIZE};

use crate::output::Output;
use crate::plain::{Plain, plain_of};
use crate::refusal::Refusal;
use crate::replies::named_error;
use crate::tag::Tag;
use feature_expr::{Features, Memory};
use itoa::Buffer;
use pg_messages::Status;
use std::alloc::Global;

/// How many bytes a number that is told takes at most, and a tag.
pub const TOLD_SIZE: usize = 40;

/// How many bytes take at most that a message may come, and that a text has no statement.
pub const READY_SIZE: usize = 6;

/// How many bytes an error takes at most in whose text no name stands.
pub const ERROR_SIZE: usize = 112;

impl Output {
    /// Tells over how many commits a transaction began.
    #[tactic(auto, using(crate::proofs::PieceLaws::parameter_put))]
    pub fn tell_snapshot(&mut self, number: u64)
        requires { HasRoom TOLD_SIZE self.old }
        ensures bytes { self.new.bytes ≡ self.old.bytes ++ back_bytes (snapshot_told number) }
        ensures room { self.old.spare ≤ self.new.spare + TOLD_SIZE }
    {
        self.put_parameter(b"vdb_snapshot", number);
    }

    /// Tells the number of a commit.
    #[tactic(auto, using(crate::proofs::PieceLaws::parameter_put))]
    pub fn tell_commit(&mut self, number: u64)
        requires { HasRoom TOLD_SIZE self.old }
        ensures bytes { self.new.bytes ≡ self.old.bytes ++ back_bytes (commit_told number) }
        ensures room { self.old.spare ≤ self.new.spare + TOLD_SIZE }
    {
        self.put_parameter(b"vdb_commit", number);
    }

    /// Tells what a statement did.
    #[tactic(auto, using(crate::proofs::PieceLaws::tag_put))]
    pub fn complete(&mut self, tag: Tag)
        requires { HasRoom TOLD_SIZE self.old }
        ensures bytes { self.new.bytes ≡ self.old.bytes ++ back_bytes (tags.complete tag) }
        ensures room { self.old.spare ≤ self.new.spare + TOLD_SIZE }
    {
        let (word, number) = tag.parts();
        self.put_tag(word, number);
    }

    /// Tells that a text has no statement.
    #[tactic(auto, unfolding(pg_messages::specs::Back::back_sent))]
    pub fn say_empty(&mut self)
        requires { HasRoom READY_SIZE self.old }
        ensures bytes { self.new.bytes ≡ self.old.bytes ++ back_bytes empty_query }
        ensures room { self.old.spare ≤ self.new.spare + READY_SIZE }
    {
        self.put_fixed(b"I\x00\x00\x00\x04");
    }

    /// Tells that a message may come.
    #[tactic(auto, unfolding(pg_messages::specs::Back::back_sent, message_shapes::specs::Shapes::one_byte))]
    pub fn ready(&mut self, status: Status)
        requires { HasRoom READY_SIZE self.old }
        ensures bytes { self.new.bytes ≡ self.old.bytes ++ back_bytes (ready_for_query status) }
        ensures room { self.old.spare ≤ self.new.spare + READY_SIZE }
    {
        self.put_fixed(match status {
            Status::Idle => b"Z\x00\x00\x00\x05I",
            Status::InBlock => b"Z\x00\x00\x00\x05T",
            Status::Failed => b"Z\x00\x00\x00\x05E",
        });
    }

    /// Tells the error of a refusal in whose text no name stands.
    pub fn refuse_fixed(&mut self, why: &Refusal)
        requires room { HasRoom ERROR_SIZE self.old }
        requires nameless { has_name why.now ≡ false }
        ensures bytes { self.new.bytes ≡ self.old.bytes ++ back_bytes (error_of [] why.now) }
        ensures room { self.old.spare ≤ self.new.spare + ERROR_SIZE }
    {
        if let Some(plain) = plain_of(why) {
            self.put_plain(&plain);
        }
    }

    /// Tells the error of a refusal. Where a name stands in its text that takes memory, and want of memory may be told in
    /// its place.
    #[tactic(auto, using(crate::proofs::PieceLaws::told_plain))]
    pub fn refuse(&mut self, alloc: Global, why: &Refusal, features: &Features)
        requires { HasRoom ERROR_SIZE self.old }
        ensures told { Told features.now why.now self.old.bytes self.new.bytes }
        ensures room { min KEPT_ROOM self.old.spare ≤ self.new.spare + ERROR_SIZE }
    {
        match plain_of(why) {
            Some(plain) => self.put_plain(&plain),
            None => self.refuse_named(alloc, why, features),
        }
    }

    #[tactic(auto, using(crate::proofs::PieceLaws::told_named, crate::proofs::PieceLaws::told_memory))]
    fn refuse_named(&mut self, alloc: Global, why: &Refusal, features: &Features)
        requires room { HasRoom ERROR_SIZE self.old }
        requires named { has_name why.now ≡ true }
        ensures told { Told features.now why.now self.old.bytes self.new.bytes }
        ensures room { min KEPT_ROOM self.old.spare ≤ self.new.spare + ERROR_SIZE }
    {
        match self.put_named(alloc, why, features) {
            Ok(()) => {}
            Err(Memory) => self.refuse_fixed(&Refusal::OutOfMemory),
        }
    }

    fn put_named(&mut self, alloc: Global, why: &Refusal, features: &Features) -> Result<(), Memory>
        requires { has_name why.now ≡ true }
        ensures ok { OnOk result (self.new.bytes ≡ self.old.bytes ++ back_bytes (error_of features.now why.now)) }
        ensures err { OnErr result (self.new.bytes ≡ self.old.bytes) }
        ensures room { min KEPT_ROOM self.old.spare ≤ self.new.spare }
    {
        let message = named_error(alloc, why, features)?;
        self.put(&message)
    }

    /// Puts an error, piece by piece.
    #[tactic(auto, using(crate::proofs::PieceLaws::error_put))]
    fn put_plain(&mut self, it: &Plain)
        requires room { HasRoom ERROR_SIZE self.old }
        requires short { IsShort it.now }
        ensures bytes { self.new.bytes ≡ self.old.bytes ++ back_bytes (error_with it.now.severity.now (plain_fault it.now)) }
        ensures room { self.old.spare ≤ self.new.spare + ERROR_SIZE }
    {
        self.put_fields(it);
    }

    fn put_fields(&mut self, it: &Plain)
        requires room { HasRoom ERROR_SIZE self.old }
        requires short { IsShort it.now }
        ensures bytes { self.new.bytes ≡ self.old.bytes ++ error_bytes it.now.severity.now (plain_fault it.now) }
        ensures room { self.old.spare ≤ self.new.spare + ERROR_SIZE }
    {
        self.put_head(b"E", it.size());
        self.put_field(b"S", it.severity);
        self.put_field(b"V", it.severity);
        self.put_field(b"C", it.code);
        self.put_text(it);
        self.put_place(it.place);
        self.put_fixed(b"\x00");
    }

    fn put_text(&mut self, it: &Plain)
        requires room { HasRoom 58 self.old }
        requires short { IsShort it.now }
        ensures bytes { self.new.bytes ≡ self.old.bytes ++ field_bytes 77 (plain_fault it.now).text }
        ensures room { self.old.spare ≤ self.new.spare + 58 }
    {
        self.put_fixed(b"M");
        self.put_fixed(it.before);
        self.put_number(it.number);
        self.put_fixed(it.after);
        self.put_fixed(b"\x00");
    }

    fn put_place(&mut self, place: Option<u64>)
        requires { HasRoom 22 self.old }
        ensures bytes { self.new.bytes ≡ self.old.bytes ++ place_bytes place }
        ensures room { self.old.spare ≤ self.new.spare + 22 }
    {
        if let Some(place) = place {
            let mut buffer = Buffer::new();
            self.put_field(b"P", buffer.format(place).as_bytes());
        }
    }

    fn put_field(&mut self, code: &[u8], text: &[u8])
        requires { HasRoom (length code.now + length text.now + 1) self.old }
        ensures bytes { self.new.bytes ≡ self.old.bytes ++ (code.now ++ text.now ++ 0 ∷ []) }
        ensures room { self.old.spare ≤ self.new.spare + (length code.now + length text.now + 1) }
    {
        self.put_fixed(code);
        self.put_fixed(text);
        self.put_fixed(b"\x00");
    }

    /// Puts a parameter's name and a number as its value.
    fn put_parameter(&mut self, name: &[u8], number: u64)
        requires short { length name.now ≤ 13 }
        requires room { HasRoom TOLD_SIZE self.old }
        ensures bytes { self.new.bytes ≡ self.old.bytes ++ parameter_bytes name.now (decimal number) }
        ensures room { self.old.spare ≤ self.new.spare + TOLD_SIZE }
    {
        let mut buffer = Buffer::new();
        let value = buffer.format(number).as_bytes();
        self.put_head(b"S", name.len() + value.len() + 6);
        self.put_fixed(name);
        self.put_fixed(b"\x00");
        self.put_fixed(value);
        self.put_fixed(b"\x00");
    }

    fn put_tag(&mut self, word: &[u8], number: Option<u64>)
        requires short { length word.now ≤ 9 }
        requires room { HasRoom TOLD_SIZE self.old }
        ensures bytes { self.new.bytes ≡ self.old.bytes ++ tag_bytes word.now (number_text number) }
        ensures room { self.old.spare ≤ self.new.spare + TOLD_SIZE }
    {
        self.put_head(b"C", word.len() + number_size(number) + 5);
        self.put_fixed(word);
        self.put_number(number);
        self.put_fixed(b"\x00");
    }

    /// Puts a message's type byte and its length.
    fn put_head(&mut self, kind: &[u8], size: usize)
        requires room { HasRoom (length kind.now + 4) self.old }
        requires small { size ≤ ERROR_SIZE }
        ensures bytes { self.new.bytes ≡ self.old.bytes ++ (kind.now ++ to_be_bytes w32 size) }
        ensures room { self.old.spare ≤ self.new.spare + (length kind.now + 4) }
    {
        self.put_fixed(kind);
        self.put_fixed(&(size as u32).to_be_bytes());
    }

    fn put_number(&mut self, number: Option<u64>)
        requires { HasRoom 20 self.old }
        ensures bytes { self.new.bytes ≡ self.old.bytes ++ number_text number }
        ensures room { self.old.spare ≤ self.new.spare + length (number_text number) }
        ensures short { self.old.spare ≤ self.new.spare + 20 }
    {
        if let Some(number) = number {
            let mut buffer = Buffer::new();
            self.put_fixed(buffer.format(number).as_bytes());
        }
    }
}

impl Plain {
    /// The length that its message tells.
    fn size(&self) -> usize
        requires { IsShort self.now }
        ensures is { result ≡ error_size self.now.severity.now (plain_fault self.now) }
        ensures small { result ≤ ERROR_SIZE }
    {
        let text = self.before.len() + number_size(self.number) + self.after.len();
        2 * self.severity.len() + self.code.len() + text + place_size(self.place) + 13
    }
}

/// How many digits a number has.
fn number_size(number: Option<u64>) -> usize
    ensures is { result ≡ length (number_text number) }
    ensures short { result ≤ 20 }
{
    match number {
        Some(number) => {
            let mut buffer = Buffer::new();
            buffer.format(number).len()
        }
        None => 0,
    }
}

/// How many bytes the field with a place takes.
fn place_size(place: Option<u64>) -> usize
    ensures is { result ≡ length (place_bytes place) }
    ensures short { result ≤ 22 }
{
    match place {
        Some(place) => number_size(Some(place)) + 2,
        None => 0,
    }
}
