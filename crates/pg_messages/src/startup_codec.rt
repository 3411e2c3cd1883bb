ghost use Rattle.std.specs.Prelude.{◌≡◌, ℕ, ◌+◌, ◌≤◌, true, None, List as Items, ◌++◌, length, take, not, is_some, is_ok, IfSome, OnOk, OnErr};
ghost use Rattle.message_shapes.specs.Fields.{ReadsAs, Passes};
ghost use Rattle.message_shapes.specs.Shapes.{unread_at};
ghost use Rattle.message_shapes.specs.Walks.{Puts, Fills};
ghost use Rattle.pg_messages.specs.declared.startup.Startup.{Startup};
ghost use Rattle.pg_messages.specs.Packet.{Answers, IfWhole, IfMemory, IsWithin, TakesMemory, is_more, is_whole, length_of};
ghost use Rattle.pg_messages.specs.Spelling.{RefusesToWrite, capped};
ghost use Rattle.pg_messages.specs.Startup.{startup_kind, startup_code, startup_form, startup_sent, has_length, coded_head, startup_head, startup_body, startup_of, startup_head_bytes, startup_layout, startup_bytes, startup_refusal, is_start, takes_memory, IsStartup};

use crate::decoded::{Decoded, Why};
use crate::encode_refused::EncodeRefused;
use crate::packet::{Head, decoded};
use crate::room::{add_room, checked_length};
use crate::startup::{Pair, STARTUP_CODE, STARTUP_LIMIT, Startup, StartupKind};
use message_shapes::{
    Fault, Part, Walk, are_good, pass_ended, passed, put_ended, put_u32, read_ended, read_word,
};
use std::alloc::Global;
use values::Text;

/// The bytes before a start-up packet's fields: its length and its code.
const STARTUP_HEAD: usize = 8;

/// The start-up packet at the front of the bytes. What lies behind it isn't looked at.
pub fn decode_startup(alloc: Global, bytes: &[u8]) -> Decoded<Startup>
    // What is read is spelled so by its bytes.
    ensures whole { IfWhole result (λ m n. (n ≤ length bytes.now) × IsStartup m (take n bytes.now)) }
    ensures within { IfWhole result (λ m n. (8 ≤ n) × (n ≤ length bytes.now)) }
    // What is spelled so is read, whatever follows it.
    ensures read { (m : Startup) (packet rest : Items ℕ) → IsStartup m packet → bytes.now ≡ packet ++ rest → Answers result (Decoded.Whole m (length packet)) }
    // Where no packet is read: its faults in their order, and their places.
    ensures exact { Answers result (startup_of bytes.now) }
    // Memory is taken for a StartupMessage that is all there and has no fault.
    ensures memory { IfMemory result (is_some (length_of (startup_head bytes.now)) ≡ true) }
    ensures kind { IfMemory result (is_start (startup_head bytes.now) ≡ true) }
    ensures sound { IfMemory result (is_whole (startup_of bytes.now) ≡ true) }
{
    startup_at(alloc, bytes)
}

#[tactic(auto, unfolding(crate::specs::Startup::startup_of), using(crate::proofs::Packets::answers_decoded, crate::proofs::Packets::memory_decoded, crate::proofs::Packets::sound_decoded))]
fn startup_at(alloc: Global, bytes: &[u8]) -> Decoded<Startup>
    ensures exact { Answers result (startup_of bytes.now) }
    ensures memory { IfMemory result (is_some (length_of (startup_head bytes.now)) ≡ true) }
    ensures kind { IfMemory result (is_start (startup_head bytes.now) ≡ true) }
    ensures sound { IfMemory result (is_whole (startup_of bytes.now) ≡ true) }
{
    match read_startup_head(bytes) {
        Head::More => Decoded::More,
        Head::Bad(place, why) => Decoded::Bad(place, why),
        Head::Packet(kind, length) => {
            let (packet, _) = bytes.split_at(length);
            let (_, body) = packet.split_at(STARTUP_HEAD);
            decoded(length, read_startup(alloc, kind, body))
        }
    }
}

/// Whether a whole start-up packet or a bad one is at the front of the bytes. Takes no memory.
#[tactic(auto, unfolding(crate::specs::Startup::startup_of), using(crate::proofs::Packets::is_more_packet))]
pub fn decided_startup(bytes: &[u8]) -> bool
    ensures { result ≡ not (is_more (startup_of bytes.now)) }
{
    !matches!(read_startup_head(bytes), Head::More)
}

/// How many bytes the start-up packet at the front of the bytes has, where all of them are there. Takes no memory.
pub fn startup_length(bytes: &[u8]) -> Option<usize>
    ensures exact { result ≡ length_of (startup_head bytes.now) }
    ensures within { IfSome result (λ n. n ≤ length bytes.now) }
{
    match read_startup_head(bytes) {
        Head::Packet(_, length) => Some(length),
        Head::More => None,
        Head::Bad(_, _) => None,
    }
}

#[tactic(auto, unfolding(crate::specs::Startup::startup_head))]
fn read_startup_head(bytes: &[u8]) -> Head<StartupKind>
    ensures exact { result ≡ startup_head bytes.now }
    ensures within { IsWithin 8 (length bytes.now) result }
{
    if bytes.len() < 4 {
        return Head::More;
    }
    let (front, rest) = bytes.split_at(4);
    let size = u32::from_be_bytes([front[0], front[1], front[2], front[3]]);
    if size < 8 || STARTUP_LIMIT < size {
        return Head::Bad(0, Why::Length);
    }
    if rest.len() < 4 {
        return Head::More;
    }
    let (front, _) = rest.split_at(4);
    let code = u32::from_be_bytes([front[0], front[1], front[2], front[3]]);
    coded(kind_of(code), size, bytes)
}

/// The head of a packet whose code and length are read.
fn coded(kind: StartupKind, size: u32, bytes: &[u8]) -> Head<StartupKind>
    requires { 8 ≤ size }
    ensures exact { result ≡ coded_head kind size bytes.now }
    ensures within { IsWithin 8 (length bytes.now) result }
{
    if !may_have_length(kind, size) {
        Head::Bad(0, Why::Length)
    } else if bytes.len() < size as usize {
        Head::More
    } else {
        Head::Packet(kind, size as usize)
    }
}

fn kind_of(code: u32) -> StartupKind
    ensures { result ≡ startup_kind code }
{
    match code {
        STARTUP_CODE => StartupKind::Start,
        _ => StartupKind::Other(code),
    }
}

/// Whether a packet of this kind may have this length, which is within the bounds of all.
fn may_have_length(kind: StartupKind, size: u32) -> bool
    ensures { result ≡ has_length kind size }
{
    match kind {
        StartupKind::Start => size >= 9,
        StartupKind::Other(_) => true,
    }
}

#[tactic(auto, unfolding(crate::specs::Startup::startup_body), using(crate::proofs::Forms::passed_last, crate::proofs::Forms::passed_behind))]
fn read_startup(alloc: Global, kind: StartupKind, body: &[u8]) -> Result<Startup, Fault>
    ensures exact { ReadsAs (λ startup. startup) result (startup_body kind body.now) }
    ensures memory { TakesMemory result (takes_memory kind) }
    ensures sound { TakesMemory result (is_ok (startup_body kind body.now)) }
{
    let rest = pass_fields(kind, body)?;
    if !rest.is_empty() {
        return Err(Fault::Before(rest.len() + 1));
    }
    let (startup, _) = read_fields(alloc, kind, body)?;
    Ok(startup)
}

/// Writes a start-up packet at the end. What was there stays, whatever the answer.
#[tactic(auto, using(crate::proofs::Lengths::refusal_told, crate::proofs::StartupLaws::startup_written))]
pub fn encode_startup(startup: &Startup, into: &mut Vec<u8>) -> Result<(), EncodeRefused>
    ensures ok { OnOk result (into.new.items ≡ into.old.items ++ startup_bytes startup.now) }
    ensures spelled { OnOk result (IsStartup startup.now (startup_bytes startup.now)) }
    ensures err { OnErr result (into.new.items ≡ into.old.items) }
    ensures refused { RefusesToWrite result (startup_refusal startup.now) }
{
    let length = checked_length(is_spelled(startup), startup_len(startup), STARTUP_LIMIT)?;
    let start = into.len();
    add_room(length as usize, into)?;
    let (_, space) = into.split_at_mut(start);
    encode_startup_from(startup, 0, space);
    Ok(())
}

/// Writes a packet's bytes from the offset on, as many as fit, and tells how many. Takes no memory.
pub fn encode_startup_from(startup: &Startup, offset: u64, space: &mut [u8]) -> usize
    requires { startup_refusal startup.now ≡ None }
    ensures { Fills (startup_bytes startup.now) offset space.old space.new result }
{
    let mut at = Walk {
        skip: offset,
        filled: 0,
    };
    put_startup_head(startup, &mut at, space);
    put_startup(startup, &mut at, space);
    at.filled
}

/// The length and the code of a packet are next. The length is worked out only where it is written.
fn put_startup_head(startup: &Startup, at: &mut Walk, space: &mut [u8])
    requires within { at.old.filled ≤ length space.old }
    requires small { length (startup_layout startup.now) + 8 ≤ STARTUP_LIMIT }
    ensures puts { Puts (startup_head_bytes (startup_code (startup_sent startup.now).kind) (length (startup_layout startup.now) + 8)) at.old space.old at.new space.new }
    ensures within { at.new.filled ≤ length space.new }
{
    if at.skip >= 8 {
        at.skip -= 8;
    } else {
        let length = startup_len(startup);
        put_numbers(length as u32, code_of(startup), at, space);
    }
}

#[tactic(auto, unfolding(crate::specs::Startup::startup_head_bytes), using(message_shapes::proofs::Steps::step_append))]
fn put_numbers(size: u32, code: u32, at: &mut Walk, space: &mut [u8])
    requires { at.old.filled ≤ length space.old }
    ensures puts { Puts (startup_head_bytes code size) at.old space.old at.new space.new }
    ensures within { at.new.filled ≤ length space.new }
{
    put_u32(size, at, space);
    put_u32(code, at, space);
}

/// What the length field is to be.
pub fn startup_len(startup: &Startup) -> u64
    ensures { result ≡ capped (length (startup_layout startup.now) + 8) }
{
    let mut at = Walk {
        skip: u64::MAX,
        filled: 0,
    };
    let mut space: [u8; 0] = [];
    put_startup(startup, &mut at, &mut space);
    passed(&at).saturating_add(8)
}

// ---- fields

impl Part for Pair {
    ghost use Rattle.pg_messages.specs.Startup.{pair};

    ghost shape = { pair };

    #[tactic(auto, unfolding(crate::specs::Startup::pair))]
    fn pass(bytes: &[u8]) -> Result<&[u8], usize> {
        let (_, rest) = read_word(bytes)?;
        Text::pass(rest)
    }

    #[tactic(auto, unfolding(crate::specs::Startup::pair))]
    fn read(alloc: Global, bytes: &[u8]) -> Result<(Pair, &[u8]), Fault> {
        let (name, rest) = read_word(bytes)?;
        let name = Text::from_slice(alloc, name)?;
        let (value, rest) = Text::read(alloc, rest)?;
        Ok((Pair { name, value }, rest))
    }

    #[tactic(auto, unfolding(crate::specs::Startup::pair))]
    fn is_good(&self) -> bool {
        !self.name.is_empty() && self.name.is_good() && self.value.is_good()
    }

    #[tactic(auto, unfolding(crate::specs::Startup::pair), using(message_shapes::proofs::Steps::step_append))]
    fn put(&self, at: &mut Walk, space: &mut [u8]) {
        self.name.put(at, space);
        self.value.put(at, space);
    }
}

// ---- the packets, one by one

#[tactic(auto, unfolding(crate::specs::Startup::startup_sent))]
fn code_of(startup: &Startup) -> u32
    ensures { result ≡ startup_code (startup_sent startup.now).kind }
{
    match startup {
        Startup::Start(_) => STARTUP_CODE,
        Startup::Other(code) => *code,
    }
}

/// Passes over the fields of a packet, so that its faults are known before memory is taken.
#[tactic(auto, unfolding(crate::specs::Startup::startup_form), using(crate::proofs::Forms::passed_formed))]
fn pass_fields(kind: StartupKind, body: &[u8]) -> Result<&[u8], usize>
    ensures { Passes (λ rest. rest.now) result ((startup_form kind).read body.now) }
{
    match kind {
        StartupKind::Start => pass_ended::<Pair>(body),
        StartupKind::Other(_) => pass_unread(body),
    }
}

fn pass_unread(body: &[u8]) -> Result<&[u8], usize>
    ensures { Passes (λ rest. rest.now) result (unread_at body.now) }
{
    let (_, rest) = body.split_at(body.len());
    Ok(rest)
}

#[tactic(auto, unfolding(crate::specs::Startup::startup_form, crate::specs::Sides::formed_at), using(crate::proofs::Packets::takes_any))]
fn read_fields(alloc: Global, kind: StartupKind, body: &[u8]) -> Result<(Startup, &[u8]), Fault>
    ensures exact { ReadsAs (λ x. (x.0, x.1.now)) result ((startup_form kind).read body.now) }
    ensures memory { TakesMemory result (takes_memory kind) }
{
    match kind {
        StartupKind::Start => {
            let (pairs, rest) = read_ended::<Pair>(alloc, body)?;
            Ok((Startup::Start(pairs), rest))
        }
        StartupKind::Other(code) => {
            let rest = pass_unread(body)?;
            Ok((Startup::Other(code), rest))
        }
    }
}

#[tactic(auto, unfolding(crate::specs::Startup::startup_sent))]
fn is_spelled(startup: &Startup) -> bool
    ensures { result ≡ (startup_sent startup.now).good }
{
    match startup {
        Startup::Start(pairs) => are_good(pairs.as_slice()),
        Startup::Other(code) => *code != STARTUP_CODE && code.is_good(),
    }
}

#[tactic(auto, unfolding(crate::specs::Startup::startup_sent), using(message_shapes::proofs::Steps::step_none))]
fn put_startup(startup: &Startup, at: &mut Walk, space: &mut [u8])
    requires within { at.old.filled ≤ length space.old }
    ensures puts { Puts (startup_layout startup.now) at.old space.old at.new space.new }
    ensures within { at.new.filled ≤ length space.new }
{
    match startup {
        Startup::Start(pairs) => put_ended(pairs.as_slice(), at, space),
        Startup::Other(_) => {}
    }
}
