ghost use Rattle.std.specs.Prelude.{◌≡◌, ℕ, ◌+◌, ◌≤◌, true, None, List as Items, ◌++◌, length, take, not, is_some, is_ok, IfSome, OnOk, OnErr};
ghost use Rattle.message_shapes.specs.Fields.{ReadsAs, Passes};
ghost use Rattle.message_shapes.specs.Walks.{Puts, Fills};
ghost use Rattle.pg_messages.specs.declared.front.Front.{Front};
ghost use Rattle.pg_messages.specs.Front.{front_kind, front_byte, front_form, front_sent, front_head, front_body, front_of, front_layout, front_bytes, front_refusal, is_query, takes_memory, IsFront};
ghost use Rattle.pg_messages.specs.Packet.{Answers, IfWhole, IfMemory, IsWithin, TakesMemory, is_more, is_whole, length_of};
ghost use Rattle.pg_messages.specs.Spelling.{RefusesToWrite, capped, head_bytes};

use crate::decoded::Decoded;
use crate::encode_refused::EncodeRefused;
use crate::front::{FRONT_LIMIT, Front, FrontKind};
use crate::packet::{Head, MESSAGE_HEAD, decoded, put_head, read_message_head};
use crate::room::{add_room, checked_length};
use message_shapes::{Fault, Part, Walk, end, passed};
use std::alloc::Global;
use values::Text;

/// The message of a client at the front of the bytes. What lies behind it isn't looked at.
pub fn decode_front(alloc: Global, bytes: &[u8]) -> Decoded<Front>
    // What is read is spelled so by its bytes.
    ensures whole { IfWhole result (λ m n. (n ≤ length bytes.now) × IsFront m (take n bytes.now)) }
    ensures within { IfWhole result (λ m n. (5 ≤ n) × (n ≤ length bytes.now)) }
    // What is spelled so is read, whatever follows it.
    ensures read { (m : Front) (packet rest : Items ℕ) → IsFront m packet → bytes.now ≡ packet ++ rest → Answers result (Decoded.Whole m (length packet)) }
    // Where no message is read: its faults in their order, and their places.
    ensures exact { Answers result (front_of bytes.now) }
    // Memory is taken for a Query that is all there and has no fault.
    ensures memory { IfMemory result (is_some (length_of (front_head bytes.now)) ≡ true) }
    ensures kind { IfMemory result (is_query (front_head bytes.now) ≡ true) }
    ensures sound { IfMemory result (is_whole (front_of bytes.now) ≡ true) }
{
    front_at(alloc, bytes)
}

#[tactic(auto, unfolding(crate::specs::Sides::message_at), using(crate::proofs::Packets::answers_decoded, crate::proofs::Packets::memory_decoded, crate::proofs::Packets::sound_decoded))]
fn front_at(alloc: Global, bytes: &[u8]) -> Decoded<Front>
    ensures exact { Answers result (front_of bytes.now) }
    ensures memory { IfMemory result (is_some (length_of (front_head bytes.now)) ≡ true) }
    ensures kind { IfMemory result (is_query (front_head bytes.now) ≡ true) }
    ensures sound { IfMemory result (is_whole (front_of bytes.now) ≡ true) }
{
    match read_front_head(bytes) {
        Head::More => Decoded::More,
        Head::Bad(place, why) => Decoded::Bad(place, why),
        Head::Packet(kind, length) => {
            let (packet, _) = bytes.split_at(length);
            let (_, body) = packet.split_at(MESSAGE_HEAD);
            decoded(length, read_front(alloc, kind, body))
        }
    }
}

/// Whether a whole message or a bad one is at the front of the bytes. Takes no memory.
#[tactic(auto, unfolding(crate::specs::Sides::message_at), using(crate::proofs::Packets::is_more_packet))]
pub fn decided_front(bytes: &[u8]) -> bool
    ensures { result ≡ not (is_more (front_of bytes.now)) }
{
    !matches!(read_front_head(bytes), Head::More)
}

/// How many bytes the message at the front of the bytes has, where all of them are there. Takes no memory.
pub fn front_length(bytes: &[u8]) -> Option<usize>
    ensures exact { result ≡ length_of (front_head bytes.now) }
    ensures within { IfSome result (λ n. n ≤ length bytes.now) }
{
    match read_front_head(bytes) {
        Head::Packet(_, length) => Some(length),
        Head::More => None,
        Head::Bad(_, _) => None,
    }
}

#[tactic(auto, unfolding(crate::specs::Sides::head_at, crate::specs::Front::front_side))]
fn read_front_head(bytes: &[u8]) -> Head<FrontKind>
    ensures exact { result ≡ front_head bytes.now }
    ensures within { IsWithin 5 (length bytes.now) result }
{
    match bytes.split_first() {
        None => Head::More,
        Some((byte, rest)) => read_message_head(FRONT_LIMIT, kind_of(*byte), rest),
    }
}

#[tactic(auto, unfolding(crate::specs::Sides::body_at, crate::specs::Front::front_side), using(message_shapes::proofs::Passes::passed_ended, message_shapes::proofs::Passes::passed_spare))]
fn read_front(alloc: Global, kind: FrontKind, body: &[u8]) -> Result<Front, Fault>
    ensures exact { ReadsAs (λ front. front) result (front_body kind body.now) }
    ensures memory { TakesMemory result (takes_memory kind) }
    ensures sound { TakesMemory result (is_ok (front_body kind body.now)) }
{
    let rest = pass_fields(kind, body)?;
    end(rest)?;
    let (front, _) = read_fields(alloc, kind, body)?;
    Ok(front)
}

/// Writes a message at the end. What was there stays, whatever the answer.
#[tactic(auto, using(crate::proofs::Lengths::refusal_told, crate::proofs::FrontLaws::front_written))]
pub fn encode_front(front: &Front, into: &mut Vec<u8>) -> Result<(), EncodeRefused>
    ensures ok { OnOk result (into.new.items ≡ into.old.items ++ front_bytes front.now) }
    ensures spelled { OnOk result (IsFront front.now (front_bytes front.now)) }
    ensures err { OnErr result (into.new.items ≡ into.old.items) }
    ensures refused { RefusesToWrite result (front_refusal front.now) }
{
    let length = checked_length(is_spelled(front), front_len(front), FRONT_LIMIT)?;
    let start = into.len();
    add_room(length as usize + 1, into)?;
    let (_, space) = into.split_at_mut(start);
    encode_front_from(front, 0, space);
    Ok(())
}

/// Writes a message's bytes from the offset on, as many as fit, and tells how many. Takes no memory.
pub fn encode_front_from(front: &Front, offset: u64, space: &mut [u8]) -> usize
    requires { front_refusal front.now ≡ None }
    ensures { Fills (front_bytes front.now) offset space.old space.new result }
{
    let mut at = Walk {
        skip: offset,
        filled: 0,
    };
    put_front_head(front, &mut at, space);
    put_front(front, &mut at, space);
    at.filled
}

/// The head of a message. Its length is worked out only where it is written.
fn put_front_head(front: &Front, at: &mut Walk, space: &mut [u8])
    requires within { at.old.filled ≤ length space.old }
    requires small { length (front_layout front.now) + 4 ≤ FRONT_LIMIT }
    ensures puts { Puts (head_bytes (front_byte (front_sent front.now).kind) (length (front_layout front.now) + 4)) at.old space.old at.new space.new }
    ensures within { at.new.filled ≤ length space.new }
{
    if at.skip >= 5 {
        at.skip -= 5;
    } else {
        let length = front_len(front);
        put_head(byte_of(front), length as u32, at, space);
    }
}

/// What the length field is to be.
pub fn front_len(front: &Front) -> u64
    ensures { result ≡ capped (length (front_layout front.now) + 4) }
{
    let mut at = Walk {
        skip: u64::MAX,
        filled: 0,
    };
    let mut space: [u8; 0] = [];
    put_front(front, &mut at, &mut space);
    passed(&at).saturating_add(4)
}

// ---- the messages, one by one

fn kind_of(byte: u8) -> Option<FrontKind>
    ensures { result ≡ front_kind byte }
{
    match byte {
        b'Q' => Some(FrontKind::Query),
        b'X' => Some(FrontKind::Terminate),
        _ => None,
    }
}

#[tactic(auto, unfolding(crate::specs::Front::front_sent))]
fn byte_of(front: &Front) -> u8
    ensures { result ≡ front_byte (front_sent front.now).kind }
{
    match front {
        Front::Query(_) => b'Q',
        Front::Terminate => b'X',
    }
}

/// Passes over the fields of a message, so that its faults are known before memory is taken.
#[tactic(auto, unfolding(crate::specs::Front::front_form), using(crate::proofs::Forms::passed_formed))]
fn pass_fields(kind: FrontKind, body: &[u8]) -> Result<&[u8], usize>
    ensures { Passes (λ rest. rest.now) result ((front_form kind).read body.now) }
{
    match kind {
        FrontKind::Query => Text::pass(body),
        FrontKind::Terminate => <()>::pass(body),
    }
}

#[tactic(auto, unfolding(crate::specs::Front::front_form, crate::specs::Sides::formed_at), using(crate::proofs::Packets::takes_any))]
fn read_fields(alloc: Global, kind: FrontKind, body: &[u8]) -> Result<(Front, &[u8]), Fault>
    ensures exact { ReadsAs (λ x. (x.0, x.1.now)) result ((front_form kind).read body.now) }
    ensures memory { TakesMemory result (takes_memory kind) }
{
    match kind {
        FrontKind::Query => {
            let (text, rest) = Text::read(alloc, body)?;
            Ok((Front::Query(text), rest))
        }
        FrontKind::Terminate => Ok((Front::Terminate, body)),
    }
}

#[tactic(auto, unfolding(crate::specs::Front::front_sent))]
fn is_spelled(front: &Front) -> bool
    ensures { result ≡ (front_sent front.now).good }
{
    match front {
        Front::Query(text) => text.is_good(),
        Front::Terminate => true,
    }
}

#[tactic(auto, unfolding(crate::specs::Front::front_sent), using(message_shapes::proofs::Steps::step_append, message_shapes::proofs::Steps::step_none))]
fn put_front(front: &Front, at: &mut Walk, space: &mut [u8])
    requires within { at.old.filled ≤ length space.old }
    ensures puts { Puts (front_layout front.now) at.old space.old at.new space.new }
    ensures within { at.new.filled ≤ length space.new }
{
    match front {
        Front::Query(text) => text.put(at, space),
        Front::Terminate => {}
    }
}
