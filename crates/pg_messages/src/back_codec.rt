ghost use Rattle.std.specs.Prelude.{◌≡◌, ℕ, ◌+◌, ◌≤◌, true, None, List as Items, ◌++◌, length, take, is_ok, OnOk, OnErr};
ghost use Rattle.std.specs.Int.{w32};
ghost use Rattle.message_shapes.specs.Fields.{ReadsAs, Reads, Passes};
ghost use Rattle.message_shapes.specs.Shapes.{fixed_at};
ghost use Rattle.message_shapes.specs.Walks.{Puts, Fills};
ghost use Rattle.pg_messages.specs.declared.back.Back.{Back};
ghost use Rattle.pg_messages.specs.Back.{status, back_kind, back_byte, back_form, back_sent, back_head, back_body, back_of, back_layout, back_bytes, back_refusal, IsBack};
ghost use Rattle.pg_messages.specs.Packet.{Answers, IfWhole, IfMemory, IsWithin, TakesMemory, is_whole};
ghost use Rattle.pg_messages.specs.Spelling.{RefusesToWrite, capped, head_bytes};

use crate::back::{BACK_LIMIT, Back, BackKind, ErrorField, Field, Status};
use crate::decoded::Decoded;
use crate::encode_refused::EncodeRefused;
use crate::packet::{Head, MESSAGE_HEAD, decoded, put_head, read_message_head};
use crate::room::{add_room, checked_length};
use message_shapes::{
    Fault, Part, Walk, are_good, end, pass_ended, passed, put_byte, put_ended, put_u16, put_u32,
    read_byte, read_ended, read_u16, read_u32,
};
use std::alloc::Global;
use values::{List, Text};

/// The message of a server at the front of the bytes. What lies behind it isn't looked at.
pub fn decode_back(alloc: Global, bytes: &[u8]) -> Decoded<Back>
    // What is read is spelled so by its bytes.
    ensures whole { IfWhole result (λ m n. (n ≤ length bytes.now) × IsBack m (take n bytes.now)) }
    ensures within { IfWhole result (λ m n. (5 ≤ n) × (n ≤ length bytes.now)) }
    // What is spelled so is read, whatever follows it.
    ensures read { (m : Back) (packet rest : Items ℕ) → IsBack m packet → bytes.now ≡ packet ++ rest → Answers result (Decoded.Whole m (length packet)) }
    // Where no message is read: its faults in their order, and their places.
    ensures exact { Answers result (back_of bytes.now) }
    // Memory is taken for a message that is all there and has no fault.
    ensures sound { IfMemory result (is_whole (back_of bytes.now) ≡ true) }
{
    back_at(alloc, bytes)
}

#[tactic(auto, unfolding(crate::specs::Sides::message_at), using(crate::proofs::Packets::answers_decoded, crate::proofs::Packets::sound_decoded))]
fn back_at(alloc: Global, bytes: &[u8]) -> Decoded<Back>
    ensures exact { Answers result (back_of bytes.now) }
    ensures sound { IfMemory result (is_whole (back_of bytes.now) ≡ true) }
{
    match read_back_head(bytes) {
        Head::More => Decoded::More,
        Head::Bad(place, why) => Decoded::Bad(place, why),
        Head::Packet(kind, length) => {
            let (packet, _) = bytes.split_at(length);
            let (_, body) = packet.split_at(MESSAGE_HEAD);
            decoded(length, read_back(alloc, kind, body))
        }
    }
}

#[tactic(auto, unfolding(crate::specs::Sides::head_at, crate::specs::Back::back_side))]
fn read_back_head(bytes: &[u8]) -> Head<BackKind>
    ensures exact { result ≡ back_head bytes.now }
    ensures within { IsWithin 5 (length bytes.now) result }
{
    match bytes.split_first() {
        None => Head::More,
        Some((byte, rest)) => read_message_head(BACK_LIMIT, kind_of(*byte), rest),
    }
}

#[tactic(auto, unfolding(crate::specs::Sides::body_at, crate::specs::Back::back_side), using(message_shapes::proofs::Passes::passed_ended, message_shapes::proofs::Passes::passed_spare))]
fn read_back(alloc: Global, kind: BackKind, body: &[u8]) -> Result<Back, Fault>
    ensures exact { ReadsAs (λ back. back) result (back_body kind body.now) }
    ensures sound { TakesMemory result (is_ok (back_body kind body.now)) }
{
    let rest = pass_fields(kind, body)?;
    end(rest)?;
    let (back, _) = read_fields(alloc, kind, body)?;
    Ok(back)
}

/// Writes a message at the end. What was there stays, whatever the answer.
#[tactic(auto, using(crate::proofs::Lengths::refusal_told, crate::proofs::BackLaws::back_written))]
pub fn encode_back(back: &Back, into: &mut Vec<u8>) -> Result<(), EncodeRefused>
    ensures ok { OnOk result (into.new.items ≡ into.old.items ++ back_bytes back.now) }
    ensures spelled { OnOk result (IsBack back.now (back_bytes back.now)) }
    ensures err { OnErr result (into.new.items ≡ into.old.items) }
    ensures refused { RefusesToWrite result (back_refusal back.now) }
{
    let length = checked_length(is_spelled(back), back_len(back), BACK_LIMIT)?;
    let start = into.len();
    add_room(length as usize + 1, into)?;
    let (_, space) = into.split_at_mut(start);
    encode_back_from(back, 0, space);
    Ok(())
}

/// Writes a message's bytes from the offset on, as many as fit, and tells how many. Takes no memory.
pub fn encode_back_from(back: &Back, offset: u64, space: &mut [u8]) -> usize
    requires { back_refusal back.now ≡ None }
    ensures { Fills (back_bytes back.now) offset space.old space.new result }
{
    let mut at = Walk {
        skip: offset,
        filled: 0,
    };
    put_back_head(back, &mut at, space);
    put_back(back, &mut at, space);
    at.filled
}

/// The head of a message. Its length is worked out only where it is written.
fn put_back_head(back: &Back, at: &mut Walk, space: &mut [u8])
    requires within { at.old.filled ≤ length space.old }
    requires small { length (back_layout back.now) + 4 ≤ BACK_LIMIT }
    ensures puts { Puts (head_bytes (back_byte (back_sent back.now).kind) (length (back_layout back.now) + 4)) at.old space.old at.new space.new }
    ensures within { at.new.filled ≤ length space.new }
{
    if at.skip >= 5 {
        at.skip -= 5;
    } else {
        let length = back_len(back);
        put_head(byte_of(back), length as u32, at, space);
    }
}

/// What the length field is to be.
pub fn back_len(back: &Back) -> u64
    ensures { result ≡ capped (length (back_layout back.now) + 4) }
{
    let mut at = Walk {
        skip: u64::MAX,
        filled: 0,
    };
    let mut space: [u8; 0] = [];
    put_back(back, &mut at, &mut space);
    passed(&at).saturating_add(4)
}

// ---- fields

impl Part for Status {
    ghost use Rattle.pg_messages.specs.Back.{status};

    ghost shape = { status };

    fn pass(bytes: &[u8]) -> Result<&[u8], usize> {
        let (_, rest) = read_status(bytes)?;
        Ok(rest)
    }

    fn read(_alloc: Global, bytes: &[u8]) -> Result<(Status, &[u8]), Fault> {
        let (status, rest) = read_status(bytes)?;
        Ok((status, rest))
    }

    fn is_good(&self) -> bool {
        true
    }

    fn put(&self, at: &mut Walk, space: &mut [u8]) {
        let byte = match self {
            Status::Idle => b'I',
            Status::InBlock => b'T',
            Status::Failed => b'E',
        };
        put_byte(byte, at, space);
    }
}

fn read_status(bytes: &[u8]) -> Result<(Status, &[u8]), usize>
    ensures { Reads (λ x. (x.0, x.1.now)) result (status.read bytes.now) }
{
    let (byte, rest) = read_byte(bytes)?;
    match byte {
        b'I' => Ok((Status::Idle, rest)),
        b'T' => Ok((Status::InBlock, rest)),
        b'E' => Ok((Status::Failed, rest)),
        _ => Err(bytes.len()),
    }
}

impl Part for Field {
    ghost use Rattle.pg_messages.specs.Back.{field};

    ghost shape = { field };

    #[tactic(auto, unfolding(crate::specs::Back::field))]
    fn pass(bytes: &[u8]) -> Result<&[u8], usize> {
        let rest = Text::pass(bytes)?;
        let (_, rest) = read_u32(rest)?;
        let (_, rest) = read_u16(rest)?;
        let (_, rest) = read_u32(rest)?;
        let (_, rest) = read_u16(rest)?;
        let (_, rest) = read_u32(rest)?;
        u16::pass(rest)
    }

    #[tactic(auto, unfolding(crate::specs::Back::field))]
    fn read(alloc: Global, bytes: &[u8]) -> Result<(Field, &[u8]), Fault> {
        let (name, rest) = Text::read(alloc, bytes)?;
        let (_, rest) = read_u32(rest)?;
        let (_, rest) = read_u16(rest)?;
        let (kind_number, rest) = u32::read(alloc, rest)?;
        let (size, rest) = i16::read(alloc, rest)?;
        let (_, rest) = read_u32(rest)?;
        let (format, rest) = u16::read(alloc, rest)?;
        Ok((
            Field {
                name,
                kind_number,
                size,
                format,
            },
            rest,
        ))
    }

    #[tactic(auto, unfolding(crate::specs::Back::field))]
    fn is_good(&self) -> bool {
        let fits = self.kind_number.is_good() && self.size.is_good();
        self.name.is_good() && fits && self.format.is_good()
    }

    #[tactic(auto, unfolding(crate::specs::Back::field), using(message_shapes::proofs::Steps::step_append))]
    fn put(&self, at: &mut Walk, space: &mut [u8]) {
        self.name.put(at, space);
        put_u32(0, at, space);
        put_u16(0, at, space);
        self.kind_number.put(at, space);
        self.size.put(at, space);
        put_u32(u32::MAX, at, space);
        self.format.put(at, space);
    }
}

impl Part for ErrorField {
    ghost use Rattle.pg_messages.specs.Back.{error_field};

    ghost shape = { error_field };

    #[tactic(auto, unfolding(crate::specs::Back::error_field), using(message_shapes::proofs::Passes::passed_made))]
    fn pass(bytes: &[u8]) -> Result<&[u8], usize> {
        <(u8, Text)>::pass(bytes)
    }

    #[tactic(auto, unfolding(crate::specs::Back::error_field))]
    fn read(alloc: Global, bytes: &[u8]) -> Result<(ErrorField, &[u8]), Fault> {
        let ((code, text), rest) = <(u8, Text)>::read(alloc, bytes)?;
        Ok((ErrorField { code, text }, rest))
    }

    #[tactic(auto, unfolding(crate::specs::Back::error_field))]
    fn is_good(&self) -> bool {
        self.code.is_good() && self.text.is_good()
    }

    #[tactic(auto, unfolding(crate::specs::Back::error_field), using(message_shapes::proofs::Steps::step_append))]
    fn put(&self, at: &mut Walk, space: &mut [u8]) {
        self.code.put(at, space);
        self.text.put(at, space);
    }
}

/// The number 0, which says that no further authentication is wanted.
fn read_zero(bytes: &[u8]) -> Result<&[u8], usize>
    ensures { Reads (λ rest. (tt, rest.now)) result (fixed_at w32 0 bytes.now) }
{
    let (number, rest) = read_u32(bytes)?;
    if number != 0 {
        return Err(bytes.len());
    }
    Ok(rest)
}

fn pass_zero(bytes: &[u8]) -> Result<&[u8], usize>
    ensures { Passes (λ rest. rest.now) result (fixed_at w32 0 bytes.now) }
{
    read_zero(bytes)
}

// ---- the messages, one by one

fn kind_of(byte: u8) -> Option<BackKind>
    ensures { result ≡ back_kind byte }
{
    match byte {
        b'R' => Some(BackKind::AuthenticationOk),
        b'K' => Some(BackKind::BackendKeyData),
        b'S' => Some(BackKind::ParameterStatus),
        b'Z' => Some(BackKind::ReadyForQuery),
        b'T' => Some(BackKind::RowDescription),
        b'D' => Some(BackKind::DataRow),
        b'C' => Some(BackKind::CommandComplete),
        b'I' => Some(BackKind::EmptyQueryResponse),
        b'E' => Some(BackKind::ErrorResponse),
        _ => None,
    }
}

#[tactic(auto, unfolding(crate::specs::Back::back_sent))]
fn byte_of(back: &Back) -> u8
    ensures { result ≡ back_byte (back_sent back.now).kind }
{
    match back {
        Back::AuthenticationOk => b'R',
        Back::BackendKeyData(_, _) => b'K',
        Back::ParameterStatus(_, _) => b'S',
        Back::ReadyForQuery(_) => b'Z',
        Back::RowDescription(_) => b'T',
        Back::DataRow(_) => b'D',
        Back::CommandComplete(_) => b'C',
        Back::EmptyQueryResponse => b'I',
        Back::ErrorResponse(_) => b'E',
    }
}

/// Passes over the fields of a message, so that its faults are known before memory is taken.
#[tactic(auto, unfolding(crate::specs::Back::back_form), using(crate::proofs::Forms::passed_formed))]
fn pass_fields(kind: BackKind, body: &[u8]) -> Result<&[u8], usize>
    ensures { Passes (λ rest. rest.now) result ((back_form kind).read body.now) }
{
    match kind {
        BackKind::AuthenticationOk => pass_zero(body),
        BackKind::BackendKeyData => <(u32, u32)>::pass(body),
        BackKind::ParameterStatus => <(Text, Text)>::pass(body),
        BackKind::ReadyForQuery => Status::pass(body),
        BackKind::RowDescription => List::<Field>::pass(body),
        BackKind::DataRow => List::<Option<Text>>::pass(body),
        BackKind::CommandComplete => Text::pass(body),
        BackKind::EmptyQueryResponse => <()>::pass(body),
        BackKind::ErrorResponse => pass_ended::<ErrorField>(body),
    }
}

#[tactic(auto, unfolding(crate::specs::Back::back_form, crate::specs::Sides::formed_at))]
fn read_fields(alloc: Global, kind: BackKind, body: &[u8]) -> Result<(Back, &[u8]), Fault>
    ensures { ReadsAs (λ x. (x.0, x.1.now)) result ((back_form kind).read body.now) }
{
    match kind {
        BackKind::AuthenticationOk => {
            let rest = read_zero(body)?;
            Ok((Back::AuthenticationOk, rest))
        }
        BackKind::BackendKeyData => {
            let ((process, key), rest) = <(u32, u32)>::read(alloc, body)?;
            Ok((Back::BackendKeyData(process, key), rest))
        }
        BackKind::ParameterStatus => {
            let ((name, value), rest) = <(Text, Text)>::read(alloc, body)?;
            Ok((Back::ParameterStatus(name, value), rest))
        }
        BackKind::ReadyForQuery => {
            let (status, rest) = Status::read(alloc, body)?;
            Ok((Back::ReadyForQuery(status), rest))
        }
        BackKind::RowDescription => {
            let (fields, rest) = List::<Field>::read(alloc, body)?;
            Ok((Back::RowDescription(fields), rest))
        }
        BackKind::DataRow => {
            let (cells, rest) = List::<Option<Text>>::read(alloc, body)?;
            Ok((Back::DataRow(cells), rest))
        }
        BackKind::CommandComplete => {
            let (tag, rest) = Text::read(alloc, body)?;
            Ok((Back::CommandComplete(tag), rest))
        }
        BackKind::EmptyQueryResponse => Ok((Back::EmptyQueryResponse, body)),
        BackKind::ErrorResponse => {
            let (fields, rest) = read_ended::<ErrorField>(alloc, body)?;
            Ok((Back::ErrorResponse(fields), rest))
        }
    }
}

#[tactic(auto, unfolding(crate::specs::Back::back_sent))]
fn is_spelled(back: &Back) -> bool
    ensures { result ≡ (back_sent back.now).good }
{
    match back {
        Back::AuthenticationOk | Back::EmptyQueryResponse => true,
        Back::BackendKeyData(process, key) => process.is_good() && key.is_good(),
        Back::ParameterStatus(name, value) => name.is_good() && value.is_good(),
        Back::ReadyForQuery(status) => status.is_good(),
        Back::RowDescription(fields) => fields.is_good(),
        Back::DataRow(cells) => cells.is_good(),
        Back::CommandComplete(tag) => tag.is_good(),
        Back::ErrorResponse(fields) => are_good(fields.as_slice()),
    }
}

#[tactic(auto, unfolding(crate::specs::Back::back_sent), using(message_shapes::proofs::Steps::step_append, message_shapes::proofs::Steps::step_none))]
fn put_back(back: &Back, at: &mut Walk, space: &mut [u8])
    requires within { at.old.filled ≤ length space.old }
    ensures puts { Puts (back_layout back.now) at.old space.old at.new space.new }
    ensures within { at.new.filled ≤ length space.new }
{
    match back {
        Back::AuthenticationOk => put_u32(0, at, space),
        Back::BackendKeyData(process, key) => {
            process.put(at, space);
            key.put(at, space);
        }
        Back::ParameterStatus(name, value) => {
            name.put(at, space);
            value.put(at, space);
        }
        Back::ReadyForQuery(status) => status.put(at, space),
        Back::RowDescription(fields) => fields.put(at, space),
        Back::DataRow(cells) => cells.put(at, space),
        Back::CommandComplete(tag) => tag.put(at, space),
        Back::EmptyQueryResponse => {}
        Back::ErrorResponse(fields) => put_ended(fields.as_slice(), at, space),
    }
}
