//! Fields, read from the front of the bytes that are left of a body: each answers its value and the bytes behind it, or
//! else how many bytes are left from the bad field on.

ghost use Rattle.std.specs.Prelude.{◌≡◌, IfOk};
ghost use Rattle.std.specs.Int.{w16, w32};
ghost use Rattle.std.specs.List.{position};
ghost use Rattle.message_shapes.specs.Fields.{ReadsAs, Reads, ended, is_zero, number_at, byte_at, string_at};
ghost use Rattle.message_shapes.specs.Shapes.{word_at};

use std::alloc::Global;
use values::{Memory, Text};

/// Why a field wasn't copied.
#[derive(Debug, Drop)]
pub enum Fault {
    /// The bytes break the grammar, first at the field that begins this many bytes before the packet's end.
    Before(usize),
    Memory,
}

impl From<Memory> for Fault {
    ghost use Rattle.message_shapes.specs.declared.fields.Fault.TheVariants as fault;

    ghost from_gives = { λ _ e. e ≡ fault.Memory };

    fn from(_memory: Memory) -> Fault {
        Fault::Memory
    }
}

impl From<usize> for Fault {
    ghost use Rattle.message_shapes.specs.declared.fields.Fault.TheVariants as fault;

    ghost from_gives = { λ left e. e ≡ fault.Before left };

    fn from(left: usize) -> Fault {
        Fault::Before(left)
    }
}

/// The place of the first zero byte.
pub fn zero_place(bytes: &[u8]) -> Option<usize>
    ensures { result ≡ position is_zero bytes.now }
{
    bytes.iter().position(|byte| *byte == 0)
}

/// A string's bytes without the zero byte that ends it.
#[tactic(auto, unfolding(crate::specs::Fields::string_at))]
pub fn read_string(bytes: &[u8]) -> Result<(&[u8], &[u8]), usize>
    ensures { Reads (λ x. (x.0.now, x.1.now)) result (string_at bytes.now) }
{
    match zero_place(bytes) {
        None => Err(bytes.len()),
        Some(place) => {
            let (string, rest) = bytes.split_at(place);
            let (_, rest) = rest.split_at(1);
            Ok((string, rest))
        }
    }
}

/// A string that isn't empty, without the zero byte that ends it.
pub fn read_word(bytes: &[u8]) -> Result<(&[u8], &[u8]), usize>
    ensures { Reads (λ x. (x.0.now, x.1.now)) result (word_at bytes.now) }
{
    let (string, rest) = read_string(bytes)?;
    if string.is_empty() {
        return Err(bytes.len());
    }
    Ok((string, rest))
}

/// A string, copied.
#[tactic(auto, unfolding(crate::specs::Fields::string_at))]
pub fn read_text(alloc: Global, bytes: &[u8]) -> Result<(Text, &[u8]), Fault>
    ensures { ReadsAs (λ x. (x.0, x.1.now)) result (string_at bytes.now) }
{
    let (string, rest) = read_string(bytes)?;
    let text = Text::from_slice(alloc, string)?;
    Ok((text, rest))
}

pub fn read_u32(bytes: &[u8]) -> Result<(u32, &[u8]), usize>
    ensures { Reads (λ x. (x.0, x.1.now)) result (number_at w32 bytes.now) }
{
    if bytes.len() < 4 {
        return Err(bytes.len());
    }
    let (front, rest) = bytes.split_at(4);
    let number = u32::from_be_bytes([front[0], front[1], front[2], front[3]]);
    Ok((number, rest))
}

pub fn read_u16(bytes: &[u8]) -> Result<(u16, &[u8]), usize>
    ensures { Reads (λ x. (x.0, x.1.now)) result (number_at w16 bytes.now) }
{
    if bytes.len() < 2 {
        return Err(bytes.len());
    }
    let (front, rest) = bytes.split_at(2);
    let number = u16::from_be_bytes([front[0], front[1]]);
    Ok((number, rest))
}

pub fn read_byte(bytes: &[u8]) -> Result<(u8, &[u8]), usize>
    ensures { Reads (λ x. (x.0, x.1.now)) result (byte_at bytes.now) }
{
    match bytes.split_first() {
        None => Err(bytes.len()),
        Some((byte, rest)) => Ok((*byte, rest)),
    }
}

/// Asks that nothing is left.
pub fn end(rest: &[u8]) -> Result<(), usize>
    ensures { Reads (λ done. done) result (ended (tt, rest.now)) }
{
    if !rest.is_empty() {
        return Err(rest.len());
    }
    Ok(())
}
