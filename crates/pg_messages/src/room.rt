//! Room at the end of bytes, and the length of a packet that may be written.

ghost use Rattle.std.specs.Prelude.{◌≡◌, ◌+◌, length, take, OnOk, OnErr, IfErr};
ghost use Rattle.pg_messages.specs.Spelling.{refusal_of, Checks};

use crate::encode_refused::EncodeRefused;

/// The length field, where a packet with this one may be written.
pub fn checked_length(has_spelling: bool, length: u64, most: u32) -> Result<u32, EncodeRefused>
    ensures { Checks result length (refusal_of has_spelling length most) }
{
    if !has_spelling {
        Err(EncodeRefused::NotSpelled)
    } else if length > most as u64 {
        Err(EncodeRefused::TooLong(length))
    } else {
        Ok(length as u32)
    }
}

/// Adds so many bytes, which are to be overwritten.
pub fn add_room(more: usize, into: &mut Vec<u8>) -> Result<(), EncodeRefused>
    ensures kept { OnOk result (take (length into.old.items) into.new.items ≡ into.old.items) }
    ensures more { OnOk result (length into.new.items ≡ length into.old.items + more) }
    ensures err { OnErr result (into.new.items ≡ into.old.items) }
    ensures why { IfErr result (λ why. why ≡ EncodeRefused.Memory) }
{
    let old = into.len();
    match old.checked_add(more) {
        None => Err(EncodeRefused::Memory),
        Some(size) => match into.resize(size, 0) {
            Ok(()) => Ok(()),
            Err(_) => Err(EncodeRefused::Memory),
        },
    }
}
