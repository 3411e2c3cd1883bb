//! What the first bytes of a packet tell: which it is, and how many bytes it has.

ghost use Rattle.std.specs.Prelude.{◌≡◌, ◌+◌, ◌≤◌, length};
ghost use Rattle.message_shapes.specs.Walks.{Puts};
ghost use Rattle.pg_messages.specs.Spelling.{head_bytes};
ghost use Rattle.pg_messages.specs.Packet.{IsWithin, message_head, decoded_from};

use crate::decoded::{Decoded, Why};
use message_shapes::{Fault, Walk, put_byte, put_u32};

/// The bytes before a message's body: its type byte and its length.
pub const MESSAGE_HEAD: usize = 5;

/// What a packet's head tells.
#[derive(Drop)]
pub enum Head<K> {
    More,
    Bad(usize, Why),
    /// Which packet it is, and how many bytes it has, all of which are there.
    Packet(K, usize),
}

/// The head of a message behind its type byte, where messages of its side have this greatest length.
#[tactic(auto, unfolding(crate::specs::Packet::message_head))]
pub fn read_message_head<K: Drop>(most: u32, kind: Option<K>, rest: &[u8]) -> Head<K>
    ensures exact { result ≡ message_head most kind rest.now }
    ensures within { IsWithin 5 (length rest.now + 1) result }
{
    let Some(kind) = kind else {
        return Head::Bad(0, Why::TypeByte);
    };
    if rest.len() < 4 {
        return Head::More;
    }
    let (front, _) = rest.split_at(4);
    let size = u32::from_be_bytes([front[0], front[1], front[2], front[3]]);
    if size < 4 || most < size {
        Head::Bad(1, Why::Length)
    } else if rest.len() < size as usize {
        Head::More
    } else {
        Head::Packet(kind, size as usize + 1)
    }
}

/// The answer on a packet of so many bytes, of whose body this was read.
pub fn decoded<T>(length: usize, read: Result<T, Fault>) -> Decoded<T>
    ensures { result ≡ decoded_from length read }
{
    match read {
        Ok(packet) => Decoded::Whole(packet, length),
        Err(Fault::Before(left)) => Decoded::Bad(length.saturating_sub(left), Why::Body),
        Err(Fault::Memory) => Decoded::Memory,
    }
}

/// The type byte and the length of a message are next.
#[tactic(auto, unfolding(crate::specs::Spelling::head_bytes), using(message_shapes::proofs::Steps::step_append))]
pub fn put_head(byte: u8, size: u32, at: &mut Walk, space: &mut [u8])
    requires { at.old.filled ≤ length space.old }
    ensures puts { Puts (head_bytes byte size) at.old space.old at.new space.new }
    ensures within { at.new.filled ≤ length space.new }
{
    put_byte(byte, at, space);
    put_u32(size, at, space);
}
