//! Bytes that go into a space from an offset on. No memory is taken.

ghost use Rattle.std.specs.Prelude.{◌≡◌, ◌==◌, ◌&&◌, ◌+◌, ◌-◌, ◌^◌, ◌≤◌, ◌++◌, length, take, drop};
ghost use Rattle.std.specs.Int.{w16, w32};
ghost use Rattle.message_shapes.specs.Shapes.{string_bytes, number_bytes, one_byte};
ghost use Rattle.message_shapes.specs.Walks.{Puts, over};

use values::Text;

/// How far the bytes of a message have come.
#[derive(Clone, Copy, Debug)]
pub struct Walk {
    /// How many bytes are still passed over.
    pub skip: u64,
    /// How many bytes of the space are filled.
    pub filled: usize,
}

/// These bytes are next: those behind the offset are copied, as many as fit.
#[tactic(auto, unfolding(crate::specs::Walks::step))]
pub fn put(bytes: &[u8], at: &mut Walk, space: &mut [u8])
    requires { at.old.filled ≤ length space.old }
    ensures puts { Puts bytes.now at.old space.old at.new space.new }
    ensures within { at.new.filled ≤ length space.new }
{
    if at.skip >= bytes.len() as u64 {
        at.skip -= bytes.len() as u64;
        return;
    }
    let (_, rest) = bytes.split_at(at.skip as usize);
    at.skip = 0;
    let room = space.len() - at.filled;
    let count = if rest.len() < room { rest.len() } else { room };
    let (run, _) = rest.split_at(count);
    copy_run(run, at.filled, space);
    at.filled += count;
}

fn copy_run(run: &[u8], from: usize, space: &mut [u8])
    requires { from + length run.now ≤ length space.old }
    ensures { space.new ≡ over run.now from space.old }
{
    let (_, left) = space.split_at_mut(from);
    let (into, _) = left.split_at_mut(run.len());
    into.copy_from_slice(run);
}

/// The space is full, and nothing can be put any more.
pub fn is_full(at: &Walk, space: &[u8]) -> bool
    ensures { result ≡ (at.now.skip == 0 && at.now.filled == length space.now) }
{
    at.skip == 0 && at.filled == space.len()
}

#[tactic(auto, unfolding(crate::specs::Shapes::one_byte))]
pub fn put_byte(byte: u8, at: &mut Walk, space: &mut [u8])
    requires { at.old.filled ≤ length space.old }
    ensures puts { Puts (one_byte byte) at.old space.old at.new space.new }
    ensures within { at.new.filled ≤ length space.new }
{
    put(&[byte], at, space);
}

#[tactic(auto, unfolding(crate::specs::Shapes::number_bytes))]
pub fn put_u16(number: u16, at: &mut Walk, space: &mut [u8])
    requires { at.old.filled ≤ length space.old }
    ensures puts { Puts (number_bytes w16 number) at.old space.old at.new space.new }
    ensures within { at.new.filled ≤ length space.new }
{
    put(&number.to_be_bytes(), at, space);
}

#[tactic(auto, unfolding(crate::specs::Shapes::number_bytes))]
pub fn put_u32(number: u32, at: &mut Walk, space: &mut [u8])
    requires { at.old.filled ≤ length space.old }
    ensures puts { Puts (number_bytes w32 number) at.old space.old at.new space.new }
    ensures within { at.new.filled ≤ length space.new }
{
    put(&number.to_be_bytes(), at, space);
}

/// A text as a string, with the zero byte that ends it.
#[tactic(auto, unfolding(crate::specs::Shapes::string_bytes, crate::specs::Shapes::one_byte), using(crate::proofs::Steps::step_append))]
pub fn put_string(text: &Text, at: &mut Walk, space: &mut [u8])
    requires { at.old.filled ≤ length space.old }
    ensures puts { Puts (string_bytes text.now) at.old space.old at.new space.new }
    ensures within { at.new.filled ≤ length space.new }
{
    put(text.as_slice(), at, space);
    put_byte(0, at, space);
}

/// A count as two bytes.
#[tactic(auto, unfolding(crate::specs::Shapes::number_bytes), using(crate::proofs::Steps::step_low2))]
pub fn put_count(count: usize, at: &mut Walk, space: &mut [u8])
    requires { at.old.filled ≤ length space.old }
    ensures puts { Puts (number_bytes w16 count) at.old space.old at.new space.new }
    ensures within { at.new.filled ≤ length space.new }
{
    put_u16((count % 65_536) as u16, at, space);
}

/// A size as four bytes.
#[tactic(auto, unfolding(crate::specs::Shapes::number_bytes), using(crate::proofs::Steps::step_low4))]
pub fn put_size(size: usize, at: &mut Walk, space: &mut [u8])
    requires { at.old.filled ≤ length space.old }
    ensures puts { Puts (number_bytes w32 size) at.old space.old at.new space.new }
    ensures within { at.new.filled ≤ length space.new }
{
    put_u32((size % 4_294_967_296) as u32, at, space);
}

/// How many bytes were passed over, from the greatest offset on.
pub fn passed(at: &Walk) -> u64
    ensures { result ≡ (2 ^ 64 - 1) - at.now.skip }
{
    u64::MAX - at.skip
}
