//! The fields of messages. Each is read from the front of the bytes that are left of a body, and put into a space.

ghost use Rattle.std.specs.Prelude.{◌≡◌, ◌≤◌, not, List as Items, length};
ghost use Rattle.std.specs.Option.{option_map};
ghost use Rattle.std.specs.List.{list_all, flat_map};
ghost use Rattle.std.specs.Int.{w16};
ghost use Rattle.message_shapes.specs.Fields.{Passes, PassesNext, Reads, ReadsAs, times};
ghost use Rattle.message_shapes.specs.Shapes.{Shape, mark_at, low_at, size_at, sized_at, sized_bytes, ended_at, ended_bytes, next_at};
ghost use Rattle.message_shapes.specs.Walks.{Puts};

use crate::fields::{Fault, read_byte, read_string, read_text, read_u16, read_u32};
use crate::walk::{
    Walk, is_full, put, put_byte, put_count, put_size, put_string, put_u16, put_u32,
};
use std::alloc::Global;
use values::{List, Text};

/// The size -1, which stands for no bytes.
pub const NO_BYTES: u32 = 4_294_967_295;

/// The greatest size of bytes.
pub const SIZE_LIMIT: u32 = 2_147_483_647;

/// The most items that a message can count.
pub const COUNT_LIMIT: usize = 65_535;

/// A field, by its shape.
pub trait Part: Drop {
    ghost shape: { Shape Self };

    /// Passes over the field, so that its faults are known before memory is taken.
    fn pass(bytes: &[u8]) -> Result<&[u8], usize>
        ensures { Passes (λ rest. rest.now) result (shape.read bytes.now) };

    /// The field and the bytes behind it.
    fn read(alloc: Global, bytes: &[u8]) -> Result<(Self, &[u8]), Fault>
        ensures { ReadsAs (λ x. (x.0, x.1.now)) result (shape.read bytes.now) };

    /// Whether the field can be written.
    fn is_good(&self) -> bool
        ensures { result ≡ shape.good self.now };

    /// The field's bytes are next.
    fn put(&self, at: &mut Walk, space: &mut [u8])
        requires { at.old.filled ≤ length space.old }
        ensures puts { Puts (shape.write self.now) at.old space.old at.new space.new }
        ensures within { at.new.filled ≤ length space.new };
}

/// A string, with the zero byte that ends it.
impl Part for Text {
    ghost use Rattle.message_shapes.specs.Shapes.{string};

    ghost shape = { string };

    fn pass(bytes: &[u8]) -> Result<&[u8], usize> {
        let (_, rest) = read_string(bytes)?;
        Ok(rest)
    }

    fn read(alloc: Global, bytes: &[u8]) -> Result<(Text, &[u8]), Fault> {
        read_text(alloc, bytes)
    }

    fn is_good(&self) -> bool {
        self.as_slice().iter().all(|byte| *byte != 0)
    }

    fn put(&self, at: &mut Walk, space: &mut [u8]) {
        put_string(self, at, space);
    }
}

/// A byte other than zero.
impl Part for u8 {
    ghost use Rattle.message_shapes.specs.Shapes.{mark};

    ghost shape = { mark };

    fn pass(bytes: &[u8]) -> Result<&[u8], usize> {
        let (_, rest) = read_mark(bytes)?;
        Ok(rest)
    }

    fn read(_alloc: Global, bytes: &[u8]) -> Result<(u8, &[u8]), Fault> {
        let (mark, rest) = read_mark(bytes)?;
        Ok((mark, rest))
    }

    fn is_good(&self) -> bool {
        *self != 0
    }

    fn put(&self, at: &mut Walk, space: &mut [u8]) {
        put_byte(*self, at, space);
    }
}

fn read_mark(bytes: &[u8]) -> Result<(u8, &[u8]), usize>
    ensures { Reads (λ x. (x.0, x.1.now)) result (mark_at bytes.now) }
{
    let (byte, rest) = read_byte(bytes)?;
    if byte == 0 {
        return Err(bytes.len());
    }
    Ok((byte, rest))
}

/// A format, 0 or 1.
impl Part for u16 {
    ghost use Rattle.message_shapes.specs.Shapes.{low};
    ghost use Rattle.std.specs.Int.{w16};

    ghost shape = { low w16 1 };

    fn pass(bytes: &[u8]) -> Result<&[u8], usize> {
        let (_, rest) = read_format(bytes)?;
        Ok(rest)
    }

    fn read(_alloc: Global, bytes: &[u8]) -> Result<(u16, &[u8]), Fault> {
        let (format, rest) = read_format(bytes)?;
        Ok((format, rest))
    }

    fn is_good(&self) -> bool {
        *self <= 1
    }

    fn put(&self, at: &mut Walk, space: &mut [u8]) {
        put_u16(*self, at, space);
    }
}

/// A format, 0 or 1, and the bytes behind it.
pub fn read_format(bytes: &[u8]) -> Result<(u16, &[u8]), usize>
    ensures { Reads (λ x. (x.0, x.1.now)) result (low_at w16 1 bytes.now) }
{
    let (format, rest) = read_u16(bytes)?;
    if format > 1 {
        return Err(bytes.len());
    }
    Ok((format, rest))
}

/// A number of four bytes.
impl Part for u32 {
    ghost use Rattle.message_shapes.specs.Shapes.{number};
    ghost use Rattle.std.specs.Int.{w32};

    ghost shape = { number w32 };

    fn pass(bytes: &[u8]) -> Result<&[u8], usize> {
        let (_, rest) = read_u32(bytes)?;
        Ok(rest)
    }

    fn read(_alloc: Global, bytes: &[u8]) -> Result<(u32, &[u8]), Fault> {
        let (number, rest) = read_u32(bytes)?;
        Ok((number, rest))
    }

    fn is_good(&self) -> bool {
        *self <= u32::MAX
    }

    fn put(&self, at: &mut Walk, space: &mut [u8]) {
        put_u32(*self, at, space);
    }
}

/// A signed number of two bytes.
impl Part for i16 {
    ghost use Rattle.message_shapes.specs.Shapes.{signed};
    ghost use Rattle.std.specs.Int.{w16};

    ghost shape = { signed w16 };

    fn pass(bytes: &[u8]) -> Result<&[u8], usize> {
        let (_, rest) = read_u16(bytes)?;
        Ok(rest)
    }

    fn read(_alloc: Global, bytes: &[u8]) -> Result<(i16, &[u8]), Fault> {
        let (number, rest) = read_u16(bytes)?;
        Ok((number.cast_signed(), rest))
    }

    fn is_good(&self) -> bool {
        let number = self.cast_unsigned();
        number <= u16::MAX
    }

    fn put(&self, at: &mut Walk, space: &mut [u8]) {
        put_u16(self.cast_unsigned(), at, space);
    }
}

/// A value's bytes, or none.
impl Part for Option<Text> {
    ghost use Rattle.message_shapes.specs.Shapes.{sized};

    ghost shape = { sized };

    fn pass(bytes: &[u8]) -> Result<&[u8], usize> {
        let (_, rest) = read_sized(bytes)?;
        Ok(rest)
    }

    fn read(alloc: Global, bytes: &[u8]) -> Result<(Option<Text>, &[u8]), Fault> {
        let (value, rest) = read_sized(bytes)?;
        match value {
            None => Ok((None, rest)),
            Some(value) => {
                let value = Text::from_slice(alloc, value)?;
                Ok((Some(value), rest))
            }
        }
    }

    fn is_good(&self) -> bool {
        true
    }

    fn put(&self, at: &mut Walk, space: &mut [u8]) {
        put_sized(self, at, space);
    }
}

#[tactic(auto, unfolding(crate::specs::Shapes::sized_at))]
fn read_sized(bytes: &[u8]) -> Result<(Option<&[u8]>, &[u8]), usize>
    ensures { Reads (λ x. (option_map (λ v. v.now) x.0, x.1.now)) result (sized_at bytes.now) }
{
    let (size, rest) = read_size(bytes)?;
    if size == NO_BYTES {
        return Ok((None, rest));
    }
    if rest.len() < size as usize {
        return Err(rest.len());
    }
    let (value, rest) = rest.split_at(size as usize);
    Ok((Some(value), rest))
}

/// A size, or -1.
fn read_size(bytes: &[u8]) -> Result<(u32, &[u8]), usize>
    ensures { Reads (λ x. (x.0, x.1.now)) result (size_at bytes.now) }
{
    let (size, rest) = read_u32(bytes)?;
    if size == NO_BYTES || size <= SIZE_LIMIT {
        return Ok((size, rest));
    }
    Err(bytes.len())
}

#[tactic(auto, unfolding(crate::specs::Shapes::sized_bytes, crate::specs::Shapes::number_bytes), using(crate::proofs::Steps::step_size))]
fn put_sized(value: &Option<Text>, at: &mut Walk, space: &mut [u8])
    requires { at.old.filled ≤ length space.old }
    ensures puts { Puts (sized_bytes value.now) at.old space.old at.new space.new }
    ensures within { at.new.filled ≤ length space.new }
{
    match value {
        None => put_u32(NO_BYTES, at, space),
        Some(bytes) => {
            put_size(bytes.len(), at, space);
            put(bytes.as_slice(), at, space);
        }
    }
}

/// No bytes.
impl Part for () {
    ghost use Rattle.message_shapes.specs.Shapes.{nothing};

    ghost shape = { nothing };

    fn pass(bytes: &[u8]) -> Result<&[u8], usize> {
        Ok(bytes)
    }

    fn read(_alloc: Global, bytes: &[u8]) -> Result<((), &[u8]), Fault> {
        Ok(((), bytes))
    }

    fn is_good(&self) -> bool {
        true
    }

    #[tactic(auto, using(crate::proofs::Steps::step_none))]
    fn put(&self, _at: &mut Walk, _space: &mut [u8]) {}
}

/// One field behind the other.
impl<A: Part, B: Part> Part for (A, B) {
    ghost use Rattle.message_shapes.specs.Shapes.{◌&◌};

    ghost shape = { A.shape & B.shape };

    #[tactic(auto, using(crate::proofs::Passes::passed_both))]
    fn pass(bytes: &[u8]) -> Result<&[u8], usize> {
        let rest = A::pass(bytes)?;
        B::pass(rest)
    }

    fn read(alloc: Global, bytes: &[u8]) -> Result<((A, B), &[u8]), Fault> {
        let (first, rest) = A::read(alloc, bytes)?;
        let (second, rest) = B::read(alloc, rest)?;
        Ok(((first, second), rest))
    }

    fn is_good(&self) -> bool {
        self.0.is_good() && self.1.is_good()
    }

    #[tactic(auto, using(crate::proofs::Steps::step_append))]
    fn put(&self, at: &mut Walk, space: &mut [u8]) {
        self.0.put(at, space);
        self.1.put(at, space);
    }
}

/// A number of fields, and the fields.
impl<T: Part> Part for List<T> {
    ghost use Rattle.message_shapes.specs.Shapes.{counted};

    ghost shape = { counted T.shape };

    fn pass(bytes: &[u8]) -> Result<&[u8], usize> {
        let (count, rest) = read_u16(bytes)?;
        pass_times::<T>(count, rest)
    }

    fn read(alloc: Global, bytes: &[u8]) -> Result<(List<T>, &[u8]), Fault> {
        let (count, rest) = read_u16(bytes)?;
        read_times(alloc, count, rest)
    }

    fn is_good(&self) -> bool {
        self.len() <= COUNT_LIMIT && are_good(self.as_slice())
    }

    #[tactic(auto, using(crate::proofs::Steps::step_count))]
    fn put(&self, at: &mut Walk, space: &mut [u8]) {
        put_count(self.len(), at, space);
        put_all(self.as_slice(), at, space);
    }
}

#[tactic(auto, using(crate::proofs::Loops::counted_fault, crate::proofs::Loops::counted_one, crate::proofs::Loops::counted_out))]
fn pass_times<T: Part>(count: u16, bytes: &[u8]) -> Result<&[u8], usize>
    ensures { Passes (λ rest. rest.now) result (times T.shape.read count bytes.now) }
{
    let mut rest = bytes;
    for _ in 0..count {
        rest = T::pass(rest)?;
    }
    Ok(rest)
}

#[tactic(auto, using(crate::proofs::Loops::times_fault, crate::proofs::Loops::times_one, crate::proofs::Loops::times_out))]
fn read_times<T: Part>(alloc: Global, count: u16, bytes: &[u8]) -> Result<(List<T>, &[u8]), Fault>
    ensures { ReadsAs (λ x. (x.0, x.1.now)) result (times T.shape.read count bytes.now) }
{
    let mut parts = List::new(alloc);
    let mut rest = bytes;
    for _ in 0..count {
        let (part, after) = T::read(alloc, rest)?;
        if parts.push(part).is_err() {
            return Err(Fault::Memory);
        }
        rest = after;
    }
    Ok((parts, rest))
}

/// Passes over fields up to the zero byte that ends them. None of them begins with a zero byte.
#[tactic(auto, using(crate::proofs::Loops::passed_fault, crate::proofs::Loops::passed_last, crate::proofs::Loops::passed_more, crate::proofs::Loops::passed_out))]
pub fn pass_ended<T: Part>(bytes: &[u8]) -> Result<&[u8], usize>
    ensures { Passes (λ rest. rest.now) result (ended_at T.shape.read bytes.now) }
{
    let mut rest = bytes;
    for _ in 0..bytes.len() {
        let (is_last, after) = pass_next::<T>(rest)?;
        if is_last {
            return Ok(after);
        }
        rest = after;
    }
    Err(rest.len())
}

/// Passes over the next field, or over the zero byte: then it is the last.
#[tactic(auto, unfolding(crate::specs::Shapes::next_at), using(crate::proofs::Passes::passed_next))]
fn pass_next<T: Part>(bytes: &[u8]) -> Result<(bool, &[u8]), usize>
    ensures { PassesNext (λ x. (x.0, x.1.now)) result (next_at T.shape.read bytes.now) }
{
    match bytes.split_first() {
        None => Err(0),
        Some((byte, rest)) => {
            if *byte == 0 {
                Ok((true, rest))
            } else {
                let rest = T::pass(bytes)?;
                Ok((false, rest))
            }
        }
    }
}

/// Fields up to the zero byte that ends them. None of them begins with a zero byte.
#[tactic(auto, using(crate::proofs::Loops::until_fault, crate::proofs::Loops::until_none, crate::proofs::Loops::until_some, crate::proofs::Loops::until_out))]
pub fn read_ended<T: Part>(alloc: Global, bytes: &[u8]) -> Result<(List<T>, &[u8]), Fault>
    ensures { ReadsAs (λ x. (x.0, x.1.now)) result (ended_at T.shape.read bytes.now) }
{
    let mut parts = List::new(alloc);
    let mut rest = bytes;
    for _ in 0..bytes.len() {
        let (part, after) = read_next::<T>(alloc, rest)?;
        match part {
            None => return Ok((parts, after)),
            Some(part) => {
                if parts.push(part).is_err() {
                    return Err(Fault::Memory);
                }
            }
        }
        rest = after;
    }
    Err(Fault::Before(rest.len()))
}

#[tactic(auto, unfolding(crate::specs::Shapes::next_at))]
fn read_next<T: Part>(alloc: Global, bytes: &[u8]) -> Result<(Option<T>, &[u8]), Fault>
    ensures { ReadsAs (λ x. (x.0, x.1.now)) result (next_at T.shape.read bytes.now) }
{
    match bytes.split_first() {
        None => Err(Fault::Before(0)),
        Some((byte, rest)) => {
            if *byte == 0 {
                Ok((None, rest))
            } else {
                let (part, rest) = T::read(alloc, bytes)?;
                Ok((Some(part), rest))
            }
        }
    }
}

pub fn are_good<T: Part>(parts: &[T]) -> bool
    ensures { result ≡ list_all T.shape.good parts.now }
{
    parts.iter().all(|part| part.is_good())
}

/// The fields are next, up to the end of the space.
#[tactic(auto, using(crate::proofs::Steps::step_none, crate::proofs::Steps::step_stays))]
pub fn put_all<T: Part>(parts: &[T], at: &mut Walk, space: &mut [u8])
    requires { at.old.filled ≤ length space.old }
    ensures puts { Puts (flat_map T.shape.write parts.now) at.old space.old at.new space.new }
    ensures within { at.new.filled ≤ length space.new }
{
    for part in parts {
        if is_full(at, space) {
            return;
        }
        part.put(at, space);
    }
}

/// The fields are next, and a zero byte that ends them.
#[tactic(auto, unfolding(crate::specs::Shapes::one_byte), using(crate::proofs::Steps::step_ended))]
pub fn put_ended<T: Part>(parts: &[T], at: &mut Walk, space: &mut [u8])
    requires { at.old.filled ≤ length space.old }
    ensures puts { Puts (ended_bytes T.shape.write parts.now) at.old space.old at.new space.new }
    ensures within { at.new.filled ≤ length space.new }
{
    put_all(parts, at, space);
    put_byte(0, at, space);
}
