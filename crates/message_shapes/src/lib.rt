//! Fields of messages by their shapes: of each field one reader, one spelling and one writer, and of each shape its laws.
//!
//! The path of a type's file is part of this crate's interface: a specification above names it.
#![tactic(auto)]

mod fields;
mod parts;
mod walk;

pub use fields::{Fault, end, read_byte, read_string, read_u16, read_u32, read_word};
pub use parts::{Part, are_good, pass_ended, put_ended, read_ended, read_format};
pub use walk::{Walk, passed, put, put_byte, put_string, put_u16, put_u32};
