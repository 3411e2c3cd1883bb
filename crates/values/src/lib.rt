//! The small types that every other crate counts with: lists, texts, names, values, and copies where memory is left.
//!
//! The path of a type's file is part of this crate's interface: a specification above names it.
#![tactic(auto)]

mod column_name;
mod list;
mod memory;
mod text;
mod value;

pub use column_name::ColName;
pub use list::List;
pub use memory::{Memory, TryCopy};
pub use text::{Name, Text};
pub use value::{Kind, Value};
