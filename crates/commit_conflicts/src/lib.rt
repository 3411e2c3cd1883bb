//! The commit rule: writes are in conflict with a commit past their snapshot that wrote a table that they write.
//!
//! The path of a type's file is part of this crate's interface: a specification above names it.
#![tactic(auto)]

mod conflict;
mod tables;

pub use conflict::{TableConflict, first_conflict};
