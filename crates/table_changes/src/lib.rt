//! What a commit makes of the newest rows of stored tables.
//!
//! The path of a type's file is part of this crate's interface: a specification above names it.
#![tactic(auto)]

mod change;

pub use change::TableChange;
