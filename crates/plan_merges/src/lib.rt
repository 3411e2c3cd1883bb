//! The operators under which several columns may come to have one name and kind: items, an alias and a join, each for
//! all variants at once.
//!
//! The path of a type's file is part of this crate's interface: a specification above names it.
#![tactic(auto)]

mod alias;
mod join;
mod keep;
mod linked;
mod merge;
mod way;

pub use alias::aliased;
pub use join::joined;
pub use keep::kept;
