//! The places of rows under keys that are made of them, found by a map.
//!
//! The path of a type's file is part of this crate's interface: a specification above names it.
#![tactic(auto)]

mod places;

pub use places::Places;
