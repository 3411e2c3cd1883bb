//! What a write makes of its table, in one variant and in all of them at once, and when a write counts.
//!
//! The path of a type's file is part of this crate's interface: a specification above names it.
#![tactic(auto)]

mod fate;
mod laws;

pub use fate::Fate;
pub use laws::write_laws;
