//! The rows of stored tables as versions, for the snapshots of a store.
//!
//! The path of a type's file is part of this crate's interface: a specification above names it.
#![tactic(auto)]

mod clean;
mod count;
mod counting;
mod ended;
mod held;
mod mark;
mod newest;
mod opened;
mod opening;
mod part;
mod prepared;
mod seen;
mod versions;

pub use prepared::Prepared;
pub use versions::RowVersions;
