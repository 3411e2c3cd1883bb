//! A store of row versions over a log of commits.
//!
//! The path of a type's file is part of this crate's interface: a specification above names it.
#![tactic(auto)]

mod answers;
mod apply;
mod begin;
mod commit;
mod open;
mod read;
mod release;
mod store;

pub use answers::{BeginRefused, CommitAnswer, OpenRefused};
pub use store::Store;
