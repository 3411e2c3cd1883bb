//! The transaction of one session over a store of snapshots.
//!
//! The path of a type's file is part of this crate's interface: a specification above names it.
#![tactic(auto)]

mod begin;
mod commit;
mod ending;
mod laws;
mod transaction;
mod undo;

pub use ending::Ending;
pub use laws::transaction_laws;
pub use transaction::Transaction;
