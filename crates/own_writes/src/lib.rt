//! The rows of a table after the writes of one's own transaction.
#![tactic(auto)]

mod rows;

pub use rows::rows_after;
