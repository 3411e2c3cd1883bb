//! The answer to a query in a transaction: over what its snapshot sees of a store, and its own writes.
#![tactic(auto)]

mod answer;
mod counted;
mod tables;

pub use answer::answer_over;
