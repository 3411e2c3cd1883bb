//! The number in a write's tag, from the rows of its table under conditions.
#![tactic(auto)]

mod columns;
mod count;
mod lists;
mod met;

pub use count::count_write;
