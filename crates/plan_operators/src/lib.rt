//! The operators that make a row of one row: a filter, a union, an except and a choice, each for all variants at once.
#![tactic(auto)]

mod choice;
mod except;
mod filter;
mod union;

pub use choice::chosen;
pub use except::excepted;
pub use filter::filtered;
pub use union::united;
