//! A write of a statement over the tables of a store: whether it counts, and the number in its tag.
#![tactic(auto)]

mod check;
mod count;

pub use check::check_own_write;
pub use count::count_write;
