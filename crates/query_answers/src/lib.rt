//! The answer to a typed query in every variant, from the rows of the tables.
//!
//! The path of a type's file is part of this crate's interface: a specification above names it.
#![tactic(auto)]

mod answer;
mod opening;
mod retype;
mod scan;
mod simpler;

pub use answer::answer_query;
pub use opening::opening_rows;
