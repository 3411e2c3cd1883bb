//! What is made of a row under conditions: the expression in which a condition is true of it, and the pair of two rows.
#![tactic(auto)]

mod comparison;
mod pair;
mod truth;

pub use comparison::Part;
pub use pair::pair_rows;
pub use truth::{cond_on_row, row_truth, truth_on};
