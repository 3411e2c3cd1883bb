//! Stored tables with their rows in every variant, and what the operators of a plan share: columns put together, the
//! cells of rows laid in their order, a row under a condition.
//!
//! The path of a type's file is part of this crate's interface: a specification above names it.
#![tactic(auto)]

mod lay;
mod place;
mod rows;
mod settle;

pub use lay::{laid_cells, put_laid, put_moved};
pub use place::{and_once, is_false, is_same_column, is_true, or_once, put_copied, put_under};
pub use rows::{Rows, TableRows};
pub use settle::{any_of, put_columns, put_columns_under, settled};
