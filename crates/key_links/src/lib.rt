//! Links of a condition that compare a column by `=`, for tests that a row or a pair must pass before the whole
//! condition is made for it.
//!
//! The path of a type's file is part of this crate's interface: a specification above names it.
#![tactic(auto)]

mod columns;
mod literals;
mod only;

pub use columns::{ColumnLink, cell_at, column_link};
pub use literals::{ValueLink, meets_links, value_links};
