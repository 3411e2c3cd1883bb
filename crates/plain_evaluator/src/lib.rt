//! What a query is in one variant, worked out in the simplest way by sets of rows, for tests to compare with: its
//! possible columns, the faults of its names, its plain type and its meaning. It is for small queries: it recurses on
//! both sides of a query, and copies what it needs.
#![tactic(auto)]

mod cases;
mod names;
mod operations;
mod possible;
mod relation;
mod types;
mod variant;
mod variants;

pub use cases::{Case, PlainType};
pub use names::name_cases;
pub use possible::possible_columns;
pub use relation::{Cell, Column, Relation};
pub use variant::Variant;
pub use variants::{admitted, is_well_typed};
