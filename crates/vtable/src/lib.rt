//! The answer to one question in every variant at once, as one table: the rows and columns under the conditions
//! that say in which variants they are there.
#![tactic(auto)]

mod columns;
mod configured;
mod decision;
mod disjunction;
mod group;
mod join;
mod out_table;
mod plain;
mod table;

pub use configured::{configure, made_plain};
pub use out_table::{OutTable, made_normal, normal};
pub use plain::{Plain, PlainColumn};
pub use table::{VColumn, VRow, VTable};
