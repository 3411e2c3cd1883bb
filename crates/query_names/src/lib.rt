//! What the names of a query say, whatever the variant: its possible columns, the names that aren't known, the kinds of
//! its parameters, and its plan.
//!
//! The path of a type's file is part of this crate's interface: a specification above names it.
#![tactic(auto)]

mod columns;
mod cond_names;
mod found;
mod kinds;
mod make_plan;
mod name_cases;
mod name_steps;
mod part;
mod part_steps;
mod plan_binding;
mod plan_steps;
mod query_walk;
mod refused;
mod scan_list;
mod scanned_tables;
mod table_names;
mod typed;
mod write_names;

pub use columns::PossibleColumn;
pub use found::{Facing, Findings, ParamPlace, UnknownName};
pub use kinds::param_kinds;
pub use make_plan::plan_of;
pub use name_cases::check_names;
pub use part::{COLUMN_LIMIT, QueryNames};
pub use plan_binding::bound_plan;
pub use query_walk::names_of;
pub use refused::NamesRefused;
pub use scan_list::plan_scans;
pub use scanned_tables::plan_tables;
pub use table_names::TableNames;
pub use typed::{Typed, bind_plan};
