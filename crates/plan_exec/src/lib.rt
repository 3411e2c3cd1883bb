//! Runs a plan once for all variants: its answer, configured by any admitted configuration, is what the configured plan
//! means there.
//!
//! The path of a type's file is part of this crate's interface: a specification above names it.
#![tactic(auto)]

mod plan_run;
mod scan;

pub use plan_run::run;
pub use plan_tables::{Rows, TableRows};
pub use scan::scanned;
