//! The typing of queries, exact in every variant.
//!
//! The path of a type's file is part of this crate's interface: a specification above names it.
#![tactic(auto)]

mod absent;
mod answer;
mod ask_where;
mod check;
mod cond_cases;
mod fault;
mod form;
mod kinds;
mod leaf;
mod query;
mod refused;
mod select;
mod twice;
mod two_forms;
mod walk;

pub use check::query_columns;
pub use cond_cases::add_cond;
pub use fault::{Fault, ShownName, add_fault, ask};
pub use query::type_query;
pub use refused::CaseRefused;
pub use walk::type_part;
