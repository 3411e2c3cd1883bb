//! What the type system says of a catalogue, of queries and of writes, for all variants at once.
#![tactic(auto)]

mod alike;
mod check;
mod check_row;
mod check_table;
mod laws;
mod refused;

pub use check::check_catalog;
pub use laws::check_laws;
pub use query_meaning::{
    IllCase, IllTyped, Plan, TableColumns, TypeRefused, TypedColumn, plan_choose, plan_except,
    plan_filter, plan_join, plan_keep, plan_rename, plan_union,
};
pub use query_names::{
    NamesRefused, QueryNames, TableNames, Typed, bind_plan, check_names, names_of, param_kinds,
    plan_of, plan_tables,
};
pub use refused::CheckRefused;
