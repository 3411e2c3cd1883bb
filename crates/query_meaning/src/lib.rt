//! What a query means in each variant, when it is well typed, and the plans that typing makes of queries.
//!
//! The path of a type's file is part of this crate's interface: a specification above names it.
#![tactic(auto)]

mod ill;
mod laws;
mod plan;
mod plan_copy;
mod typed;

pub use ill::{IllCase, IllTyped, TypeRefused};
pub use laws::{bound_laws, column_laws, query_laws, worked_rows};
pub use plan::{
    Plan, plan_choose, plan_except, plan_filter, plan_join, plan_keep, plan_rename, plan_union,
};
pub use typed::{TableColumns, TypedColumn};
