//! The statements of the variational relational algebra as values.
//!
//! The path of a type's file is part of this crate's interface: a specification above names it.
#![tactic(auto)]

mod bind;
mod bind_cond;
mod bind_operand;
mod bind_query;
mod bind_write;
mod cond;
mod copies;
mod count;
mod items;
mod query;
mod statement;
mod write;

pub use bind::bind_params;
pub use bind_cond::bound_cond;
pub use cond::{Cond, Op, Operand, cond_and, cond_choice, cond_not, cond_or};
pub use count::param_count;
pub use items::{Item, Items};
pub use query::{
    Query, query_alias, query_choice, query_except, query_join, query_select, query_union,
};
pub use statement::Statement;
pub use write::{SetItem, Write};
