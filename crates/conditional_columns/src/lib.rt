//! Lists of columns under conditions: what is there in each variant, as a condition, and how lists are put together.
#![tactic(auto)]

mod disjunction;
mod laws;
mod put;
mod read;
mod repeated;
mod same;
mod settling;
mod stored;

pub use disjunction::{either, one_of};
pub use laws::form_laws;
pub use put::{add_named, add_where, and_too, behind};
pub use read::{all_in, any_in, cond_in, name_in};
pub use repeated::repeats;
pub use same::are_same;
pub use settling::settle;
pub use stored::table_columns;
