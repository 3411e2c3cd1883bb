//! The typing of writes, exact in every variant in which they act.
#![tactic(auto)]

mod acting;
mod fault;
mod known;
mod names;
mod operands;
mod row_values;
mod typed_write;

pub use typed_write::{TypedWrite, check_write, type_write};
