//! Printing statements.
#![tactic(auto)]

mod print;
mod print_cond;
mod print_parts;
mod print_query;
mod print_write;

pub use print::print_statement;
