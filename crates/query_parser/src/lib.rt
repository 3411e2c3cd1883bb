//! Reading statements from their texts, and what is read of printed ones.
#![tactic(auto)]

mod clauses;
mod conditions;
mod fault;
mod items;
mod laws;
mod lexeme;
mod parsing;
mod queries;
mod refused;
mod statements;
mod texts;
mod words;
mod writes;

pub use fault::ParseFault;
pub use laws::statement_laws;
pub use query_printer::print_statement;
pub use refused::ParseRefused;
pub use texts::parse;
