//! What a session says to its client: messages, errors, the rows of an answer, and the bytes of them that wait to be sent.
#![tactic(auto)]

mod answer;
mod output;
mod plain;
mod refusal;
mod replies;
mod rows;
mod tag;
mod tell;
mod untyped;

pub use answer::{put_answer, select_complete};
pub use output::Output;
pub use refusal::Refusal;
pub use replies::parameter;
pub use tag::Tag;
