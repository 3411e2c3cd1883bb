use crate::left::Left;
use session_replies::Tag;
use vra_syntax::Statement;

/// Where a session stands between two messages.
#[derive(Drop)]
pub enum Phase {
    /// No start-up message has been taken yet.
    Start,
    /// A message may come.
    Ready,
    /// This statement of a Query and those behind it are still to be run.
    Statements(Statement, Left),
    /// The last statement of a Query was answered, and its CommandComplete and the end of the Query are still to be
    /// sent.
    Query(Tag),
    /// Nothing is taken any more.
    Ended,
}
