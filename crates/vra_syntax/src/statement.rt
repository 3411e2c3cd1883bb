use crate::query::Query;
use crate::write::Write;

/// One statement of a text.
#[derive(Drop)]
pub enum Statement {
    Query(Query),
    Write(Write),
    Begin,
    Commit,
    Rollback,
    Set,
}
