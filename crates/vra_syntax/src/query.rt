ghost use Rattle.std.specs.Prelude.{◌≡◌, IfOk};
ghost use Rattle.vra_syntax.specs.Tables.{table_of};

use crate::cond::Cond;
use crate::items::Items;
use feature_expr::{Expr, Memory, Name};
use sqlite_items::Boxed;
use std::alloc::Global;

/// A query, or a part of one.
///
/// A chain of `union`, `except` or `join` grows on its left side, and may have many thousands of links: whatever goes
/// over a query loops down its left side and recurses to the right alone.
pub enum Query {
    Table(Name),
    Select(Items, Boxed<Query>, Cond),
    Join(Boxed<Query>, Boxed<Query>, Cond),
    Union(Boxed<Query>, Boxed<Query>),
    Except(Boxed<Query>, Boxed<Query>),
    Alias(Boxed<Query>, Name),
    Choice(Expr, Boxed<Query>, Boxed<Query>),
    Empty,
}

impl Drop for Query {
    fn drop(mut self) {
        loop {
            match self {
                Query::Table(_table) => return,
                Query::Select(_items, source, _cond) => self = source.into_inner(),
                Query::Join(left, right, _cond) => {
                    let _right = right.into_inner();
                    self = left.into_inner();
                }
                Query::Union(left, right) => {
                    let _right = right.into_inner();
                    self = left.into_inner();
                }
                Query::Except(left, right) => {
                    let _right = right.into_inner();
                    self = left.into_inner();
                }
                Query::Alias(source, _name) => self = source.into_inner(),
                Query::Choice(_expr, left, right) => {
                    let _right = right.into_inner();
                    self = left.into_inner();
                }
                Query::Empty => return,
            }
        }
    }
}

impl Query {
    /// The name, where the query is that of a table alone.
    pub fn into_table(self) -> Option<Name>
        ensures { result ≡ table_of self }
    {
        match self {
            Query::Table(name) => Some(name),
            _other => None,
        }
    }
}

pub fn query_select(alloc: Global, items: Items, source: Query, cond: Cond) -> Result<Query, Memory>
    ensures { IfOk result (λ it. it ≡ Query.Select items source cond) }
{
    let source = Boxed::new(alloc, source)?;
    Ok(Query::Select(items, source, cond))
}

pub fn query_join(alloc: Global, left: Query, right: Query, cond: Cond) -> Result<Query, Memory>
    ensures { IfOk result (λ it. it ≡ Query.Join left right cond) }
{
    let left = Boxed::new(alloc, left)?;
    let right = Boxed::new(alloc, right)?;
    Ok(Query::Join(left, right, cond))
}

pub fn query_union(alloc: Global, left: Query, right: Query) -> Result<Query, Memory>
    ensures { IfOk result (λ it. it ≡ Query.Union left right) }
{
    let left = Boxed::new(alloc, left)?;
    let right = Boxed::new(alloc, right)?;
    Ok(Query::Union(left, right))
}

pub fn query_except(alloc: Global, left: Query, right: Query) -> Result<Query, Memory>
    ensures { IfOk result (λ it. it ≡ Query.Except left right) }
{
    let left = Boxed::new(alloc, left)?;
    let right = Boxed::new(alloc, right)?;
    Ok(Query::Except(left, right))
}

/// The source with each column's prefix replaced by the name.
pub fn query_alias(alloc: Global, source: Query, name: Name) -> Result<Query, Memory>
    ensures { IfOk result (λ it. it ≡ Query.Alias source name) }
{
    let source = Boxed::new(alloc, source)?;
    Ok(Query::Alias(source, name))
}

/// The left query where the expression holds, else the right one.
pub fn query_choice(alloc: Global, expr: Expr, left: Query, right: Query) -> Result<Query, Memory>
    ensures { IfOk result (λ it. it ≡ Query.Choice expr left right) }
{
    let left = Boxed::new(alloc, left)?;
    let right = Boxed::new(alloc, right)?;
    Ok(Query::Choice(expr, left, right))
}
