use crate::relation::Column;
use query_meaning::IllCase;
use std::alloc::Global;
use values::{ColName, Memory, Name, TryCopy};

/// A case of a refusal, with the name that goes with it.
#[derive(Debug, PartialEq, Eq, Drop)]
pub struct Case {
    pub why: IllCase,
    pub name: ColName,
}

/// What a query has in one variant: its columns, or the cases that make it ill. Neither have an order.
#[derive(Debug, Drop)]
pub enum PlainType {
    Ill(Vec<Case>),
    Columns(Vec<Column>),
}

pub fn add_case(
    alloc: Global,
    cases: &mut Vec<Case>,
    why: IllCase,
    name: &ColName,
) -> Result<(), Memory> {
    let name = name.copy(alloc)?;
    cases.push(Case { why, name })?;
    Ok(())
}

/// The name that a case shows which is no column's.
pub fn empty_name(alloc: Global) -> ColName {
    ColName {
        prefix: None,
        base: Name::new(alloc),
    }
}
