//! What is wrong with a write, worked out in the simplest way: whatever the variant, and in one variant.

use crate::said::{Given, Said, parts_of};
use feature_expr::Config;
use generated_queries::PARAMETER_KINDS;
use plain_evaluator::{Case, Column, PlainType, Variant, name_cases, possible_columns};
use query_meaning::IllCase;
use std::alloc::Global;
use values::{ColName, Kind, List, Memory, Name, TryCopy};
use vra_syntax::{Cond, Items, Operand, Query, Write, query_select};
use vschema::Catalog;

/// The cases that hold whatever the variant. Over a table that isn't known no other one counts.
pub fn named_cases(alloc: Global, catalog: &Catalog, write: &Write) -> Result<Vec<Case>, Memory> {
    let said = parts_of(alloc, write)?;
    let table = Query::Table(said.table.copy(alloc)?);
    let mut cases = name_cases(alloc, catalog, &PARAMETER_KINDS, &table)?;
    if cases.is_empty() {
        let columns = possible_columns(alloc, catalog, &table)?;
        add_names(alloc, &columns, &said.names, &mut cases)?;
        for given in &said.values {
            add_value(alloc, &columns, given, &mut cases)?;
        }
        if let Some(cond) = said.cond {
            let rows = rows_where(alloc, said.table, cond)?;
            let mut more = name_cases(alloc, catalog, &PARAMETER_KINDS, &rows)?;
            cases.append(&mut more)?;
        }
    }
    Ok(cases)
}

/// The cases of a variant: none, where the write doesn't act in it.
pub fn cases_in(
    alloc: Global,
    catalog: &Catalog,
    write: &Write,
    config: Config,
) -> Result<Vec<Case>, Memory> {
    let said = parts_of(alloc, write)?;
    let rows = List::new(alloc);
    let variant = Variant {
        alloc,
        catalog,
        rows: &rows,
        kinds: &PARAMETER_KINDS,
        config,
    };
    let columns = variant.table_columns(said.table)?;
    let mut cases = Vec::new(alloc);
    if variant.satisfies(said.expr) && !columns.is_empty() {
        add_absent(alloc, &columns, &said, &mut cases)?;
        if let Some(cond) = said.cond {
            let query = rows_where(alloc, said.table, cond)?;
            let mut more = ill_cases(alloc, variant.plain_type(&query)?);
            cases.append(&mut more)?;
        }
    }
    Ok(cases)
}

fn ill_cases(alloc: Global, found: PlainType) -> Vec<Case> {
    match found {
        PlainType::Ill(cases) => cases,
        PlainType::Columns(_columns) => Vec::new(alloc),
    }
}

/// The rows of a table of which the condition is true.
fn rows_where(alloc: Global, table: &Name, cond: &Cond) -> Result<Query, Memory> {
    let table = table.copy(alloc)?;
    let cond = cond.copy(alloc)?;
    query_select(alloc, Items::All, Query::Table(table), cond)
}

/// Each name is that of a column, and stands once.
fn add_names(
    alloc: Global,
    columns: &[Column],
    names: &[&Name],
    cases: &mut Vec<Case>,
) -> Result<(), Memory> {
    for (place, name) in names.iter().enumerate() {
        if !has_column(columns, name) {
            add(alloc, IllCase::NoColumn, name, cases)?;
        }
        if is_among(&names[..place], name) {
            add(alloc, IllCase::NamedTwice, name, cases)?;
        }
    }
    Ok(())
}

/// A value has its column's kind, and a parameter has one. A column's name has none.
fn add_value(
    alloc: Global,
    columns: &[Column],
    given: &Given<'_>,
    cases: &mut Vec<Case>,
) -> Result<(), Memory> {
    let kind = kind_of(given.value);
    if let Operand::Param(number) = given.value
        && kind.is_none()
    {
        return add_nameless(alloc, IllCase::ParamKind(*number), cases);
    }
    for column in columns {
        if column.name.base == *given.name && kind != Some(column.kind) {
            add(alloc, IllCase::ValueKind, given.name, cases)?;
        }
    }
    Ok(())
}

/// An INSERT has a value for each column that is there, and the columns of an UPDATE are there.
fn add_absent(
    alloc: Global,
    columns: &[Column],
    said: &Said<'_>,
    cases: &mut Vec<Case>,
) -> Result<(), Memory> {
    if said.is_insert {
        for column in columns {
            if !is_among(&said.names, &column.name.base) {
                add(alloc, IllCase::NoValue, &column.name.base, cases)?;
            }
        }
        return Ok(());
    }
    for name in &said.names {
        if !has_column(columns, name) {
            add(alloc, IllCase::AbsentColumn, name, cases)?;
        }
    }
    Ok(())
}

fn has_column(columns: &[Column], name: &Name) -> bool {
    columns.iter().any(|column| column.name.base == *name)
}

fn is_among(names: &[&Name], name: &Name) -> bool {
    names.iter().any(|other| **other == *name)
}

fn kind_of(value: &Operand) -> Option<Kind> {
    match value {
        Operand::Column(_name) => None,
        Operand::Literal(value) => Some(value.kind()),
        Operand::Param(number) => kind_at(*number),
    }
}

fn kind_at(number: u16) -> Option<Kind> {
    let place = number.checked_sub(1)?;
    PARAMETER_KINDS.get(usize::from(place)).copied()
}

fn add(alloc: Global, why: IllCase, name: &Name, cases: &mut Vec<Case>) -> Result<(), Memory> {
    let base = name.copy(alloc)?;
    let name = ColName { prefix: None, base };
    cases.push(Case { why, name })?;
    Ok(())
}

fn add_nameless(alloc: Global, why: IllCase, cases: &mut Vec<Case>) -> Result<(), Memory> {
    let name = Name::new(alloc);
    add(alloc, why, &name, cases)
}
