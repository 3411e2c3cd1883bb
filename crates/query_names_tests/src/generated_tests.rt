ghost use Rattle.vschema.specs.Formed.{IsFormed};

use crate::named::{statement, table_names};
use generated_queries::{PARAMETER_KINDS, Random, generated_catalogue, generated_query};
use plain_evaluator::{Case, Column, name_cases, possible_columns};
use query_meaning::{IllTyped, TypeRefused};
use query_names::{PossibleColumn, TableNames, check_names, names_of};
use std::alloc::Global;
use values::List;
use vra_syntax::{Query, Statement};
use vschema::{Catalog, OpeningRow, parse_catalog};

/// How many catalogues are made, and how many queries over each.
const CATALOGUES: u64 = 60;

const QUERIES: u64 = 10;

/// The possible columns and the faults of the names are those that the plain evaluator finds.
#[test]
fn generated_names_are_what_the_evaluator_says(rt: HostRuntime) {
    for seed in 0..CATALOGUES {
        assert!(rt; are_seeded(rt.alloc(), seed) == Some(true), "{seed}");
    }
}

fn are_seeded(alloc: Global, seed: u64) -> Option<bool> {
    let mut random = Random::new(seed);
    let spelled = generated_catalogue(alloc, &mut random).ok()?;
    let (catalog, rows) = parse_catalog(alloc, spelled.as_bytes()).ok()?;
    are_over(alloc, &mut random, &catalog, &rows)
}

fn are_over(
    alloc: Global,
    random: &mut Random,
    catalog: &Catalog,
    rows: &List<OpeningRow>,
) -> Option<bool>
    requires { IsFormed catalog.now rows.now }
{
    match table_names(alloc, catalog, rows) {
        Ok(tables) => are_all(alloc, random, catalog, rows, &tables),
        Err(_memory) => None,
    }
}

fn are_all(
    alloc: Global,
    random: &mut Random,
    catalog: &Catalog,
    rows: &List<OpeningRow>,
    tables: &TableNames<'_>,
) -> Option<bool> {
    for _ in 0..QUERIES {
        let text = generated_query(alloc, random, catalog, rows).ok()?;
        let statement = statement(alloc, text.as_str(), &catalog.features)?;
        if !is_said(alloc, catalog, tables, &statement)? {
            return Some(false);
        }
    }
    Some(true)
}

fn is_said(
    alloc: Global,
    catalog: &Catalog,
    tables: &TableNames<'_>,
    statement: &Statement,
) -> Option<bool> {
    match statement {
        Statement::Query(query) => Some(
            are_same(alloc, catalog, tables, query)? && are_faults(alloc, catalog, tables, query)?,
        ),
        _ => None,
    }
}

fn are_same(
    alloc: Global,
    catalog: &Catalog,
    tables: &TableNames<'_>,
    query: &Query,
) -> Option<bool> {
    let wanted = possible_columns(alloc, catalog, query).ok()?;
    match names_of(alloc, tables, query) {
        Ok(names) => Some(are_columns(names.possible.as_slice(), wanted.as_slice())),
        Err(_refused) => None,
    }
}

fn are_columns(found: &[PossibleColumn], wanted: &[Column]) -> bool {
    found.len() == wanted.len()
        && found
            .iter()
            .zip(wanted)
            .all(|(one, other)| is_same(one, other))
}

fn is_same(one: &PossibleColumn, other: &Column) -> bool {
    one.prefix == other.name.prefix.as_ref()
        && *one.base == other.name.base
        && one.kind == other.kind
}

/// The check passes where the evaluator finds no fault, and shows one of those that it finds.
fn are_faults(
    alloc: Global,
    catalog: &Catalog,
    tables: &TableNames<'_>,
    query: &Query,
) -> Option<bool> {
    let faults = name_cases(alloc, catalog, &PARAMETER_KINDS, query).ok()?;
    match check_names(alloc, tables, query, &PARAMETER_KINDS) {
        Ok(()) => Some(faults.is_empty()),
        Err(TypeRefused::Ill(why)) => Some(is_among(faults.as_slice(), &why)),
        Err(_) => None,
    }
}

fn is_among(faults: &[Case], why: &IllTyped) -> bool {
    faults
        .iter()
        .any(|fault| fault.why == why.case && fault.name == why.name)
}
