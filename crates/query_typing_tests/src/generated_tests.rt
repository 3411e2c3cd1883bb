ghost use Rattle.vschema.specs.Formed.{IsFormed};

use crate::stated::{model_of, statement, table_names};
use asked_conditions::Questions;
use condition_sat::Model;
use feature_expr::{Config, eval};
use generated_queries::{PARAMETER_KINDS, Random, generated_catalogue, generated_query};
use plain_evaluator::{Case, Column, PlainType, Variant, admitted, is_well_typed, name_cases};
use query_meaning::{IllTyped, TypeRefused, TypedColumn};
use query_names::TableNames;
use query_typing::type_query;
use std::alloc::Global;
use values::List;
use vra_syntax::{Query, Statement};
use vschema::{Catalog, OpeningRow, parse_catalog};

/// How many catalogues are made, and how many queries over each.
const CATALOGUES: u64 = 50;

const QUERIES: u64 = 10;

/// A query is typed where the plain evaluator types it in each admitted variant. Its columns are then the plain type's
/// in each. Else the case that is shown is one that the evaluator finds, in the variant that is shown.
#[test]
fn generated_queries_are_typed_as_the_evaluator_says(rt: HostRuntime) {
    for seed in 0..CATALOGUES {
        assert!(rt;
            are_seeded(rt.alloc(), 1_000 + seed) == Some(true),
            "{seed}"
        );
    }
}

fn are_seeded(alloc: Global, seed: u64) -> Option<bool> {
    let mut random = Random::new(seed);
    let spelled = generated_catalogue(alloc, &mut random).ok()?;
    let (catalog, rows) = parse_catalog(alloc, spelled.as_bytes()).ok()?;
    are_over(alloc, &mut random, &catalog, &rows)
}

fn are_over(
    alloc: Global,
    random: &mut Random,
    catalog: &Catalog,
    rows: &List<OpeningRow>,
) -> Option<bool>
    requires { IsFormed catalog.now rows.now }
{
    match table_names(alloc, catalog, rows) {
        Ok(tables) => are_all(alloc, random, catalog, rows, &tables),
        Err(_memory) => None,
    }
}

fn are_all(
    alloc: Global,
    random: &mut Random,
    catalog: &Catalog,
    rows: &List<OpeningRow>,
    tables: &TableNames<'_>,
) -> Option<bool> {
    let model = model_of(alloc, catalog).ok()?;
    for _ in 0..QUERIES {
        let text = generated_query(alloc, random, catalog, rows).ok()?;
        if !is_said(alloc, catalog, &model, tables, text.as_str())? {
            return Some(false);
        }
    }
    Some(true)
}

fn is_said(
    alloc: Global,
    catalog: &Catalog,
    model: &Model,
    tables: &TableNames<'_>,
    text: &str,
) -> Option<bool> {
    match &statement(alloc, text, &catalog.features)? {
        Statement::Query(query) => is_same(alloc, catalog, model, tables, query),
        _ => None,
    }
}

fn is_same(
    alloc: Global,
    catalog: &Catalog,
    model: &Model,
    tables: &TableNames<'_>,
    query: &Query,
) -> Option<bool> {
    if tables.tables().len() >= 256 {
        return None;
    }
    let wanted = is_well_typed(alloc, catalog, &PARAMETER_KINDS, query).ok()?;
    let mut questions = Questions::new(alloc, model);
    match type_query(alloc, &mut questions, tables, query, &PARAMETER_KINDS) {
        Ok(typed) => {
            Some(wanted && are_columns(alloc, catalog, query, typed.columns().as_slice())?)
        }
        Err(TypeRefused::Ill(why)) => Some(!wanted && is_shown(alloc, catalog, query, &why)?),
        Err(_) => None,
    }
}

/// Whether the columns are those of the plain type, in each admitted variant.
fn are_columns(
    alloc: Global,
    catalog: &Catalog,
    query: &Query,
    columns: &[TypedColumn],
) -> Option<bool> {
    for config in admitted(alloc, catalog).ok()? {
        if !are_in(alloc, catalog, query, columns, config)? {
            return Some(false);
        }
    }
    Some(true)
}

fn are_in(
    alloc: Global,
    catalog: &Catalog,
    query: &Query,
    columns: &[TypedColumn],
    config: Config,
) -> Option<bool> {
    match plain_type(alloc, catalog, query, config)? {
        PlainType::Columns(wanted) => Some(are_there(columns, wanted.as_slice(), &config)),
        PlainType::Ill(_cases) => Some(false),
    }
}

fn plain_type(
    alloc: Global,
    catalog: &Catalog,
    query: &Query,
    config: Config,
) -> Option<PlainType> {
    let rows = List::new(alloc);
    let variant = Variant {
        alloc,
        catalog,
        rows: &rows,
        kinds: &PARAMETER_KINDS,
        config,
    };
    variant.plain_type(query).ok()
}

/// Whether the variant has just these columns.
fn are_there(columns: &[TypedColumn], wanted: &[Column], config: &Config) -> bool {
    let mut count = 0_usize;
    for column in columns {
        if eval(&column.cond, config) {
            if !is_among(wanted, column) {
                return false;
            }
            count = count.saturating_add(1);
        }
    }
    count == wanted.len()
}

fn is_among(wanted: &[Column], column: &TypedColumn) -> bool {
    wanted
        .iter()
        .any(|one| one.name == column.name && one.kind == column.kind)
}

/// Whether the case is one that the evaluator finds in the variant that is shown, which is an admitted one, or in the
/// names.
fn is_shown(alloc: Global, catalog: &Catalog, query: &Query, why: &IllTyped) -> Option<bool> {
    match why.config {
        None => {
            let cases = name_cases(alloc, catalog, &PARAMETER_KINDS, query).ok()?;
            Some(is_found(cases.as_slice(), why))
        }
        Some(config) => {
            Some(eval(&catalog.model, &config) && is_shown_in(alloc, catalog, query, config, why)?)
        }
    }
}

fn is_shown_in(
    alloc: Global,
    catalog: &Catalog,
    query: &Query,
    config: Config,
    why: &IllTyped,
) -> Option<bool> {
    match plain_type(alloc, catalog, query, config)? {
        PlainType::Ill(cases) => Some(is_found(cases.as_slice(), why)),
        PlainType::Columns(_columns) => Some(false),
    }
}

fn is_found(cases: &[Case], why: &IllTyped) -> bool {
    cases
        .iter()
        .any(|case| case.why == why.case && case.name == why.name)
}
