ghost use Rattle.std.specs.Prelude.{◌≡◌};
ghost use Rattle.plan_exec_tests.specs.Opened.{IsOpened};
ghost use Rattle.query_answers.specs.Answering.{CanAnswer};
ghost use Rattle.vra_syntax.specs.Parameters.{param_in_query};

use crate::answered::{Opened, answer, made, opening_of, typed};
use crate::configured::configured;
use feature_expr::Config;
use generated_queries::{
    PARAMETER_KINDS, Random, generated_catalogue, generated_query, parameter_values,
};
use plain_evaluator::{Relation, Variant, admitted};
use query_meaning::TypeRefused;
use query_names::Typed;
use query_parser::parse;
use std::alloc::Global;
use values::TryCopy;
use vra_syntax::{Query, Statement, bind_params, param_count};
use vtable::VTable;

/// How many catalogues are made, and how many queries over each.
const CATALOGUES: u64 = 50;

const QUERIES: u64 = 12;

/// How many plans have to be compared.
const COMPARED: u64 = 1_000;

/// The table that a plan makes, and the answer in table form, are in each admitted variant what the plain evaluator makes
/// of the configured query: for each query that is generated, and for each of its parts.
#[test]
fn generated_plans_mean_what_the_evaluator_says(rt: HostRuntime) {
    let mut all = 0_u64;
    for seed in 0..CATALOGUES {
        let compared = compared_over(rt.alloc(), 3_000 + seed);
        assert!(rt; compared.is_some(), "{seed}");
        all = all.saturating_add(compared.unwrap_or(0));
    }
    assert!(rt; all >= COMPARED);
}

/// Compares the queries over a generated catalogue, and counts the plans; nothing where some is another than the
/// evaluator's, or isn't made.
fn compared_over(alloc: Global, seed: u64) -> Option<u64> {
    let mut random = Random::new(seed);
    let spelled = generated_catalogue(alloc, &mut random).ok()?;
    let opened = opening_of(alloc, spelled.as_bytes())?;
    compared_queries(alloc, &mut random, &opened)
}

fn compared_queries(alloc: Global, random: &mut Random, opened: &Opened) -> Option<u64>
    requires { IsOpened opened.now }
{
    let mut compared = 0_u64;
    for _ in 0..QUERIES {
        let text = generated_query(alloc, random, &opened.catalog, &opened.rows).ok()?;
        let count = compared_text(alloc, opened, text.as_str())?;
        compared = compared.saturating_add(count);
    }
    Some(compared)
}

fn compared_text(alloc: Global, opened: &Opened, text: &str) -> Option<u64>
    requires { IsOpened opened.now }
{
    match &bound(alloc, opened, text)? {
        Statement::Query(query) => compared_parts(alloc, opened, query),
        _ => None,
    }
}

/// Compares the query and its parts, and counts those that are well typed and no bare tables.
fn compared_parts(alloc: Global, opened: &Opened, query: &Query) -> Option<u64>
    requires { IsOpened opened.now }
{
    let below = match query {
        Query::Table(_name) => return Some(0),
        Query::Empty => return Some(0),
        Query::Select(_items, source, _cond) => compared_parts(alloc, opened, source.get())?,
        Query::Alias(source, _name) => compared_parts(alloc, opened, source.get())?,
        Query::Join(left, right, _cond) => {
            let one = compared_parts(alloc, opened, left.get())?;
            one.saturating_add(compared_parts(alloc, opened, right.get())?)
        }
        Query::Union(left, right) => {
            let one = compared_parts(alloc, opened, left.get())?;
            one.saturating_add(compared_parts(alloc, opened, right.get())?)
        }
        Query::Except(left, right) => {
            let one = compared_parts(alloc, opened, left.get())?;
            one.saturating_add(compared_parts(alloc, opened, right.get())?)
        }
        Query::Choice(_expr, left, right) => {
            let one = compared_parts(alloc, opened, left.get())?;
            one.saturating_add(compared_parts(alloc, opened, right.get())?)
        }
    };
    let here = compared_whole(alloc, opened, query)?;
    Some(below.saturating_add(here))
}

/// The only statement of a text, with values for its parameters.
fn bound(alloc: Global, opened: &Opened, text: &str) -> Option<Statement> {
    let statement = parse(alloc, text, &opened.catalog.features, true)
        .ok()?
        .pop()?;
    let values = parameter_values(alloc).ok()?;
    bind_params(alloc, &statement, &values).ok()
}

/// One, where the query has no parameters and is well typed. It is then compared.
fn compared_whole(alloc: Global, opened: &Opened, query: &Query) -> Option<u64>
    requires { IsOpened opened.now }
{
    let statement = Statement::Query(query.copy(alloc).ok()?);
    compared_statement(alloc, opened, &statement)
}

fn compared_statement(alloc: Global, opened: &Opened, statement: &Statement) -> Option<u64>
    requires { IsOpened opened.now }
{
    let count = param_count(statement);
    if let Statement::Query(query) = statement
        && count == 0
    {
        return compared_query(alloc, opened, query);
    }
    Some(0)
}

fn compared_query(alloc: Global, opened: &Opened, query: &Query) -> Option<u64>
    requires opened { IsOpened opened.now }
    requires free { param_in_query query.now ≡ 0 }
{
    match typed(alloc, opened, query) {
        Ok(typed) => compared_typed(alloc, opened, query, &typed),
        Err(TypeRefused::Ill(_why)) => Some(0),
        Err(_) => None,
    }
}

fn compared_typed(alloc: Global, opened: &Opened, query: &Query, typed: &Typed) -> Option<u64>
    requires { CanAnswer opened.now.model opened.now.stored.tables typed.now }
{
    let made = made(alloc, opened, typed).ok()?;
    let answer = answer(alloc, opened, typed).ok()?;
    if are_meant(alloc, opened, query, &[&made, answer.table()])? {
        Some(1)
    } else {
        None
    }
}

/// Whether the tables are what the configured query means, in each admitted variant.
fn are_meant(alloc: Global, opened: &Opened, query: &Query, tables: &[&VTable]) -> Option<bool> {
    for config in admitted(alloc, &opened.catalog).ok()? {
        let wanted = meaning(alloc, opened, query, config)?;
        if !are_same(alloc, tables, &wanted, &config)? {
            return Some(false);
        }
    }
    Some(true)
}

fn meaning(alloc: Global, opened: &Opened, query: &Query, config: Config) -> Option<Relation> {
    let variant = Variant {
        alloc,
        catalog: &opened.catalog,
        rows: &opened.rows,
        kinds: &PARAMETER_KINDS,
        config,
    };
    variant.meaning(query).ok()
}

fn are_same(alloc: Global, tables: &[&VTable], wanted: &Relation, config: &Config) -> Option<bool> {
    for table in tables {
        if !configured(alloc, table, config)?.is_same(wanted) {
            return Some(false);
        }
    }
    Some(true)
}
