ghost use Rattle.vschema.specs.Formed.{IsFormed};

use crate::named::{listed, statement, table_names};
use query_names::{TableNames, bound_plan, names_of, param_kinds, plan_of, plan_tables};
use std::alloc::Global;
use values::{Kind, List};
use vra_syntax::{Query, Statement};
use vschema::{Catalog, OpeningRow, parse_catalog};

/// How many links the chains have.
const LINKS: usize = 100_000;

/// What each chain begins with, and each of its links.
const CHAINS: [(&str, &str); 3] = [
    ("t", " union t"),
    ("select id from t where id = $1", " or id < 7"),
    ("t", " except select * from t where id = $1"),
];

/// Chains are walked, planned, bound and dropped without a stack frame for each link.
#[test]
fn a_long_chain_takes_no_stack(rt: HostRuntime) {
    for (first, link) in CHAINS {
        assert!(rt; is_walked(rt.alloc(), first, link) == Some(true), "{first}");
    }
}

fn is_walked(alloc: Global, first: &str, link: &str) -> Option<bool> {
    let (catalog, rows) = parse_catalog(alloc, b"features A; table t (id int8);").ok()?;
    let text = chain(alloc, first, link)?;
    is_text_walked(alloc, &catalog, &rows, text.as_str())
}

fn chain(alloc: Global, first: &str, link: &str) -> Option<String> {
    let links = link.repeat(alloc, LINKS).ok()?;
    format!(in alloc; "{first}{links}").ok()
}

fn is_text_walked(
    alloc: Global,
    catalog: &Catalog,
    rows: &List<OpeningRow>,
    text: &str,
) -> Option<bool>
    requires { IsFormed catalog.now rows.now }
{
    match table_names(alloc, catalog, rows) {
        Ok(tables) => is_statement_walked(
            alloc,
            &tables,
            &statement(alloc, text, &catalog.features)?,
        ),
        Err(_memory) => None,
    }
}

fn is_statement_walked(
    alloc: Global,
    tables: &TableNames<'_>,
    statement: &Statement,
) -> Option<bool> {
    match statement {
        Statement::Query(query) => Some(
            is_named(alloc, tables, query)?
                && are_kinds(alloc, tables, statement)?
                && is_planned(alloc, tables, query)?,
        ),
        _ => None,
    }
}

fn is_named(alloc: Global, tables: &TableNames<'_>, query: &Query) -> Option<bool> {
    match names_of(alloc, tables, query) {
        Ok(names) => Some(
            listed(alloc, names.possible.as_slice())?.as_slice() == b"id int8".as_slice(),
        ),
        Err(_refused) => None,
    }
}

fn are_kinds(alloc: Global, tables: &TableNames<'_>, statement: &Statement) -> Option<bool> {
    let kinds = param_kinds(alloc, tables, statement, &[]).ok()?;
    Some(kinds.as_slice().iter().all(|kind| *kind == Kind::Int))
}

fn is_planned(alloc: Global, tables: &TableNames<'_>, query: &Query) -> Option<bool> {
    let stored = tables.tables();
    if stored.len() >= 256 {
        return None;
    }
    let plan = plan_of(alloc, tables, query).ok()?;
    let scanned = plan_tables(alloc, stored, &plan).ok()?;
    let bound = bound_plan(alloc, &plan, &[]);
    Some(scanned.len() == 1 && bound.is_ok())
}
