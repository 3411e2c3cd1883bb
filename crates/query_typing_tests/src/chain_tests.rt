ghost use Rattle.vschema.specs.Formed.{IsFormed};

use crate::stated::{model_of, statement, table_names};
use asked_conditions::Questions;
use condition_sat::Model;
use feature_expr::Expr;
use query_meaning::TypedColumn;
use query_names::TableNames;
use query_typing::type_query;
use std::alloc::Global;
use values::List;
use vra_syntax::{Query, Statement};
use vschema::{Catalog, OpeningRow, parse_catalog};

/// How many links the chains have.
const LINKS: usize = 2_000;

/// What each chain begins with, and each of its links.
const CHAINS: [(&str, &str); 3] = [
    ("t", " union t"),
    ("t", " except select * from t where id = 1"),
    ("t", " union select id, name from t where id = 1"),
];

/// What the chains' table is.
const CATALOGUE: &[u8] = b"features A; table t (id int8, name text when A);";

/// A long chain is typed without a stack frame for each link, and in time that doesn't grow with its square.
#[test]
fn a_long_chain_is_typed(rt: HostRuntime) {
    for (first, link) in CHAINS {
        assert!(rt; is_typed(rt.alloc(), first, link) == Some(true), "{link}");
    }
}

fn is_typed(alloc: Global, first: &str, link: &str) -> Option<bool> {
    let (catalog, rows) = parse_catalog(alloc, CATALOGUE).ok()?;
    let text = chain(alloc, first, link)?;
    is_text_typed(alloc, &catalog, &rows, text.as_str())
}

fn chain(alloc: Global, first: &str, link: &str) -> Option<String> {
    let links = link.repeat(alloc, LINKS).ok()?;
    format!(in alloc; "{first}{links}").ok()
}

fn is_text_typed(
    alloc: Global,
    catalog: &Catalog,
    rows: &List<OpeningRow>,
    text: &str,
) -> Option<bool>
    requires { IsFormed catalog.now rows.now }
{
    let model = model_of(alloc, catalog).ok()?;
    let statement = statement(alloc, text, &catalog.features)?;
    match table_names(alloc, catalog, rows) {
        Ok(tables) => is_statement_typed(alloc, &model, &tables, &statement),
        Err(_memory) => None,
    }
}

fn is_statement_typed(
    alloc: Global,
    model: &Model,
    tables: &TableNames<'_>,
    statement: &Statement,
) -> Option<bool> {
    match statement {
        Statement::Query(query) => is_query_typed(alloc, model, tables, query),
        _ => None,
    }
}

fn is_query_typed(
    alloc: Global,
    model: &Model,
    tables: &TableNames<'_>,
    query: &Query,
) -> Option<bool> {
    if tables.tables().len() >= 256 {
        return None;
    }
    let mut questions = Questions::new(alloc, model);
    let typed = type_query(alloc, &mut questions, tables, query, &[]).ok()?;
    Some(are_both(typed.columns().as_slice()))
}

/// Whether there are two columns, and some is in every variant.
fn are_both(columns: &[TypedColumn]) -> bool {
    columns.len() == 2 && columns.iter().any(|column| column.cond == Expr::True)
}
