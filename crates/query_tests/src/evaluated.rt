//! A query in one variant, and what the plain evaluator says of it as a text.

use feature_expr::{Config, Features};
use generated_queries::{PARAMETER_KINDS, parameter_values};
use plain_evaluator::{
    Case, Cell, Column, PlainType, Relation, Variant, name_cases, possible_columns,
};
use query_parser::parse;
use std::alloc::Global;
use std::str;
use std::test::Fail;
use values::{ColName, Kind, List, TryCopy, Value};
use vra_syntax::{Query, Statement, bind_params};
use vschema::{Catalog, OpeningRow};

/// The one query of a text.
pub fn query(alloc: Global, text: &str, features: &Features) -> Result<Query, Fail> {
    let mut statements = parse(alloc, text, features, true)?.into_vec();
    let statement = statements.pop().ok_or("no statement")?;
    Ok(query_of(statement).ok_or("no query")?)
}

/// The query with values for its parameters.
pub fn bound(alloc: Global, query: Query) -> Result<Query, Fail> {
    let statement = Statement::Query(query);
    let bound = bind_params(alloc, &statement, &parameter_values(alloc)?)?;
    Ok(query_of(bound).ok_or("no query")?)
}

fn query_of(statement: Statement) -> Option<Query> {
    match statement {
        Statement::Query(query) => Some(query),
        _ => None,
    }
}

/// The features whose names stand in the word.
pub fn config(features: &Features, word: &str) -> Result<Config, Fail> {
    let mut config = Config::none();
    for feature in 0..features.count() {
        let name = features.get(feature).ok_or("no feature")?;
        if word.contains(str::from_utf8(name.as_slice())?) && feature < 64 {
            config = config.with(feature);
        }
    }
    Ok(config)
}

/// The possible columns, the faults of the names, or what the query is in the variant: the cases that make it ill, or
/// its columns in the order of the possible ones and its rows, ascending as texts. A dash stands for nothing. With the word
/// `untyped` before the variant the cases aren't looked at.
pub fn shown(
    alloc: Global,
    catalog: &Catalog,
    rows: &List<OpeningRow>,
    query: Query,
    word: &str,
) -> Result<String, Fail> {
    let mut text = found(alloc, catalog, rows, query, word)?;
    if text.is_empty() {
        text.push_str("-")?;
    }
    Ok(text)
}

fn found(
    alloc: Global,
    catalog: &Catalog,
    rows: &List<OpeningRow>,
    query: Query,
    word: &str,
) -> Result<String, Fail> {
    let order = possible_columns(alloc, catalog, &query)?;
    let faults = name_cases(alloc, catalog, &PARAMETER_KINDS, &query)?;
    match word {
        "possible" => return columns_text(alloc, &order),
        "names" => return cases_text(alloc, &faults),
        _ => {}
    }
    let variant = Variant {
        alloc,
        catalog,
        rows,
        kinds: &PARAMETER_KINDS,
        config: config(&catalog.features, word)?,
    };
    match variant.plain_type(&query)? {
        PlainType::Ill(cases) if !word.starts_with("untyped ") => cases_text(alloc, &cases),
        _ => {
            let query = bound(alloc, query)?;
            relation_text(alloc, &order, &variant.meaning(&query)?)
        }
    }
}

/// Each case once.
fn cases_text(alloc: Global, cases: &[Case]) -> Result<String, Fail> {
    let mut text = String::new(alloc);
    let mut before = Vec::new(alloc);
    for case in cases {
        if !before.contains(&case) {
            text.push_str(if text.is_empty() { "" } else { ", " })?;
            text.push_str(format!(in alloc; "{:?} ", case.why)?.as_str())?;
            push_name(&mut text, &case.name)?;
            before.push(case)?;
        }
    }
    Ok(text)
}

fn push_name(text: &mut String, name: &ColName) -> Result<(), Fail> {
    if let Some(prefix) = &name.prefix {
        text.push_str(str::from_utf8(prefix.as_slice())?)?;
        text.push_str(".")?;
    }
    text.push_str(str::from_utf8(name.base.as_slice())?)?;
    Ok(())
}

fn columns_text(alloc: Global, columns: &[Column]) -> Result<String, Fail> {
    let mut text = String::new(alloc);
    for (place, column) in columns.iter().enumerate() {
        text.push_str(if place > 0 { ", " } else { "" })?;
        push_name(&mut text, &column.name)?;
        text.push_str(kind_word(column.kind))?;
    }
    Ok(text)
}

fn kind_word(kind: Kind) -> &'static str {
    match kind {
        Kind::Int => " int8",
        Kind::Text => " text",
        Kind::Bool => " bool",
    }
}

fn relation_text(alloc: Global, order: &[Column], relation: &Relation) -> Result<String, Fail> {
    let mut columns = Vec::new(alloc);
    for column in order {
        if relation.columns.contains(column) {
            columns.push(column.copy(alloc)?)?;
        }
    }
    let mut text = columns_text(alloc, &columns)?;
    for row in row_texts(alloc, &columns, relation)? {
        text.push_str(" |")?;
        text.push_str(row.as_str())?;
    }
    Ok(text)
}

/// Each row once, ascending.
fn row_texts(alloc: Global, columns: &[Column], relation: &Relation) -> Result<Vec<String>, Fail> {
    let mut texts = Vec::new(alloc);
    for row in &relation.rows {
        let text = row_text(alloc, columns, row)?;
        if !texts.contains(&text) {
            texts.push(text)?;
        }
    }
    texts.sort()?;
    Ok(texts)
}

fn row_text(alloc: Global, columns: &[Column], row: &[Cell]) -> Result<String, Fail> {
    let mut text = String::new(alloc);
    for column in columns {
        for cell in row {
            if cell.name == column.name {
                push_value(alloc, &mut text, &cell.value)?;
            }
        }
    }
    Ok(text)
}

fn push_value(alloc: Global, text: &mut String, value: &Value) -> Result<(), Fail> {
    text.push_str(" ")?;
    match value {
        Value::Int(number) => text.push_str(format!(in alloc; "{number}")?.as_str())?,
        Value::Text(bytes) => text.push_str(str::from_utf8(bytes.as_slice())?)?,
        Value::Bool(true) => text.push_str("t")?,
        Value::Bool(false) => text.push_str("f")?,
    }
    Ok(())
}
