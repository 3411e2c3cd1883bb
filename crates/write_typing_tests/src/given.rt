//! What the tests have in common.

ghost use Rattle.std.specs.Prelude.{IfOk};
ghost use Rattle.vschema.specs.Formed.{IsFormed};

use condition_sat::Model;
use feature_expr::{Expr, Features};
use query_names::TableNames;
use query_parser::parse;
use std::alloc::Global;
use std::test::Fail;
use values::{ColName, List, Memory, Name, TryCopy};
use vra_syntax::{Cond, Operand, Query, SetItem, Statement, Write};
use vschema::{Catalog, OpeningRow};

pub fn table_names<'a>(
    alloc: Global,
    catalog: &'a Catalog,
    rows: &List<OpeningRow>,
) -> Result<TableNames<'a>, Memory>
    requires { IsFormed catalog.now rows.now }
{
    TableNames::new(alloc, catalog.tables.as_slice())
}

pub fn model_of(alloc: Global, catalog: &Catalog) -> Result<Model, Memory> {
    let expr = catalog.model.copy(alloc)?;
    Model::new(alloc, expr)
}

/// The only statement of a text.
fn statement(alloc: Global, text: &str, features: &Features) -> Result<Statement, Fail> {
    let mut statements = parse(alloc, text, features, true)?;
    let statement = statements.pop().ok_or("no statement")?;
    Ok(statement)
}

/// The only write of a text.
pub fn write(alloc: Global, text: &str, features: &Features) -> Result<Write, Fail> {
    match statement(alloc, text, features)? {
        Statement::Write(write) => Ok(write),
        _ => Err("no write".into()),
    }
}

/// The only query of a text.
pub fn query(alloc: Global, text: &str, features: &Features) -> Result<Query, Fail> {
    match statement(alloc, text, features)? {
        Statement::Query(query) => Ok(query),
        _ => Err("no query".into()),
    }
}

/// The write with a column's name as its last value, which no text has. A DELETE has no values.
pub fn with_a_name_as_value(alloc: Global, write: Write) -> Result<Write, Memory> {
    match write {
        Write::Insert(table, names, rows, expr) => insert_a_name(alloc, table, names, rows, expr),
        Write::Delete(table, cond, expr) => Ok(Write::Delete(table, cond, expr)),
        Write::Update(table, items, cond, expr) => set_a_name(alloc, table, items, cond, expr),
    }
}

fn insert_a_name(
    alloc: Global,
    table: Name,
    names: List<Name>,
    rows: List<List<Operand>>,
    expr: Expr,
) -> Result<Write, Memory> {
    let mut rows = rows.into_vec();
    if let Some(row) = rows.pop() {
        let row = row_with_a_name(alloc, row)?;
        rows.push(row)?;
    }
    let rows = List::from_vec(rows);
    Ok(Write::Insert(table, names, rows, expr))
}

fn row_with_a_name(alloc: Global, row: List<Operand>) -> Result<List<Operand>, Memory> {
    let mut row = row.into_vec();
    let _last = row.pop();
    row.push(a_name(alloc)?)?;
    Ok(List::from_vec(row))
}

fn set_a_name(
    alloc: Global,
    table: Name,
    items: List<SetItem>,
    cond: Cond,
    expr: Expr,
) -> Result<Write, Memory> {
    let mut items = items.into_vec();
    if let Some(item) = items.pop() {
        let item = item_with_a_name(alloc, item)?;
        items.push(item)?;
    }
    let items = List::from_vec(items);
    Ok(Write::Update(table, items, cond, expr))
}

fn item_with_a_name(alloc: Global, item: SetItem) -> Result<SetItem, Memory> {
    let SetItem {
        column,
        value: _value,
    } = item;
    let value = a_name(alloc)?;
    Ok(SetItem { column, value })
}

fn a_name(alloc: Global) -> Result<Operand, Memory> {
    let base = Name::from_slice(alloc, b"a")?;
    Ok(Operand::Column(ColName { prefix: None, base }))
}
