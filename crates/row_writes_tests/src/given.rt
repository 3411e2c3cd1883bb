//! What the tests have in common.

ghost use Rattle.std.specs.Prelude.{◌≡◌, true, IfSome};
ghost use Rattle.vschema.specs.Formed.{IsFormed, has_distinct_columns};

use condition_sat::Model;
use feature_expr::{Features, parse_expr};
use query_parser::parse;
use std::alloc::Global;
use values::{List, Memory, Text, TryCopy, Value};
use vra_syntax::{Statement, Write};
use vschema::{Catalog, OpeningRow, Table};
use vtable::VRow;

pub fn model_of(alloc: Global, catalog: &Catalog) -> Result<Model, Memory> {
    let expr = catalog.model.copy(alloc)?;
    Model::new(alloc, expr)
}

pub fn first_table<'a>(catalog: &'a Catalog, rows: &List<OpeningRow>) -> Option<&'a Table>
    requires { IsFormed catalog.now rows.now }
    ensures { IfSome result (λ table. has_distinct_columns table.now ≡ true) }
{
    match catalog.tables.as_slice().split_first() {
        Some((table, _more)) => Some(table),
        None => None,
    }
}

/// The only write of a text.
pub fn write(alloc: Global, text: &str, features: &Features) -> Option<Write> {
    match parse(alloc, text, features, true).ok()?.pop() {
        Some(Statement::Write(write)) => Some(write),
        _ => None,
    }
}

/// Rows with `|` between them.
pub fn rows(alloc: Global, text: &str, features: &Features) -> Option<List<VRow>> {
    let mut rows = Vec::new(alloc);
    for text in text.split(" | ") {
        rows.push(row(alloc, text, features)?).ok()?;
    }
    Some(List::from_vec(rows))
}

/// A row of three cells: an integer is spelled by digits, any other word is a text, and `-` no cell. Behind them stands
/// its condition.
fn row(alloc: Global, text: &str, features: &Features) -> Option<VRow> {
    let mut words = text.splitn(4, ' ');
    let one = words.next()?;
    let two = words.next()?;
    let three = words.next()?;
    let cond = parse_expr(alloc, words.next()?, features, 64).ok()?;
    let cells = cells(alloc, &[one, two, three])?;
    Some(VRow { cells, cond })
}

fn cells(alloc: Global, words: &[&str]) -> Option<List<Option<Value>>> {
    let mut cells = List::new(alloc);
    for word in words {
        cells.push(cell(alloc, word)?).ok()?;
    }
    Some(cells)
}

fn cell(alloc: Global, word: &str) -> Option<Option<Value>> {
    if word == "-" {
        return Some(None);
    }
    match word.parse::<i64>() {
        Ok(number) => Some(Some(Value::Int(number))),
        Err(_text) => Some(Some(Value::Text(Text::from_slice(alloc, word.as_bytes()).ok()?))),
    }
}
