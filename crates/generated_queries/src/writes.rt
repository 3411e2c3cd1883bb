use crate::random::Random;
use crate::terms::Writing;
use feature_expr::{Expr, Features, print_expr};
use plain_evaluator::Column;
use std::alloc::Global;
use std::str;
use values::{ColName, Kind, Memory, TryCopy};
use vschema::{Catalog, Table};

/// The text of an INSERT, an UPDATE or a DELETE over a generated catalogue. Some two of three are well typed, if the
/// parameters have the kinds `PARAMETER_KINDS`.
pub fn generated_write(
    alloc: Global,
    random: &mut Random,
    catalog: &Catalog,
) -> Result<String, Memory> {
    let place = random.below(catalog.tables.len());
    let mut writing = Writing {
        random,
        text: String::new(alloc),
        features: catalog.features.count() as usize,
    };
    if let Some(table) = catalog.tables.get(place) {
        put_write(alloc, &mut writing, &catalog.features, table)?;
    }
    Ok(writing.text)
}

/// A write that mostly speaks of one column of the table and of those that are always there.
fn put_write(
    alloc: Global,
    writing: &mut Writing<'_>,
    features: &Features,
    table: &Table,
) -> Result<(), Memory> {
    let place = writing.random.below(table.columns.len());
    let columns = columns_about(alloc, writing.random, table, place)?;
    match writing.random.below(5) {
        0 | 1 => put_insert(writing, table, &columns)?,
        2 | 3 => {
            put_update(writing, table, &columns)?;
            put_where(writing, &columns)?;
        }
        _ => {
            writing.put("delete from ")?;
            put_table(writing, table)?;
            put_where(writing, &columns)?;
        }
    }
    put_acting(alloc, writing, features, table, place)
}

/// All columns of the table, or those that are always there and the one at a place.
fn columns_about(
    alloc: Global,
    random: &mut Random,
    table: &Table,
    place: usize,
) -> Result<Vec<Column>, Memory> {
    let takes_all = random.one_of(3);
    let mut columns = Vec::new(alloc);
    for (at, column) in table.columns.as_slice().iter().enumerate() {
        if takes_all || at == place || column.cond == Expr::True {
            let base = column.name.copy(alloc)?;
            let name = ColName { prefix: None, base };
            columns.push(Column {
                name,
                kind: column.kind,
            })?;
        }
    }
    Ok(columns)
}

/// The table's name; seldom one that isn't known.
fn put_table(writing: &mut Writing<'_>, table: &Table) -> Result<(), Memory> {
    if writing.random.one_of(32) {
        return writing.put("w");
    }
    writing.put(str::from_utf8(table.name.as_slice()).unwrap_or(""))
}

/// One to three rows, with a value for each of the columns; seldom for one of them twice, or for one that isn't known.
fn put_insert(writing: &mut Writing<'_>, table: &Table, columns: &[Column]) -> Result<(), Memory> {
    let more = writing.random.below(24);
    writing.put("insert into ")?;
    put_table(writing, table)?;
    writing.put(" (")?;
    for (place, column) in columns.iter().enumerate() {
        writing.put_comma(place)?;
        writing.put_name(&column.name)?;
    }
    match more {
        0 => writing.put(", a")?,
        1 => writing.put(", q")?,
        _ => {}
    }
    writing.put(") values ")?;
    for row in 0..1 + writing.random.below(3) {
        writing.put_comma(row)?;
        put_values(writing, columns, more < 2)?;
    }
    Ok(())
}

/// A row of values for the columns, and perhaps one more.
fn put_values(writing: &mut Writing<'_>, columns: &[Column], has_more: bool) -> Result<(), Memory> {
    writing.put("(")?;
    for (place, column) in columns.iter().enumerate() {
        writing.put_comma(place)?;
        put_new_value(writing, column.kind)?;
    }
    if has_more {
        writing.put(", 1")?;
    }
    writing.put(")")
}

/// A value or a parameter of the kind; seldom one of another kind, or without one.
fn put_new_value(writing: &mut Writing<'_>, kind: Kind) -> Result<(), Memory> {
    match writing.random.below(48) {
        0 => writing.put_value(Kind::Int),
        1 => writing.put("$4"),
        2 | 3 | 4 | 5 | 6 | 7 => writing.put_parameter(kind),
        _ => writing.put_value(kind),
    }
}

/// New values for one or two of the columns.
fn put_update(writing: &mut Writing<'_>, table: &Table, columns: &[Column]) -> Result<(), Memory> {
    writing.put("update ")?;
    put_table(writing, table)?;
    writing.put(" set ")?;
    let first = writing.random.below(columns.len());
    put_item(writing, columns.get(first))?;
    if writing.random.one_of(3) {
        let second = writing.random.below(columns.len());
        if second != first || writing.random.one_of(4) {
            writing.put(", ")?;
            put_item(writing, columns.get(second))?;
        }
    }
    Ok(())
}

/// A new value for the column; seldom for one that isn't known.
fn put_item(writing: &mut Writing<'_>, column: Option<&Column>) -> Result<(), Memory> {
    match column {
        Some(column) if !writing.random.one_of(24) => {
            writing.put_name(&column.name)?;
            writing.put(" = ")?;
            put_new_value(writing, column.kind)
        }
        _ => writing.put("q = 1"),
    }
}

/// Of all rows, or of those of which a condition is true.
fn put_where(writing: &mut Writing<'_>, columns: &[Column]) -> Result<(), Memory> {
    if writing.random.one_of(4) {
        return Ok(());
    }
    writing.put(" where ")?;
    writing.put_condition(columns)
}

/// In all variants, in those of some expression, or in those that have the column at a place.
fn put_acting(
    alloc: Global,
    writing: &mut Writing<'_>,
    features: &Features,
    table: &Table,
    place: usize,
) -> Result<(), Memory> {
    match (writing.random.below(6), table.columns.get(place)) {
        (0 | 1, _) => Ok(()),
        (2 | 3, Some(column)) => {
            let cond = print_expr(alloc, &column.cond, features)?;
            writing.put(" when ")?;
            writing.put(str::from_utf8(cond.as_slice()).unwrap_or("true"))
        }
        _ => {
            writing.put(" when ")?;
            writing.put_expression()
        }
    }
}
