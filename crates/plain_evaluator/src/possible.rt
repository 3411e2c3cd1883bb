use crate::relation::{Column, aliased, bare_name, merged, once, pick};
use std::alloc::Global;
use values::{ColName, Memory, Name};
use vra_syntax::{Item, Items, Query};
use vschema::{Catalog, Table};

/// The columns that the query may have in some variant, each once, in the order of its answers. No condition is looked
/// at.
pub fn possible_columns(
    alloc: Global,
    catalog: &Catalog,
    query: &Query,
) -> Result<Vec<Column>, Memory> {
    match query {
        Query::Table(name) => all_columns(alloc, catalog, name),
        Query::Select(items, source, _cond) => {
            let source = possible_columns(alloc, catalog, source.get())?;
            possible_kept(alloc, items, source)
        }
        Query::Join(left, right, _cond) => {
            let left = possible_columns(alloc, catalog, left.get())?;
            merged(left, possible_columns(alloc, catalog, right.get())?)
        }
        Query::Union(left, right) => {
            let left = possible_columns(alloc, catalog, left.get())?;
            merged(left, possible_columns(alloc, catalog, right.get())?)
        }
        Query::Except(left, _right) => possible_columns(alloc, catalog, left.get()),
        Query::Alias(source, alias) => {
            let source = possible_columns(alloc, catalog, source.get())?;
            once(alloc, aliased(alloc, alias, &source)?)
        }
        Query::Choice(_expr, left, right) => {
            let left = possible_columns(alloc, catalog, left.get())?;
            merged(left, possible_columns(alloc, catalog, right.get())?)
        }
        Query::Empty => Ok(Vec::new(alloc)),
    }
}

/// The table of a name.
pub fn table_named<'a>(catalog: &'a Catalog, name: &Name) -> Option<&'a Table> {
    let number = catalog.find_table(name)?;
    catalog.tables.get(number as usize)
}

/// All columns of a table. One that isn't known has none.
fn all_columns(alloc: Global, catalog: &Catalog, name: &Name) -> Result<Vec<Column>, Memory> {
    let mut columns = Vec::new(alloc);
    if let Some(table) = table_named(catalog, name) {
        for column in table.columns.as_slice() {
            let name = bare_name(alloc, &column.name)?;
            columns.push(Column {
                name,
                kind: column.kind,
            })?;
        }
    }
    Ok(columns)
}

/// What items can keep.
fn possible_kept(alloc: Global, items: &Items, source: Vec<Column>) -> Result<Vec<Column>, Memory> {
    match items {
        Items::All => Ok(source),
        Items::Listed(items) => {
            let mut columns = Vec::new(alloc);
            for item in items.as_slice() {
                pick(alloc, &source, &item.column, given(item), &mut columns)?;
            }
            once(alloc, columns)
        }
    }
}

/// The name that an item gives.
pub fn given(item: &Item) -> &ColName {
    match &item.rename {
        Some(name) => name,
        None => &item.column,
    }
}
