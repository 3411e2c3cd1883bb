ghost use Rattle.std.specs.Prelude.{◌≡◌, ◌++◌, ◌∷◌, [], map, IfOk, OnOk};
ghost use Rattle.std.specs.Option.{option_map};
ghost use Rattle.plain_relation.specs.Relations.{has_name, same_name};
ghost use Rattle.query_meaning.specs.Sources.{table_column};
ghost use Rattle.query_meaning.specs.WriteTyping.{table_name_of};
ghost use Rattle.vra_syntax.specs.declared.write.SetItem.{SetItem as TheItem};
ghost use Rattle.vschema.specs.Variants.{bare_name};
ghost use Rattle.write_typing.specs.Faults.{fault_case, first, is_one_of, names_of, possible, repeated_names, unknown_names};

use crate::fault::NameFault;
use std::alloc::Global;
use values::{ColName, Memory, Name, TryCopy};
use vra_syntax::{SetItem, Write};
use vschema::Column;

pub fn table_name(write: &Write) -> &Name
    ensures { result.now ≡ table_name_of write.now }
{
    match write {
        Write::Insert(table, _names, _rows, _expr) => table,
        Write::Delete(table, _cond, _expr) => table,
        Write::Update(table, _items, _cond, _expr) => table,
    }
}

/// The columns that a write names.
pub fn names_of(alloc: Global, write: &Write) -> Result<Vec<ColName>, Memory>
    ensures { IfOk result (λ it. it.items ≡ names_of write.now) }
{
    match write {
        Write::Insert(_table, names, _rows, _expr) => bare_names(alloc, names.as_slice()),
        Write::Delete(_table, _cond, _expr) => Ok(Vec::new(alloc)),
        Write::Update(_table, items, _cond, _expr) => item_names(alloc, items.as_slice()),
    }
}

fn bare_names(alloc: Global, names: &[Name]) -> Result<Vec<ColName>, Memory>
    ensures { IfOk result (λ it. it.items ≡ map bare_name names.now) }
{
    let mut found = Vec::with_capacity(alloc, names.len())?;
    for name in names {
        add_name(alloc, name, &mut found)?;
    }
    Ok(found)
}

fn item_names(alloc: Global, items: &[SetItem]) -> Result<Vec<ColName>, Memory>
    ensures { IfOk result (λ it. it.items ≡ map bare_name (map (λ (item : TheItem). item.column) items.now)) }
{
    let mut found = Vec::with_capacity(alloc, items.len())?;
    for item in items {
        add_name(alloc, &item.column, &mut found)?;
    }
    Ok(found)
}

fn add_name(alloc: Global, name: &Name, found: &mut Vec<ColName>) -> Result<(), Memory>
    ensures { OnOk result (found.new.items ≡ found.old.items ++ bare_name name.now ∷ []) }
{
    let base = name.copy(alloc)?;
    found.push(ColName { prefix: None, base })?;
    Ok(())
}

/// The first of the names that no column has.
pub fn unknown_name<'a>(columns: &[Column], names: &'a [ColName]) -> Option<NameFault<'a>>
    ensures { option_map fault_case result ≡ first (unknown_names (possible columns.now) names.now) }
{
    for name in names {
        if !is_known(columns, name) {
            return Some(NameFault::NoColumn(name));
        }
    }
    None
}

/// Whether one of the columns has the name.
pub fn is_known(columns: &[Column], name: &ColName) -> bool
    ensures { result ≡ has_name name.now (possible columns.now) }
{
    for column in columns {
        if has_this_name(column, name) {
            return true;
        }
    }
    false
}

/// A name with a prefix is no column's.
pub fn has_this_name(column: &Column, name: &ColName) -> bool
    ensures { result ≡ same_name (table_column column.now).name name.now }
{
    name.prefix.is_none() && column.name == name.base
}

/// The first of the names that stands again behind.
pub fn named_twice(names: &[ColName]) -> Option<NameFault<'_>>
    ensures { option_map fault_case result ≡ first (repeated_names names.now) }
{
    let mut left = names;
    while let Some((name, behind)) = left.split_first() {
        if is_one_of(name, behind) {
            return Some(NameFault::NamedTwice(name));
        }
        left = behind;
    }
    None
}

fn is_one_of(name: &ColName, names: &[ColName]) -> bool
    ensures { result ≡ is_one_of name.now names.now }
{
    for other in names {
        if *other == *name {
            return true;
        }
    }
    false
}
