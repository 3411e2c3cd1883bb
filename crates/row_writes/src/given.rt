ghost use Rattle.std.specs.Prelude.{◌≡◌, ◌++◌, map, IfOk, OnOk};
ghost use Rattle.std.specs.Option.{option_copied};
ghost use Rattle.std.specs.Str.{bytes_eq};
ghost use Rattle.query_meaning.specs.WriteTyping.{assignment_of, assignments_of};
ghost use Rattle.vschema.specs.Variants.{bare_name};
ghost use Rattle.write_meaning.specs.PlainWrites.{assigned, literal};
ghost use Rattle.write_meaning.specs.RowWrites.{given_or, set_cells};

use std::alloc::Global;
use values::{List, Memory, Name, TryCopy, Value};
use vra_syntax::{Operand, SetItem};
use vschema::Column;

/// The value of an operand that is no column's name and no parameter.
pub fn literal(operand: &Operand) -> Option<&Value>
    ensures { option_copied result ≡ literal operand.now }
{
    match operand {
        Operand::Literal(value) => Some(value),
        Operand::Column(_name) => None,
        Operand::Param(_number) => None,
    }
}

/// The value that the items give a column.
fn set_value<'a>(items: &'a [SetItem], column: &Name) -> Option<&'a Value>
    ensures { option_copied result ≡ assigned (map assignment_of items.now) (bare_name column.now) }
{
    let mut items = items;
    while let Some((item, more)) = items.split_first() {
        if is_named(&item.column, column) {
            return literal(&item.value);
        }
        items = more;
    }
    None
}

/// The value that a list of values gives a column, where these are the names of its columns.
pub fn listed_value<'a>(names: &[Name], values: &'a [Operand], column: &Name) -> Option<&'a Value>
    ensures { option_copied result ≡ assigned (assignments_of names.now values.now) (bare_name column.now) }
{
    let mut names = names;
    let mut values = values;
    while let Some((name, more)) = names.split_first() {
        let Some((value, rest)) = values.split_first() else {
            return None;
        };
        if is_named(name, column) {
            return literal(value);
        }
        names = more;
        values = rest;
    }
    None
}

fn is_named(one: &Name, other: &Name) -> bool
    ensures { result ≡ bytes_eq one.now other.now }
{
    *one == *other
}

/// The cells of a row with the values that the items give.
pub fn set_cells(
    alloc: Global,
    columns: &[Column],
    items: &[SetItem],
    cells: &[Option<Value>],
) -> Result<List<Option<Value>>, Memory>
    ensures { IfOk result (λ it. it ≡ set_cells columns.now (map assignment_of items.now) cells.now) }
{
    let mut out = Vec::with_capacity(alloc, cells.len())?;
    let mut columns = columns;
    let mut cells = cells;
    while let Some((column, more)) = columns.split_first() {
        let Some((cell, rest)) = cells.split_first() else {
            return Ok(List::from_vec(out));
        };
        out.push(set_cell(alloc, column, items, cell)?)?;
        columns = more;
        cells = rest;
    }
    put_cells(alloc, &mut out, cells)?;
    Ok(List::from_vec(out))
}

fn set_cell(
    alloc: Global,
    column: &Column,
    items: &[SetItem],
    cell: &Option<Value>,
) -> Result<Option<Value>, Memory>
    ensures { IfOk result (λ it. it ≡ given_or (assigned (map assignment_of items.now) (bare_name column.now.name)) cell.now) }
{
    match set_value(items, &column.name) {
        Some(value) => Ok(Some(value.copy(alloc)?)),
        None => cell.copy(alloc),
    }
}

/// Adds copies of the cells.
fn put_cells(
    alloc: Global,
    out: &mut Vec<Option<Value>>,
    cells: &[Option<Value>],
) -> Result<(), Memory>
    ensures { OnOk result (out.new.items ≡ out.old.items ++ cells.now) }
{
    for cell in cells {
        let cell = cell.copy(alloc)?;
        out.push(cell)?;
    }
    Ok(())
}
