ghost use Rattle.std.specs.Prelude.{◌≡◌, map, slice_get, IfOk};
ghost use Rattle.std.specs.List.{flat_map};
ghost use Rattle.std.specs.Option.{option_map};
ghost use Rattle.query_meaning.specs.WriteTyping.{misfits, other_kind};
ghost use Rattle.relational_algebra.specs.Columns.{kinds_of, named};
ghost use Rattle.write_typing.specs.Faults.{fault_case, first, possible};
ghost use Rattle.write_typing.specs.Values.{met, misfit, new_values, row_check, seat, seat_of, value_check, write_check};

use crate::fault::NameFault;
use crate::names::has_this_name;
use crate::operands::{kind_at, without_kind};
use std::alloc::Global;
use values::{ColName, Kind, List, Memory};
use vra_syntax::{Operand, SetItem, Write};
use vschema::Column;

/// What is asked of a value.
#[derive(Clone, Copy)]
pub enum Check {
    /// Whether it has its column's kind. A column's name has none.
    OfKind,
    /// Whether it is no parameter without a kind.
    HasKind,
}

/// A column that a write names, and the kinds that columns of this name have.
#[derive(Drop)]
pub struct Place<'a> {
    pub name: &'a ColName,
    pub kinds: Vec<Kind>,
}

/// The names that a write gives values to, each looked up once.
pub fn places_of<'a>(
    alloc: Global,
    columns: &[Column],
    names: &'a [ColName],
) -> Result<Vec<Place<'a>>, Memory>
    ensures { IfOk result (λ it. map seat it.items ≡ map (seat_of (possible columns.now)) names.now) }
{
    let mut places = Vec::with_capacity(alloc, names.len())?;
    for name in names {
        let kinds = kinds_named(alloc, columns, name)?;
        places.push(Place { name, kinds })?;
    }
    Ok(places)
}

fn kinds_named(alloc: Global, columns: &[Column], name: &ColName) -> Result<Vec<Kind>, Memory>
    ensures { IfOk result (λ it. it.items ≡ kinds_of (named name.now (possible columns.now))) }
{
    let mut kinds = Vec::new(alloc);
    for column in columns {
        if has_this_name(column, name) {
            kinds.push(column.kind)?;
        }
    }
    Ok(kinds)
}

/// The first value of a write that doesn't pass, if there is one.
pub fn value_fault<'a>(
    check: Check,
    kinds: &[Kind],
    places: &[Place<'a>],
    write: &Write,
) -> Option<NameFault<'a>>
    ensures { option_map fault_case result ≡ first (write_check check kinds.now (map seat places.now) write.now) }
{
    match write {
        Write::Insert(_table, _names, rows, _expr) => {
            fault_in_rows(check, kinds, places, rows.as_slice())
        }
        Write::Delete(_table, _cond, _expr) => None,
        Write::Update(_table, items, _cond, _expr) => {
            fault_in_items(check, kinds, places, items.as_slice())
        }
    }
}

fn fault_in_rows<'a>(
    check: Check,
    kinds: &[Kind],
    places: &[Place<'a>],
    rows: &[List<Operand>],
) -> Option<NameFault<'a>>
    ensures { option_map fault_case result ≡ first (flat_map (row_check check kinds.now (map seat places.now)) rows.now) }
{
    for row in rows {
        if let Some(fault) = fault_in_row(check, kinds, places, row.as_slice()) {
            return Some(fault);
        }
    }
    None
}

/// Values behind the last name are for no column.
fn fault_in_row<'a>(
    check: Check,
    kinds: &[Kind],
    places: &[Place<'a>],
    row: &[Operand],
) -> Option<NameFault<'a>>
    ensures { option_map fault_case result ≡ first (row_check check kinds.now (map seat places.now) row.now) }
{
    for (place, value) in row.iter().enumerate() {
        if let Some(fault) = fault_at(check, kinds, places, place, value) {
            return Some(fault);
        }
    }
    None
}

/// Each item has the place of its own name.
fn fault_in_items<'a>(
    check: Check,
    kinds: &[Kind],
    places: &[Place<'a>],
    items: &[SetItem],
) -> Option<NameFault<'a>>
    ensures { option_map fault_case result ≡ first (row_check check kinds.now (map seat places.now) (new_values items.now)) }
{
    for (place, item) in items.iter().enumerate() {
        if let Some(fault) = fault_at(check, kinds, places, place, &item.value) {
            return Some(fault);
        }
    }
    None
}

/// What is wrong with a value for the name at a place, if there is one.
fn fault_at<'a>(
    check: Check,
    kinds: &[Kind],
    places: &[Place<'a>],
    place: usize,
    value: &Operand,
) -> Option<NameFault<'a>>
    ensures { option_map fault_case result ≡ first (met check kinds.now (option_map seat (slice_get places.now place)) value.now) }
{
    match places.get(place) {
        Some(one) => fault_of_value(check, kinds, one, value),
        None => None,
    }
}

fn fault_of_value<'a>(
    check: Check,
    kinds: &[Kind],
    place: &Place<'a>,
    value: &Operand,
) -> Option<NameFault<'a>>
    ensures { option_map fault_case result ≡ first (value_check check kinds.now (seat place.now) value.now) }
{
    match check {
        Check::OfKind => misfit(kinds, place, value),
        Check::HasKind => without_kind(kinds, value),
    }
}

fn misfit<'a>(kinds: &[Kind], place: &Place<'a>, value: &Operand) -> Option<NameFault<'a>>
    ensures { option_map fault_case result ≡ first (misfit kinds.now (seat place.now) value.now) }
{
    for kind in place.kinds.as_slice() {
        if misfits(kinds, value, *kind) {
            return Some(NameFault::ValueKind(place.name));
        }
    }
    None
}

/// Whether the value can't be one of a column of this kind.
fn misfits(kinds: &[Kind], value: &Operand, wanted: Kind) -> bool
    ensures { result ≡ misfits kinds.now value.now wanted }
{
    match value {
        Operand::Column(_name) => true,
        Operand::Literal(value) => value.kind() != wanted,
        Operand::Param(number) => is_other_kind(kind_at(kinds, *number), wanted),
    }
}

fn is_other_kind(kind: Option<Kind>, wanted: Kind) -> bool
    ensures { result ≡ other_kind kind wanted }
{
    match kind {
        Some(kind) => kind != wanted,
        None => false,
    }
}
