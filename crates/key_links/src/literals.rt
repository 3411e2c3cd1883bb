ghost use Rattle.std.specs.Prelude.{◌≡◌, IfOk, OnOk};
ghost use Rattle.key_links.specs.KeyLinks.{AreNeeded, PutsNeeded, equals_value, has_value, is_equal, meets_links};

use crate::only::only_place;
use std::alloc::Global;
use values::{ColName, Memory, TryCopy, Value};
use vra_syntax::{Cond, Op, Operand};
use vtable::VColumn;

/// The place of a column, and the value that its cell has wherever the condition is true.
#[derive(Drop)]
pub struct ValueLink {
    pub place: usize,
    pub value: Value,
}

/// The links of a conjunction that compare a column with a value by `=`, of those whose column alone has its name.
#[tactic(auto, using(crate::proofs::NeededLaws::whole_part, crate::proofs::NeededLaws::part_of_first, crate::proofs::NeededLaws::part_of_second, crate::proofs::NeededLaws::none_needed, crate::proofs::NeededLaws::put_needed))]
pub fn value_links(
    alloc: Global,
    cond: &Cond,
    columns: &[VColumn],
) -> Result<Vec<ValueLink>, Memory>
    ensures { IfOk result (λ links. AreNeeded cond.now columns.now links.items) }
{
    let mut links = Vec::new(alloc);
    let mut at = cond;
    while let Cond::And(first, second) = at {
        put_link(alloc, second.get(), columns, &mut links)?;
        at = first.get();
    }
    put_link(alloc, at, columns, &mut links)?;
    Ok(links)
}

#[tactic(auto, using(crate::proofs::NeededLaws::puts_none))]
fn put_link(
    alloc: Global,
    cond: &Cond,
    columns: &[VColumn],
    links: &mut Vec<ValueLink>,
) -> Result<(), Memory>
    ensures { OnOk result (PutsNeeded cond.now columns.now links.old.items links.new.items) }
{
    match cond {
        Cond::Cmp(Operand::Column(name), Op::Eq, Operand::Literal(value)) => {
            put_literal(alloc, name, value, columns, links)
        }
        _ => Ok(()),
    }
}

#[tactic(auto, using(crate::proofs::NeededLaws::one_needed, crate::proofs::NeededLaws::puts_none))]
fn put_literal(
    alloc: Global,
    name: &ColName,
    value: &Value,
    columns: &[VColumn],
    links: &mut Vec<ValueLink>,
) -> Result<(), Memory>
    ensures { OnOk result (PutsNeeded (equals_value name.now value.now) columns.now links.old.items links.new.items) }
{
    if let Some(place) = only_place(name, columns) {
        let value = value.copy(alloc)?;
        links.push(ValueLink { place, value })?;
    }
    Ok(())
}

/// Whether a row's cells have the values that the links ask for. It takes no memory.
pub fn meets_links(links: &[ValueLink], cells: &[Option<Value>]) -> bool
    ensures { result ≡ meets_links links.now cells.now }
{
    let mut links = links;
    while let Some((link, more)) = links.split_first() {
        if !has_value(cells, link.place, &link.value) {
            return false;
        }
        links = more;
    }
    true
}

fn has_value(cells: &[Option<Value>], place: usize, value: &Value) -> bool
    ensures { result ≡ has_value cells.now place value.now }
{
    match cells.get(place) {
        Some(Some(other)) => is_equal(other, value),
        Some(None) => false,
        None => false,
    }
}

fn is_equal(one: &Value, other: &Value) -> bool
    ensures { result ≡ is_equal one.now other.now }
{
    one.kind() == other.kind() && one.cmp(other).is_eq()
}
