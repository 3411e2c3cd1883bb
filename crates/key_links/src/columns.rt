ghost use Rattle.std.specs.Prelude.{◌≡◌, [], IfOk, IfSome, OnOk};
ghost use Rattle.key_links.specs.KeyLinks.{IsColumnLink, ArePlacesOf, cell_at, equals_column};

use crate::only::{has_name, only_place};
use std::alloc::Global;
use values::{ColName, Memory, TryCopy, Value};
use vra_syntax::{Cond, Op, Operand};
use vtable::VColumn;

/// The places of a left and of a right column whose cells are the same in each pair of which the condition is true.
#[derive(Clone, Copy)]
pub struct ColumnLink {
    pub left: usize,
    pub right: usize,
}

/// The last link of a conjunction that compares a column of the left side with one of the right side by `=`, of those
/// whose columns alone have their names. It takes no memory.
#[tactic(auto, using(crate::proofs::NeededLaws::whole_part, crate::proofs::NeededLaws::part_of_first, crate::proofs::NeededLaws::part_of_second, crate::proofs::LinkLaws::linked_part))]
pub fn column_link(cond: &Cond, left: &[VColumn], right: &[VColumn]) -> Option<ColumnLink>
    ensures { IfSome result (λ link. IsColumnLink cond.now left.now right.now link) }
{
    let mut at = cond;
    while let Cond::And(first, second) = at {
        if let Some(link) = link_of(second.get(), left, right) {
            return Some(link);
        }
        at = first.get();
    }
    link_of(at, left, right)
}

fn link_of(cond: &Cond, left: &[VColumn], right: &[VColumn]) -> Option<ColumnLink>
    ensures { IfSome result (λ link. IsColumnLink cond.now left.now right.now link) }
{
    match cond {
        Cond::Cmp(Operand::Column(one), Op::Eq, Operand::Column(other)) => {
            link_between(one, other, left, right)
        }
        _ => None,
    }
}

#[tactic(auto, using(crate::proofs::LinkLaws::linked, crate::proofs::LinkLaws::linked_turned))]
fn link_between(
    one: &ColName,
    other: &ColName,
    left: &[VColumn],
    right: &[VColumn],
) -> Option<ColumnLink>
    ensures { IfSome result (λ link. IsColumnLink (equals_column one.now other.now) left.now right.now link) }
{
    if let Some(link) = places_of(one, other, left, right) {
        return Some(link);
    }
    match places_of(other, one, left, right) {
        Some(link) => Some(link),
        None => None,
    }
}

/// The places of a column that the left side alone has, and of one that the right side alone has.
fn places_of(
    one: &ColName,
    other: &ColName,
    left: &[VColumn],
    right: &[VColumn],
) -> Option<ColumnLink>
    ensures { IfSome result (λ link. ArePlacesOf one.now other.now left.now right.now link) }
{
    if !has_name(one, right) && !has_name(other, left) {
        let first = only_place(one, left)?;
        let second = only_place(other, right)?;
        return Some(ColumnLink {
            left: first,
            right: second,
        });
    }
    None
}

/// A copy of the cell at the place.
pub fn cell_at(
    alloc: Global,
    place: usize,
    cells: &[Option<Value>],
) -> Result<Option<Value>, Memory>
    ensures { IfOk result (λ it. it ≡ cell_at place cells.now) }
{
    match cells.get(place) {
        Some(cell) => cell.copy(alloc),
        None => Ok(None),
    }
}
