ghost use Rattle.std.specs.Prelude.{◌≡◌, ◌+◌, ◌<◌, ◌++◌, ◌∷◌, [], IfOk, OnOk};
ghost use Rattle.std.specs.List.{flat_map};
ghost use Rattle.std.specs.Option.{option_map};
ghost use Rattle.query_meaning.specs.Names.{unknown_operand};
ghost use Rattle.query_meaning.specs.Parameters.{kind_at};
ghost use Rattle.query_names.specs.Waiting.{conds, nodes, waiting_nodes};
ghost use Rattle.write_typing.specs.Faults.{fault_case, first, possible};
ghost use Rattle.write_typing.specs.Operands.{lent, operands_in, operands_of, waiting_operands};
ghost use Rattle.write_typing.specs.Values.{operand_without_kind};

use crate::fault::NameFault;
use crate::names::is_known;
use std::alloc::Global;
use values::{Kind, Memory};
use vra_syntax::{Cond, Operand};
use vschema::Column;

/// The operands of a condition, on both sides of each choice.
///
/// What is still to be read waits in a list, so that no chain takes stack.
#[tactic(auto, using(crate::proofs::OperandLaws::one_waits, crate::proofs::OperandLaws::one_counts))]
pub fn operands_of<'a>(alloc: Global, cond: &'a Cond) -> Result<Vec<&'a Operand>, Memory>
    ensures { IfOk result (λ it. lent it.items ≡ operands_of cond.now) }
{
    let mut found = Vec::new(alloc);
    let mut waiting = Vec::new(alloc);
    waiting.push(cond)?;
    while let Some(next) = waiting.pop() {
        read_next(next, &mut waiting, &mut found)?;
    }
    Ok(found)
}

/// Adds the operands of a comparison. The parts of another condition wait.
fn read_next<'a>(
    next: &'a Cond,
    waiting: &mut Vec<&'a Cond>,
    found: &mut Vec<&'a Operand>,
) -> Result<(), Memory>
    ensures operands { OnOk result (lent found.new.items ++ waiting_operands (conds waiting.new.items) ≡ lent found.old.items ++ (operands_of next.now ++ waiting_operands (conds waiting.old.items))) }
    ensures fewer { OnOk result (waiting_nodes (conds waiting.new.items) < waiting_nodes (conds waiting.old.items) + nodes next.now) }
{
    match next {
        Cond::Cmp(left, _sign, right) => {
            add_both(left, right, found)?;
            Ok(())
        }
        Cond::Not(inner) => {
            put_one(waiting, inner.get())?;
            Ok(())
        }
        Cond::And(left, right) => {
            put_both(waiting, left.get(), right.get())?;
            Ok(())
        }
        Cond::Or(left, right) => {
            put_both(waiting, left.get(), right.get())?;
            Ok(())
        }
        Cond::Choice(_expr, left, right) => {
            put_both(waiting, left.get(), right.get())?;
            Ok(())
        }
        Cond::True => Ok(()),
        Cond::False => Ok(()),
    }
}

#[tactic(auto, using(crate::proofs::OperandLaws::two_lent))]
fn add_both<'a>(
    left: &'a Operand,
    right: &'a Operand,
    found: &mut Vec<&'a Operand>,
) -> Result<(), Memory>
    ensures { OnOk result (lent found.new.items ≡ lent found.old.items ++ left.now ∷ right.now ∷ []) }
{
    found.push(left)?;
    found.push(right)?;
    Ok(())
}

#[tactic(auto, using(crate::proofs::OperandLaws::one_waits, crate::proofs::OperandLaws::one_counts))]
fn put_one<'a>(waiting: &mut Vec<&'a Cond>, inner: &'a Cond) -> Result<(), Memory>
    ensures operands { OnOk result (waiting_operands (conds waiting.new.items) ≡ operands_of inner.now ++ waiting_operands (conds waiting.old.items)) }
    ensures nodes { OnOk result (waiting_nodes (conds waiting.new.items) ≡ waiting_nodes (conds waiting.old.items) + nodes inner.now) }
{
    waiting.push(inner)?;
    Ok(())
}

/// Puts the left part before the right one.
#[tactic(auto, using(crate::proofs::OperandLaws::both_wait, crate::proofs::OperandLaws::both_count))]
fn put_both<'a>(waiting: &mut Vec<&'a Cond>, left: &'a Cond, right: &'a Cond) -> Result<(), Memory>
    ensures operands { OnOk result (waiting_operands (conds waiting.new.items) ≡ operands_of left.now ++ operands_of right.now ++ waiting_operands (conds waiting.old.items)) }
    ensures nodes { OnOk result (waiting_nodes (conds waiting.new.items) ≡ waiting_nodes (conds waiting.old.items) + nodes left.now + nodes right.now) }
{
    waiting.push(right)?;
    waiting.push(left)?;
    Ok(())
}

/// The first of the operands that is a name which no column has.
pub fn unknown_operand<'a>(columns: &[Column], operands: &[&'a Operand]) -> Option<NameFault<'a>>
    ensures { option_map fault_case result ≡ first (flat_map (unknown_operand (possible columns.now)) (lent operands.now)) }
{
    for one in operands {
        if let Some(fault) = fault_of_operand(columns, one) {
            return Some(fault);
        }
    }
    None
}

fn fault_of_operand<'a>(columns: &[Column], one: &'a Operand) -> Option<NameFault<'a>>
    ensures { option_map fault_case result ≡ first (unknown_operand (possible columns.now) one.now) }
{
    match one {
        Operand::Column(name) => {
            if is_known(columns, name) {
                return None;
            }
            Some(NameFault::NoColumn(name))
        }
        Operand::Literal(_value) => None,
        Operand::Param(_number) => None,
    }
}

/// The first of the operands that is a parameter without a kind.
pub fn lacking_operand<'a>(kinds: &[Kind], operands: &[&'a Operand]) -> Option<NameFault<'a>>
    ensures { option_map fault_case result ≡ first (flat_map (operand_without_kind kinds.now) (lent operands.now)) }
{
    for one in operands {
        if let Some(fault) = without_kind(kinds, one) {
            return Some(fault);
        }
    }
    None
}

/// The operand, if it is a parameter without a kind.
pub fn without_kind<'a>(kinds: &[Kind], one: &Operand) -> Option<NameFault<'a>>
    ensures { option_map fault_case result ≡ first (operand_without_kind kinds.now one.now) }
{
    match one {
        Operand::Column(_name) => None,
        Operand::Literal(_value) => None,
        Operand::Param(number) => match kind_at(kinds, *number) {
            Some(_kind) => None,
            None => Some(NameFault::NoKind(*number)),
        },
    }
}

/// The kind of a parameter, by its number from 1.
pub fn kind_at(kinds: &[Kind], number: u16) -> Option<Kind>
    ensures { result ≡ kind_at kinds.now number }
{
    if number == 0 {
        None
    } else {
        kinds.get(usize::from(number) - 1).copied()
    }
}
