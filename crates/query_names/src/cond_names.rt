ghost use Rattle.std.specs.Prelude.{◌≡◌, ◌+◌, ◌<◌, [], ◌∷◌, ◌++◌, OnOk};
ghost use Rattle.query_meaning.specs.Names.{unknown_in_cond, unknown_operand};
ghost use Rattle.query_meaning.specs.Parameters.{occurrence, occurrences, partner_of};
ghost use Rattle.query_names.specs.Findings.{cases, places};
ghost use Rattle.query_names.specs.Headings.{headings};
ghost use Rattle.query_names.specs.Waiting.{conds, nodes, waiting_nodes, waiting_parameters, waiting_unknown};

use crate::columns::PossibleColumn;
use crate::found::{Findings, facing_of};
use std::alloc::Global;
use values::Memory;
use vra_syntax::{Cond, Operand};

/// Adds the names of a condition that aren't those of possible columns, and its parameters.
///
/// What is still to be read waits in a list, so that no chain takes stack.
#[tactic(auto, using(crate::proofs::WaitingLaws::one_unknown, crate::proofs::WaitingLaws::one_parameters, crate::proofs::WaitingLaws::one_nodes))]
pub fn read_cond<'a>(
    alloc: Global,
    columns: &[PossibleColumn<'_>],
    cond: &'a Cond,
    findings: &mut Findings<'a>,
) -> Result<(), Memory>
    ensures unknown { OnOk result (cases findings.new.unknown.items ≡ cases findings.old.unknown.items ++ unknown_in_cond (headings columns.now) cond.now) }
    ensures parameters { OnOk result (places findings.new.parameters.items ≡ places findings.old.parameters.items ++ occurrences (headings columns.now) cond.now) }
{
    let mut waiting = Vec::new(alloc);
    waiting.push(cond)?;
    while let Some(next) = waiting.pop() {
        read_next(alloc, columns, next, &mut waiting, findings)?;
    }
    Ok(())
}

/// Adds what stands in a comparison. The parts of another condition wait.
fn read_next<'a>(
    alloc: Global,
    columns: &[PossibleColumn<'_>],
    next: &'a Cond,
    waiting: &mut Vec<&'a Cond>,
    findings: &mut Findings<'a>,
) -> Result<(), Memory>
    ensures unknown { OnOk result (cases findings.new.unknown.items ++ waiting_unknown (headings columns.now) (conds waiting.new.items) ≡ cases findings.old.unknown.items ++ (unknown_in_cond (headings columns.now) next.now ++ waiting_unknown (headings columns.now) (conds waiting.old.items))) }
    ensures parameters { OnOk result (places findings.new.parameters.items ++ waiting_parameters (headings columns.now) (conds waiting.new.items) ≡ places findings.old.parameters.items ++ (occurrences (headings columns.now) next.now ++ waiting_parameters (headings columns.now) (conds waiting.old.items))) }
    ensures fewer { OnOk result (waiting_nodes (conds waiting.new.items) < waiting_nodes (conds waiting.old.items) + nodes next.now) }
{
    match next {
        Cond::Cmp(left, _sign, right) => {
            read_comparison(alloc, columns, left, right, findings)?;
            Ok(())
        }
        Cond::Not(inner) => {
            put_one(waiting, inner.get(), columns)?;
            Ok(())
        }
        Cond::And(left, right) => {
            put_both(waiting, left.get(), right.get(), columns)?;
            Ok(())
        }
        Cond::Or(left, right) => {
            put_both(waiting, left.get(), right.get(), columns)?;
            Ok(())
        }
        Cond::Choice(_expr, left, right) => {
            put_both(waiting, left.get(), right.get(), columns)?;
            Ok(())
        }
        Cond::True => Ok(()),
        Cond::False => Ok(()),
    }
}

#[tactic(auto, using(crate::proofs::WaitingLaws::one_unknown, crate::proofs::WaitingLaws::one_parameters, crate::proofs::WaitingLaws::one_nodes))]
fn put_one<'a>(
    waiting: &mut Vec<&'a Cond>,
    inner: &'a Cond,
    columns: &[PossibleColumn<'_>],
) -> Result<(), Memory>
    ensures unknown { OnOk result (waiting_unknown (headings columns.now) (conds waiting.new.items) ≡ unknown_in_cond (headings columns.now) inner.now ++ waiting_unknown (headings columns.now) (conds waiting.old.items)) }
    ensures parameters { OnOk result (waiting_parameters (headings columns.now) (conds waiting.new.items) ≡ occurrences (headings columns.now) inner.now ++ waiting_parameters (headings columns.now) (conds waiting.old.items)) }
    ensures nodes { OnOk result (waiting_nodes (conds waiting.new.items) ≡ waiting_nodes (conds waiting.old.items) + nodes inner.now) }
{
    waiting.push(inner)?;
    Ok(())
}

/// Puts the left part before the right one.
#[tactic(auto, using(crate::proofs::WaitingLaws::both_unknown, crate::proofs::WaitingLaws::both_parameters, crate::proofs::WaitingLaws::both_nodes))]
fn put_both<'a>(
    waiting: &mut Vec<&'a Cond>,
    left: &'a Cond,
    right: &'a Cond,
    columns: &[PossibleColumn<'_>],
) -> Result<(), Memory>
    ensures unknown { OnOk result (waiting_unknown (headings columns.now) (conds waiting.new.items) ≡ unknown_in_cond (headings columns.now) left.now ++ unknown_in_cond (headings columns.now) right.now ++ waiting_unknown (headings columns.now) (conds waiting.old.items)) }
    ensures parameters { OnOk result (waiting_parameters (headings columns.now) (conds waiting.new.items) ≡ occurrences (headings columns.now) left.now ++ occurrences (headings columns.now) right.now ++ waiting_parameters (headings columns.now) (conds waiting.old.items)) }
    ensures nodes { OnOk result (waiting_nodes (conds waiting.new.items) ≡ waiting_nodes (conds waiting.old.items) + nodes left.now + nodes right.now) }
{
    waiting.push(right)?;
    waiting.push(left)?;
    Ok(())
}

fn read_comparison<'a>(
    alloc: Global,
    columns: &[PossibleColumn<'_>],
    left: &'a Operand,
    right: &'a Operand,
    findings: &mut Findings<'a>,
) -> Result<(), Memory>
    ensures unknown { OnOk result (cases findings.new.unknown.items ≡ cases findings.old.unknown.items ++ (unknown_operand (headings columns.now) left.now ++ unknown_operand (headings columns.now) right.now)) }
    ensures parameters { OnOk result (places findings.new.parameters.items ≡ places findings.old.parameters.items ++ (occurrence (partner_of (headings columns.now) right.now) left.now ++ occurrence (partner_of (headings columns.now) left.now) right.now)) }
{
    let left_is = facing_of(alloc, columns, left)?;
    let right_is = facing_of(alloc, columns, right)?;
    findings.add_operand(left, left_is, right_is)?;
    findings.add_operand(right, right_is, left_is)?;
    Ok(())
}
