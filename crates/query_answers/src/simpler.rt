//! Rows under simplified conditions.

ghost use Rattle.std.specs.Prelude.{◌≡◌, ◌++◌, ◌∷◌, [], IfOk, IfSome, OnOk};
ghost use Rattle.query_answers.specs.SimplerRows.{AreSimpler, IsSimplified, PutsSimpler};

use feature_expr::{Expr, is_same_expr};
use simple_conditions::{is_given_back, simplified};
use std::alloc::Global;
use values::{List, Memory, TryCopy};
use vtable::VRow;

/// A condition, and what stands in its place.
#[derive(Drop)]
pub struct Simplified {
    pub before: Expr,
    pub after: Expr,
}

/// The rows, each under a simplified condition. Rows with one condition that stand beside one another have it simplified
/// once.
#[tactic(auto, using(crate::proofs::SimplerLaws::simpler_more))]
pub fn simpler_rows(alloc: Global, rows: List<VRow>) -> Result<List<VRow>, Memory>
    ensures { IfOk result (AreSimpler rows) }
{
    let mut out = Vec::new(alloc);
    let mut last = None;
    for row in rows.into_vec() {
        last = put_simpler(alloc, last, row, &mut out)?;
    }
    Ok(List::from_vec(out))
}

/// Puts a row behind the others, and gives the last condition that was simplified.
fn put_simpler(
    alloc: Global,
    last: Option<Simplified>,
    row: VRow,
    out: &mut Vec<VRow>,
) -> Result<Option<Simplified>, Memory>
    requires { IfSome last IsSimplified }
    ensures last { IfOk result (λ it. IfSome it IsSimplified) }
    ensures put { OnOk result (PutsSimpler out.old.items out.new.items row) }
{
    if is_given_back(&row.cond) {
        out.push(row)?;
        return Ok(last);
    }
    let VRow { cells, cond } = row;
    let simpler = simplified_for(alloc, last, &cond)?;
    let cond = simpler.after.copy(alloc)?;
    out.push(VRow { cells, cond })?;
    Ok(Some(simpler))
}

/// What stands in the condition's place: what did last, where that was for the same condition.
fn simplified_for(
    alloc: Global,
    last: Option<Simplified>,
    cond: &Expr,
) -> Result<Simplified, Memory>
    requires { IfSome last IsSimplified }
    ensures is { IfOk result IsSimplified }
    ensures before { IfOk result (λ it. it.before ≡ cond.now) }
{
    match last {
        Some(simpler) => {
            if is_same_expr(&simpler.before, cond) {
                Ok(simpler)
            } else {
                newly_simplified(alloc, cond)
            }
        }
        None => newly_simplified(alloc, cond),
    }
}

fn newly_simplified(alloc: Global, cond: &Expr) -> Result<Simplified, Memory>
    ensures is { IfOk result IsSimplified }
    ensures before { IfOk result (λ it. it.before ≡ cond.now) }
{
    let before = cond.copy(alloc)?;
    let copied = cond.copy(alloc)?;
    let after = simplified(alloc, copied)?;
    Ok(Simplified { before, after })
}
