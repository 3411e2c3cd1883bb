ghost use Rattle.std.specs.Prelude.{◌≡◌, ◌≤◌, ◌+◌, ◌∷◌, ℕ, List as Items, IsTrue, IfOk};
ghost use Rattle.feature_expr.specs.Expressions.{mentions, weight_of};
ghost use Rattle.feature_expr.specs.Satisfaction.{satisfies};
ghost use Rattle.vtable.specs.Disjunction.{any_holds, any_mentions, conds_cost};
ghost use Rattle.vtable.specs.Passes.{IsJoined, AllJoined};

use crate::disjunction::disjunction;
use crate::group::Group;
use crate::table::VRow;
use condition_sat::{Model, settled_cond};
use feature_expr::{Expr, List, Memory};
use std::alloc::Global;

/// One row for each group.
#[tactic(auto, using(crate::proofs::JoinLaws::joined_push))]
pub fn joined_rows(alloc: Global, model: &Model, groups: Vec<Group>) -> Result<List<VRow>, Memory>
    ensures { IfOk result (λ rows. AllJoined model.now groups.items rows) }
{
    let mut rows = Vec::with_capacity(alloc, groups.len())?;
    for group in groups {
        let row = joined(alloc, model, group)?;
        rows.push(row)?;
    }
    Ok(List::from_vec(rows))
}

/// The one row of a group. The condition of a single one is settled already.
fn joined(alloc: Global, model: &Model, group: Group) -> Result<VRow, Memory>
    ensures { IfOk result (λ row. IsJoined model.now group row) }
{
    let Group { cells, first, more } = group;
    if more.is_empty() {
        return Ok(VRow { cells, cond: first });
    }
    let whole = joined_conds(alloc, first, more)?;
    let cond = settled_cond(model, whole)?;
    Ok(VRow { cells, cond })
}

fn joined_conds(alloc: Global, first: Expr, more: List<Expr>) -> Result<Expr, Memory>
    ensures holds { IfOk result (λ whole. (c : Items ℕ) → satisfies c whole ≡ any_holds c (first ∷ more)) }
    ensures weight { IfOk result (λ whole. weight_of whole + 1 ≤ conds_cost (first ∷ more)) }
    ensures known { IfOk result (λ whole. (i : ℕ) → IsTrue (mentions i whole) → IsTrue (any_mentions i (first ∷ more))) }
{
    let mut conds = more.into_vec();
    conds.push(first)?;
    let whole = disjunction(alloc, conds)?;
    Ok(whole)
}
