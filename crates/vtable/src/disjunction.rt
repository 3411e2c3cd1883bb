ghost use Rattle.std.specs.Prelude.{◌≡◌, ◌<◌, ◌≤◌, ◌+◌, ◌-◌, ◌*◌, ◌||◌, ◌++◌, ◌∷◌, [], ℕ, length, List as Items, IsTrue, IfOk, OnOk};
ghost use Rattle.feature_expr.specs.Expressions.{mentions, weight_of};
ghost use Rattle.feature_expr.specs.Satisfaction.{satisfies};
ghost use Rattle.vtable.specs.Disjunction.{any_holds, any_mentions, conds_cost};

use feature_expr::{Expr, Memory, or};
use std::alloc::Global;

/// Holds where one of the conditions does. They are joined pairwise, so that many of them nest no deeper than the
/// logarithm of their number.
pub fn disjunction(alloc: Global, conds: Vec<Expr>) -> Result<Expr, Memory>
    requires { 0 < length conds.items }
    ensures holds { IfOk result (λ whole. (c : Items ℕ) → satisfies c whole ≡ any_holds c conds.items) }
    ensures weight { IfOk result (λ whole. weight_of whole + 1 ≤ conds_cost conds.items) }
    ensures known { IfOk result (λ whole. (i : ℕ) → IsTrue (mentions i whole) → IsTrue (any_mentions i conds.items)) }
{
    let mut conds = conds;
    while conds.len() > 1 {
        conds = joined_pairs(alloc, conds)?;
    }
    match conds.pop() {
        Some(whole) => Ok(whole),
        None => Ok(Expr::False),
    }
}

/// Each two of the conditions in one.
#[tactic(auto, using(crate::proofs::DisjunctionLaws::any_push, crate::proofs::DisjunctionLaws::cost_push))]
fn joined_pairs(alloc: Global, conds: Vec<Expr>) -> Result<Vec<Expr>, Memory>
    ensures holds { IfOk result (λ joined. (c : Items ℕ) → any_holds c joined.items ≡ any_holds c conds.items) }
    ensures weight { IfOk result (λ joined. conds_cost joined.items ≤ conds_cost conds.items) }
    ensures known { IfOk result (λ joined. (i : ℕ) → IsTrue (any_mentions i joined.items) → IsTrue (any_mentions i conds.items)) }
    ensures half { IfOk result (λ joined. 2 * length joined.items ≤ length conds.items + 1) }
    ensures some { IfOk result (λ joined. length conds.items ≤ 2 * length joined.items) }
{
    let mut conds = conds;
    let mut joined = Vec::new(alloc);
    while let Some(right) = conds.pop() {
        let pair = paired(alloc, &mut conds, right)?;
        joined.push(pair)?;
    }
    Ok(joined)
}

/// Takes the last of the conditions, if there is one, and joins it with this one.
#[tactic(auto, using(crate::proofs::DisjunctionLaws::any_push, crate::proofs::DisjunctionLaws::cost_push))]
fn paired(alloc: Global, conds: &mut Vec<Expr>, right: Expr) -> Result<Expr, Memory>
    ensures holds { IfOk result (λ pair. (c : Items ℕ) → (any_holds c conds.new.items || satisfies c pair) ≡ any_holds c (conds.old.items ++ right ∷ [])) }
    ensures weight { IfOk result (λ pair. conds_cost (conds.new.items ++ pair ∷ []) ≤ conds_cost (conds.old.items ++ right ∷ [])) }
    ensures known { IfOk result (λ pair. (i : ℕ) → IsTrue (any_mentions i conds.new.items || mentions i pair) → IsTrue (any_mentions i (conds.old.items ++ right ∷ []))) }
    ensures fewer { OnOk result (length conds.new.items ≡ length conds.old.items - 1) }
{
    match conds.pop() {
        Some(left) => {
            let pair = or(alloc, left, right)?;
            Ok(pair)
        }
        None => Ok(right),
    }
}
