//! Conditions with the same truth in fewer nodes.
ghost use Rattle.std.specs.Prelude.{◌≡◌, ◌≤◌, ℕ, IsTrue, IfOk, List as Items};
ghost use Rattle.feature_expr.specs.Expressions.{mentions, weight_of};
ghost use Rattle.feature_expr.specs.Satisfaction.{satisfies};
ghost use Rattle.simple_conditions.specs.Simpler.{Simplifies};

use crate::literals::Literals;
use crate::plain::is_plain;
use crate::sweep::{From, swept};
use feature_expr::{Expr, Memory, is_same_expr, weight};
use std::alloc::Global;

/// The greatest number of nodes of a condition that is simplified. The work grows with its square.
pub const WEIGHT_LIMIT: u64 = 500;

/// How often a condition is gone through, to and fro, at most. Mostly the second time changes nothing.
const TURNS: u8 = 4;

/// A condition with the same truth everywhere, in as many nodes or fewer. One that weighs more than the limit is given
/// back as it is; so is one that has nothing to simplify, and for that nothing is allocated.
pub fn simplified(alloc: Global, expr: Expr) -> Result<Expr, Memory>
    ensures meaning { IfOk result (λ it. (c : Items ℕ) → satisfies c it ≡ satisfies c expr) }
    ensures weight { IfOk result (λ it. weight_of it ≤ weight_of expr) }
    ensures features { IfOk result (λ it. (i : ℕ) → IsTrue (mentions i it) → IsTrue (mentions i expr)) }
{
    if is_given_back(&expr) {
        return Ok(expr);
    }
    let expr = turned(alloc, expr)?;
    Ok(expr)
}

/// Whether the condition is given back as it is, which costs less to tell than to copy it.
pub fn is_given_back(expr: &Expr) -> bool {
    is_plain(expr) || weight(expr) > WEIGHT_LIMIT
}

/// To and fro, until nothing changes any more.
fn turned(alloc: Global, expr: Expr) -> Result<Expr, Memory>
    ensures { IfOk result (Simplifies expr) }
{
    let mut expr = expr;
    for _ in 0..TURNS {
        let next = to_and_fro(alloc, &expr)?;
        let is_done = is_same_expr(&next, &expr);
        expr = next;
        if is_done {
            return Ok(expr);
        }
    }
    Ok(expr)
}

fn to_and_fro(alloc: Global, expr: &Expr) -> Result<Expr, Memory>
    ensures { IfOk result (Simplifies expr.now) }
{
    let to = way(alloc, From::Left, expr)?;
    let fro = way(alloc, From::Right, &to)?;
    Ok(fro)
}

/// Once through the expression, with nothing known.
fn way(alloc: Global, from: From, expr: &Expr) -> Result<Expr, Memory>
    ensures { IfOk result (Simplifies expr.now) }
{
    let literals = Literals::none();
    let expr = swept(alloc, from, &literals, &Expr::True, &Expr::False, expr)?;
    Ok(expr)
}
