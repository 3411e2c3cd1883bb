//! Chains put together, each constant folded away.
ghost use Rattle.std.specs.Prelude.{◌≡◌, IfOk};
ghost use Rattle.simple_conditions.specs.Simpler.{Simplifies, chained};

use feature_expr::{Expr, Memory, TryCopy, and, not, or};
use std::alloc::Global;

/// The left side and the links of the right one in one chain, of `and` where all are to hold.
pub fn appended(alloc: Global, all: bool, left: Expr, right: Expr) -> Result<Expr, Memory>
    ensures { IfOk result (Simplifies (chained all left right)) }
{
    if is_chain(all, &right) {
        spread(alloc, all, left, &right)
    } else {
        joined(alloc, all, left, right)
    }
}

fn is_chain(all: bool, expr: &Expr) -> bool {
    match expr {
        Expr::And(_, _) => all,
        Expr::Or(_, _) => !all,
        _ => false,
    }
}

/// The left side and the links of the right one, which are copied.
#[cycle(spread)]
fn spread(alloc: Global, all: bool, left: Expr, right: &Expr) -> Result<Expr, Memory>
    ensures { IfOk result (Simplifies (chained all left right.now)) }
{
    match right {
        Expr::And(first, last) => if all {
            spread_both(alloc, all, left, first.get(), last.get())
        } else {
            joined_copy(alloc, all, left, right)
        },
        Expr::Or(first, last) => if all {
            joined_copy(alloc, all, left, right)
        } else {
            spread_both(alloc, all, left, first.get(), last.get())
        },
        _ => joined_copy(alloc, all, left, right),
    }
}

#[cycle(spread)]
fn spread_both(
    alloc: Global,
    all: bool,
    left: Expr,
    first: &Expr,
    last: &Expr,
) -> Result<Expr, Memory>
    ensures { IfOk result (Simplifies (chained all left (chained all first.now last.now))) }
{
    let left = spread(alloc, all, left, first)?;
    let whole = joined_copy(alloc, all, left, last)?;
    Ok(whole)
}

fn joined_copy(alloc: Global, all: bool, left: Expr, right: &Expr) -> Result<Expr, Memory>
    ensures { IfOk result (Simplifies (chained all left right.now)) }
{
    let right = right.copy(alloc)?;
    let whole = joined(alloc, all, left, right)?;
    Ok(whole)
}

fn joined(alloc: Global, all: bool, left: Expr, right: Expr) -> Result<Expr, Memory>
    ensures { IfOk result (Simplifies (chained all left right)) }
{
    if all {
        let whole = and(alloc, left, right)?;
        Ok(whole)
    } else {
        let whole = or(alloc, left, right)?;
        Ok(whole)
    }
}

/// The negation, or what is negated inside.
pub fn negated(alloc: Global, inner: Expr) -> Result<Expr, Memory>
    ensures { IfOk result (Simplifies (Expr.Not inner)) }
{
    match &inner {
        Expr::Not(negated) => negated.get().copy(alloc),
        _ => denied(alloc, inner),
    }
}

fn denied(alloc: Global, inner: Expr) -> Result<Expr, Memory>
    ensures { IfOk result (Simplifies (Expr.Not inner)) }
{
    let denied = not(alloc, inner)?;
    Ok(denied)
}
