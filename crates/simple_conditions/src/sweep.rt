//! One way through a condition.
ghost use Rattle.std.specs.Prelude.{◌≡◌, IfOk};
ghost use Rattle.simple_conditions.specs.Known.{Fits, FitsBeside};
ghost use Rattle.simple_conditions.specs.Simpler.{SimplifiesWhere, chained};

use crate::chain::{appended, negated};
use crate::known::{are_literals, value_of};
use crate::literals::{Literals, literals_of};
use feature_expr::{Expr, Memory};
use std::alloc::Global;

/// From which side the links of a chain are gone through.
#[derive(Clone, Copy)]
pub enum From {
    Left,
    Right,
}

/// The expression where all that is known is so: each part whose value is certain then is that constant. It takes stack
/// for each node on a path.
#[cycle(sweep)]
#[tactic(auto, using(crate::proofs::SimplerLaws::always_in, crate::proofs::SimplerLaws::never_in))]
pub fn swept(
    alloc: Global,
    from: From,
    literals: &Literals,
    holds: &Expr,
    fails: &Expr,
    expr: &Expr,
) -> Result<Expr, Memory>
    ensures { IfOk result (SimplifiesWhere (Fits literals.now holds.now fails.now) expr.now) }
{
    match value_of(expr, literals, holds, fails) {
        Some(true) => Ok(Expr::True),
        Some(false) => Ok(Expr::False),
        None => swept_parts(alloc, from, literals, holds, fails, expr),
    }
}

#[cycle(sweep)]
fn swept_parts(
    alloc: Global,
    from: From,
    literals: &Literals,
    holds: &Expr,
    fails: &Expr,
    expr: &Expr,
) -> Result<Expr, Memory>
    ensures { IfOk result (SimplifiesWhere (Fits literals.now holds.now fails.now) expr.now) }
{
    match expr {
        Expr::True => Ok(Expr::True),
        Expr::False => Ok(Expr::False),
        Expr::Feature(feature) => Ok(Expr::Feature(*feature)),
        Expr::Not(inner) => {
            let inner = swept(alloc, from, literals, holds, fails, inner.get())?;
            let whole = negated(alloc, inner)?;
            Ok(whole)
        }
        Expr::And(left, right) => {
            let (left, right) = (left.get(), right.get());
            swept_links(alloc, from, literals, holds, fails, true, left, right)
        }
        Expr::Or(left, right) => {
            let (left, right) = (left.get(), right.get());
            swept_links(alloc, from, literals, holds, fails, false, left, right)
        }
    }
}

/// Two sides of a chain, of `and` where all links are to hold. The side that is gone through first is known further on.
#[cycle(sweep)]
fn swept_links(
    alloc: Global,
    from: From,
    literals: &Literals,
    holds: &Expr,
    fails: &Expr,
    all: bool,
    left: &Expr,
    right: &Expr,
) -> Result<Expr, Memory>
    ensures { IfOk result (SimplifiesWhere (Fits literals.now holds.now fails.now) (chained all left.now right.now)) }
{
    match from {
        From::Left => {
            let left = swept(alloc, from, literals, holds, fails, left)?;
            let right = swept_beside(alloc, from, literals, holds, fails, all, &left, right)?;
            let whole = appended(alloc, all, left, right)?;
            Ok(whole)
        }
        From::Right => {
            let right = swept(alloc, from, literals, holds, fails, right)?;
            let left = swept_beside(alloc, from, literals, holds, fails, all, &right, left)?;
            let whole = appended(alloc, all, left, right)?;
            Ok(whole)
        }
    }
}

/// A side of a chain, where the links beside it hold (in one of `and`) or don't (in one of `or`). Of the expressions that
/// were known each gives place, where the values of features don't say it all.
#[cycle(sweep)]
fn swept_beside(
    alloc: Global,
    from: From,
    literals: &Literals,
    holds: &Expr,
    fails: &Expr,
    all: bool,
    links: &Expr,
    expr: &Expr,
) -> Result<Expr, Memory>
    ensures { IfOk result (SimplifiesWhere (FitsBeside literals.now holds.now fails.now all links.now) expr.now) }
{
    let literals = literals_of(links, all, literals);
    if are_literals(links, all) {
        swept(alloc, from, &literals, holds, fails, expr)
    } else if all {
        swept(alloc, from, &literals, links, fails, expr)
    } else {
        swept(alloc, from, &literals, holds, links, expr)
    }
}
