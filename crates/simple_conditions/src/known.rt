//! What is certain of a part of a condition, by what is known where it stands: the values of features, an expression
//! that holds, and one that fails.
ghost use Rattle.std.specs.Prelude.{◌≡◌, ℕ, true, false, List as Items, not as negation, IfSome};
ghost use Rattle.feature_expr.specs.Satisfaction.{satisfies};
ghost use Rattle.simple_conditions.specs.Known.{Fits};

use crate::literals::{Literals, can_be, literals_of};
use feature_expr::{Expr, is_same_expr};

/// The one value that an expression can have, where that is certain.
pub fn value_of(expr: &Expr, literals: &Literals, holds: &Expr, fails: &Expr) -> Option<bool>
    ensures { IfSome result (λ value. (c : Items ℕ) → Fits literals.now holds.now fails.now c → satisfies c expr.now ≡ value) }
{
    if !may_be(expr, true, literals, holds, fails) {
        return Some(false);
    }
    if !may_be(expr, false, literals, holds, fails) {
        return Some(true);
    }
    None
}

/// Whether the expression may have the value. False is certain.
fn may_be(expr: &Expr, value: bool, literals: &Literals, holds: &Expr, fails: &Expr) -> bool
    ensures { result ≡ false → (c : Items ℕ) → Fits literals.now holds.now fails.now c → satisfies c expr.now ≡ negation value }
{
    if !can_be(expr, value, literals) {
        return false;
    }
    if is_told(expr, value, holds, fails) {
        return false;
    }
    may_be_beside(expr, value, literals, holds, fails)
}

/// The same, by the features' values that the expression has with its value: they would make what holds fail, or what
/// fails hold.
fn may_be_beside(expr: &Expr, value: bool, literals: &Literals, holds: &Expr, fails: &Expr) -> bool
    ensures { result ≡ false → (c : Items ℕ) → Fits literals.now holds.now fails.now c → satisfies c expr.now ≡ negation value }
{
    let literals = literals_of(expr, value, literals);
    if !can_be(holds, true, &literals) {
        return false;
    }
    can_be(fails, false, &literals)
}

/// Whether it is told that the expression hasn't the value: it is a link of what holds, or of what fails.
fn is_told(expr: &Expr, value: bool, holds: &Expr, fails: &Expr) -> bool
    ensures { result ≡ true → (c : Items ℕ) → satisfies c holds.now ≡ true → satisfies c fails.now ≡ false → satisfies c expr.now ≡ negation value }
{
    if value {
        is_link(expr, true, fails)
    } else {
        is_link(expr, false, holds)
    }
}

/// Whether the expression is a link of a chain, of `or` where the value is true and of `and` where it is false: so the
/// chain has the value where the link has it.
fn is_link(expr: &Expr, value: bool, chain: &Expr) -> bool
    ensures { result ≡ true → (c : Items ℕ) → satisfies c expr.now ≡ value → satisfies c chain.now ≡ value }
{
    let mut at = chain;
    loop {
        match at {
            Expr::And(left, right) => {
                if value {
                    return is_same_expr(expr, at);
                }
                if is_same_expr(expr, right.get()) {
                    return true;
                }
                at = left.get();
            }
            Expr::Or(left, right) => {
                if !value {
                    return is_same_expr(expr, at);
                }
                if is_same_expr(expr, right.get()) {
                    return true;
                }
                at = left.get();
            }
            _ => return is_same_expr(expr, at),
        }
    }
}

/// Whether the values of features say all that the links of a chain say: of `and` where they are to hold all.
pub fn are_literals(chain: &Expr, all: bool) -> bool {
    let mut at = chain;
    loop {
        match at {
            Expr::And(left, right) => {
                if !all || !is_literal(right.get()) {
                    return false;
                }
                at = left.get();
            }
            Expr::Or(left, right) => {
                if all || !is_literal(right.get()) {
                    return false;
                }
                at = left.get();
            }
            _ => return is_literal(at),
        }
    }
}

fn is_literal(expr: &Expr) -> bool {
    match expr {
        Expr::Feature(_) => true,
        Expr::Not(inner) => matches!(inner.get(), Expr::Feature(_)),
        _ => false,
    }
}
