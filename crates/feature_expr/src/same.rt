ghost use Rattle.std.specs.Prelude.{◌≡◌, true, false, fold};
ghost use Rattle.std.specs.Cmp.{partial_equiv_from_equiv};
ghost use Rattle.feature_expr.specs.Same.{same_expr, hash_writes};
ghost use Rattle.feature_expr.specs.SameLaws.{same_equivalence, same_writes};

use crate::expr::Expr;
use std::hash::{Hash, Hasher};

impl PartialEq for Expr {
    ghost eq = { same_expr };

    ghost laws = { partial_equiv_from_equiv same_equivalence };

    fn eq(&self, other: &Expr) -> bool {
        is_same_expr(self, other)
    }
}

impl Eq for Expr {
    ghost laws = { same_equivalence };
}

impl Hash for Expr {
    ghost hash_input = { hash_writes };

    ghost respects_eq = { same_writes };

    fn hash<H: Hasher>(&self, state: &mut H) {
        write_expr(self, state);
    }
}

/// Whether two expressions are one and the same. It takes no test of what they mean.
#[tactic(auto, using(crate::specs::SameLaws::same_yes, crate::specs::SameLaws::same_no))]
pub fn is_same_expr(one: &Expr, other: &Expr) -> bool
    ensures exact { result ≡ same_expr one.now other.now }
    ensures yes { result ≡ true → one.now ≡ other.now }
    ensures no { result ≡ false → one.now ≡ other.now → ⊥ }
{
    have_same_nodes(one, other)
}

fn have_same_nodes(one: &Expr, other: &Expr) -> bool
    ensures { result ≡ same_expr one.now other.now }
{
    let mut one = one;
    let mut other = other;
    loop {
        match (one, other) {
            (Expr::True, Expr::True) => return true,
            (Expr::False, Expr::False) => return true,
            (Expr::Feature(feature), Expr::Feature(second)) => return feature == second,
            (Expr::Not(inner), Expr::Not(second)) => {
                one = inner.get();
                other = second.get();
            }
            (Expr::And(left, right), Expr::And(second_left, second_right)) => {
                if !have_same_nodes(right.get(), second_right.get()) {
                    return false;
                }
                one = left.get();
                other = second_left.get();
            }
            (Expr::Or(left, right), Expr::Or(second_left, second_right)) => {
                if !have_same_nodes(right.get(), second_right.get()) {
                    return false;
                }
                one = left.get();
                other = second_left.get();
            }
            _ => return false,
        }
    }
}

/// Writes the nodes of an expression into a hasher.
fn write_expr<H: Hasher>(expr: &Expr, state: &mut H)
    ensures { state.new ≡ fold H.write state.old (hash_writes expr.now) }
{
    let mut at = expr;
    loop {
        match at {
            Expr::True => return state.write_u8(0),
            Expr::False => return state.write_u8(1),
            Expr::Feature(feature) => {
                state.write_u8(2);
                return state.write_u8(*feature);
            }
            Expr::Not(inner) => {
                state.write_u8(3);
                at = inner.get();
            }
            Expr::And(left, right) => {
                state.write_u8(4);
                write_expr(right.get(), state);
                at = left.get();
            }
            Expr::Or(left, right) => {
                state.write_u8(5);
                write_expr(right.get(), state);
                at = left.get();
            }
        }
    }
}

/// A number that equal expressions share, and others seldom do.
pub fn fingerprint(expr: &Expr) -> u64 {
    let mut mark: u64 = 0;
    let mut at = expr;
    loop {
        match at {
            Expr::True => return mixed(mark, 1),
            Expr::False => return mixed(mark, 2),
            Expr::Feature(feature) => return mixed(mark, 16 + u64::from(*feature)),
            Expr::Not(inner) => {
                mark = mixed(mark, 3);
                at = inner.get();
            }
            Expr::And(left, right) => {
                mark = mixed(mixed(mark, 4), fingerprint(right.get()));
                at = left.get();
            }
            Expr::Or(left, right) => {
                mark = mixed(mixed(mark, 5), fingerprint(right.get()));
                at = left.get();
            }
        }
    }
}

/// One part more in a fingerprint.
pub fn mixed(mark: u64, part: u64) -> u64 {
    let mark = (mark ^ part).wrapping_mul(0x9E37_79B9_7F4A_7C15);
    mark ^ mark >> 29
}
