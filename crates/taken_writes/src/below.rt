//! Features that a catalogue has.
ghost use Rattle.std.specs.Prelude.{◌≡◌, ◌==◌, ◌&&◌};
ghost use Rattle.taken_writes.specs.Without.{is_no_param};
ghost use Rattle.vra_syntax.specs.Parameters.{param_in_cond};
ghost use Rattle.write_meaning.specs.TakenWrites.{cond_below, expr_below};

use feature_expr::Expr;
use vra_syntax::{Cond, Operand};

/// Whether the features of an expression have numbers below the count.
pub fn is_expr_below(count: u8, expr: &Expr) -> bool
    ensures { result ≡ expr_below count expr.now }
{
    let mut at = expr;
    loop {
        match at {
            Expr::True => return true,
            Expr::False => return true,
            Expr::Feature(feature) => return *feature < count,
            Expr::Not(inner) => at = inner.get(),
            Expr::And(left, right) => {
                if !is_expr_below(count, right.get()) {
                    return false;
                }
                at = left.get();
            }
            Expr::Or(left, right) => {
                if !is_expr_below(count, right.get()) {
                    return false;
                }
                at = left.get();
            }
        }
    }
}

/// Whether a condition holds no parameter, and its features have numbers below the count.
#[tactic(auto, using(crate::proofs::FitLaws::left_fits, crate::proofs::FitLaws::right_does_not, crate::proofs::FitLaws::chosen_fits, crate::proofs::FitLaws::chosen_right_does_not, crate::proofs::FitLaws::expr_is_not_below, crate::proofs::FitLaws::no_param_in_two))]
pub fn is_cond_fit(count: u8, cond: &Cond) -> bool
    ensures { result ≡ (param_in_cond cond.now == 0 && cond_below count cond.now) }
{
    let mut at = cond;
    loop {
        match at {
            Cond::Cmp(left, _op, right) => return is_no_param(left) && is_no_param(right),
            Cond::Not(inner) => at = inner.get(),
            Cond::And(left, right) => {
                if !is_cond_fit(count, right.get()) {
                    return false;
                }
                at = left.get();
            }
            Cond::Or(left, right) => {
                if !is_cond_fit(count, right.get()) {
                    return false;
                }
                at = left.get();
            }
            Cond::Choice(expr, left, right) => {
                if !is_expr_below(count, expr) {
                    return false;
                }
                if !is_cond_fit(count, right.get()) {
                    return false;
                }
                at = left.get();
            }
            Cond::True => return true,
            Cond::False => return true,
        }
    }
}

pub fn is_no_param(operand: &Operand) -> bool
    ensures { result ≡ is_no_param operand.now }
{
    match operand {
        Operand::Column(_name) => true,
        Operand::Literal(_value) => true,
        Operand::Param(number) => *number == 0,
    }
}
