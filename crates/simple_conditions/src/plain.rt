//! A look that finds nothing to simplify.

use feature_expr::{Config, Expr, FEATURE_LIMIT};

/// Whether there is nothing to simplify: no feature occurs twice, no constant but the whole, no negation of a negation,
/// and no chain stands on the right side of another. It allocates nothing, and no contract rests on it.
pub fn is_plain(expr: &Expr) -> bool {
    match expr {
        Expr::True => true,
        Expr::False => true,
        _ => {
            let mut seen = Config::none();
            has_nothing_twice(expr, &mut seen)
        }
    }
}

fn has_nothing_twice(expr: &Expr, seen: &mut Config) -> bool {
    let mut at = expr;
    loop {
        match at {
            Expr::True => return false,
            Expr::False => return false,
            Expr::Feature(feature) => return is_new(*feature, seen),
            Expr::Not(inner) => {
                if matches!(inner.get(), Expr::Not(_)) {
                    return false;
                }
                at = inner.get();
            }
            Expr::And(left, right) => {
                if matches!(right.get(), Expr::And(_, _)) || !has_nothing_twice(right.get(), seen) {
                    return false;
                }
                at = left.get();
            }
            Expr::Or(left, right) => {
                if matches!(right.get(), Expr::Or(_, _)) || !has_nothing_twice(right.get(), seen) {
                    return false;
                }
                at = left.get();
            }
        }
    }
}

fn is_new(feature: u8, seen: &mut Config) -> bool {
    if feature >= FEATURE_LIMIT || seen.holds(feature) {
        return false;
    }
    *seen = seen.with(feature);
    true
}
