//! What is known of single features, and what it says of an expression.
ghost use Rattle.std.specs.Prelude.{◌≡◌, ◌<◌, ℕ, true, false, List as Items, not as negation};
ghost use Rattle.feature_expr.specs.Config.{has_feature};
ghost use Rattle.feature_expr.specs.Satisfaction.{satisfies};
ghost use Rattle.simple_conditions.specs.Known.{Has};

use feature_expr::{Config, Expr, FEATURE_LIMIT};

/// Features that are known to hold, and features that are known not to.
#[derive(Clone, Copy, Debug)]
pub struct Literals {
    held: Config,
    lacking: Config,
}

impl Literals {
    /// Nothing is known.
    pub fn none() -> Literals
        ensures { (c : Items ℕ) → Has c result }
    {
        Literals {
            held: Config::none(),
            lacking: Config::none(),
        }
    }

    /// The same, and this feature's value. One at or above the limit is forgotten.
    fn with(&self, feature: u8, value: bool) -> Literals
        ensures { (c : Items ℕ) → Has c self.now → has_feature c feature ≡ value → Has c result }
    {
        if feature >= FEATURE_LIMIT {
            return *self;
        }
        if value {
            self.holding(feature)
        } else {
            self.without(feature)
        }
    }

    fn holding(&self, feature: u8) -> Literals
        requires { feature < FEATURE_LIMIT }
        ensures { (c : Items ℕ) → Has c self.now → has_feature c feature ≡ true → Has c result }
    {
        Literals {
            held: self.held.with(feature),
            lacking: self.lacking,
        }
    }

    fn without(&self, feature: u8) -> Literals
        requires { feature < FEATURE_LIMIT }
        ensures { (c : Items ℕ) → Has c self.now → has_feature c feature ≡ false → Has c result }
    {
        Literals {
            held: self.held,
            lacking: self.lacking.with(feature),
        }
    }

    /// Whether the feature may have the value. False is certain.
    fn allows(&self, feature: u8, value: bool) -> bool
        ensures { result ≡ false → (c : Items ℕ) → Has c self.now → has_feature c feature ≡ negation value }
    {
        if value {
            !self.lacking.holds(feature)
        } else {
            !self.held.holds(feature)
        }
    }
}

/// Whether the expression may have the value where the literals hold. False is certain.
pub fn can_be(expr: &Expr, value: bool, literals: &Literals) -> bool
    ensures { result ≡ false → (c : Items ℕ) → Has c literals.now → satisfies c expr.now ≡ negation value }
{
    let mut at = expr;
    let mut value = value;
    loop {
        match at {
            Expr::True => return value,
            Expr::False => return !value,
            Expr::Feature(feature) => return literals.allows(*feature, value),
            Expr::Not(inner) => {
                value = !value;
                at = inner.get();
            }
            Expr::And(left, right) => {
                if can_be(right.get(), value, literals) != value {
                    return !value;
                }
                at = left.get();
            }
            Expr::Or(left, right) => {
                if can_be(right.get(), value, literals) == value {
                    return value;
                }
                at = left.get();
            }
        }
    }
}

/// The literals, and those that hold wherever the expression has the value: the links of a chain that are features or
/// their negations.
pub fn literals_of(expr: &Expr, value: bool, literals: &Literals) -> Literals
    ensures { (c : Items ℕ) → Has c literals.now → satisfies c expr.now ≡ value → Has c result }
{
    let mut at = expr;
    let mut value = value;
    let mut literals = *literals;
    loop {
        match at {
            Expr::Feature(feature) => return literals.with(*feature, value),
            Expr::Not(inner) => {
                value = !value;
                at = inner.get();
            }
            Expr::And(left, right) => {
                if !value {
                    return literals;
                }
                literals = literals_of(right.get(), value, &literals);
                at = left.get();
            }
            Expr::Or(left, right) => {
                if value {
                    return literals;
                }
                literals = literals_of(right.get(), value, &literals);
                at = left.get();
            }
            _ => return literals,
        }
    }
}
