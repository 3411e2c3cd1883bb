ghost use Rattle.std.specs.Prelude.{◌≡◌, ◌==◌, ℕ, ◌||◌, ◌&&◌, nat_lt};
ghost use Rattle.feature_expr.specs.Config.{feature_limit, has_feature};
ghost use Rattle.feature_expr.specs.Expressions.{mentions};

use crate::config::{Config, FEATURE_LIMIT};
use crate::expr::Expr;

/// The features below the limit that occur in the expression, as the configuration in which they hold.
pub fn features_of(expr: &Expr) -> Config
    ensures { (i : ℕ) → has_feature result i ≡ (mentions i expr.now && nat_lt i feature_limit) }
{
    with_features_of(Config::none(), expr)
}

/// The same configuration, and the features that occur in the expression hold.
fn with_features_of(so_far: Config, expr: &Expr) -> Config
    ensures { (i : ℕ) → has_feature result i ≡ (has_feature so_far i || (mentions i expr.now && nat_lt i feature_limit)) }
{
    let mut so_far = so_far;
    let mut at = expr;
    loop {
        match at {
            Expr::True => return so_far,
            Expr::False => return so_far,
            Expr::Feature(feature) => return with_feature(so_far, *feature),
            Expr::Not(inner) => at = inner.get(),
            Expr::And(left, right) => {
                so_far = with_features_of(so_far, right.get());
                at = left.get();
            }
            Expr::Or(left, right) => {
                so_far = with_features_of(so_far, right.get());
                at = left.get();
            }
        }
    }
}

fn with_feature(so_far: Config, feature: u8) -> Config
    ensures { (i : ℕ) → has_feature result i ≡ (has_feature so_far i || (feature == i && nat_lt i feature_limit)) }
{
    if feature < FEATURE_LIMIT {
        so_far.with(feature)
    } else {
        so_far
    }
}
