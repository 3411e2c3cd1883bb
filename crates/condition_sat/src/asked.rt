//! That an expression has a value in a configuration.
ghost use Rattle.std.specs.Prelude.{◌≡◌};
ghost use Rattle.condition_sat.specs.Asked.{meets, all_met};

use feature_expr::{Config, Expr, eval};

/// That an expression has a value.
#[derive(Clone, Copy)]
pub struct Asked<'a> {
    pub expr: &'a Expr,
    pub value: bool,
}

impl Asked<'_> {
    pub fn is_met(&self, config: &Config) -> bool
        ensures { result ≡ meets config.now self.now }
    {
        eval(self.expr, config) == self.value
    }
}

/// Whether each of the expressions has its value in the configuration.
pub fn are_met(asked: &[Asked], config: &Config) -> bool
    ensures { result ≡ all_met config.now asked.now }
{
    asked.iter().all(|one| one.is_met(config))
}
