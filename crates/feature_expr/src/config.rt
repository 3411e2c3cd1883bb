ghost use Rattle.std.specs.Prelude.{◌≡◌, ℕ, List as Items, [], ◌<◌, ◌==◌, ◌||◌};
ghost use Rattle.feature_expr.specs.Config.{IsConfig, feature_limit, has_feature};

use std::marker::Model;

/// The greatest number of features, which all go by a number below it.
pub const FEATURE_LIMIT: u8 = 64;

/// Says of each feature whether it holds. Contracts see the ascending list of those that do.
#[derive(Clone, Copy, Debug)]
pub struct Config {
    bits: u64,
}

impl Model for Config {
    ghost use Rattle.std.specs.Prelude.{◌<◌, ◌^◌, ℕ, List as Items};
    ghost use Rattle.std.specs.Coded.{coded_list, coded_ℕ};
    ghost use Rattle.feature_expr.specs.Config.{ones_below, bits_of};
    ghost use Rattle.feature_expr.specs.ConfigLaws.{bits_of-ones_below_64};

    ghost Value = { Items ℕ };

    ghost coded = { coded_list coded_ℕ };

    ghost view = { λ c. ones_below 64 c.bits };

    ghost invariant = { λ c. c.bits < 2 ^ 64 };

    ghost inverse = { λ c. record { bits = bits_of c } };

    ghost inverse_ok = { λ c holds. bits_of-ones_below_64 c holds };
}

impl Config {
    /// No feature holds.
    pub fn none() -> Config
        ensures { result ≡ [] }
    {
        Config { bits: 0 }
    }

    /// The same, and the feature holds.
    pub fn with(self, feature: u8) -> Config
        requires { feature < feature_limit }
        ensures holds { (i : ℕ) → has_feature result i ≡ (i == feature || has_feature self i) }
    {
        Config {
            bits: self.bits | (1 << feature),
        }
    }

    pub fn has(&self, feature: u8) -> bool
        requires { feature < feature_limit }
        ensures { result ≡ has_feature self.now feature }
    {
        self.holds(feature)
    }

    /// Whether the feature holds; one at or above the limit never does.
    pub fn holds(&self, feature: u8) -> bool
        ensures { result ≡ has_feature self.now feature }
    {
        feature < FEATURE_LIMIT && self.bits >> feature & 1 == 1
    }

    /// Does nothing: its contract says what each configuration is.
    pub fn known(&self)
        ensures { IsConfig self.now }
    {
        let _ = &self.bits;
    }
}
