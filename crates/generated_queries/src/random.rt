ghost use Rattle.std.specs.Prelude.{◌≤◌};

/// A sequence of numbers that its seed determines: a linear congruential generator.
#[derive(Drop)]
pub struct Random {
    state: u64,
}

impl Random {
    pub fn new(seed: u64) -> Random {
        Random { state: seed }
    }

    /// A number below the bound, or 0 where there is none.
    pub fn below(&mut self, bound: usize) -> usize
        ensures { result ≤ bound }
    {
        self.state = self
            .state
            .wrapping_mul(6_364_136_223_846_793_005)
            .wrapping_add(1_442_695_040_888_963_407);
        if bound == 0 {
            return 0;
        }
        (self.state >> 33) as usize % bound
    }

    /// Whether a case comes up that is one of so many.
    pub fn one_of(&mut self, many: usize) -> bool {
        self.below(many) == 0
    }

    /// One of the words, or nothing where there are none.
    pub fn word<'a>(&mut self, words: &[&'a str]) -> &'a str {
        let place = self.below(words.len());
        words.get(place).copied().unwrap_or("")
    }
}
