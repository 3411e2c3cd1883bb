ghost use Rattle.std.specs.Prelude.{◌≡◌};

use std::marker::Model;

/// A snapshot that is live in a store: its mark, and the number of commits that it sees. It can't be copied.
#[derive(Drop)]
pub struct Snap {
    mark: u64,
    number: u64,
}

impl Model for Snap {
    ghost use Rattle.std.specs.Prelude.{ℕ};

    ghost Value = { ℕ × ℕ };

    ghost view = { λ s. (s.mark, s.number) };
}

impl Snap {
    /// The snapshot of this mark.
    pub(crate) fn marked(mark: u64, number: u64) -> Snap
        ensures { result ≡ (mark, number) }
    {
        Snap { mark, number }
    }

    pub(crate) fn mark(&self) -> u64
        ensures { result ≡ self.now.0 }
    {
        self.mark
    }

    /// How many commits it sees. It takes no memory.
    pub fn number(&self) -> u64
        ensures { result ≡ self.now.1 }
    {
        self.number
    }
}
