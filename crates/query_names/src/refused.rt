use values::Memory;

/// Why the names of a query aren't told.
#[derive(Clone, Copy, Debug, PartialEq, Eq)]
pub enum NamesRefused {
    /// Some part has this many possible columns, which are too many.
    TooWide(u64),
    Memory,
}

impl From<Memory> for NamesRefused {
    ghost use Rattle.std.specs.Prelude.{◌≡◌};
    ghost use Rattle.query_names.specs.declared.refused.NamesRefused.TheVariants as refused;

    ghost from_gives = { λ _ given. given ≡ refused.Memory };

    fn from(_memory: Memory) -> NamesRefused {
        NamesRefused::Memory
    }
}
