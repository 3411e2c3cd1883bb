/// What a catalogue has more of than it may have.
#[derive(Clone, Copy, Debug, PartialEq, Eq)]
pub enum Which {
    Features,
    Tables,
    Columns,
}

/// Why a file's bytes aren't a catalogue: the first byte, from 0, that isn't UTF-8, or the first fault in reading
/// order with its line, from 1.
#[derive(Clone, Copy, Debug, PartialEq, Eq)]
pub enum CatalogRefused {
    Utf8(u64),
    Syntax(u64),
    Duplicate(u64),
    UnknownFeature(u64),
    UnknownName(u64),
    WrongKind(u64),
    Limit(u64, Which),
    Memory,
}

impl From<feature_expr::Memory> for CatalogRefused {
    ghost use Rattle.std.specs.Prelude.{◌≡◌};
    ghost use Rattle.vschema.specs.declared.refused.CatalogRefused.TheVariants as refused;

    ghost from_gives = { λ _ given. given ≡ refused.Memory };

    fn from(_memory: feature_expr::Memory) -> CatalogRefused {
        CatalogRefused::Memory
    }
}
