use query_meaning::IllTyped;
use values::Memory;

/// Why a part of a query has no type in every variant.
#[derive(Drop)]
pub enum CaseRefused {
    Ill(IllTyped),
    Memory,
}

impl From<Memory> for CaseRefused {
    ghost use Rattle.std.specs.Prelude.{◌≡◌};
    ghost use Rattle.query_typing.specs.declared.refused.CaseRefused.TheVariants as refused;

    ghost from_gives = { λ _ given. given ≡ refused.Memory };

    fn from(_memory: Memory) -> CaseRefused {
        CaseRefused::Memory
    }
}
