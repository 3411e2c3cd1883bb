use feature_expr::{Config, Memory, Name, TryCopy};
use std::alloc::{AllocFailed, Global};

/// Why a catalogue and its opening rows don't pass their check. The configuration is an admitted one.
#[derive(Debug, Drop)]
pub enum CheckRefused {
    /// No configuration is admitted.
    NoVariant,
    /// The table with this name is there without a column.
    NoColumn(Name, Config),
    /// The row on this line is there and has no value in the column with this name, which is there.
    MissingValue(u64, Name, Config),
    Memory,
}

impl TryCopy for CheckRefused {
    fn copy(&self, alloc: Global) -> Result<Self, Memory> {
        match self {
            CheckRefused::NoVariant => Ok(CheckRefused::NoVariant),
            CheckRefused::NoColumn(name, config) => {
                let name = name.copy(alloc)?;
                Ok(CheckRefused::NoColumn(name, *config))
            }
            CheckRefused::MissingValue(line, name, config) => {
                let name = name.copy(alloc)?;
                Ok(CheckRefused::MissingValue(*line, name, *config))
            }
            CheckRefused::Memory => Ok(CheckRefused::Memory),
        }
    }
}

impl From<Memory> for CheckRefused {
    ghost use Rattle.std.specs.Prelude.{◌≡◌};
    ghost use Rattle.vra_types.specs.declared.refused.CheckRefused.TheVariants as refused;

    ghost from_gives = { λ _ given. given ≡ refused.Memory };

    fn from(_memory: Memory) -> CheckRefused {
        CheckRefused::Memory
    }
}

impl<T: Drop> From<AllocFailed<T>> for CheckRefused {
    ghost use Rattle.std.specs.Prelude.{◌≡◌};
    ghost use Rattle.vra_types.specs.declared.refused.CheckRefused.TheVariants as refused;

    ghost from_gives = { λ _ given. given ≡ refused.Memory };

    fn from(_failed: AllocFailed<T>) -> CheckRefused {
        CheckRefused::Memory
    }
}
