use feature_expr::Config;
use std::alloc::Global;
use values::{ColName, Memory, TryCopy};

/// Why a statement is ill typed.
#[derive(Clone, Copy, Debug, PartialEq, Eq)]
pub enum IllCase {
    /// The table isn't in the catalogue.
    NoTable,
    /// No possible column has the name.
    NoColumn,
    /// A variant needs the column, and it isn't there.
    AbsentColumn,
    /// A variant has two columns of the name.
    Twice,
    /// A comparison's operands have two kinds.
    KindsDiffer,
    /// The sides of a union or an except have different columns.
    ColumnsDiffer,
    /// A value has another kind than its column, or is a column's name.
    ValueKind,
    /// A write names the column twice.
    NamedTwice,
    /// An insert leaves the column without a value.
    NoValue,
    /// The parameter with this number has no kind.
    ParamKind(u16),
}

/// A case that holds, with its name. Where it is a variant's, the variant's features stand with it.
#[derive(Drop)]
pub struct IllTyped {
    pub case: IllCase,
    pub name: ColName,
    pub config: Option<Config>,
}

/// Why a statement has no type.
#[derive(Drop)]
pub enum TypeRefused {
    Ill(IllTyped),
    /// Some part has this many possible columns, which are too many.
    TooWide(u64),
    Memory,
}

impl TryCopy for IllTyped {
    fn copy(&self, alloc: Global) -> Result<Self, Memory> {
        let name = self.name.copy(alloc)?;
        Ok(IllTyped {
            case: self.case,
            name,
            config: self.config,
        })
    }
}

impl TryCopy for TypeRefused {
    fn copy(&self, alloc: Global) -> Result<Self, Memory> {
        match self {
            TypeRefused::Ill(why) => {
                let why = why.copy(alloc)?;
                Ok(TypeRefused::Ill(why))
            }
            TypeRefused::TooWide(count) => Ok(TypeRefused::TooWide(*count)),
            TypeRefused::Memory => Ok(TypeRefused::Memory),
        }
    }
}
