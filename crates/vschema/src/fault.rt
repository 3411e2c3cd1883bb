use crate::refused::Which;
use feature_expr::{Fault, Memory};
use std::alloc::{AllocError, AllocFailed};

/// The first fault among a file's tokens, with the number of its token. One behind the last token is the end of the
/// text.
#[derive(Clone, Copy, Debug, PartialEq, Eq)]
pub enum CatalogFault {
    Syntax(usize),
    Duplicate(usize),
    UnknownFeature(usize),
    UnknownName(usize),
    WrongKind(usize),
    Limit(usize, Which),
    Memory,
}

/// A fault of an expression as one of the catalogue's, in which nesting that is too deep is one of the grammar.
impl From<Fault> for CatalogFault {
    ghost use Rattle.std.specs.Prelude.{◌≡◌};
    ghost use Rattle.vschema.specs.Faults.{fault_of};

    ghost from_gives = { λ fault given. given ≡ fault_of fault };

    fn from(fault: Fault) -> CatalogFault {
        match fault {
            Fault::Syntax(at) => CatalogFault::Syntax(at),
            Fault::TooDeep(at) => CatalogFault::Syntax(at),
            Fault::UnknownFeature(at) => CatalogFault::UnknownFeature(at),
            Fault::Memory => CatalogFault::Memory,
        }
    }
}

impl From<Memory> for CatalogFault {
    ghost use Rattle.std.specs.Prelude.{◌≡◌};
    ghost use Rattle.vschema.specs.declared.fault.CatalogFault.TheVariants as fault;

    ghost from_gives = { λ _ given. given ≡ fault.Memory };

    fn from(_memory: Memory) -> CatalogFault {
        CatalogFault::Memory
    }
}

impl From<AllocError> for CatalogFault {
    ghost use Rattle.std.specs.Prelude.{◌≡◌};
    ghost use Rattle.vschema.specs.declared.fault.CatalogFault.TheVariants as fault;

    ghost from_gives = { λ _ given. given ≡ fault.Memory };

    fn from(_failed: AllocError) -> CatalogFault {
        CatalogFault::Memory
    }
}

impl<T: Drop> From<AllocFailed<T>> for CatalogFault {
    ghost use Rattle.std.specs.Prelude.{◌≡◌};
    ghost use Rattle.vschema.specs.declared.fault.CatalogFault.TheVariants as fault;

    ghost from_gives = { λ _ given. given ≡ fault.Memory };

    fn from(_failed: AllocFailed<T>) -> CatalogFault {
        CatalogFault::Memory
    }
}
