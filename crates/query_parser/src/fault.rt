use feature_expr::{Fault, Memory};
use std::alloc::{AllocError, AllocFailed};

/// The first fault among a text's tokens, with the number of its token. One behind the last token is the end of the
/// text.
#[derive(Clone, Copy, Debug, PartialEq, Eq)]
pub enum ParseFault {
    Syntax(usize),
    UnknownFeature(usize),
    IntTooLarge(usize),
    TooDeep(usize),
    TooManyParams(usize),
    NoParam(usize),
    Memory,
}

/// A fault of an expression as one of the text.
impl From<Fault> for ParseFault {
    ghost use Rattle.std.specs.Prelude.{◌≡◌};
    ghost use Rattle.query_parser.specs.ExpressionFaults.{fault_of};

    ghost from_gives = { λ fault given. given ≡ fault_of fault };

    fn from(fault: Fault) -> ParseFault {
        match fault {
            Fault::Syntax(at) => ParseFault::Syntax(at),
            Fault::TooDeep(at) => ParseFault::TooDeep(at),
            Fault::UnknownFeature(at) => ParseFault::UnknownFeature(at),
            Fault::Memory => ParseFault::Memory,
        }
    }
}

impl From<Memory> for ParseFault {
    ghost use Rattle.std.specs.Prelude.{◌≡◌};
    ghost use Rattle.query_parser.specs.declared.fault.ParseFault.TheVariants as fault;

    ghost from_gives = { λ _ given. given ≡ fault.Memory };

    fn from(_memory: Memory) -> ParseFault {
        ParseFault::Memory
    }
}

impl From<AllocError> for ParseFault {
    ghost use Rattle.std.specs.Prelude.{◌≡◌};
    ghost use Rattle.query_parser.specs.declared.fault.ParseFault.TheVariants as fault;

    ghost from_gives = { λ _ given. given ≡ fault.Memory };

    fn from(_failed: AllocError) -> ParseFault {
        ParseFault::Memory
    }
}

impl<T: Drop> From<AllocFailed<T>> for ParseFault {
    ghost use Rattle.std.specs.Prelude.{◌≡◌};
    ghost use Rattle.query_parser.specs.declared.fault.ParseFault.TheVariants as fault;

    ghost from_gives = { λ _ given. given ≡ fault.Memory };

    fn from(_failed: AllocFailed<T>) -> ParseFault {
        ParseFault::Memory
    }
}
