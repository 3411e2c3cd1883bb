use thiserror::Error;

/// Why a text isn't a list of statements, with the place of the first fault, a count of characters from 1.
#[derive(Clone, Copy, Debug, PartialEq, Eq, Error)]
pub enum ParseRefused {
    #[error("syntax error at character {0}")]
    Syntax(u64),
    #[error("unknown feature at character {0}")]
    UnknownFeature(u64),
    #[error("integer out of range at character {0}")]
    IntTooLarge(u64),
    #[error("nesting is too deep at character {0}")]
    TooDeep(u64),
    #[error("parameter number too large at character {0}")]
    TooManyParams(u64),
    #[error("parameter at character {0}, where none may stand")]
    NoParam(u64),
    #[error("out of memory")]
    Memory,
}
