ghost use Rattle.std.specs.Prelude.{◌≡◌, IfOk};

use std::alloc::{AllocError, AllocFailed, Global};

/// Memory ran out. It is merged with no other cause.
#[derive(Clone, Copy, Debug, PartialEq, Eq)]
pub struct Memory;

impl From<AllocError> for Memory {
    fn from(_failed: AllocError) -> Memory {
        Memory
    }
}

impl<T: Drop> From<AllocFailed<T>> for Memory {
    fn from(_failed: AllocFailed<T>) -> Memory {
        Memory
    }
}

/// A value of which a second one can be made, where memory is left.
pub trait TryCopy: Drop {
    fn copy(&self, alloc: Global) -> Result<Self, Memory>
        ensures { IfOk result (λ it. it ≡ self.now) };
}

impl<T: TryCopy> TryCopy for Option<T> {
    fn copy(&self, alloc: Global) -> Result<Self, Memory> {
        match self {
            Some(item) => {
                let item = item.copy(alloc)?;
                Ok(Some(item))
            }
            None => Ok(None),
        }
    }
}
