use crate::memory::{Memory, TryCopy};
use crate::text::Name;
use std::alloc::Global;

/// A column's name: a name alone, or behind the prefix of an alias.
#[derive(Debug, PartialEq, Eq, PartialOrd, Ord, Hash, Drop)]
pub struct ColName {
    pub prefix: Option<Name>,
    pub base: Name,
}

impl TryCopy for ColName {
    fn copy(&self, alloc: Global) -> Result<Self, Memory> {
        let prefix = self.prefix.copy(alloc)?;
        let base = self.base.copy(alloc)?;
        Ok(ColName { prefix, base })
    }
}
