ghost use Rattle.std.specs.Prelude.{◌≡◌};
ghost use Rattle.values.specs.Value.{kind_of};

use crate::memory::{Memory, TryCopy};
use crate::text::Text;
use std::alloc::Global;

/// What a column holds.
#[derive(Clone, Copy, Debug, PartialEq, Eq)]
pub enum Kind {
    Int,
    Text,
    Bool,
}

/// The content of a cell. Integers are ordered by value, texts by their bytes, and false is before true.
#[derive(Debug, PartialEq, Eq, PartialOrd, Ord, Hash, Drop)]
pub enum Value {
    Int(i64),
    Text(Text),
    Bool(bool),
}

impl Value {
    pub fn kind(&self) -> Kind
        ensures { result ≡ kind_of self.now }
    {
        match self {
            Value::Int(_) => Kind::Int,
            Value::Text(_) => Kind::Text,
            Value::Bool(_) => Kind::Bool,
        }
    }
}

impl TryCopy for Value {
    fn copy(&self, alloc: Global) -> Result<Self, Memory> {
        match self {
            Value::Int(number) => Ok(Value::Int(*number)),
            Value::Text(text) => {
                let text = text.copy(alloc)?;
                Ok(Value::Text(text))
            }
            Value::Bool(truth) => Ok(Value::Bool(*truth)),
        }
    }
}
