use feature_expr::{ColName, Kind, List, Memory, TryCopy, Value};
use std::alloc::Global;

/// A column of one variant's answer.
#[derive(Debug, PartialEq, Eq, Drop)]
pub struct PlainColumn {
    pub name: ColName,
    pub kind: Kind,
}

/// What a question gives in one variant: nothing at all where no column is there, else columns and rows, each row
/// with a value for each column.
#[derive(Debug, Drop)]
pub enum Plain {
    Absent,
    Rel(List<PlainColumn>, List<List<Value>>),
}

impl TryCopy for PlainColumn {
    fn copy(&self, alloc: Global) -> Result<Self, Memory> {
        let name = self.name.copy(alloc)?;
        Ok(PlainColumn {
            name,
            kind: self.kind,
        })
    }
}

impl TryCopy for Plain {
    fn copy(&self, alloc: Global) -> Result<Self, Memory> {
        match self {
            Plain::Absent => Ok(Plain::Absent),
            Plain::Rel(columns, rows) => {
                let columns = columns.copy(alloc)?;
                let rows = rows.copy(alloc)?;
                Ok(Plain::Rel(columns, rows))
            }
        }
    }
}
