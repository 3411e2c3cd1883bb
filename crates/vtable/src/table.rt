ghost use Rattle.std.specs.Prelude.{◌≡◌, [], ℕ, true, List as Items};
ghost use Rattle.vtable.specs.Answers.{IsAnswerAt};
ghost use Rattle.vtable.specs.TableForm.{columns_are_distinct};

use feature_expr::{ColName, Expr, Kind, List, Memory, TryCopy, Value};
use std::alloc::Global;

/// A column of a table, which is there in the variants that satisfy its condition.
#[derive(Drop)]
pub struct VColumn {
    pub name: ColName,
    pub kind: Kind,
    pub cond: Expr,
}

/// A row of a table, which is there in the variants that satisfy its condition. It has a cell place for each of the
/// table's columns.
#[derive(Drop)]
pub struct VRow {
    pub cells: List<Option<Value>>,
    pub cond: Expr,
}

/// What a question gives in every variant: in each one the columns and the rows that are there, the rows cut to the
/// columns.
#[derive(Drop)]
pub struct VTable {
    pub columns: List<VColumn>,
    pub rows: List<VRow>,
}

impl VTable {
    /// A table without columns, which is absent in all variants. It takes no memory.
    pub fn empty(alloc: Global) -> VTable
        ensures columns { result.columns ≡ [] }
        ensures rows { result.rows ≡ [] }
        ensures distinct { columns_are_distinct result.columns ≡ true }
        ensures answers { (c : Items ℕ) → IsAnswerAt c result }
    {
        let columns = List::new(alloc);
        let rows = List::new(alloc);
        VTable { columns, rows }
    }
}

impl TryCopy for VColumn {
    fn copy(&self, alloc: Global) -> Result<Self, Memory> {
        let name = self.name.copy(alloc)?;
        let cond = self.cond.copy(alloc)?;
        Ok(VColumn {
            name,
            kind: self.kind,
            cond,
        })
    }
}

impl TryCopy for VRow {
    fn copy(&self, alloc: Global) -> Result<Self, Memory> {
        let cells = self.cells.copy(alloc)?;
        let cond = self.cond.copy(alloc)?;
        Ok(VRow { cells, cond })
    }
}

impl TryCopy for VTable {
    fn copy(&self, alloc: Global) -> Result<Self, Memory> {
        let columns = self.columns.copy(alloc)?;
        let rows = self.rows.copy(alloc)?;
        Ok(VTable { columns, rows })
    }
}
