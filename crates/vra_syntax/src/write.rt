use crate::cond::{Cond, Operand};
use feature_expr::{Expr, List, Memory, Name, TryCopy};
use std::alloc::Global;

/// A statement that changes rows of one table, in the variants that satisfy its expression.
#[derive(Drop)]
pub enum Write {
    /// The table, its columns that get a value, and for each new row its values in the order of these columns.
    Insert(Name, List<Name>, List<List<Operand>>, Expr),
    /// The table, and which of its rows are removed.
    Delete(Name, Cond, Expr),
    /// The table, the new values, and which of its rows get them.
    Update(Name, List<SetItem>, Cond, Expr),
}

/// A column of an update, and its new value.
#[derive(Drop)]
pub struct SetItem {
    pub column: Name,
    pub value: Operand,
}

impl TryCopy for SetItem {
    fn copy(&self, alloc: Global) -> Result<Self, Memory> {
        let column = self.column.copy(alloc)?;
        let value = self.value.copy(alloc)?;
        Ok(SetItem { column, value })
    }
}
