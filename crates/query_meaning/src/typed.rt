use feature_expr::Expr;
use std::alloc::Global;
use values::{ColName, Kind, List, Memory, TryCopy};

/// A column, and the variants that have it.
#[derive(Drop)]
pub struct TypedColumn {
    pub name: ColName,
    pub kind: Kind,
    pub cond: Expr,
}

/// A stored table's number and its columns in order.
#[derive(Drop)]
pub struct TableColumns {
    pub table: u32,
    pub columns: List<TypedColumn>,
}

impl TryCopy for TypedColumn {
    fn copy(&self, alloc: Global) -> Result<Self, Memory> {
        let name = self.name.copy(alloc)?;
        let cond = self.cond.copy(alloc)?;
        Ok(TypedColumn {
            name,
            kind: self.kind,
            cond,
        })
    }
}

impl TryCopy for TableColumns {
    fn copy(&self, alloc: Global) -> Result<Self, Memory> {
        let columns = self.columns.copy(alloc)?;
        Ok(TableColumns {
            table: self.table,
            columns,
        })
    }
}
