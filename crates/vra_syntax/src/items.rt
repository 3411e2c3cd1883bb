use feature_expr::{ColName, Expr, List, Memory, TryCopy};
use std::alloc::Global;

/// What a select keeps of its source's columns.
#[derive(Drop)]
pub enum Items {
    All,
    Listed(List<Item>),
}

/// One column that a select keeps: its name, the new name that it gets, and the condition under which it is kept.
#[derive(Drop)]
pub struct Item {
    pub column: ColName,
    pub rename: Option<ColName>,
    pub cond: Option<Expr>,
}

impl TryCopy for Item {
    fn copy(&self, alloc: Global) -> Result<Self, Memory> {
        let column = self.column.copy(alloc)?;
        let rename = self.rename.copy(alloc)?;
        let cond = self.cond.copy(alloc)?;
        Ok(Item {
            column,
            rename,
            cond,
        })
    }
}

impl TryCopy for Items {
    fn copy(&self, alloc: Global) -> Result<Self, Memory> {
        match self {
            Items::All => Ok(Items::All),
            Items::Listed(items) => {
                let items = items.copy(alloc)?;
                Ok(Items::Listed(items))
            }
        }
    }
}
