ghost use Rattle.std.specs.Prelude.{◌≡◌, ◌^◌, ◌<◌, length, position};
ghost use Rattle.std.specs.Str.{bytes_eq};

use feature_expr::{Expr, Features, Kind, List, Memory, Name, TryCopy, Value};
use std::alloc::Global;

/// A column of a table, which is there in the variants that satisfy its condition and have the table.
#[derive(Drop)]
pub struct Column {
    pub name: Name,
    pub kind: Kind,
    pub cond: Expr,
}

/// A table, which is there in the variants that satisfy its condition.
#[derive(Drop)]
pub struct Table {
    pub name: Name,
    pub columns: List<Column>,
    pub cond: Expr,
}

/// What a product line's variants have in common and where they differ: its features, the feature model that the
/// configuration of each variant satisfies, and its tables.
#[derive(Drop)]
pub struct Catalog {
    pub features: Features,
    pub model: Expr,
    pub tables: List<Table>,
}

/// A row that is there from the beginning, in the variants that satisfy its condition and its table's. It has one
/// cell place per column of its table, which goes by its number. `line` is that of the word `row`, from 1.
#[derive(Drop)]
pub struct OpeningRow {
    pub table: u32,
    pub cells: List<Option<Value>>,
    pub cond: Expr,
    pub line: u64,
}

impl Catalog {
    /// The number of the table with this name. It takes time in the number of tables.
    pub fn find_table(&self, name: &Name) -> Option<u32>
        ensures { length self.now.tables < 2 ^ 32 → result ≡ position (λ table. bytes_eq table.name name.now) self.now.tables }
    {
        let place = place_of(self.tables.as_slice(), name)?;
        u32::try_from(place).ok()
    }
}

fn place_of(tables: &[Table], name: &Name) -> Option<usize>
    ensures { result ≡ position (λ table. bytes_eq table.name name.now) tables.now }
{
    tables.iter().position(|table| table.name == *name)
}

impl TryCopy for Column {
    fn copy(&self, alloc: Global) -> Result<Self, Memory> {
        let name = self.name.copy(alloc)?;
        let cond = self.cond.copy(alloc)?;
        Ok(Column {
            name,
            kind: self.kind,
            cond,
        })
    }
}

impl TryCopy for Table {
    fn copy(&self, alloc: Global) -> Result<Self, Memory> {
        let name = self.name.copy(alloc)?;
        let columns = self.columns.copy(alloc)?;
        let cond = self.cond.copy(alloc)?;
        Ok(Table {
            name,
            columns,
            cond,
        })
    }
}

impl TryCopy for Catalog {
    fn copy(&self, alloc: Global) -> Result<Self, Memory> {
        let features = self.features.copy(alloc)?;
        let model = self.model.copy(alloc)?;
        let tables = self.tables.copy(alloc)?;
        Ok(Catalog {
            features,
            model,
            tables,
        })
    }
}

impl TryCopy for OpeningRow {
    fn copy(&self, alloc: Global) -> Result<Self, Memory> {
        let cells = self.cells.copy(alloc)?;
        let cond = self.cond.copy(alloc)?;
        Ok(OpeningRow {
            table: self.table,
            cells,
            cond,
            line: self.line,
        })
    }
}
