use crate::possible::given;
use crate::relation::{Cell, Column, Relation, aliased, has_row, merged, once, pick, prefixed};
use crate::variant::Variant;
use values::{ColName, Memory, Name, TryCopy};
use vra_syntax::{Cond, Items, Query};

impl Variant<'_> {
    /// The meaning of the configured query. It counts where the query has a plain type, and parameters have no values.
    pub fn meaning(&self, query: &Query) -> Result<Relation, Memory> {
        match query {
            Query::Table(name) => self.table(name),
            Query::Select(items, source, cond) => {
                let source = self.meaning(source.get())?;
                self.projected(items, self.filtered(cond, source)?)
            }
            Query::Join(left, right, cond) => {
                let left = self.meaning(left.get())?;
                let right = self.meaning(right.get())?;
                self.filtered(cond, self.paired(left, right)?)
            }
            Query::Union(left, right) => {
                let left = self.meaning(left.get())?;
                let right = self.meaning(right.get())?;
                self.united(left, right)
            }
            Query::Except(left, right) => {
                let left = self.meaning(left.get())?;
                let right = self.meaning(right.get())?;
                self.excepted(left, &right)
            }
            Query::Alias(source, alias) => {
                let source = self.meaning(source.get())?;
                self.aliased(alias, &source)
            }
            Query::Choice(expr, left, right) => {
                if self.satisfies(expr) {
                    self.meaning(left.get())
                } else {
                    self.meaning(right.get())
                }
            }
            Query::Empty => Ok(Relation::absent(self.alloc)),
        }
    }

    /// The columns that items keep, with repeats.
    pub fn kept_columns(&self, items: &Items, columns: &[Column]) -> Result<Vec<Column>, Memory> {
        let mut kept = Vec::new(self.alloc);
        match items {
            Items::All => {
                for column in columns {
                    kept.push(column.copy(self.alloc)?)?;
                }
            }
            Items::Listed(items) => {
                for item in items.as_slice() {
                    if self.is_kept(item) {
                        pick(self.alloc, columns, &item.column, given(item), &mut kept)?;
                    }
                }
            }
        }
        Ok(kept)
    }

    /// The cells of a row that items keep.
    fn kept_cells(&self, items: &Items, row: Vec<Cell>) -> Result<Vec<Cell>, Memory> {
        match items {
            Items::All => Ok(row),
            Items::Listed(items) => {
                let mut kept = Vec::new(self.alloc);
                for item in items.as_slice() {
                    if self.is_kept(item) {
                        self.pick_cells(&row, &item.column, given(item), &mut kept)?;
                    }
                }
                Ok(kept)
            }
        }
    }

    fn pick_cells(
        &self,
        row: &[Cell],
        name: &ColName,
        given: &ColName,
        into: &mut Vec<Cell>,
    ) -> Result<(), Memory> {
        for cell in row {
            if cell.name == *name {
                into.push(self.renamed(given.copy(self.alloc)?, cell)?)?;
            }
        }
        Ok(())
    }

    fn renamed(&self, name: ColName, cell: &Cell) -> Result<Cell, Memory> {
        let value = cell.value.copy(self.alloc)?;
        Ok(Cell { name, value })
    }

    /// The rows of which the condition is true.
    fn filtered(&self, cond: &Cond, source: Relation) -> Result<Relation, Memory> {
        let mut rows = Vec::new(self.alloc);
        for row in source.rows {
            if self.holds(cond, &row) {
                rows.push(row)?;
            }
        }
        Ok(Relation::new(self.alloc, source.columns, rows))
    }

    fn projected(&self, items: &Items, source: Relation) -> Result<Relation, Memory> {
        let columns = once(self.alloc, self.kept_columns(items, &source.columns)?)?;
        let mut rows = Vec::new(self.alloc);
        for row in source.rows {
            rows.push(self.kept_cells(items, row)?)?;
        }
        Ok(Relation::new(self.alloc, columns, rows))
    }

    /// Each row of the left side with each of the right; absent where a side is.
    fn paired(&self, left: Relation, right: Relation) -> Result<Relation, Memory> {
        if left.columns.is_empty() || right.columns.is_empty() {
            return Ok(Relation::absent(self.alloc));
        }
        let mut rows = Vec::new(self.alloc);
        for row in &left.rows {
            for other in &right.rows {
                rows.push(self.joined(row, other)?)?;
            }
        }
        let columns = merged(left.columns, right.columns)?;
        Ok(Relation::new(self.alloc, columns, rows))
    }

    fn joined(&self, row: &[Cell], other: &[Cell]) -> Result<Vec<Cell>, Memory> {
        let mut cells = Vec::new(self.alloc);
        for cell in row.iter().chain(other) {
            cells.push(self.renamed(cell.name.copy(self.alloc)?, cell)?)?;
        }
        Ok(cells)
    }

    /// The rows of both sides.
    fn united(&self, left: Relation, right: Relation) -> Result<Relation, Memory> {
        let columns = merged(left.columns, right.columns)?;
        let mut rows = left.rows;
        let mut more = right.rows;
        rows.append(&mut more)?;
        Ok(Relation::new(self.alloc, columns, rows))
    }

    /// The rows of the left side that the right one lacks.
    fn excepted(&self, left: Relation, right: &Relation) -> Result<Relation, Memory> {
        let mut rows = Vec::new(self.alloc);
        for row in left.rows {
            if !has_row(&right.rows, &row) {
                rows.push(row)?;
            }
        }
        Ok(Relation::new(self.alloc, left.columns, rows))
    }

    fn aliased(&self, alias: &Name, source: &Relation) -> Result<Relation, Memory> {
        let columns = once(self.alloc, aliased(self.alloc, alias, &source.columns)?)?;
        let mut rows = Vec::new(self.alloc);
        for row in &source.rows {
            let mut cells = Vec::new(self.alloc);
            for cell in row {
                cells.push(self.renamed(prefixed(self.alloc, alias, &cell.name)?, cell)?)?;
            }
            rows.push(cells)?;
        }
        Ok(Relation::new(self.alloc, columns, rows))
    }
}
