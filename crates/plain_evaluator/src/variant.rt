use crate::possible::table_named;
use crate::relation::{Cell, Column, Relation, bare_name, value_in};
use feature_expr::{Config, Expr, eval};
use std::alloc::Global;
use std::cmp::Ordering;
use values::{Kind, List, Memory, Name, TryCopy, Value};
use vra_syntax::{Cond, Item, Op, Operand};
use vschema::{Catalog, OpeningRow, Table};

/// One variant of a catalogue and of its opening rows, and the kinds of the parameters 1, 2, and so on.
#[derive(Drop)]
pub struct Variant<'a> {
    pub alloc: Global,
    pub catalog: &'a Catalog,
    pub rows: &'a List<OpeningRow>,
    pub kinds: &'a [Kind],
    pub config: Config,
}

impl Variant<'_> {
    pub fn satisfies(&self, expr: &Expr) -> bool {
        eval(expr, &self.config)
    }

    /// An item without a condition is kept in each variant.
    pub fn is_kept(&self, item: &Item) -> bool {
        match &item.cond {
            Some(cond) => self.satisfies(cond),
            None => true,
        }
    }

    /// The columns that a table has in the variant: none, where it isn't there or isn't known.
    pub fn table_columns(&self, name: &Name) -> Result<Vec<Column>, Memory> {
        let mut columns = Vec::new(self.alloc);
        if let Some(table) = table_named(self.catalog, name) {
            for column in table.columns.as_slice() {
                if self.satisfies(&table.cond) && self.satisfies(&column.cond) {
                    let name = bare_name(self.alloc, &column.name)?;
                    columns.push(Column {
                        name,
                        kind: column.kind,
                    })?;
                }
            }
        }
        Ok(columns)
    }

    /// What a table is in the variant, with its opening rows that are there.
    pub fn table(&self, name: &Name) -> Result<Relation, Memory> {
        let mut rows = Vec::new(self.alloc);
        if let Some(number) = self.catalog.find_table(name)
            && let Some(table) = self.catalog.tables.get(number as usize)
        {
            for row in self.rows.as_slice() {
                if row.table == number && self.satisfies(&row.cond) {
                    rows.push(self.cut(table, row)?)?;
                }
            }
        }
        Ok(Relation::new(self.alloc, self.table_columns(name)?, rows))
    }

    /// The cells of a row that stand in columns that are there.
    fn cut(&self, table: &Table, row: &OpeningRow) -> Result<Vec<Cell>, Memory> {
        let mut cells = Vec::new(self.alloc);
        for (column, value) in table.columns.as_slice().iter().zip(row.cells.as_slice()) {
            if let Some(value) = value
                && self.satisfies(&column.cond)
            {
                let name = bare_name(self.alloc, &column.name)?;
                let value = value.copy(self.alloc)?;
                cells.push(Cell { name, value })?;
            }
        }
        Ok(cells)
    }

    /// Whether the configured condition is true of a row. Of a choice the side that isn't chosen isn't looked at.
    pub fn holds(&self, cond: &Cond, row: &[Cell]) -> bool {
        match cond {
            Cond::Cmp(left, op, right) => compares(value_of(left, row), *op, value_of(right, row)),
            Cond::Not(inner) => !self.holds(inner.get(), row),
            Cond::And(left, right) => self.holds(left.get(), row) && self.holds(right.get(), row),
            Cond::Or(left, right) => self.holds(left.get(), row) || self.holds(right.get(), row),
            Cond::Choice(expr, left, right) => {
                if self.satisfies(expr) {
                    self.holds(left.get(), row)
                } else {
                    self.holds(right.get(), row)
                }
            }
            Cond::True => true,
            Cond::False => false,
        }
    }
}

/// A parameter has no value: it is to be bound before.
fn value_of<'a>(operand: &'a Operand, row: &'a [Cell]) -> Option<&'a Value> {
    match operand {
        Operand::Column(name) => value_in(row, name),
        Operand::Literal(value) => Some(value),
        Operand::Param(_number) => None,
    }
}

/// A comparison is false where a value is missing or the kinds differ, whatever its sign.
fn compares(left: Option<&Value>, op: Op, right: Option<&Value>) -> bool {
    match (left, right) {
        (Some(left), Some(right)) => left.kind() == right.kind() && meets(op, left.cmp(right)),
        _ => false,
    }
}

fn meets(op: Op, order: Ordering) -> bool {
    match op {
        Op::Eq => order.is_eq(),
        Op::Ne => order.is_ne(),
        Op::Lt => order.is_lt(),
        Op::Le => order.is_le(),
        Op::Gt => order.is_gt(),
        Op::Ge => order.is_ge(),
    }
}
