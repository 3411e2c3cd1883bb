use crate::cases::{Case, PlainType, add_case, empty_name};
use crate::names::kind_at;
use crate::possible::possible_columns;
use crate::relation::{Column, aliased, has_name, is_same_set, merged};
use crate::variant::Variant;
use query_meaning::IllCase;
use std::alloc::Global;
use values::{ColName, Kind, Memory, TryCopy};
use vra_syntax::{Cond, Items, Operand, Query};

impl Variant<'_> {
    /// What the configured query has in the variant. Where a part is ill, nothing is asked of what stands above it.
    pub fn plain_type(&self, query: &Query) -> Result<PlainType, Memory> {
        let mut typing = Typing {
            variant: self,
            alloc: self.alloc,
            cases: Vec::new(self.alloc),
        };
        match typing.columns_of(query)? {
            Some(columns) => Ok(PlainType::Columns(columns)),
            None => Ok(PlainType::Ill(typing.cases)),
        }
    }
}

/// The typing of a query in a variant, with the cases found so far.
#[derive(Drop)]
struct Typing<'a> {
    variant: &'a Variant<'a>,
    alloc: Global,
    cases: Vec<Case>,
}

impl Typing<'_> {
    /// The columns of a query, without any where it is absent, or None where it is ill.
    fn columns_of(&mut self, query: &Query) -> Result<Option<Vec<Column>>, Memory> {
        match query {
            Query::Table(name) => Ok(Some(self.variant.table_columns(name)?)),
            Query::Select(items, source, cond) => match self.columns_of(source.get())? {
                Some(source) => self.select_type(items, &source, cond),
                None => Ok(None),
            },
            Query::Join(left, right, cond) => {
                let left = self.columns_of(left.get())?;
                let right = self.columns_of(right.get())?;
                match (left, right) {
                    (Some(left), Some(right)) => self.join_type(left, right, cond),
                    _ => Ok(None),
                }
            }
            Query::Union(one, right) => {
                let left = self.columns_of(one.get())?;
                let right = self.columns_of(right.get())?;
                match (left, right) {
                    (Some(left), Some(right)) => self.union_type(one.get(), left, right),
                    _ => Ok(None),
                }
            }
            Query::Except(one, right) => {
                let left = self.columns_of(one.get())?;
                let right = self.columns_of(right.get())?;
                match (left, right) {
                    (Some(left), Some(right)) => self.except_type(one.get(), left, &right),
                    _ => Ok(None),
                }
            }
            Query::Alias(source, alias) => match self.columns_of(source.get())? {
                Some(source) => self.unless_twice(aliased(self.alloc, alias, &source)?),
                None => Ok(None),
            },
            Query::Choice(expr, left, right) => {
                if self.variant.satisfies(expr) {
                    self.columns_of(left.get())
                } else {
                    self.columns_of(right.get())
                }
            }
            Query::Empty => Ok(Some(Vec::new(self.alloc))),
        }
    }

    /// An absent source is asked nothing.
    fn select_type(
        &mut self,
        items: &Items,
        source: &[Column],
        cond: &Cond,
    ) -> Result<Option<Vec<Column>>, Memory> {
        let columns = self.variant.kept_columns(items, source)?;
        if source.is_empty() {
            return Ok(Some(columns));
        }
        let before = self.cases.len();
        self.ask_items(source, items)?;
        self.ask_once(&columns)?;
        self.ask_cond(source, cond)?;
        Ok(self.unless_more(before, columns))
    }

    /// A join with an absent side is absent, and is asked nothing.
    fn join_type(
        &mut self,
        left: Vec<Column>,
        right: Vec<Column>,
        cond: &Cond,
    ) -> Result<Option<Vec<Column>>, Memory> {
        if left.is_empty() || right.is_empty() {
            return Ok(Some(Vec::new(self.alloc)));
        }
        let (mut columns, mut more) = (left, right);
        columns.append(&mut more)?;
        let before = self.cases.len();
        self.ask_once(&columns)?;
        self.ask_cond(&columns, cond)?;
        Ok(self.unless_more(before, columns))
    }

    fn union_type(
        &mut self,
        one: &Query,
        left: Vec<Column>,
        right: Vec<Column>,
    ) -> Result<Option<Vec<Column>>, Memory> {
        let before = self.cases.len();
        self.ask_same(one, &left, &right)?;
        Ok(self.unless_more(before, merged(left, right)?))
    }

    fn except_type(
        &mut self,
        one: &Query,
        left: Vec<Column>,
        right: &[Column],
    ) -> Result<Option<Vec<Column>>, Memory> {
        let before = self.cases.len();
        self.ask_same(one, &left, right)?;
        Ok(self.unless_more(before, left))
    }

    fn unless_twice(&mut self, columns: Vec<Column>) -> Result<Option<Vec<Column>>, Memory> {
        let before = self.cases.len();
        self.ask_once(&columns)?;
        Ok(self.unless_more(before, columns))
    }

    /// The columns, if there are no more cases than before.
    fn unless_more(&self, before: usize, columns: Vec<Column>) -> Option<Vec<Column>> {
        if self.cases.len() == before {
            Some(columns)
        } else {
            None
        }
    }

    fn add(&mut self, why: IllCase, name: &ColName) -> Result<(), Memory> {
        add_case(self.alloc, &mut self.cases, why, name)
    }

    /// No two columns may have one name.
    fn ask_once(&mut self, columns: &[Column]) -> Result<(), Memory> {
        for (place, column) in columns.iter().enumerate() {
            if has_name(&columns[..place], &column.name) {
                self.add(IllCase::Twice, &column.name)?;
            }
        }
        Ok(())
    }

    /// Two sides that are there have the same columns. The name shown is that of the left side's first column.
    fn ask_same(&mut self, one: &Query, left: &[Column], right: &[Column]) -> Result<(), Memory> {
        if left.is_empty() || right.is_empty() || is_same_set(left, right) {
            return Ok(());
        }
        for column in possible_columns(self.alloc, self.variant.catalog, one)? {
            if left.contains(&column) {
                return self.add(IllCase::ColumnsDiffer, &column.name);
            }
        }
        Ok(())
    }

    /// An item whose condition holds needs its column. One without a condition doesn't.
    fn ask_items(&mut self, columns: &[Column], items: &Items) -> Result<(), Memory> {
        if let Items::Listed(items) = items {
            for item in items.as_slice() {
                if item.cond.is_some() && self.variant.is_kept(item) {
                    self.ask_name(columns, &item.column)?;
                }
            }
        }
        Ok(())
    }

    /// Of a choice the side that isn't chosen is asked nothing.
    fn ask_cond(&mut self, columns: &[Column], cond: &Cond) -> Result<(), Memory> {
        match cond {
            Cond::Cmp(left, _op, right) => self.ask_comparison(columns, left, right),
            Cond::Not(inner) => self.ask_cond(columns, inner.get()),
            Cond::And(left, right) => {
                self.ask_cond(columns, left.get())?;
                self.ask_cond(columns, right.get())
            }
            Cond::Or(left, right) => {
                self.ask_cond(columns, left.get())?;
                self.ask_cond(columns, right.get())
            }
            Cond::Choice(expr, left, right) => {
                if self.variant.satisfies(expr) {
                    self.ask_cond(columns, left.get())
                } else {
                    self.ask_cond(columns, right.get())
                }
            }
            Cond::True => Ok(()),
            Cond::False => Ok(()),
        }
    }

    /// Where the kinds differ, the name shown is that of the first operand, if it is a column.
    fn ask_comparison(
        &mut self,
        columns: &[Column],
        left: &Operand,
        right: &Operand,
    ) -> Result<(), Memory> {
        self.ask_operand(columns, left)?;
        self.ask_operand(columns, right)?;
        let one = self.kinds_of(columns, left)?;
        let other = self.kinds_of(columns, right)?;
        if differ(&one, &other) {
            let name = match left {
                Operand::Column(name) => name.copy(self.alloc)?,
                _ => empty_name(self.alloc),
            };
            return self.add(IllCase::KindsDiffer, &name);
        }
        Ok(())
    }

    fn ask_operand(&mut self, columns: &[Column], operand: &Operand) -> Result<(), Memory> {
        match operand {
            Operand::Column(name) => self.ask_name(columns, name),
            _ => Ok(()),
        }
    }

    fn ask_name(&mut self, columns: &[Column], name: &ColName) -> Result<(), Memory> {
        if has_name(columns, name) {
            return Ok(());
        }
        self.add(IllCase::AbsentColumn, name)
    }

    /// More than one, where two columns have the name.
    fn kinds_of(&self, columns: &[Column], operand: &Operand) -> Result<Vec<Kind>, Memory> {
        let mut kinds = Vec::new(self.alloc);
        match operand {
            Operand::Column(name) => {
                for column in columns {
                    if column.name == *name {
                        kinds.push(column.kind)?;
                    }
                }
            }
            Operand::Literal(value) => kinds.push(value.kind())?,
            Operand::Param(number) => {
                if let Some(kind) = kind_at(self.variant.kinds, *number) {
                    kinds.push(kind)?;
                }
            }
        }
        Ok(kinds)
    }
}

/// Whether a kind on one side isn't one on the other.
fn differ(left: &[Kind], right: &[Kind]) -> bool {
    left.iter().any(|kind| has_other(right, *kind))
}

fn has_other(kinds: &[Kind], kind: Kind) -> bool {
    kinds.iter().any(|other| *other != kind)
}
