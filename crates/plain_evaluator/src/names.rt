use crate::cases::{Case, add_case, empty_name};
use crate::possible::{possible_columns, table_named};
use crate::relation::{Column, bare_name, has_name};
use query_meaning::IllCase;
use std::alloc::Global;
use values::{ColName, Kind, Memory};
use vra_syntax::{Cond, Items, Operand, Query};
use vschema::Catalog;

/// The cases that hold whatever the variant: tables and columns that aren't known, and parameters without a kind, on
/// both sides of every choice. The kinds are those of the parameters 1, 2, and so on.
pub fn name_cases(
    alloc: Global,
    catalog: &Catalog,
    kinds: &[Kind],
    query: &Query,
) -> Result<Vec<Case>, Memory> {
    let mut names = Names {
        alloc,
        catalog,
        kinds,
        cases: Vec::new(alloc),
    };
    names.of_query(query)?;
    Ok(names.cases)
}

/// The cases found so far.
#[derive(Drop)]
struct Names<'a> {
    alloc: Global,
    catalog: &'a Catalog,
    kinds: &'a [Kind],
    cases: Vec<Case>,
}

impl Names<'_> {
    fn of_query(&mut self, query: &Query) -> Result<(), Memory> {
        match query {
            Query::Table(name) => {
                if table_named(self.catalog, name).is_none() {
                    let name = bare_name(self.alloc, name)?;
                    add_case(self.alloc, &mut self.cases, IllCase::NoTable, &name)?;
                }
                Ok(())
            }
            Query::Select(items, source, cond) => {
                self.of_query(source.get())?;
                let columns = possible_columns(self.alloc, self.catalog, source.get())?;
                self.of_items(&columns, items)?;
                self.of_cond(&columns, cond)
            }
            Query::Join(left, right, cond) => {
                self.of_query(left.get())?;
                self.of_query(right.get())?;
                let columns = possible_columns(self.alloc, self.catalog, query)?;
                self.of_cond(&columns, cond)
            }
            Query::Union(left, right) => {
                self.of_query(left.get())?;
                self.of_query(right.get())
            }
            Query::Except(left, right) => {
                self.of_query(left.get())?;
                self.of_query(right.get())
            }
            Query::Alias(source, _alias) => self.of_query(source.get()),
            Query::Choice(_expr, left, right) => {
                self.of_query(left.get())?;
                self.of_query(right.get())
            }
            Query::Empty => Ok(()),
        }
    }

    fn of_items(&mut self, columns: &[Column], items: &Items) -> Result<(), Memory> {
        if let Items::Listed(items) = items {
            for item in items.as_slice() {
                self.of_name(columns, &item.column)?;
            }
        }
        Ok(())
    }

    fn of_cond(&mut self, columns: &[Column], cond: &Cond) -> Result<(), Memory> {
        match cond {
            Cond::Cmp(left, _op, right) => {
                self.of_operand(columns, left)?;
                self.of_operand(columns, right)
            }
            Cond::Not(inner) => self.of_cond(columns, inner.get()),
            Cond::And(left, right) => {
                self.of_cond(columns, left.get())?;
                self.of_cond(columns, right.get())
            }
            Cond::Or(left, right) => {
                self.of_cond(columns, left.get())?;
                self.of_cond(columns, right.get())
            }
            Cond::Choice(_expr, left, right) => {
                self.of_cond(columns, left.get())?;
                self.of_cond(columns, right.get())
            }
            Cond::True => Ok(()),
            Cond::False => Ok(()),
        }
    }

    fn of_operand(&mut self, columns: &[Column], operand: &Operand) -> Result<(), Memory> {
        match operand {
            Operand::Column(name) => self.of_name(columns, name),
            Operand::Literal(_value) => Ok(()),
            Operand::Param(number) => match kind_at(self.kinds, *number) {
                Some(_kind) => Ok(()),
                None => {
                    let name = empty_name(self.alloc);
                    let why = IllCase::ParamKind(*number);
                    add_case(self.alloc, &mut self.cases, why, &name)
                }
            },
        }
    }

    fn of_name(&mut self, columns: &[Column], name: &ColName) -> Result<(), Memory> {
        if has_name(columns, name) {
            return Ok(());
        }
        add_case(self.alloc, &mut self.cases, IllCase::NoColumn, name)
    }
}

/// The kind of a parameter. They are numbered from 1.
pub fn kind_at(kinds: &[Kind], number: u16) -> Option<Kind> {
    let place = number.checked_sub(1)?;
    kinds.get(place as usize).copied()
}
