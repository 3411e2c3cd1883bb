//! What a write says, whichever form it has.

use feature_expr::Expr;
use std::alloc::Global;
use values::{List, Memory, Name};
use vra_syntax::{Cond, Operand, SetItem, Write};

#[derive(Drop)]
pub struct Said<'a> {
    pub table: &'a Name,
    /// The columns that it names.
    pub names: Vec<&'a Name>,
    /// Each value, and the column that it is for.
    pub values: Vec<Given<'a>>,
    pub cond: Option<&'a Cond>,
    pub expr: &'a Expr,
    /// Whether each column that is there needs a value.
    pub is_insert: bool,
}

#[derive(Drop)]
pub struct Given<'a> {
    pub name: &'a Name,
    pub value: &'a Operand,
}

pub fn parts_of(alloc: Global, write: &Write) -> Result<Said<'_>, Memory> {
    match write {
        Write::Insert(table, names, rows, expr) => {
            inserted(alloc, table, names.as_slice(), rows.as_slice(), expr)
        }
        Write::Delete(table, cond, expr) => Ok(deleted(alloc, table, cond, expr)),
        Write::Update(table, items, cond, expr) => {
            updated(alloc, table, items.as_slice(), cond, expr)
        }
    }
}

fn inserted<'a>(
    alloc: Global,
    table: &'a Name,
    listed: &'a [Name],
    rows: &'a [List<Operand>],
    expr: &'a Expr,
) -> Result<Said<'a>, Memory> {
    let mut names = Vec::new(alloc);
    for name in listed {
        names.push(name)?;
    }
    let mut values = Vec::new(alloc);
    for row in rows {
        for (name, value) in listed.iter().zip(row.as_slice()) {
            values.push(Given { name, value })?;
        }
    }
    Ok(Said {
        table,
        names,
        values,
        cond: None,
        expr,
        is_insert: true,
    })
}

fn deleted<'a>(alloc: Global, table: &'a Name, cond: &'a Cond, expr: &'a Expr) -> Said<'a> {
    Said {
        table,
        names: Vec::new(alloc),
        values: Vec::new(alloc),
        cond: Some(cond),
        expr,
        is_insert: false,
    }
}

fn updated<'a>(
    alloc: Global,
    table: &'a Name,
    items: &'a [SetItem],
    cond: &'a Cond,
    expr: &'a Expr,
) -> Result<Said<'a>, Memory> {
    let mut names = Vec::new(alloc);
    let mut values = Vec::new(alloc);
    for item in items {
        names.push(&item.column)?;
        values.push(Given {
            name: &item.column,
            value: &item.value,
        })?;
    }
    Ok(Said {
        table,
        names,
        values,
        cond: Some(cond),
        expr,
        is_insert: false,
    })
}
