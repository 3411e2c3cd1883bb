ghost use Rattle.std.specs.Prelude.{◌≡◌, max};
ghost use Rattle.vra_syntax.specs.Parameters.{param_in_operand, param_in_cond, param_in_query, param_in_row, param_in_rows, param_in_set_items, param_in_write, greatest_param};

use crate::cond::{Cond, Operand};
use crate::query::Query;
use crate::statement::Statement;
use crate::write::{SetItem, Write};
use feature_expr::List;

/// The greatest number of a parameter, which is how many values a statement takes, or 0 where it has none.
pub fn param_count(statement: &Statement) -> u16
    ensures { result ≡ greatest_param statement.now }
{
    match statement {
        Statement::Query(query) => in_query(query),
        Statement::Write(write) => in_write(write),
        Statement::Begin => 0,
        Statement::Commit => 0,
        Statement::Rollback => 0,
        Statement::Set => 0,
    }
}

fn in_query(query: &Query) -> u16
    ensures { result ≡ param_in_query query.now }
{
    let mut greatest: u16 = 0;
    let mut at = query;
    loop {
        match at {
            Query::Table(_name) => return greatest,
            Query::Select(_items, source, cond) => {
                greatest = greater(greatest, in_cond(cond));
                at = source.get();
            }
            Query::Join(left, right, cond) => {
                greatest = greater(greatest, in_query(right.get()));
                greatest = greater(greatest, in_cond(cond));
                at = left.get();
            }
            Query::Union(left, right) => {
                greatest = greater(greatest, in_query(right.get()));
                at = left.get();
            }
            Query::Except(left, right) => {
                greatest = greater(greatest, in_query(right.get()));
                at = left.get();
            }
            Query::Alias(source, _name) => at = source.get(),
            Query::Choice(_expr, left, right) => {
                greatest = greater(greatest, in_query(right.get()));
                at = left.get();
            }
            Query::Empty => return greatest,
        }
    }
}

fn in_cond(cond: &Cond) -> u16
    ensures { result ≡ param_in_cond cond.now }
{
    let mut greatest: u16 = 0;
    let mut at = cond;
    loop {
        match at {
            Cond::Cmp(left, _op, right) => {
                return greater(greatest, greater(in_operand(left), in_operand(right)));
            }
            Cond::Not(inner) => at = inner.get(),
            Cond::And(left, right) => {
                greatest = greater(greatest, in_cond(right.get()));
                at = left.get();
            }
            Cond::Or(left, right) => {
                greatest = greater(greatest, in_cond(right.get()));
                at = left.get();
            }
            Cond::Choice(_expr, left, right) => {
                greatest = greater(greatest, in_cond(right.get()));
                at = left.get();
            }
            Cond::True => return greatest,
            Cond::False => return greatest,
        }
    }
}

fn in_operand(operand: &Operand) -> u16
    ensures { result ≡ param_in_operand operand.now }
{
    match operand {
        Operand::Column(_column) => 0,
        Operand::Literal(_value) => 0,
        Operand::Param(number) => *number,
    }
}

fn in_write(write: &Write) -> u16
    ensures { result ≡ param_in_write write.now }
{
    match write {
        Write::Insert(_table, _columns, rows, _expr) => in_rows(rows.as_slice()),
        Write::Delete(_table, cond, _expr) => in_cond(cond),
        Write::Update(_table, items, cond, _expr) => {
            greater(in_set_items(items.as_slice()), in_cond(cond))
        }
    }
}

fn in_rows(rows: &[List<Operand>]) -> u16
    ensures { result ≡ param_in_rows rows.now }
{
    let mut greatest: u16 = 0;
    for row in rows {
        greatest = greater(greatest, in_row(row.as_slice()));
    }
    greatest
}

fn in_row(row: &[Operand]) -> u16
    ensures { result ≡ param_in_row row.now }
{
    let mut greatest: u16 = 0;
    for operand in row {
        greatest = greater(greatest, in_operand(operand));
    }
    greatest
}

fn in_set_items(items: &[SetItem]) -> u16
    ensures { result ≡ param_in_set_items items.now }
{
    let mut greatest: u16 = 0;
    for item in items {
        greatest = greater(greatest, in_operand(&item.value));
    }
    greatest
}

fn greater(left: u16, right: u16) -> u16
    ensures { result ≡ max left right }
{
    if left < right { right } else { left }
}
