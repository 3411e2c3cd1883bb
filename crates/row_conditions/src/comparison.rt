ghost use Rattle.std.specs.Prelude.{◌≡◌, ◌++◌, IfOk};
ghost use Rattle.feature_expr.specs.Expressions.{or_of};
ghost use Rattle.plain_relation.specs.Relations.{same_name};
ghost use Rattle.relational_algebra.specs.Values.{compares_values, meets_op};
ghost use Rattle.row_conditions.specs.Truths.{comparing, constant, pairing, passes, passing, slots_of, test_of, with_pairs_of, with_slot};

use feature_expr::{Expr, and, or};
use std::alloc::Global;
use std::cmp::Ordering;
use values::{ColName, Memory, TryCopy, Value};
use vra_syntax::{Op, Operand};
use vtable::VColumn;

/// A row or a part of one: its columns, and a cell for each.
#[derive(Clone, Copy)]
pub struct Part<'a> {
    pub columns: &'a [VColumn],
    pub cells: &'a [Option<Value>],
}

/// What is asked of a cell's value: that a value stands to it, or it to a value, or it to itself.
#[derive(Clone, Copy)]
pub enum Test<'a> {
    Left(Op, &'a Value),
    Right(Op, &'a Value),
    Own(Op),
}

/// Where a comparison is true of a row in two parts.
pub fn compared(
    alloc: Global,
    left: Part,
    right: Part,
    one: &Operand,
    sign: Op,
    other: &Operand,
) -> Result<Expr, Memory>
    ensures { IfOk result (λ it. it ≡ comparing (slots_of left.entry.columns.now left.entry.cells.now ++ slots_of right.entry.columns.now right.entry.cells.now) one.now sign other.now) }
{
    match (one, other) {
        (Operand::Column(name), Operand::Column(other)) => {
            columns_compared(alloc, left, right, name, sign, other)
        }
        (Operand::Column(name), Operand::Literal(value)) => {
            passing(alloc, left, right, name, Test::Right(sign, value))
        }
        (Operand::Literal(value), Operand::Column(name)) => {
            passing(alloc, left, right, name, Test::Left(sign, value))
        }
        (Operand::Literal(value), Operand::Literal(other)) => {
            Ok(constant(stands(value, sign, other)))
        }
        (_, _) => Ok(Expr::False),
    }
}

fn constant(truth: bool) -> Expr
    ensures { result ≡ constant truth }
{
    if truth { Expr::True } else { Expr::False }
}

/// Whether two values stand to each other as the sign asks. Values of two kinds don't, whatever it asks.
fn stands(one: &Value, sign: Op, other: &Value) -> bool
    ensures { result ≡ compares_values sign one.now other.now }
{
    one.kind() == other.kind() && meets(sign, one.cmp(other))
}

fn meets(sign: Op, order: Ordering) -> bool
    ensures { result ≡ meets_op sign order }
{
    match sign {
        Op::Eq => order.is_eq(),
        Op::Ne => order.is_ne(),
        Op::Lt => order.is_lt(),
        Op::Le => order.is_le(),
        Op::Gt => order.is_gt(),
        Op::Ge => order.is_ge(),
    }
}

fn is_same_name(one: &ColName, other: &ColName) -> bool
    ensures { result ≡ same_name one.now other.now }
{
    one == other
}

fn meets_test(test: Test, value: &Value) -> bool
    ensures { result ≡ test_of test.entry value.now }
{
    match test {
        Test::Left(sign, one) => stands(one, sign, value),
        Test::Right(sign, other) => stands(value, sign, other),
        Test::Own(sign) => stands(value, sign, value),
    }
}

fn passes(test: Test, cell: &Option<Value>) -> bool
    ensures { result ≡ passes (test_of test.entry) cell.now }
{
    match cell {
        Some(value) => meets_test(test, value),
        None => false,
    }
}

/// Where a column of the name is there whose cell passes.
fn passing(
    alloc: Global,
    left: Part,
    right: Part,
    name: &ColName,
    test: Test,
) -> Result<Expr, Memory>
    ensures { IfOk result (λ it. it ≡ passing name.now (test_of test.entry) Expr.False (slots_of left.entry.columns.now left.entry.cells.now ++ slots_of right.entry.columns.now right.entry.cells.now)) }
{
    let out = passing_in(alloc, Expr::False, left, name, test)?;
    let out = passing_in(alloc, out, right, name, test)?;
    Ok(out)
}

fn passing_in(
    alloc: Global,
    out: Expr,
    part: Part,
    name: &ColName,
    test: Test,
) -> Result<Expr, Memory>
    ensures { IfOk result (λ it. it ≡ passing name.now (test_of test.entry) out (slots_of part.entry.columns.now part.entry.cells.now)) }
{
    let mut out = out;
    let Part { columns, cells } = part;
    let mut columns = columns;
    let mut cells = cells;
    while let Some((column, more)) = columns.split_first() {
        let Some((cell, rest)) = cells.split_first() else {
            return Ok(out);
        };
        out = with_slot(alloc, out, column, cell, name, test)?;
        columns = more;
        cells = rest;
    }
    Ok(out)
}

fn with_slot(
    alloc: Global,
    out: Expr,
    column: &VColumn,
    cell: &Option<Value>,
    name: &ColName,
    test: Test,
) -> Result<Expr, Memory>
    ensures { IfOk result (λ it. it ≡ with_slot name.now (test_of test.entry) out (record { column = column.now; cell = cell.now })) }
{
    if is_same_name(&column.name, name) && passes(test, cell) {
        let cond = column.cond.copy(alloc)?;
        return or(alloc, out, cond);
    }
    Ok(out)
}

/// Where two columns are there whose cells compare. Where both have one name they are one, in each variant in which no
/// two columns of one name are there.
fn columns_compared(
    alloc: Global,
    left: Part,
    right: Part,
    name: &ColName,
    sign: Op,
    other: &ColName,
) -> Result<Expr, Memory>
    ensures { IfOk result (λ it. it ≡ comparing (slots_of left.entry.columns.now left.entry.cells.now ++ slots_of right.entry.columns.now right.entry.cells.now) (Operand.Column name.now) sign (Operand.Column other.now)) }
{
    if is_same_name(name, other) {
        return passing(alloc, left, right, name, Test::Own(sign));
    }
    let out = pairing_in(alloc, Expr::False, left, right, left, name, sign, other)?;
    let out = pairing_in(alloc, out, left, right, right, name, sign, other)?;
    Ok(out)
}

fn pairing_in(
    alloc: Global,
    out: Expr,
    left: Part,
    right: Part,
    part: Part,
    name: &ColName,
    sign: Op,
    other: &ColName,
) -> Result<Expr, Memory>
    ensures { IfOk result (λ it. it ≡ pairing name.now sign other.now (slots_of left.entry.columns.now left.entry.cells.now ++ slots_of right.entry.columns.now right.entry.cells.now) out (slots_of part.entry.columns.now part.entry.cells.now)) }
{
    let mut out = out;
    let Part { columns, cells } = part;
    let mut columns = columns;
    let mut cells = cells;
    while let Some((column, more)) = columns.split_first() {
        let Some((cell, rest)) = cells.split_first() else {
            return Ok(out);
        };
        if is_same_name(&column.name, name) {
            out = with_pairs(alloc, out, left, right, column, cell, sign, other)?;
        }
        columns = more;
        cells = rest;
    }
    Ok(out)
}

fn with_pairs(
    alloc: Global,
    out: Expr,
    left: Part,
    right: Part,
    column: &VColumn,
    cell: &Option<Value>,
    sign: Op,
    other: &ColName,
) -> Result<Expr, Memory>
    ensures { IfOk result (λ it. it ≡ with_pairs_of other.now sign (slots_of left.entry.columns.now left.entry.cells.now ++ slots_of right.entry.columns.now right.entry.cells.now) out column.now.cond cell.now) }
{
    match cell {
        None => Ok(out),
        Some(value) => {
            let others = passing(alloc, left, right, other, Test::Left(sign, value))?;
            let cond = column.cond.copy(alloc)?;
            let both = and(alloc, cond, others)?;
            or(alloc, out, both)
        }
    }
}
