ghost use Rattle.std.specs.Prelude.{◌≡◌, IfOk};

use feature_expr::{ColName, Expr, Memory, TryCopy, Value};
use sqlite_items::Boxed;
use std::alloc::Global;

/// The condition on rows of a select, a join or a write.
///
/// A chain of `and` or `or` grows on its left side, and may have many thousands of links: whatever goes over a
/// condition loops down its left side and recurses to the right alone.
pub enum Cond {
    Cmp(Operand, Op, Operand),
    Not(Boxed<Cond>),
    And(Boxed<Cond>, Boxed<Cond>),
    Or(Boxed<Cond>, Boxed<Cond>),
    Choice(Expr, Boxed<Cond>, Boxed<Cond>),
    True,
    False,
}

/// A side of a comparison, or a value of a write. A parameter goes by its number, from 1.
#[derive(Drop)]
pub enum Operand {
    Column(ColName),
    Literal(Value),
    Param(u16),
}

/// How two values are compared.
#[derive(Clone, Copy, Debug, PartialEq, Eq)]
pub enum Op {
    Eq,
    Ne,
    Lt,
    Le,
    Gt,
    Ge,
}

impl Drop for Cond {
    fn drop(mut self) {
        loop {
            match self {
                Cond::Cmp(_left, _op, _right) => return,
                Cond::Not(inner) => self = inner.into_inner(),
                Cond::And(left, right) => {
                    let _right = right.into_inner();
                    self = left.into_inner();
                }
                Cond::Or(left, right) => {
                    let _right = right.into_inner();
                    self = left.into_inner();
                }
                Cond::Choice(_expr, left, right) => {
                    let _right = right.into_inner();
                    self = left.into_inner();
                }
                Cond::True => return,
                Cond::False => return,
            }
        }
    }
}

impl TryCopy for Operand {
    fn copy(&self, alloc: Global) -> Result<Self, Memory> {
        match self {
            Operand::Column(column) => {
                let column = column.copy(alloc)?;
                Ok(Operand::Column(column))
            }
            Operand::Literal(value) => {
                let value = value.copy(alloc)?;
                Ok(Operand::Literal(value))
            }
            Operand::Param(number) => Ok(Operand::Param(*number)),
        }
    }
}

pub fn cond_not(alloc: Global, inner: Cond) -> Result<Cond, Memory>
    ensures { IfOk result (λ it. it ≡ Cond.Not inner) }
{
    let inner = Boxed::new(alloc, inner)?;
    Ok(Cond::Not(inner))
}

pub fn cond_and(alloc: Global, left: Cond, right: Cond) -> Result<Cond, Memory>
    ensures { IfOk result (λ it. it ≡ Cond.And left right) }
{
    let left = Boxed::new(alloc, left)?;
    let right = Boxed::new(alloc, right)?;
    Ok(Cond::And(left, right))
}

pub fn cond_or(alloc: Global, left: Cond, right: Cond) -> Result<Cond, Memory>
    ensures { IfOk result (λ it. it ≡ Cond.Or left right) }
{
    let left = Boxed::new(alloc, left)?;
    let right = Boxed::new(alloc, right)?;
    Ok(Cond::Or(left, right))
}

/// The left condition where the expression holds, else the right one.
pub fn cond_choice(alloc: Global, expr: Expr, left: Cond, right: Cond) -> Result<Cond, Memory>
    ensures { IfOk result (λ it. it ≡ Cond.Choice expr left right) }
{
    let left = Boxed::new(alloc, left)?;
    let right = Boxed::new(alloc, right)?;
    Ok(Cond::Choice(expr, left, right))
}
