ghost use Rattle.std.specs.Prelude.{◌≡◌, ◌∷◌, [], IfOk, map, option_to_list};
ghost use Rattle.query_meaning.specs.Parameters.{kind_at};
ghost use Rattle.conditional_columns.specs.ColumnLists.{with_name};
ghost use Rattle.feature_expr.specs.declared.expr.Expr as e;
ghost use Rattle.query_typing.specs.Kinds.{column_kind, differ_from, kind_always, operand_kinds_where, other_from};

use feature_expr::{Expr, and, or};
use query_meaning::TypedColumn;
use std::alloc::Global;
use values::{ColName, Kind, Memory, TryCopy};
use vra_syntax::Operand;

/// A kind that an operand has, and the condition under which it has it.
#[derive(Drop)]
pub struct KindWhere {
    pub kind: Kind,
    pub cond: Expr,
}

/// The kinds that an operand may have.
pub fn operand_kinds(
    alloc: Global,
    kinds: &[Kind],
    columns: &[TypedColumn],
    operand: &Operand,
) -> Result<Vec<KindWhere>, Memory>
    ensures { IfOk result (λ it. it.items ≡ operand_kinds_where kinds.now columns.now operand.now) }
{
    match operand {
        Operand::Column(name) => column_kinds(alloc, columns, name),
        Operand::Literal(value) => one_kind(alloc, Some(value.kind())),
        Operand::Param(number) => one_kind(alloc, kind_at(kinds, *number)),
    }
}

fn column_kinds(
    alloc: Global,
    columns: &[TypedColumn],
    name: &ColName,
) -> Result<Vec<KindWhere>, Memory>
    ensures { IfOk result (λ it. it.items ≡ map column_kind (with_name name.now columns.now)) }
{
    let mut found = Vec::new(alloc);
    for column in columns {
        if column.name == *name {
            let cond = column.cond.copy(alloc)?;
            found.push(KindWhere {
                kind: column.kind,
                cond,
            })?;
        }
    }
    Ok(found)
}

fn one_kind(alloc: Global, kind: Option<Kind>) -> Result<Vec<KindWhere>, Memory>
    ensures { IfOk result (λ it. it.items ≡ map kind_always (option_to_list kind)) }
{
    let mut found = Vec::new(alloc);
    match kind {
        Some(kind) => {
            found.push(KindWhere {
                kind,
                cond: Expr::True,
            })?;
            Ok(found)
        }
        None => Ok(found),
    }
}

/// The kind of a parameter, by its number from 1.
fn kind_at(kinds: &[Kind], number: u16) -> Option<Kind>
    ensures { result ≡ kind_at kinds.now number }
{
    if number == 0 {
        None
    } else {
        kinds.get(usize::from(number) - 1).copied()
    }
}

/// Holds where both sides have a kind, and not the same one.
pub fn differ(alloc: Global, left: Vec<KindWhere>, right: Vec<KindWhere>) -> Result<Expr, Memory>
    ensures { IfOk result (λ it. it ≡ differ_from right.items e.False left.items) }
{
    differ_of(alloc, left.as_slice(), right.as_slice())
}

fn differ_of(alloc: Global, left: &[KindWhere], right: &[KindWhere]) -> Result<Expr, Memory>
    ensures { IfOk result (λ it. it ≡ differ_from right.now e.False left.now) }
{
    let mut whole = Expr::False;
    for one in left {
        whole = or_differs(alloc, whole, one, right)?;
    }
    Ok(whole)
}

fn or_differs(
    alloc: Global,
    whole: Expr,
    one: &KindWhere,
    right: &[KindWhere],
) -> Result<Expr, Memory>
    ensures { IfOk result (λ it. it ≡ differ_from right.now whole (one.now ∷ [])) }
{
    let other = other_than(alloc, one.kind, right)?;
    let cond = one.cond.copy(alloc)?;
    let both = and(alloc, cond, other)?;
    let more = or(alloc, whole, both)?;
    Ok(more)
}

/// Holds where another kind is there.
fn other_than(alloc: Global, kind: Kind, right: &[KindWhere]) -> Result<Expr, Memory>
    ensures { IfOk result (λ it. it ≡ other_from kind e.False right.now) }
{
    let mut whole = Expr::False;
    for one in right {
        if one.kind != kind {
            let cond = one.cond.copy(alloc)?;
            whole = or(alloc, whole, cond)?;
        }
    }
    Ok(whole)
}
