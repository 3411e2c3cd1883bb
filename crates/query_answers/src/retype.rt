//! The conditions that typing found, for the columns of a table.

ghost use Rattle.std.specs.Prelude.{◌≡◌, IfOk};
ghost use Rattle.plan_tables.specs.Tables.{heading};
ghost use Rattle.query_answers.specs.Retyped.{PutsRetyped, retyped};
ghost use Rattle.query_meaning.specs.Typing as typing;
ghost use Rattle.relational_algebra.specs.Columns.{same_column};

use query_meaning::TypedColumn;
use std::alloc::Global;
use values::{List, Memory, TryCopy};
use vtable::VColumn;

/// The columns, each that has a typed one under its condition.
pub fn retyped(
    alloc: Global,
    columns: &[VColumn],
    typed: &[TypedColumn],
) -> Result<List<VColumn>, Memory>
    ensures { IfOk result (λ it. it ≡ retyped columns.now typed.now) }
{
    let mut out = Vec::with_capacity(alloc, columns.len())?;
    let mut columns = columns;
    let mut typed = typed;
    'columns: while let Some((column, more)) = columns.split_first() {
        typed = put_retyped(alloc, column, typed, &mut out)?;
        columns = more;
    }
    Ok(List::from_vec(out))
}

/// Adds the column, and gives the typed columns that are left for those behind it.
#[tactic(auto, using(crate::proofs::RetypeLaws::put_last))]
fn put_retyped<'a>(
    alloc: Global,
    column: &VColumn,
    typed: &'a [TypedColumn],
    out: &mut Vec<VColumn>,
) -> Result<&'a [TypedColumn], Memory>
    ensures { IfOk result (λ left. PutsRetyped out.old.items out.new.items column.now typed.now left.now) }
{
    let Some((first, more)) = typed.split_first() else {
        out.push(column.copy(alloc)?)?;
        return Ok(typed);
    };
    if !is_typed_column(column, first) {
        out.push(column.copy(alloc)?)?;
        return Ok(typed);
    }
    let name = column.name.copy(alloc)?;
    let kind = column.kind;
    let cond = first.cond.copy(alloc)?;
    out.push(VColumn { name, kind, cond })?;
    Ok(more)
}

fn is_typed_column(column: &VColumn, typed: &TypedColumn) -> bool
    ensures { result ≡ same_column (heading column.now) (typing.heading typed.now) }
{
    column.name == typed.name && column.kind == typed.kind
}
