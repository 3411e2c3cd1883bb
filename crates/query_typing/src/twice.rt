ghost use Rattle.std.specs.Prelude.{◌≡◌, ◌++◌, ◌∷◌, ◌&&◌, ℕ, [], List as Items, OnOk, if◌then◌else◌};
ghost use Rattle.feature_expr.specs.Satisfaction.{satisfies};
ghost use Rattle.plain_relation.specs.Relations.{has_name};
ghost use Rattle.query_meaning.specs.Cases.{case};
ghost use Rattle.query_meaning.specs.PlainTypes.{twice};
ghost use Rattle.query_meaning.specs.Typing.{columns_at};
ghost use Rattle.query_typing.specs.Faults.{faults_at};

use crate::fault::{Fault, ShownName, add_fault};
use conditional_columns::name_in;
use feature_expr::and;
use query_meaning::{IllCase, TypedColumn};
use std::alloc::Global;
use values::{Memory, TryCopy};

/// Puts the cases that two columns of one name are there behind others. It takes time in the square of their number.
pub fn add_twice<'a>(
    alloc: Global,
    columns: &'a [TypedColumn],
    faults: &mut Vec<Fault<'a>>,
) -> Result<(), Memory>
    ensures { OnOk result ((c : Items ℕ) → faults_at c faults.new.items ≡ faults_at c faults.old.items ++ twice (columns_at c columns.now)) }
{
    let mut rest = columns;
    while let Some((column, behind)) = rest.split_first() {
        add_again(alloc, column, behind, faults)?;
        rest = behind;
    }
    Ok(())
}

/// Puts the case that the column is there, and another one of its name behind it, behind others.
fn add_again<'a>(
    alloc: Global,
    column: &'a TypedColumn,
    behind: &[TypedColumn],
    faults: &mut Vec<Fault<'a>>,
) -> Result<(), Memory>
    ensures { OnOk result ((c : Items ℕ) → faults_at c faults.new.items ≡ faults_at c faults.old.items ++ (if satisfies c column.now.cond && has_name column.now.name (columns_at c behind.now) then case IllCase.Twice column.now.name ∷ [] else [])) }
{
    let again = name_in(alloc, &column.name, behind)?;
    let cond = column.cond.copy(alloc)?;
    let cond = and(alloc, cond, again)?;
    add_fault(faults, cond, IllCase::Twice, ShownName::Of(&column.name))?;
    Ok(())
}
