ghost use Rattle.std.specs.Prelude.{◌≡◌, ◌++◌, ℕ, [], List as Items, OnOk, if◌then◌else◌};
ghost use Rattle.feature_expr.specs.Satisfaction.{satisfies};
ghost use Rattle.query_meaning.specs.PlainTypes.{absent_if, absent_name, absent_operand};
ghost use Rattle.query_meaning.specs.Typing.{columns_at};
ghost use Rattle.query_typing.specs.Faults.{faults_at};
ghost use Rattle.std.specs.List.{flat_map};

use crate::fault::{Fault, ShownName, add_fault};
use conditional_columns::name_in;
use feature_expr::{Expr, and, not};
use query_meaning::{IllCase, TypedColumn};
use std::alloc::Global;
use values::{ColName, Memory, TryCopy};
use vra_syntax::{Item, Operand};

/// Puts the case that no column of the name is there behind others. It holds where the path does.
fn add_absent<'a>(
    alloc: Global,
    columns: &[TypedColumn],
    path: &Expr,
    name: &'a ColName,
    faults: &mut Vec<Fault<'a>>,
) -> Result<(), Memory>
    ensures { OnOk result ((c : Items ℕ) → faults_at c faults.new.items ≡ faults_at c faults.old.items ++ (if satisfies c path.now then absent_name (columns_at c columns.now) name.now else [])) }
{
    let there = name_in(alloc, name, columns)?;
    let absent = not(alloc, there)?;
    let path = path.copy(alloc)?;
    let cond = and(alloc, path, absent)?;
    add_fault(faults, cond, IllCase::AbsentColumn, ShownName::Of(name))?;
    Ok(())
}

/// Puts the case that an operand is a column that isn't there behind others.
pub fn add_absent_operand<'a>(
    alloc: Global,
    columns: &[TypedColumn],
    path: &Expr,
    operand: &'a Operand,
    faults: &mut Vec<Fault<'a>>,
) -> Result<(), Memory>
    ensures { OnOk result ((c : Items ℕ) → faults_at c faults.new.items ≡ faults_at c faults.old.items ++ (if satisfies c path.now then absent_operand (columns_at c columns.now) operand.now else [])) }
{
    match operand {
        Operand::Column(name) => {
            add_absent(alloc, columns, path, name, faults)?;
            Ok(())
        }
        Operand::Literal(_value) => Ok(()),
        Operand::Param(_number) => Ok(()),
    }
}

/// Puts the cases of items whose columns aren't there behind others.
pub fn add_absent_items<'a>(
    alloc: Global,
    columns: &[TypedColumn],
    items: &'a [Item],
    faults: &mut Vec<Fault<'a>>,
) -> Result<(), Memory>
    ensures { OnOk result ((c : Items ℕ) → faults_at c faults.new.items ≡ faults_at c faults.old.items ++ flat_map (λ item. absent_if c (columns_at c columns.now) item.column item.cond) items.now) }
{
    for item in items {
        add_absent_item(alloc, columns, item, faults)?;
    }
    Ok(())
}

fn add_absent_item<'a>(
    alloc: Global,
    columns: &[TypedColumn],
    item: &'a Item,
    faults: &mut Vec<Fault<'a>>,
) -> Result<(), Memory>
    ensures { OnOk result ((c : Items ℕ) → faults_at c faults.new.items ≡ faults_at c faults.old.items ++ absent_if c (columns_at c columns.now) item.now.column item.now.cond) }
{
    match &item.cond {
        Some(when) => {
            add_absent(alloc, columns, when, &item.column, faults)?;
            Ok(())
        }
        None => Ok(()),
    }
}
