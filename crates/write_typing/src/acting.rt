ghost use Rattle.std.specs.Prelude.{◌≡◌, ◌++◌, ℕ, [], Some, List as Items, IfErr, IfOk, OnOk, if◌then◌else◌};
ghost use Rattle.std.specs.List.{flat_map};
ghost use Rattle.feature_expr.specs.Names.{among};
ghost use Rattle.feature_expr.specs.Satisfaction.{satisfies};
ghost use Rattle.feature_expr.specs.declared.expr.Expr as e;
ghost use Rattle.query_meaning.specs.PlainTypes.{absent_name};
ghost use Rattle.query_meaning.specs.Typing.{columns_at, heading};
ghost use Rattle.query_meaning.specs.WriteTyping.{acting_cases, unlisted, write_cases_in, write_expr};
ghost use Rattle.query_typing.specs.Faults.{NoCase, RefusesCase, faults_at};
ghost use Rattle.write_typing.specs.Acting.{absent_names};
ghost use Rattle.write_typing.specs.Faults.{names_of};

use asked_conditions::Questions;
use conditional_columns::{and_too, name_in, table_columns};
use feature_expr::{Expr, not};
use query_meaning::{IllCase, TypedColumn};
use query_typing::{CaseRefused, Fault, ShownName, add_cond, add_fault, ask};
use std::alloc::Global;
use values::{ColName, Kind, Memory, Name, TryCopy};
use vra_syntax::Write;
use vschema::Table;

/// Asks about each case of a write over its table whether it holds in an admitted variant in which the write acts.
pub fn ask_acting(
    alloc: Global,
    questions: &mut Questions<'_>,
    table: &Table,
    names: &[ColName],
    write: &Write,
    kinds: &[Kind],
) -> Result<(), CaseRefused>
    requires { names.now ≡ names_of write.now }
    ensures same { questions.new ≡ questions.old }
    ensures ok { OnOk result (NoCase questions.old e.True (λ c. write_cases_in c kinds.now (Some table.now) write.now)) }
    ensures err { IfErr result (RefusesCase questions.old e.True (λ c. write_cases_in c kinds.now (Some table.now) write.now)) }
{
    let columns = table_columns(alloc, table)?;
    let faults = acting_faults(alloc, kinds, columns.as_slice(), names, write)?;
    let acts = and_too(alloc, expr_of(write), &table.cond)?;
    ask(alloc, questions, &acts, faults.as_slice())?;
    Ok(())
}

/// The condition under which a write acts.
fn expr_of(write: &Write) -> &Expr
    ensures { result.now ≡ write_expr write.now }
{
    match write {
        Write::Insert(_table, _names, _rows, expr) => expr,
        Write::Delete(_table, _cond, expr) => expr,
        Write::Update(_table, _items, _cond, expr) => expr,
    }
}

/// The cases of a write over columns, each with the condition under which it holds where the write acts.
fn acting_faults<'a>(
    alloc: Global,
    kinds: &[Kind],
    columns: &'a [TypedColumn],
    names: &'a [ColName],
    write: &'a Write,
) -> Result<Vec<Fault<'a>>, Memory>
    requires { names.now ≡ names_of write.now }
    ensures { IfOk result (λ it. (c : Items ℕ) → faults_at c it.items ≡ acting_cases c kinds.now (columns_at c columns.now) write.now) }
{
    let mut faults = Vec::new(alloc);
    match write {
        Write::Insert(_table, listed, _rows, _expr) => {
            add_unlisted(alloc, columns, listed.as_slice(), &mut faults)?;
            Ok(faults)
        }
        Write::Delete(_table, cond, _expr) => {
            add_cond(alloc, kinds, columns, cond, &mut faults)?;
            Ok(faults)
        }
        Write::Update(_table, _items, cond, _expr) => {
            add_absent_names(alloc, columns, names, &mut faults)?;
            add_cond(alloc, kinds, columns, cond, &mut faults)?;
            Ok(faults)
        }
    }
}

/// Puts the cases that a column which gets no value is there behind others.
fn add_unlisted<'a>(
    alloc: Global,
    columns: &'a [TypedColumn],
    names: &[Name],
    faults: &mut Vec<Fault<'a>>,
) -> Result<(), Memory>
    ensures { OnOk result ((c : Items ℕ) → faults_at c faults.new.items ≡ faults_at c faults.old.items ++ flat_map (unlisted names.now) (columns_at c columns.now)) }
{
    for column in columns {
        add_unlisted_column(alloc, column, names, faults)?;
    }
    Ok(())
}

fn add_unlisted_column<'a>(
    alloc: Global,
    column: &'a TypedColumn,
    names: &[Name],
    faults: &mut Vec<Fault<'a>>,
) -> Result<(), Memory>
    ensures { OnOk result ((c : Items ℕ) → faults_at c faults.new.items ≡ faults_at c faults.old.items ++ (if satisfies c column.now.cond then unlisted names.now (heading column.now) else [])) }
{
    if is_listed(names, &column.name.base) {
        return Ok(());
    }
    let cond = column.cond.copy(alloc)?;
    add_fault(faults, cond, IllCase::NoValue, ShownName::Of(&column.name))?;
    Ok(())
}

fn is_listed(names: &[Name], name: &Name) -> bool
    ensures { result ≡ among name.now names.now }
{
    for other in names {
        if *other == *name {
            return true;
        }
    }
    false
}

/// Puts the cases that no column of a name is there behind others.
fn add_absent_names<'a>(
    alloc: Global,
    columns: &[TypedColumn],
    names: &'a [ColName],
    faults: &mut Vec<Fault<'a>>,
) -> Result<(), Memory>
    ensures { OnOk result ((c : Items ℕ) → faults_at c faults.new.items ≡ faults_at c faults.old.items ++ absent_names (columns_at c columns.now) names.now) }
{
    for name in names {
        add_absent_name(alloc, columns, name, faults)?;
    }
    Ok(())
}

fn add_absent_name<'a>(
    alloc: Global,
    columns: &[TypedColumn],
    name: &'a ColName,
    faults: &mut Vec<Fault<'a>>,
) -> Result<(), Memory>
    ensures { OnOk result ((c : Items ℕ) → faults_at c faults.new.items ≡ faults_at c faults.old.items ++ absent_name (columns_at c columns.now) name.now) }
{
    let there = name_in(alloc, name, columns)?;
    let absent = not(alloc, there)?;
    add_fault(faults, absent, IllCase::AbsentColumn, ShownName::Of(name))?;
    Ok(())
}
