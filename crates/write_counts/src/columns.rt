ghost use Rattle.std.specs.Prelude.{◌≡◌, ℕ, IfOk, List as Items, map};
ghost use Rattle.std.specs.List.{list_any};
ghost use Rattle.feature_expr.specs.Expressions.{and_of, not_of};
ghost use Rattle.feature_expr.specs.Satisfaction.{satisfies};
ghost use Rattle.vschema.specs.Gaps.{is_column_there};
ghost use Rattle.write_counts.specs.Counts.{is_mandatory};
ghost use Rattle.write_counts.specs.Lists.{IsWithColumns};

use asked_conditions::Questions;
use feature_expr::{Expr, and, not, or};
use std::alloc::Global;
use values::{Memory, TryCopy};
use vschema::{Column, Table};

/// For each column of the table, whether it is mandatory.
pub fn mandatory_columns(
    alloc: Global,
    questions: &mut Questions<'_>,
    table: &Table,
) -> Result<Vec<bool>, Memory>
    ensures same { questions.new ≡ questions.old }
    ensures marks { IfOk result (λ marks. marks.items ≡ map (is_mandatory questions.old table.now) table.now.columns) }
{
    let mut marks = Vec::with_capacity(alloc, table.columns.len())?;
    for column in table.columns.as_slice() {
        marks.push(is_mandatory(alloc, questions, table, column)?)?;
    }
    Ok(marks)
}

#[tactic(auto, using(crate::proofs::ColumnLaws::mandatory_asked))]
fn is_mandatory(
    alloc: Global,
    questions: &mut Questions<'_>,
    table: &Table,
    column: &Column,
) -> Result<bool, Memory>
    ensures same { questions.new ≡ questions.old }
    ensures answer { IfOk result (λ answer. answer ≡ is_mandatory questions.old table.now column.now) }
{
    let missing = missing(alloc, table, column)?;
    let missed = questions.holds_somewhere(&missing)?;
    Ok(!missed)
}

/// Where the table is there without the column.
fn missing(alloc: Global, table: &Table, column: &Column) -> Result<Expr, Memory>
    ensures { IfOk result (λ it. it ≡ and_of table.now.cond (not_of column.now.cond)) }
{
    let there = table.cond.copy(alloc)?;
    let column_cond = column.cond.copy(alloc)?;
    let away = not(alloc, column_cond)?;
    let missing = and(alloc, there, away)?;
    Ok(missing)
}

/// The expression, where the table has a column.
pub fn with_columns(alloc: Global, table: &Table, expr: &Expr) -> Result<Expr, Memory>
    ensures { IfOk result (λ it. IsWithColumns expr.now table.now it) }
{
    let some = some_column(alloc, table.columns.as_slice())?;
    let expr = expr.copy(alloc)?;
    let narrowed = and(alloc, expr, some)?;
    Ok(narrowed)
}

fn some_column(alloc: Global, columns: &[Column]) -> Result<Expr, Memory>
    ensures { IfOk result (λ it. (c : Items ℕ) → satisfies c it ≡ list_any (is_column_there c) columns.now) }
{
    let mut some = Expr::False;
    for column in columns {
        let cond = column.cond.copy(alloc)?;
        some = or(alloc, some, cond)?;
    }
    Ok(some)
}
