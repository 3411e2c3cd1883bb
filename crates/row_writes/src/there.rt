ghost use Rattle.std.specs.Prelude.{◌≡◌, ◌++◌, ◌∷◌, [], IfOk, OnOk};
ghost use Rattle.condition_sat.specs.Possible.{can_hold};
ghost use Rattle.feature_expr.specs.Expressions.{and_of};
ghost use Rattle.write_meaning.specs.RowWrites.{holding};

use asked_conditions::Questions;
use feature_expr::{Expr, and};
use std::alloc::Global;
use values::{List, Memory, TryCopy};
use vschema::Table;
use vtable::VRow;

/// Whether a row of the table is there in some variant, under this condition.
pub fn can_be_there(
    alloc: Global,
    questions: &mut Questions<'_>,
    table: &Table,
    cond: &Expr,
) -> Result<bool, Memory>
    ensures same { questions.new ≡ questions.old }
    ensures answer { IfOk result (λ answer. answer ≡ can_hold questions.old (and_of table.now.cond cond.now)) }
{
    let there = with_table(alloc, table, cond)?;
    let answer = questions.holds_somewhere(&there)?;
    Ok(answer)
}

fn with_table(alloc: Global, table: &Table, cond: &Expr) -> Result<Expr, Memory>
    ensures { IfOk result (λ it. it ≡ and_of table.now.cond cond.now) }
{
    let cond = cond.copy(alloc)?;
    let table_cond = table.cond.copy(alloc)?;
    let there = and(alloc, table_cond, cond)?;
    Ok(there)
}

/// Those of the rows of a table that are there in some variant, moved.
#[tactic(auto, using(crate::proofs::PresentLaws::present_more))]
pub fn present_rows(
    alloc: Global,
    questions: &mut Questions<'_>,
    table: &Table,
    rows: List<VRow>,
) -> Result<List<VRow>, Memory>
    ensures same { questions.new ≡ questions.old }
    ensures rows { IfOk result (λ it. it ≡ holding questions.old table.now rows) }
{
    let mut present = Vec::with_capacity(alloc, rows.len())?;
    for row in rows.into_vec() {
        put_present(alloc, questions, table, row, &mut present)?;
    }
    Ok(List::from_vec(present))
}

fn put_present(
    alloc: Global,
    questions: &mut Questions<'_>,
    table: &Table,
    row: VRow,
    present: &mut Vec<VRow>,
) -> Result<(), Memory>
    ensures same { questions.new ≡ questions.old }
    ensures rows { OnOk result (present.new.items ≡ present.old.items ++ holding questions.old table.now (row ∷ [])) }
{
    if can_be_there(alloc, questions, table, &row.cond)? {
        present.push(row)?;
    }
    Ok(())
}
