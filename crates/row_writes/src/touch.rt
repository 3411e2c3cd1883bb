ghost use Rattle.std.specs.Prelude.{◌≡◌, IfOk};
ghost use Rattle.feature_expr.specs.Expressions.{and_of};
ghost use Rattle.row_writes.specs.Made.{IsTouchOn, can_touch};

use asked_conditions::Questions;
use feature_expr::{Expr, and};
use row_conditions::cond_on_row;
use std::alloc::Global;
use values::{List, Memory, TryCopy};
use vra_syntax::Cond;
use vschema::Table;
use vtable::{VColumn, VRow};

/// Where a write of this expression and condition touches the row.
#[tactic(auto, using(crate::proofs::TouchLaws::touch_is))]
pub fn touch_on(
    alloc: Global,
    columns: &List<VColumn>,
    expr: &Expr,
    cond: &Cond,
    row: &VRow,
) -> Result<Expr, Memory>
    ensures { IfOk result (λ touch. IsTouchOn expr.now cond.now columns.now row.now touch) }
{
    let truth = cond_on_row(alloc, cond, columns, row)?;
    let expr = expr.copy(alloc)?;
    let touch = and(alloc, expr, truth)?;
    Ok(touch)
}

/// Whether it does so in a variant in which the table and the row are there. Where the condition is false of the row
/// whatever the variant, nothing is asked.
#[tactic(auto, using(crate::proofs::TouchLaws::never_touched))]
pub fn can_touch(
    alloc: Global,
    questions: &mut Questions<'_>,
    table: &Table,
    row: &VRow,
    touch: &Expr,
) -> Result<bool, Memory>
    ensures same { questions.new ≡ questions.old }
    ensures answer { IfOk result (λ answer. answer ≡ can_touch questions.old table.now row.now touch.now) }
{
    match touch {
        Expr::False => Ok(false),
        _ => ask_touch(alloc, questions, table, row, touch),
    }
}

#[tactic(auto, using(crate::proofs::TouchLaws::touched_asked))]
fn ask_touch(
    alloc: Global,
    questions: &mut Questions<'_>,
    table: &Table,
    row: &VRow,
    touch: &Expr,
) -> Result<bool, Memory>
    ensures same { questions.new ≡ questions.old }
    ensures answer { IfOk result (λ answer. answer ≡ can_touch questions.old table.now row.now touch.now) }
{
    let asked = touched_there(alloc, table, row, touch)?;
    let answer = questions.holds_somewhere(&asked)?;
    Ok(answer)
}

/// Where the table and the row are there and the row is touched.
fn touched_there(alloc: Global, table: &Table, row: &VRow, touch: &Expr) -> Result<Expr, Memory>
    ensures { IfOk result (λ it. it ≡ and_of table.now.cond (and_of row.now.cond touch.now)) }
{
    let touch = touch.copy(alloc)?;
    let row_cond = row.cond.copy(alloc)?;
    let touched = and(alloc, row_cond, touch)?;
    let table_cond = table.cond.copy(alloc)?;
    let there = and(alloc, table_cond, touched)?;
    Ok(there)
}
