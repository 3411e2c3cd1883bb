ghost use Rattle.std.specs.Prelude.{◌≡◌, ◌++◌, ◌∷◌, [], map, OnOk, IfOk};
ghost use Rattle.feature_expr.specs.Expressions.{and_of, not_of};
ghost use Rattle.query_meaning.specs.WriteTyping.{assignment_of};
ghost use Rattle.row_writes.specs.Made.{changed_of, rest_of};
ghost use Rattle.write_meaning.specs.RowWrites.{holding};

use crate::given::set_cells;
use crate::there::can_be_there;
use asked_conditions::Questions;
use feature_expr::{Expr, and, not};
use std::alloc::Global;
use values::{Memory, TryCopy};
use vra_syntax::SetItem;
use vschema::Table;
use vtable::VRow;

/// Adds what is left of the row where it isn't touched, if it can be there.
pub fn put_rest(
    alloc: Global,
    questions: &mut Questions<'_>,
    begun: &mut Vec<VRow>,
    table: &Table,
    row: &VRow,
    touch: &Expr,
) -> Result<(), Memory>
    ensures same { questions.new ≡ questions.old }
    ensures put { OnOk result (begun.new.items ≡ begun.old.items ++ holding questions.old table.now (rest_of row.now touch.now ∷ [])) }
{
    let cond = untouched(alloc, row, touch)?;
    if can_be_there(alloc, questions, table, &cond)? {
        let cells = row.cells.copy(alloc)?;
        begun.push(VRow { cells, cond })?;
    }
    Ok(())
}

/// Adds the row with the new values where it is touched, if it can be there.
pub fn put_changed(
    alloc: Global,
    questions: &mut Questions<'_>,
    begun: &mut Vec<VRow>,
    table: &Table,
    items: &[SetItem],
    row: &VRow,
    touch: &Expr,
) -> Result<(), Memory>
    ensures same { questions.new ≡ questions.old }
    ensures put { OnOk result (begun.new.items ≡ begun.old.items ++ holding questions.old table.now (changed_of table.now.columns (map assignment_of items.now) row.now touch.now ∷ [])) }
{
    let cond = touched(alloc, row, touch)?;
    if can_be_there(alloc, questions, table, &cond)? {
        let cells = set_cells(alloc, table.columns.as_slice(), items, row.cells.as_slice())?;
        begun.push(VRow { cells, cond })?;
    }
    Ok(())
}

fn untouched(alloc: Global, row: &VRow, touch: &Expr) -> Result<Expr, Memory>
    ensures { IfOk result (λ it. it ≡ and_of row.now.cond (not_of touch.now)) }
{
    let touch = touch.copy(alloc)?;
    let apart = not(alloc, touch)?;
    let cond = row.cond.copy(alloc)?;
    let cond = and(alloc, cond, apart)?;
    Ok(cond)
}

fn touched(alloc: Global, row: &VRow, touch: &Expr) -> Result<Expr, Memory>
    ensures { IfOk result (λ it. it ≡ and_of row.now.cond touch.now) }
{
    let touch = touch.copy(alloc)?;
    let cond = row.cond.copy(alloc)?;
    let cond = and(alloc, cond, touch)?;
    Ok(cond)
}
