ghost use Rattle.std.specs.Prelude.{◌≡◌, map, true, IfOk};
ghost use Rattle.query_meaning.specs.WriteTyping.{assignment_of};
ghost use Rattle.row_writes.specs.Made.{IsDeleted, IsUpdated};
ghost use Rattle.vschema.specs.Formed.{has_distinct_columns};
ghost use Rattle.write_meaning.specs.RowWrites.{IsFate};
ghost use Rattle.write_meaning.specs.StoredTables.{stored_columns};

use crate::split::{put_changed, put_rest};
use crate::touch::{can_touch, touch_on};
use asked_conditions::Questions;
use feature_expr::Expr;
use std::alloc::Global;
use values::{List, Memory};
use vra_syntax::{Cond, SetItem, Write};
use vschema::Table;
use vtable::{VColumn, VRow};
use write_meaning::Fate;

/// What a write makes of a stored row of its table. A row that it touches in no variant isn't copied.
#[tactic(auto, using(crate::proofs::FateLaws::insert_fate, crate::proofs::FateLaws::delete_fate, crate::proofs::FateLaws::update_fate))]
pub fn row_fate(
    alloc: Global,
    questions: &mut Questions<'_>,
    table: &Table,
    columns: &List<VColumn>,
    write: &Write,
    row: &VRow,
) -> Result<Fate, Memory>
    requires columns { columns.now ≡ stored_columns table.now }
    requires distinct { has_distinct_columns table.now ≡ true }
    ensures same { questions.new ≡ questions.old }
    ensures fate { IfOk result (λ fate. IsFate questions.old table.now write.now row.now fate) }
{
    match write {
        Write::Insert(_name, _names, _rows, _expr) => Ok(Fate::Stays),
        Write::Delete(_name, cond, expr) => {
            delete_fate(alloc, questions, table, columns, expr, cond, row)
        }
        Write::Update(_name, items, cond, expr) => {
            let items = items.as_slice();
            update_fate(alloc, questions, table, columns, expr, cond, items, row)
        }
    }
}

fn delete_fate(
    alloc: Global,
    questions: &mut Questions<'_>,
    table: &Table,
    columns: &List<VColumn>,
    expr: &Expr,
    cond: &Cond,
    row: &VRow,
) -> Result<Fate, Memory>
    ensures same { questions.new ≡ questions.old }
    ensures fate { IfOk result (λ fate. IsDeleted questions.old table.now columns.now expr.now cond.now row.now fate) }
{
    let touch = touch_on(alloc, columns, expr, cond, row)?;
    if !can_touch(alloc, questions, table, row, &touch)? {
        return Ok(Fate::Stays);
    }
    let mut begun = Vec::new(alloc);
    put_rest(alloc, questions, &mut begun, table, row, &touch)?;
    Ok(Fate::Ends(List::from_vec(begun)))
}

fn update_fate(
    alloc: Global,
    questions: &mut Questions<'_>,
    table: &Table,
    columns: &List<VColumn>,
    expr: &Expr,
    cond: &Cond,
    items: &[SetItem],
    row: &VRow,
) -> Result<Fate, Memory>
    ensures same { questions.new ≡ questions.old }
    ensures fate { IfOk result (λ fate. IsUpdated questions.old table.now columns.now expr.now cond.now (map assignment_of items.now) row.now fate) }
{
    let touch = touch_on(alloc, columns, expr, cond, row)?;
    if !can_touch(alloc, questions, table, row, &touch)? {
        return Ok(Fate::Stays);
    }
    let mut begun = Vec::new(alloc);
    put_rest(alloc, questions, &mut begun, table, row, &touch)?;
    put_changed(alloc, questions, &mut begun, table, items, row, &touch)?;
    Ok(Fate::Ends(List::from_vec(begun)))
}
