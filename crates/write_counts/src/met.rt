ghost use Rattle.std.specs.Prelude.{◌≡◌, [], ◌∷◌, ◌++◌, if◌then◌else◌, true, IfOk, OnOk};
ghost use Rattle.vschema.specs.Formed.{has_distinct_columns};
ghost use Rattle.write_counts.specs.Lists.{is_met, marked};
ghost use Rattle.write_meaning.specs.StoredTables.{stored_columns};

use asked_conditions::Questions;
use feature_expr::Expr;
use row_writes::{can_touch, touch_on};
use std::alloc::Global;
use values::{List, Memory, TryCopy, Value};
use vra_syntax::Cond;
use vschema::Table;
use vtable::{VColumn, VRow};

/// Whether the condition is true of the row in some variant in which the expression holds and the table and the row are
/// there.
#[tactic(auto, using(crate::proofs::MetLaws::met_is))]
pub fn is_met(
    alloc: Global,
    questions: &mut Questions<'_>,
    table: &Table,
    columns: &List<VColumn>,
    expr: &Expr,
    cond: &Cond,
    row: &VRow,
) -> Result<bool, Memory>
    requires columns { columns.now ≡ stored_columns table.now }
    requires distinct { has_distinct_columns table.now ≡ true }
    ensures same { questions.new ≡ questions.old }
    ensures answer { IfOk result (λ answer. answer ≡ is_met questions.old table.now expr.now cond.now row.now) }
{
    let touch = touch_on(alloc, columns, expr, cond, row)?;
    let met = can_touch(alloc, questions, table, row, &touch)?;
    Ok(met)
}

/// Copies of the cells at the marked places.
pub fn marked_cells(
    alloc: Global,
    marks: &[bool],
    cells: &[Option<Value>],
) -> Result<Vec<Option<Value>>, Memory>
    ensures { IfOk result (λ it. it.items ≡ marked marks.now cells.now) }
{
    let mut out = Vec::new(alloc);
    let mut marks = marks;
    let mut cells = cells;
    while let Some((mark, more)) = marks.split_first() {
        let Some((cell, rest)) = cells.split_first() else {
            return Ok(out);
        };
        put_marked(alloc, &mut out, *mark, cell)?;
        marks = more;
        cells = rest;
    }
    Ok(out)
}

fn put_marked(
    alloc: Global,
    out: &mut Vec<Option<Value>>,
    mark: bool,
    cell: &Option<Value>,
) -> Result<(), Memory>
    ensures { OnOk result (out.new.items ≡ (if mark then out.old.items ++ cell.now ∷ [] else out.old.items)) }
{
    if mark {
        let cell = cell.copy(alloc)?;
        out.push(cell)?;
    }
    Ok(())
}
