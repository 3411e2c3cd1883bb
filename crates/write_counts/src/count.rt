ghost use Rattle.std.specs.Prelude.{◌≡◌, if◌then◌else◌, true, IfOk};
ghost use Rattle.condition_sat.specs.Possible.{can_meet};
ghost use Rattle.feature_expr.specs.Expressions.{and_of};
ghost use Rattle.vschema.specs.Formed.{has_distinct_columns};
ghost use Rattle.write_counts.specs.Counts.{IsCountOver};
ghost use Rattle.write_counts.specs.Lists.{IsMetCount};
ghost use Rattle.write_meaning.specs.StoredTables.{stored_columns};

use crate::columns::{mandatory_columns, with_columns};
use crate::lists::CellLists;
use crate::met::{is_met, marked_cells};
use asked_conditions::Questions;
use feature_expr::{Expr, and};
use std::alloc::Global;
use values::{List, Memory, TryCopy};
use vra_syntax::{Cond, Write};
use vschema::Table;
use vtable::{VColumn, VRow};

/// The number in the tag of a write of the table, over its rows.
pub fn count_write(
    alloc: Global,
    questions: &mut Questions<'_>,
    table: &Table,
    columns: &List<VColumn>,
    write: &Write,
    rows: &[VRow],
) -> Result<u64, Memory>
    requires columns { columns.now ≡ stored_columns table.now }
    requires distinct { has_distinct_columns table.now ≡ true }
    ensures same { questions.new ≡ questions.old }
    ensures counted { IfOk result (IsCountOver questions.old table.now write.now rows.now) }
{
    match write {
        Write::Insert(_name, _names, listed, expr) => {
            count_listed(alloc, questions, table, expr, listed.len() as u64)
        }
        Write::Delete(_name, cond, expr) => {
            count_met(alloc, questions, table, columns, expr, cond, rows)
        }
        Write::Update(_name, _items, cond, expr) => {
            count_met(alloc, questions, table, columns, expr, cond, rows)
        }
    }
}

/// So many, where the expression and the table's condition hold in some variant.
#[tactic(auto, using(crate::proofs::CountLaws::acts_asked))]
fn count_listed(
    alloc: Global,
    questions: &mut Questions<'_>,
    table: &Table,
    expr: &Expr,
    listed: u64,
) -> Result<u64, Memory>
    ensures same { questions.new ≡ questions.old }
    ensures counted { IfOk result (λ count. count ≡ (if can_meet questions.old expr.now table.now.cond then listed else 0)) }
{
    let acting = acting(alloc, table, expr)?;
    let acts = questions.holds_somewhere(&acting)?;
    Ok(if acts { listed } else { 0 })
}

fn acting(alloc: Global, table: &Table, expr: &Expr) -> Result<Expr, Memory>
    ensures { IfOk result (λ it. it ≡ and_of expr.now table.now.cond) }
{
    let expr = expr.copy(alloc)?;
    let there = table.cond.copy(alloc)?;
    let acting = and(alloc, expr, there)?;
    Ok(acting)
}

/// How many lists of mandatory cells there are of rows of which the condition is true in some variant.
#[tactic(auto, using(crate::proofs::MetLaws::none_met))]
fn count_met(
    alloc: Global,
    questions: &mut Questions<'_>,
    table: &Table,
    columns: &List<VColumn>,
    expr: &Expr,
    cond: &Cond,
    rows: &[VRow],
) -> Result<u64, Memory>
    requires columns { columns.now ≡ stored_columns table.now }
    requires distinct { has_distinct_columns table.now ≡ true }
    ensures same { questions.new ≡ questions.old }
    ensures counted { IfOk result (IsMetCount questions.old table.now expr.now cond.now rows.now) }
{
    let marks = mandatory_columns(alloc, questions, table)?;
    let narrowed = with_columns(alloc, table, expr)?;
    let mut lists = CellLists::new(alloc);
    for row in rows {
        if is_met(alloc, questions, table, columns, &narrowed, cond, row)? {
            lists.add(marked_cells(alloc, marks.as_slice(), row.cells.as_slice())?)?;
        }
    }
    Ok(lists.len() as u64)
}
