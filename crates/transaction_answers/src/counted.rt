//! The answer to a typed query, with steps that nobody counts.

ghost use Rattle.std.specs.Prelude.{◌≡◌, ◌<◌, IfOk};
ghost use Rattle.query_answers.specs.Answering.{CanAnswer, IsAnswerFrom};

use condition_sat::Model;
use plan_tables::Rows;
use query_answers::answer_query;
use query_names::Typed;
use std::alloc::Global;
use std::marker::Brand;
use std::sync::ledger::{Blank, Ledger};
use steps::Steps;
use values::Memory;
use vtable::OutTable;

/// The answer to a typed query. Its steps aren't counted.
pub fn answer_of(
    alloc: Global,
    model: &Model,
    typed: &Typed,
    rows: &Rows,
) -> Result<OutTable, Memory>
    requires { CanAnswer model.now rows.now.tables typed.now }
    ensures { IfOk result (IsAnswerFrom model.now rows.now.tables typed.now) }
{
    counted_answer::<Brand>(alloc, model, typed, rows, Blank::new(1))
}

fn counted_answer<L: Ledger>(
    alloc: Global,
    model: &Model,
    typed: &Typed,
    rows: &Rows,
    blank: Blank,
) -> Result<OutTable, Memory>
    requires answerable { CanAnswer model.now rows.now.tables typed.now }
    requires name { blank.name ≡ L.name }
    requires parts { blank.parts ≡ L.parts }
    requires some { 0 < blank.parts }
    ensures { IfOk result (IsAnswerFrom model.now rows.now.tables typed.now) }
{
    let mut steps: Steps<L> = Steps::new(blank);
    answer_query(alloc, model, typed, rows, &mut steps)
}
