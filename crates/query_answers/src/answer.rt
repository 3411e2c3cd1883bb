//! The answer to a typed query.

ghost use Rattle.std.specs.Prelude.{◌≤◌, ◌+◌, IfOk};
ghost use Rattle.plan_exec.specs.Runs.{steps_bound};
ghost use Rattle.query_answers.specs.Answering.{CanAnswer, IsAnswerFrom};

use crate::retype::retyped;
use crate::simpler::simpler_rows;
use condition_sat::Model;
use plan_exec::{Rows, run};
use query_meaning::{bound_laws, column_laws, query_laws};
use query_names::Typed;
use std::alloc::Global;
use std::sync::ledger::Ledger;
use steps::Steps;
use values::Memory;
use vtable::{OutTable, VTable, normal};

/// The answer in all variants at once, in table form, with the columns that typing chose. The rows are
/// brought into table form under simplified conditions, which several that are merged there aren't together.
pub fn answer_query<L: Ledger>(
    alloc: Global,
    model: &Model,
    typed: &Typed,
    rows: &Rows,
    steps: &mut Steps<L>,
) -> Result<OutTable, Memory>
    requires { CanAnswer model.now rows.now.tables typed.now }
    ensures answer { IfOk result (λ out. IsAnswerFrom model.now rows.now.tables typed.now out) }
    ensures steps { steps.new ≤ steps.old + steps_bound rows.now.tables typed.now.plan }
{
    query_laws();
    column_laws();
    bound_laws();
    let VTable {
        columns: possible,
        rows,
    } = run(alloc, typed.plan(), model, rows, steps)?;
    let rows = simpler_rows(alloc, rows)?;
    let columns = retyped(alloc, possible.as_slice(), typed.columns().as_slice())?;
    let answer = normal(alloc, model, VTable { columns, rows })?;
    Ok(answer)
}
