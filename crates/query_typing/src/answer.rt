ghost use Rattle.std.specs.Prelude.{◌≡◌, ◌++◌, IfOk, OnOk};
ghost use Rattle.query_typing.specs.Answer.{AnswersSimpler, AreSimpler, IsSimpler, answer_column, answer_columns};

use asked_conditions::Questions;
use feature_expr::List;
use query_meaning::TypedColumn;
use simple_conditions::simplified;
use std::alloc::Global;
use values::Memory;

/// The columns that some admitted variant has, each under a simplified condition, and without one where all have it.
pub fn settled_columns(
    alloc: Global,
    questions: &mut Questions<'_>,
    columns: List<TypedColumn>,
) -> Result<List<TypedColumn>, Memory>
    ensures same { questions.new ≡ questions.old }
    ensures exact { IfOk result (AnswersSimpler questions.old columns) }
{
    let columns = simpler_columns(alloc, columns)?;
    let settled = each_settled(alloc, questions, columns)?;
    Ok(settled)
}

/// The columns, each under a simplified condition.
#[tactic(auto, using(crate::proofs::SimplerLaws::simpler_push))]
fn simpler_columns(alloc: Global, columns: List<TypedColumn>) -> Result<List<TypedColumn>, Memory>
    ensures { IfOk result (AreSimpler columns) }
{
    let mut out = Vec::new(alloc);
    for column in columns.into_vec() {
        let column = simpler_column(alloc, column)?;
        out.push(column)?;
    }
    Ok(List::from_vec(out))
}

fn simpler_column(alloc: Global, column: TypedColumn) -> Result<TypedColumn, Memory>
    ensures { IfOk result (IsSimpler column) }
{
    let TypedColumn { name, kind, cond } = column;
    let cond = simplified(alloc, cond)?;
    Ok(TypedColumn { name, kind, cond })
}

/// The columns that some admitted variant has, without a condition where all have them.
fn each_settled(
    alloc: Global,
    questions: &mut Questions<'_>,
    columns: List<TypedColumn>,
) -> Result<List<TypedColumn>, Memory>
    ensures same { questions.new ≡ questions.old }
    ensures exact { IfOk result (λ it. it ≡ answer_columns questions.old columns) }
{
    let mut out = Vec::new(alloc);
    for column in columns.into_vec() {
        add_settled(questions, column, &mut out)?;
    }
    Ok(List::from_vec(out))
}

fn add_settled(
    questions: &mut Questions<'_>,
    column: TypedColumn,
    out: &mut Vec<TypedColumn>,
) -> Result<(), Memory>
    ensures same { questions.new ≡ questions.old }
    ensures exact { OnOk result (out.new.items ≡ out.old.items ++ answer_column questions.old column) }
{
    let TypedColumn { name, kind, cond } = column;
    match questions.settled(cond)? {
        Some(cond) => {
            out.push(TypedColumn { name, kind, cond })?;
            Ok(())
        }
        None => Ok(()),
    }
}
