ghost use Rattle.std.specs.Prelude.{◌≡◌, IfErr, IfOk};
ghost use Rattle.query_meaning.specs.PlainTypes.{typed_part};
ghost use Rattle.query_typing.specs.Bounded.{IsBounded, TwoMade, one_made};
ghost use Rattle.query_typing.specs.Parts.{PartFails, PartIs, TwoFails, TwoIs, one_typed, plain_part};

use crate::form::{Apart, Form, OneForm, TwoForm, right_reach, taken_apart};
use crate::leaf::leaf_columns;
use crate::refused::CaseRefused;
use crate::select::{alias_columns, select_columns};
use crate::two_forms::{choice_columns, except_columns, join_columns, union_columns};
use asked_conditions::Questions;
use feature_expr::{Expr, List};
use query_meaning::TypedColumn;
use query_names::TableNames;
use std::alloc::Global;
use values::Kind;
use vra_syntax::Query;

/// The columns of a query that is reached under the condition, each under the condition of the variants that have it.
///
/// It loops down the left side, and recurses to the right alone.
pub fn type_part(
    alloc: Global,
    questions: &mut Questions<'_>,
    kinds: &[Kind],
    tables: &TableNames<'_>,
    query: &Query,
    reach: Expr,
) -> Result<List<TypedColumn>, CaseRefused>
    ensures same { questions.new ≡ questions.old }
    ensures ok { IfOk result (PartIs questions.old reach (λ c. typed_part c kinds.now tables.now.tables.now query.now)) }
    ensures bounded { IfOk result (IsBounded tables.now.tables.now query.now) }
    ensures err { IfErr result (PartFails questions.old reach (λ c. typed_part c kinds.now tables.now.tables.now query.now)) }
{
    let Apart {
        mut steps,
        leaf,
        reach: _inside,
    } = taken_apart(alloc, query, reach)?;
    let mut columns = leaf_columns(alloc, tables, leaf)?;
    while let Some(step) = steps.pop() {
        columns = match step.form {
            Form::One(form) => one_columns(alloc, questions, kinds, &step.reach, form, columns)?,
            Form::Two(form, right) => {
                let inside = right_reach(alloc, form, &step.reach)?;
                let right = type_part(alloc, questions, kinds, tables, right, inside)?;
                two_columns(alloc, questions, kinds, &step.reach, form, columns, right)?
            }
        };
    }
    Ok(columns)
}

/// The columns of a form over its part's.
fn one_columns(
    alloc: Global,
    questions: &mut Questions<'_>,
    kinds: &[Kind],
    reach: &Expr,
    form: OneForm<'_>,
    source: List<TypedColumn>,
) -> Result<List<TypedColumn>, CaseRefused>
    ensures same { questions.new ≡ questions.old }
    ensures ok { IfOk result (PartIs questions.old reach.now (λ c. one_typed c kinds.now form.entry (plain_part source c))) }
    ensures made { IfOk result (λ it. it ≡ one_made form.entry source) }
    ensures err { IfErr result (PartFails questions.old reach.now (λ c. one_typed c kinds.now form.entry (plain_part source c))) }
{
    match form {
        OneForm::Select(items, cond) => {
            let columns = select_columns(alloc, questions, kinds, reach, source, items, cond)?;
            Ok(columns)
        }
        OneForm::Alias(alias) => {
            let columns = alias_columns(alloc, questions, kinds, reach, source, alias)?;
            Ok(columns)
        }
    }
}

/// The columns of a form over those of its sides.
fn two_columns(
    alloc: Global,
    questions: &mut Questions<'_>,
    kinds: &[Kind],
    reach: &Expr,
    form: TwoForm<'_>,
    left: List<TypedColumn>,
    right: List<TypedColumn>,
) -> Result<List<TypedColumn>, CaseRefused>
    ensures same { questions.new ≡ questions.old }
    ensures ok { IfOk result (TwoIs questions.old reach.now kinds.now form.entry left right) }
    ensures made { IfOk result (TwoMade form.entry left right) }
    ensures err { IfErr result (TwoFails questions.old reach.now kinds.now form.entry left right) }
{
    match form {
        TwoForm::Join(cond) => {
            let columns = join_columns(alloc, questions, kinds, reach, left, right, cond)?;
            Ok(columns)
        }
        TwoForm::Union => {
            let columns = union_columns(alloc, questions, kinds, reach, left, right)?;
            Ok(columns)
        }
        TwoForm::Except => {
            let columns = except_columns(alloc, questions, kinds, reach, left, right)?;
            Ok(columns)
        }
        TwoForm::Choice(expr) => {
            let columns = choice_columns(alloc, expr, left, right)?;
            Ok(columns)
        }
    }
}
