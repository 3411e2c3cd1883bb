ghost use Rattle.std.specs.Prelude.{◌≡◌, ◌≤◌, ℕ, [], None, List as Numbers, IfErr, IfOk};
ghost use Rattle.std.specs.List.{AllByRecursion};
ghost use Rattle.condition_sat.specs.Admitted.{IsAdmitted};
ghost use Rattle.feature_expr.specs.declared.expr.Expr as e;
ghost use Rattle.query_meaning.specs.Bounds.{empty_sizes, query_size};
ghost use Rattle.query_meaning.specs.Names.{name_cases, too_wide};
ghost use Rattle.query_meaning.specs.PlainTypes.{Columns, plain_type, typed_part};
ghost use Rattle.query_meaning.specs.PossibleColumns.{possible_columns};
ghost use Rattle.query_meaning.specs.Typing.{IsSettled, Refuses, columns_at, columns_weight, headings};
ghost use Rattle.query_meaning.specs.declared.typed.TypedColumn.{TypedColumn as TheColumn};
ghost use Rattle.query_typing.specs.Bounded.{HasFeatures};
ghost use Rattle.query_typing.specs.Parts.{PartFails};
ghost use Rattle.relational_algebra.specs.Columns.{in_order_of};

use crate::answer::settled_columns;
use crate::refused::CaseRefused;
use crate::walk::type_part;
use asked_conditions::Questions;
use feature_expr::{Expr, List};
use query_meaning::{TypeRefused, TypedColumn};
use query_names::{TableNames, check_names};
use std::alloc::Global;
use values::Kind;
use vra_syntax::Query;

/// The columns of a query's answers, each under the condition of the variants that have it, where it is well typed in
/// every admitted variant and no part of it has too many columns.
#[tactic(auto, using(crate::proofs::AnswerLaws::names_refused, crate::proofs::AnswerLaws::case_refused))]
pub fn query_columns(
    alloc: Global,
    questions: &mut Questions<'_>,
    kinds: &[Kind],
    tables: &TableNames<'_>,
    query: &Query,
) -> Result<List<TypedColumn>, TypeRefused>
    ensures same { questions.new ≡ questions.old }
    ensures narrow { IfOk result (λ it. too_wide tables.now.tables.now query.now ≡ None) }
    ensures named { IfOk result (λ it. name_cases kinds.now tables.now.tables.now query.now ≡ []) }
    ensures exact { IfOk result (λ it. (c : Numbers ℕ) → IsAdmitted questions.old c → plain_type c kinds.now tables.now.tables.now query.now ≡ Columns (columns_at c it)) }
    ensures settled { IfOk result (λ it. AllByRecursion (λ (column : TheColumn). IsSettled questions.old column.cond) it) }
    ensures ordered { IfOk result (λ it. headings it ≡ in_order_of (possible_columns tables.now.tables.now query.now) (headings it)) }
    ensures weight { IfOk result (λ it. columns_weight it ≤ (query_size tables.now.tables.now (empty_sizes tables.now.tables.now) query.now).column_weight) }
    ensures features { IfOk result (HasFeatures tables.now.tables.now query.now) }
    ensures refused { IfErr result (Refuses questions.old kinds.now tables.now.tables.now query.now) }
{
    match check_names(alloc, tables, query, kinds) {
        Ok(()) => {}
        Err(why) => return Err(why),
    }
    match part_columns(alloc, questions, kinds, tables, query) {
        Ok(columns) => Ok(columns),
        Err(CaseRefused::Ill(why)) => Err(TypeRefused::Ill(why)),
        Err(CaseRefused::Memory) => Err(TypeRefused::Memory),
    }
}

fn part_columns(
    alloc: Global,
    questions: &mut Questions<'_>,
    kinds: &[Kind],
    tables: &TableNames<'_>,
    query: &Query,
) -> Result<List<TypedColumn>, CaseRefused>
    ensures same { questions.new ≡ questions.old }
    ensures exact { IfOk result (λ it. (c : Numbers ℕ) → IsAdmitted questions.old c → plain_type c kinds.now tables.now.tables.now query.now ≡ Columns (columns_at c it)) }
    ensures settled { IfOk result (λ it. AllByRecursion (λ (column : TheColumn). IsSettled questions.old column.cond) it) }
    ensures ordered { IfOk result (λ it. headings it ≡ in_order_of (possible_columns tables.now.tables.now query.now) (headings it)) }
    ensures weight { IfOk result (λ it. columns_weight it ≤ (query_size tables.now.tables.now (empty_sizes tables.now.tables.now) query.now).column_weight) }
    ensures features { IfOk result (HasFeatures tables.now.tables.now query.now) }
    ensures refused { IfErr result (PartFails questions.old e.True (λ c. typed_part c kinds.now tables.now.tables.now query.now)) }
{
    let columns = type_part(alloc, questions, kinds, tables, query, Expr::True)?;
    let columns = settled_columns(alloc, questions, columns)?;
    Ok(columns)
}
