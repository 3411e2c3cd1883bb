ghost use Rattle.std.specs.Prelude.{◌≡◌, ◌<◌, ◌^◌, true, length, IfErr, IfOk};
ghost use Rattle.query_meaning.specs.Plans.{scans};
ghost use Rattle.query_meaning.specs.Typing.{AreTables, IsTyped, Refuses};
ghost use Rattle.query_names.specs.ScannedTables.{all_below};
ghost use Rattle.query_typing.specs.Answer.{HasPlan};

use crate::check::query_columns;
use asked_conditions::Questions;
use feature_expr::List;
use query_meaning::{Plan, TypeRefused, TypedColumn, query_laws};
use query_names::{TableNames, Typed, plan_of, plan_tables};
use std::alloc::Global;
use values::{Kind, Memory};
use vra_syntax::Query;

/// What typing gives of a query that is well typed in every admitted variant and no part of which has too many columns.
pub fn type_query(
    alloc: Global,
    questions: &mut Questions<'_>,
    tables: &TableNames<'_>,
    query: &Query,
    kinds: &[Kind],
) -> Result<Typed, TypeRefused>
    requires countable { length tables.now.tables.now < 2 ^ 32 }
    ensures same { questions.new ≡ questions.old }
    ensures ok { IfOk result (λ it. IsTyped questions.old kinds.now tables.now.tables.now query.now it.columns it.plan) }
    ensures tables { IfOk result (λ it. AreTables tables.now.tables.now it.plan it.tables) }
    ensures refused { IfErr result (Refuses questions.old kinds.now tables.now.tables.now query.now) }
{
    match query_columns(alloc, questions, kinds, tables, query) {
        Ok(columns) => match with_plan(alloc, tables, query, columns) {
            Ok(typed) => Ok(typed),
            Err(_memory) => Err(TypeRefused::Memory),
        },
        Err(why) => Err(why),
    }
}

/// The columns of a query's answers with its plan and the tables that this scans.
fn with_plan(
    alloc: Global,
    tables: &TableNames<'_>,
    query: &Query,
    columns: List<TypedColumn>,
) -> Result<Typed, Memory>
    requires countable { length tables.now.tables.now < 2 ^ 32 }
    ensures columns { IfOk result (λ it. it.columns ≡ columns) }
    ensures plan { IfOk result (λ it. HasPlan tables.now.tables.now query.now it.plan) }
    ensures tables { IfOk result (λ it. AreTables tables.now.tables.now it.plan it.tables) }
{
    let plan = planned(alloc, tables, query)?;
    let scanned = plan_tables(alloc, tables.tables(), &plan)?;
    Ok(Typed::new(columns, plan, scanned))
}

fn planned(alloc: Global, tables: &TableNames<'_>, query: &Query) -> Result<Plan, Memory>
    ensures known { IfOk result (λ it. all_below (length tables.now.tables.now) (scans it) ≡ true) }
    ensures plan { IfOk result (HasPlan tables.now.tables.now query.now) }
{
    query_laws();
    let plan = plan_of(alloc, tables, query)?;
    Ok(plan)
}
