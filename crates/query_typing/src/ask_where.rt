ghost use Rattle.std.specs.Prelude.{◌≡◌, ◌++◌, IfErr, OnOk};
ghost use Rattle.query_meaning.specs.PlainTypes.{absent_in_items, asked, twice, where_any};
ghost use Rattle.query_meaning.specs.Typing.{columns_at};
ghost use Rattle.query_typing.specs.Faults.{NoCase, RefusesCase, faults_at};
ghost use Rattle.vra_syntax.specs.declared.items.Items.TheVariants as listed;

use crate::absent::add_absent_items;
use crate::cond_cases::add_cond;
use crate::fault::{Fault, and_too, ask};
use crate::refused::CaseRefused;
use crate::twice::add_twice;
use asked_conditions::Questions;
use conditional_columns::any_in;
use feature_expr::Expr;
use query_meaning::TypedColumn;
use std::alloc::Global;
use values::Kind;
use vra_syntax::{Cond, Item};

/// Asks about each case whether it holds where one of the columns is there.
fn ask_where(
    alloc: Global,
    questions: &mut Questions<'_>,
    reach: &Expr,
    columns: &[TypedColumn],
    faults: &[Fault<'_>],
) -> Result<(), CaseRefused>
    ensures same { questions.new ≡ questions.old }
    ensures ok { OnOk result (NoCase questions.old reach.now (λ c. where_any (columns_at c columns.now) (faults_at c faults.now))) }
    ensures err { IfErr result (RefusesCase questions.old reach.now (λ c. where_any (columns_at c columns.now) (faults_at c faults.now))) }
{
    if faults.is_empty() {
        return Ok(());
    }
    let present = any_in(alloc, columns)?;
    let both = and_too(alloc, reach, &present)?;
    ask(alloc, questions, &both, faults)?;
    Ok(())
}

/// Asks about what is kept of columns, and about a condition over them.
pub fn ask_listed(
    alloc: Global,
    questions: &mut Questions<'_>,
    kinds: &[Kind],
    reach: &Expr,
    columns: &[TypedColumn],
    items: &[Item],
    kept: &[TypedColumn],
    cond: &Cond,
) -> Result<(), CaseRefused>
    ensures same { questions.new ≡ questions.old }
    ensures ok { OnOk result (NoCase questions.old reach.now (λ c. where_any (columns_at c columns.now) (absent_in_items c (listed.Listed items.now) (columns_at c columns.now) ++ twice (columns_at c kept.now) ++ asked c kinds.now cond.now (columns_at c columns.now)))) }
    ensures err { IfErr result (RefusesCase questions.old reach.now (λ c. where_any (columns_at c columns.now) (absent_in_items c (listed.Listed items.now) (columns_at c columns.now) ++ twice (columns_at c kept.now) ++ asked c kinds.now cond.now (columns_at c columns.now)))) }
{
    let mut faults = Vec::new(alloc);
    add_absent_items(alloc, columns, items, &mut faults)?;
    add_twice(alloc, kept, &mut faults)?;
    add_cond(alloc, kinds, columns, cond, &mut faults)?;
    ask_where(alloc, questions, reach, columns, faults.as_slice())?;
    Ok(())
}

/// Asks about columns, and about a condition over them.
pub fn ask_over(
    alloc: Global,
    questions: &mut Questions<'_>,
    kinds: &[Kind],
    reach: &Expr,
    columns: &[TypedColumn],
    cond: &Cond,
) -> Result<(), CaseRefused>
    ensures same { questions.new ≡ questions.old }
    ensures ok { OnOk result (NoCase questions.old reach.now (λ c. where_any (columns_at c columns.now) (twice (columns_at c columns.now) ++ asked c kinds.now cond.now (columns_at c columns.now)))) }
    ensures err { IfErr result (RefusesCase questions.old reach.now (λ c. where_any (columns_at c columns.now) (twice (columns_at c columns.now) ++ asked c kinds.now cond.now (columns_at c columns.now)))) }
{
    let mut faults = Vec::new(alloc);
    add_twice(alloc, columns, &mut faults)?;
    add_cond(alloc, kinds, columns, cond, &mut faults)?;
    ask_where(alloc, questions, reach, columns, faults.as_slice())?;
    Ok(())
}

/// Asks whether two columns of one name are there.
pub fn ask_twice(
    alloc: Global,
    questions: &mut Questions<'_>,
    reach: &Expr,
    columns: &[TypedColumn],
) -> Result<(), CaseRefused>
    ensures same { questions.new ≡ questions.old }
    ensures ok { OnOk result (NoCase questions.old reach.now (λ c. twice (columns_at c columns.now))) }
    ensures err { IfErr result (RefusesCase questions.old reach.now (λ c. twice (columns_at c columns.now))) }
{
    let mut faults = Vec::new(alloc);
    add_twice(alloc, columns, &mut faults)?;
    ask(alloc, questions, reach, faults.as_slice())?;
    Ok(())
}
