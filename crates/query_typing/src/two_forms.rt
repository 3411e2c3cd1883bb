ghost use Rattle.std.specs.Prelude.{◌≡◌, ◌&&◌, ◌++◌, ◌||◌, ℕ, not as negation, true, List as Numbers, IfErr, IfOk, OnOk, if◌then◌else◌};
ghost use Rattle.conditional_columns.specs.ColumnLists.{is_some_there, settled};
ghost use Rattle.conditional_columns.specs.FormLists.{chosen_list, united_list};
ghost use Rattle.feature_expr.specs.Expressions.{not_of};
ghost use Rattle.feature_expr.specs.Satisfaction.{satisfies};
ghost use Rattle.query_meaning.specs.PlainTypes.{columns_differ};
ghost use Rattle.query_meaning.specs.PossibleColumns.{all_among};
ghost use Rattle.query_meaning.specs.Typing.{columns_at, headings};
ghost use Rattle.query_typing.specs.Bounded.{AreJoined, JoinMade};
ghost use Rattle.query_typing.specs.Faults.{NoCase, RefusesCase, faults_at};
ghost use Rattle.query_typing.specs.Forms.{except_part, join_part, union_part};
ghost use Rattle.query_typing.specs.Parts.{PartFails, PartIs};
ghost use Rattle.relational_algebra.specs.Columns.{both_sides, in_order_of, merged};

use crate::ask_where::ask_over;
use crate::fault::{Fault, ShownName, add_fault, ask};
use crate::refused::CaseRefused;
use asked_conditions::Questions;
use conditional_columns::{add_where, all_in, any_in, are_same, settle};
use feature_expr::{Expr, List, and, not};
use query_meaning::{IllCase, TypedColumn};
use std::alloc::Global;
use values::{Kind, Memory, TryCopy};
use vra_syntax::Cond;

/// The columns of a join over those of its sides.
pub fn join_columns(
    alloc: Global,
    questions: &mut Questions<'_>,
    kinds: &[Kind],
    reach: &Expr,
    left: List<TypedColumn>,
    right: List<TypedColumn>,
    cond: &Cond,
) -> Result<List<TypedColumn>, CaseRefused>
    ensures same { questions.new ≡ questions.old }
    ensures ok { IfOk result (PartIs questions.old reach.now (join_part kinds.now cond.now left right)) }
    ensures made { IfOk result (JoinMade left right) }
    ensures err { IfErr result (PartFails questions.old reach.now (join_part kinds.now cond.now left right)) }
{
    let all = both_columns(alloc, left.as_slice(), right.as_slice())?;
    ask_over(alloc, questions, kinds, reach, all.as_slice(), cond)?;
    let columns = settle(alloc, all)?;
    Ok(columns)
}

/// The columns of two sides, there where both sides are.
fn both_columns(
    alloc: Global,
    left: &[TypedColumn],
    right: &[TypedColumn],
) -> Result<List<TypedColumn>, Memory>
    ensures joined { IfOk result (AreJoined left.now right.now) }
    ensures there { IfOk result (λ it. (c : Numbers ℕ) → columns_at c it ≡ both_sides (columns_at c left.now) (columns_at c right.now)) }
    ensures headings { IfOk result (λ it. headings it ≡ headings left.now ++ headings right.now) }
{
    let left_there = any_in(alloc, left)?;
    let right_there = any_in(alloc, right)?;
    let mut all = Vec::new(alloc);
    add_where(alloc, &right_there, left, &mut all)?;
    add_where(alloc, &left_there, right, &mut all)?;
    Ok(List::from_vec(all))
}

/// The columns of a union over those of its sides.
pub fn union_columns(
    alloc: Global,
    questions: &mut Questions<'_>,
    kinds: &[Kind],
    reach: &Expr,
    left: List<TypedColumn>,
    right: List<TypedColumn>,
) -> Result<List<TypedColumn>, CaseRefused>
    ensures same { questions.new ≡ questions.old }
    ensures ok { IfOk result (PartIs questions.old reach.now (union_part kinds.now left right)) }
    ensures made { IfOk result (λ it. it ≡ settled (united_list left right)) }
    ensures err { IfErr result (PartFails questions.old reach.now (union_part kinds.now left right)) }
{
    ask_sides(alloc, questions, reach, &left, &right)?;
    let all = one_behind_other(left, right)?;
    let columns = settle(alloc, all)?;
    Ok(columns)
}

fn one_behind_other(
    left: List<TypedColumn>,
    right: List<TypedColumn>,
) -> Result<List<TypedColumn>, Memory>
    ensures { IfOk result (λ it. it ≡ left ++ right) }
{
    let mut all = left.into_vec();
    for column in right.into_vec() {
        all.push(column)?;
    }
    Ok(List::from_vec(all))
}

/// The columns of an except over those of its sides.
pub fn except_columns(
    alloc: Global,
    questions: &mut Questions<'_>,
    kinds: &[Kind],
    reach: &Expr,
    left: List<TypedColumn>,
    right: List<TypedColumn>,
) -> Result<List<TypedColumn>, CaseRefused>
    ensures same { questions.new ≡ questions.old }
    ensures ok { IfOk result (PartIs questions.old reach.now (except_part kinds.now left right)) }
    ensures made { IfOk result (λ it. it ≡ left) }
    ensures err { IfErr result (PartFails questions.old reach.now (except_part kinds.now left right)) }
{
    ask_sides(alloc, questions, reach, &left, &right)?;
    Ok(left)
}

fn ask_sides(
    alloc: Global,
    questions: &mut Questions<'_>,
    reach: &Expr,
    left: &List<TypedColumn>,
    right: &List<TypedColumn>,
) -> Result<(), CaseRefused>
    ensures same { questions.new ≡ questions.old }
    ensures ok { OnOk result (NoCase questions.old reach.now (λ c. columns_differ (columns_at c left.now) (columns_at c right.now))) }
    ensures err { IfErr result (RefusesCase questions.old reach.now (λ c. columns_differ (columns_at c left.now) (columns_at c right.now))) }
{
    let left = left.as_slice();
    let right = right.as_slice();
    ask_differ(alloc, questions, reach, left, right)?;
    Ok(())
}

/// Asks whether two sides that are there have different columns. Where they are the same lists node by node, nothing is
/// asked.
fn ask_differ(
    alloc: Global,
    questions: &mut Questions<'_>,
    reach: &Expr,
    left: &[TypedColumn],
    right: &[TypedColumn],
) -> Result<(), CaseRefused>
    ensures same { questions.new ≡ questions.old }
    ensures ok { OnOk result (NoCase questions.old reach.now (λ c. columns_differ (columns_at c left.now) (columns_at c right.now))) }
    ensures err { IfErr result (RefusesCase questions.old reach.now (λ c. columns_differ (columns_at c left.now) (columns_at c right.now))) }
{
    if are_same(left, right) {
        return Ok(());
    }
    let mut faults = Vec::new(alloc);
    add_differ(alloc, left, right, &mut faults)?;
    ask(alloc, questions, reach, faults.as_slice())?;
    Ok(())
}

/// Puts the case that two sides that are there have different columns behind others.
fn add_differ<'a>(
    alloc: Global,
    left: &'a [TypedColumn],
    right: &[TypedColumn],
    faults: &mut Vec<Fault<'a>>,
) -> Result<(), Memory>
    ensures { OnOk result ((c : Numbers ℕ) → faults_at c faults.new.items ≡ faults_at c faults.old.items ++ columns_differ (columns_at c left.now) (columns_at c right.now)) }
{
    let there = both_there(alloc, left, right)?;
    let same = all_same(alloc, left, right)?;
    let differ = not(alloc, same)?;
    let cond = and(alloc, there, differ)?;
    add_fault(faults, cond, IllCase::ColumnsDiffer, ShownName::First(left))?;
    Ok(())
}

fn both_there(alloc: Global, left: &[TypedColumn], right: &[TypedColumn]) -> Result<Expr, Memory>
    ensures { IfOk result (λ it. (c : Numbers ℕ) → satisfies c it ≡ (is_some_there (columns_at c left.now) && is_some_there (columns_at c right.now))) }
{
    let left = any_in(alloc, left)?;
    let right = any_in(alloc, right)?;
    let both = and(alloc, left, right)?;
    Ok(both)
}

fn all_same(alloc: Global, left: &[TypedColumn], right: &[TypedColumn]) -> Result<Expr, Memory>
    ensures { IfOk result (λ it. (c : Numbers ℕ) → satisfies c it ≡ (all_among (columns_at c left.now) (columns_at c right.now) && all_among (columns_at c right.now) (columns_at c left.now))) }
{
    let left_in = all_in(alloc, left, right)?;
    let right_in = all_in(alloc, right, left)?;
    let both = and(alloc, left_in, right_in)?;
    Ok(both)
}

/// The columns of a choice over those of its sides.
pub fn choice_columns(
    alloc: Global,
    expr: &Expr,
    left: List<TypedColumn>,
    right: List<TypedColumn>,
) -> Result<List<TypedColumn>, Memory>
    ensures made { IfOk result (λ it. it ≡ settled (chosen_list expr.now left right)) }
    ensures headings { IfOk result (λ it. headings it ≡ merged (headings left) (headings right)) }
    ensures there { IfOk result (λ it. (c : Numbers ℕ) → columns_at c it ≡ in_order_of (merged (headings left) (headings right)) (if satisfies c expr.now then columns_at c left else columns_at c right)) }
{
    let all = chosen_columns(alloc, expr, left.as_slice(), right.as_slice())?;
    let columns = settle(alloc, all)?;
    Ok(columns)
}

fn chosen_columns(
    alloc: Global,
    expr: &Expr,
    left: &[TypedColumn],
    right: &[TypedColumn],
) -> Result<List<TypedColumn>, Memory>
    ensures exact { IfOk result (λ it. it ≡ chosen_list expr.now left.now right.now) }
    ensures headings { IfOk result (λ it. headings it ≡ headings left.now ++ headings right.now) }
    ensures there { IfOk result (λ it. (c : Numbers ℕ) → columns_at c it ≡ (if satisfies c expr.now then columns_at c left.now else columns_at c right.now)) }
{
    let mut all = Vec::new(alloc);
    add_where(alloc, expr, left, &mut all)?;
    let other = negated(alloc, expr)?;
    add_where(alloc, &other, right, &mut all)?;
    Ok(List::from_vec(all))
}

/// Holds where the expression doesn't.
pub fn negated(alloc: Global, expr: &Expr) -> Result<Expr, Memory>
    ensures exact { IfOk result (λ it. it ≡ not_of expr.now) }
    ensures holds { IfOk result (λ it. (c : Numbers ℕ) → satisfies c it ≡ negation (satisfies c expr.now)) }
{
    let expr = expr.copy(alloc)?;
    let other = not(alloc, expr)?;
    Ok(other)
}
