ghost use Rattle.std.specs.Prelude.{◌≡◌, ℕ, Bool, List as Numbers, IfOk};
ghost use Rattle.std.specs.Option.{option_copied};
ghost use Rattle.feature_expr.specs.Satisfaction.{satisfies};
ghost use Rattle.query_typing.specs.Steps.{AreReached, chosen_reached, leaf_query, left_reached, rewrapped, right_reached, wrapped};

use crate::fault::and_too;
use crate::two_forms::negated;
use feature_expr::Expr;
use std::alloc::Global;
use values::{Memory, Name, TryCopy};
use vra_syntax::{Cond, Items, Query};

/// A form over one part.
#[derive(Clone, Copy)]
pub enum OneForm<'a> {
    Select(&'a Items, &'a Cond),
    Alias(&'a Name),
}

/// A form over two parts.
#[derive(Clone, Copy)]
pub enum TwoForm<'a> {
    Join(&'a Cond),
    Union,
    Except,
    Choice(&'a Expr),
}

/// A form round its left side.
#[derive(Clone, Copy)]
pub enum Form<'a> {
    One(OneForm<'a>),
    /// The form and its right side.
    Two(TwoForm<'a>, &'a Query),
}

/// One step of a query that is taken apart from the left: what goes round the left side, and the condition under which
/// it is reached.
#[derive(Drop)]
pub struct Step<'a> {
    pub form: Form<'a>,
    pub reach: Expr,
}

/// What a query is taken apart into: the steps round its innermost left side, the outermost first, and that side, a table
/// by its name or the empty query, with the condition under which it is reached.
#[derive(Drop)]
pub struct Apart<'a> {
    pub steps: Vec<Step<'a>>,
    pub leaf: Option<&'a Name>,
    pub reach: Expr,
}

pub fn taken_apart<'a>(alloc: Global, query: &'a Query, reach: Expr) -> Result<Apart<'a>, Memory>
    ensures whole { IfOk result (λ it. rewrapped it.steps.items (leaf_query (option_copied it.leaf)) ≡ query.now) }
    ensures reached { IfOk result (λ it. AreReached (λ c. satisfies c reach) it.steps.items (λ c. satisfies c it.reach)) }
{
    let mut steps = Vec::new(alloc);
    let mut at = query;
    let mut reach = reach;
    loop {
        match at {
            Query::Table(name) => {
                return Ok(Apart {
                    steps,
                    leaf: Some(name),
                    reach,
                });
            }
            Query::Select(items, source, cond) => {
                let form = Form::One(OneForm::Select(items, cond));
                reach = put_step(alloc, &mut steps, form, reach, source.get())?;
                at = source.get();
            }
            Query::Join(left, right, cond) => {
                let form = Form::Two(TwoForm::Join(cond), right.get());
                reach = put_step(alloc, &mut steps, form, reach, left.get())?;
                at = left.get();
            }
            Query::Union(left, right) => {
                let form = Form::Two(TwoForm::Union, right.get());
                reach = put_step(alloc, &mut steps, form, reach, left.get())?;
                at = left.get();
            }
            Query::Except(left, right) => {
                let form = Form::Two(TwoForm::Except, right.get());
                reach = put_step(alloc, &mut steps, form, reach, left.get())?;
                at = left.get();
            }
            Query::Alias(source, name) => {
                let form = Form::One(OneForm::Alias(name));
                reach = put_step(alloc, &mut steps, form, reach, source.get())?;
                at = source.get();
            }
            Query::Choice(expr, left, right) => {
                let form = Form::Two(TwoForm::Choice(expr), right.get());
                reach = put_step(alloc, &mut steps, form, reach, left.get())?;
                at = left.get();
            }
            Query::Empty => {
                return Ok(Apart {
                    steps,
                    leaf: None,
                    reach,
                });
            }
        }
    }
}

/// Adds the innermost step so far, the one round `inner`, and answers the condition under which its left side is
/// reached.
#[tactic(auto, using(crate::proofs::StepLaws::rewrapped_push, crate::proofs::StepLaws::reached_push))]
fn put_step<'a>(
    alloc: Global,
    steps: &mut Vec<Step<'a>>,
    form: Form<'a>,
    reach: Expr,
    inner: &Query,
) -> Result<Expr, Memory>
    ensures whole { IfOk result (λ it. rewrapped steps.new.items inner.now ≡ rewrapped steps.old.items (wrapped form.entry inner.now)) }
    ensures reached { IfOk result (λ it. (root : Numbers ℕ → Bool) → AreReached root steps.old.items (λ c. satisfies c reach) → AreReached root steps.new.items (λ c. satisfies c it)) }
{
    let inside = left_reach(alloc, form, &reach)?;
    steps.push(Step { form, reach })?;
    Ok(inside)
}

/// The condition under which the left side of a form is reached.
fn left_reach(alloc: Global, form: Form<'_>, reach: &Expr) -> Result<Expr, Memory>
    ensures { IfOk result (λ it. (c : Numbers ℕ) → satisfies c it ≡ left_reached c form.entry (satisfies c reach.now)) }
{
    match form {
        Form::One(_form) => {
            let same = reach.copy(alloc)?;
            Ok(same)
        }
        Form::Two(form, _right) => {
            let inside = chosen_reach(alloc, form, reach)?;
            Ok(inside)
        }
    }
}

/// The condition under which the left side of a form over two parts is reached.
fn chosen_reach(alloc: Global, form: TwoForm<'_>, reach: &Expr) -> Result<Expr, Memory>
    ensures { IfOk result (λ it. (c : Numbers ℕ) → satisfies c it ≡ chosen_reached c form.entry (satisfies c reach.now)) }
{
    match form {
        TwoForm::Choice(expr) => {
            let both = and_too(alloc, reach, expr)?;
            Ok(both)
        }
        _ => reach.copy(alloc),
    }
}

/// The condition under which the right side of a form is reached.
pub fn right_reach(alloc: Global, form: TwoForm<'_>, reach: &Expr) -> Result<Expr, Memory>
    ensures { IfOk result (λ it. (c : Numbers ℕ) → satisfies c it ≡ right_reached c form.entry (satisfies c reach.now)) }
{
    match form {
        TwoForm::Choice(expr) => {
            let other = negated(alloc, expr)?;
            let both = and_too(alloc, reach, &other)?;
            Ok(both)
        }
        _ => reach.copy(alloc),
    }
}
