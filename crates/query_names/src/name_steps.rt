ghost use Rattle.std.specs.Prelude.{◌≡◌, OnOk, IfOk};
ghost use Rattle.std.specs.Option.{option_copied};
ghost use Rattle.query_names.specs.NameSteps.{leaf_query, wrapped, rewrapped};

use feature_expr::Expr;
use std::alloc::Global;
use values::{Memory, Name};
use vra_syntax::{Cond, Items, Query};

/// A form over one part.
#[derive(Clone, Copy)]
pub enum OneForm<'a> {
    Select(&'a Items, &'a Cond),
    Alias(&'a Name),
}

/// A form over two parts.
#[derive(Clone, Copy)]
pub enum TwoForm<'a> {
    Join(&'a Cond),
    Union,
    Except,
    Choice(&'a Expr),
}

/// One step of a query that is taken apart from the left: what goes round the left side.
#[derive(Clone, Copy)]
pub enum NameStep<'a> {
    One(OneForm<'a>),
    /// The form and its right side.
    Two(TwoForm<'a>, &'a Query),
}

/// The steps round a query's innermost left side, the outermost first, and that side: a table by its name, or the empty
/// query.
pub fn taken_apart<'a>(
    alloc: Global,
    query: &'a Query,
) -> Result<(Vec<NameStep<'a>>, Option<&'a Name>), Memory>
    ensures { IfOk result (λ it. rewrapped it.0.items (leaf_query (option_copied it.1)) ≡ query.now) }
{
    let mut steps = Vec::new(alloc);
    let mut at = query;
    loop {
        match at {
            Query::Table(name) => return Ok((steps, Some(name))),
            Query::Select(items, source, cond) => {
                let step = NameStep::One(OneForm::Select(items, cond));
                put_step(&mut steps, step, source.get())?;
                at = source.get();
            }
            Query::Join(left, right, cond) => {
                let step = NameStep::Two(TwoForm::Join(cond), right.get());
                put_step(&mut steps, step, left.get())?;
                at = left.get();
            }
            Query::Union(left, right) => {
                let step = NameStep::Two(TwoForm::Union, right.get());
                put_step(&mut steps, step, left.get())?;
                at = left.get();
            }
            Query::Except(left, right) => {
                let step = NameStep::Two(TwoForm::Except, right.get());
                put_step(&mut steps, step, left.get())?;
                at = left.get();
            }
            Query::Alias(source, name) => {
                let step = NameStep::One(OneForm::Alias(name));
                put_step(&mut steps, step, source.get())?;
                at = source.get();
            }
            Query::Choice(expr, left, right) => {
                let step = NameStep::Two(TwoForm::Choice(expr), right.get());
                put_step(&mut steps, step, left.get())?;
                at = left.get();
            }
            Query::Empty => return Ok((steps, None)),
        }
    }
}

/// Adds the innermost step so far, the one round `inner`.
#[tactic(auto, using(crate::proofs::NameStepLaws::rewrapped_push))]
fn put_step<'a>(
    steps: &mut Vec<NameStep<'a>>,
    step: NameStep<'a>,
    inner: &Query,
) -> Result<(), Memory>
    ensures { OnOk result (rewrapped steps.new.items inner.now ≡ rewrapped steps.old.items (wrapped step.entry inner.now)) }
{
    steps.push(step)?;
    Ok(())
}
