ghost use Rattle.std.specs.Prelude.{◌≡◌, OnOk, IfOk};
ghost use Rattle.vra_syntax.specs.Binding.{bound_query};
ghost use Rattle.vra_syntax.specs.Chains.{wrapped_query, rewrapped_query};

use crate::bind_cond::bound_cond;
use crate::cond::Cond;
use crate::items::Items;
use crate::query::{
    Query, query_alias, query_choice, query_except, query_join, query_select, query_union,
};
use feature_expr::{Expr, Memory, Name, TryCopy, Value};
use std::alloc::Global;

/// One step of a query that is taken apart from the left: what goes round the left side.
#[derive(Drop)]
enum QueryStep {
    Select(Items, Cond),
    Join(Query, Cond),
    Union(Query),
    Except(Query),
    Alias(Name),
    Choice(Expr, Query),
}

/// The query with each parameter that has a value replaced by it.
pub fn bound_query(alloc: Global, query: &Query, values: &[Value]) -> Result<Query, Memory>
    ensures { IfOk result (λ it. it ≡ bound_query values.now query.now) }
{
    let mut steps = Vec::new(alloc);
    let mut at = query;
    loop {
        match at {
            Query::Table(name) => {
                let name = name.copy(alloc)?;
                return rebuilt(alloc, Query::Table(name), steps);
            }
            Query::Select(items, source, cond) => {
                let items = items.copy(alloc)?;
                let cond = bound_cond(alloc, cond, values)?;
                put_step(
                    &mut steps,
                    QueryStep::Select(items, cond),
                    source.get(),
                    values,
                )?;
                at = source.get();
            }
            Query::Join(left, right, cond) => {
                let right = bound_query(alloc, right.get(), values)?;
                let cond = bound_cond(alloc, cond, values)?;
                put_step(&mut steps, QueryStep::Join(right, cond), left.get(), values)?;
                at = left.get();
            }
            Query::Union(left, right) => {
                let right = bound_query(alloc, right.get(), values)?;
                put_step(&mut steps, QueryStep::Union(right), left.get(), values)?;
                at = left.get();
            }
            Query::Except(left, right) => {
                let right = bound_query(alloc, right.get(), values)?;
                put_step(&mut steps, QueryStep::Except(right), left.get(), values)?;
                at = left.get();
            }
            Query::Alias(source, name) => {
                let name = name.copy(alloc)?;
                put_step(&mut steps, QueryStep::Alias(name), source.get(), values)?;
                at = source.get();
            }
            Query::Choice(expr, left, right) => {
                let expr = expr.copy(alloc)?;
                let right = bound_query(alloc, right.get(), values)?;
                put_step(
                    &mut steps,
                    QueryStep::Choice(expr, right),
                    left.get(),
                    values,
                )?;
                at = left.get();
            }
            Query::Empty => return rebuilt(alloc, Query::Empty, steps),
        }
    }
}

/// Adds the innermost step so far, the one round `inner`.
#[tactic(auto, using(crate::proofs::ChainLaws::rewrapped_query_push))]
fn put_step(
    steps: &mut Vec<QueryStep>,
    step: QueryStep,
    inner: &Query,
    values: &[Value],
) -> Result<(), Memory>
    ensures { OnOk result (rewrapped_query steps.new.items (bound_query values.now inner.now) ≡ rewrapped_query steps.old.items (wrapped_query step (bound_query values.now inner.now))) }
{
    steps.push(step)?;
    Ok(())
}

/// The query that the steps make of its innermost left side. The first step is the outermost.
#[tactic(auto, using(crate::proofs::ChainLaws::rewrapped_query_push))]
fn rebuilt(alloc: Global, base: Query, steps: Vec<QueryStep>) -> Result<Query, Memory>
    ensures { IfOk result (λ it. it ≡ rewrapped_query steps.items base) }
{
    let mut steps = steps;
    let mut whole = base;
    while let Some(step) = steps.pop() {
        whole = wrap(alloc, step, whole)?;
    }
    Ok(whole)
}

fn wrap(alloc: Global, step: QueryStep, inner: Query) -> Result<Query, Memory>
    ensures { IfOk result (λ it. it ≡ wrapped_query step inner) }
{
    match step {
        QueryStep::Select(items, cond) => query_select(alloc, items, inner, cond),
        QueryStep::Join(right, cond) => query_join(alloc, inner, right, cond),
        QueryStep::Union(right) => query_union(alloc, inner, right),
        QueryStep::Except(right) => query_except(alloc, inner, right),
        QueryStep::Alias(name) => query_alias(alloc, inner, name),
        QueryStep::Choice(expr, right) => query_choice(alloc, expr, inner, right),
    }
}
