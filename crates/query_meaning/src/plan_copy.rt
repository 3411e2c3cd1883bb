ghost use Rattle.std.specs.Prelude.{◌≡◌, OnOk, IfOk};
ghost use Rattle.query_meaning.specs.Chains.{wrapped_plan, rewrapped_plan};

use crate::plan::{
    Plan, plan_choose, plan_except, plan_filter, plan_join, plan_keep, plan_rename, plan_union,
};
use feature_expr::Expr;
use std::alloc::Global;
use values::{Memory, Name, TryCopy};
use vra_syntax::{Cond, Items};

/// One step of a plan that is taken apart from the left: what goes round the left side.
#[derive(Drop)]
enum PlanStep {
    Filter(Cond),
    Keep(Items),
    Join(Plan, Cond),
    Union(Plan),
    Except(Plan),
    Rename(Name),
    Choose(Expr, Plan),
}

impl TryCopy for Plan {
    fn copy(&self, alloc: Global) -> Result<Self, Memory> {
        copied_plan(alloc, self)
    }
}

fn copied_plan(alloc: Global, plan: &Plan) -> Result<Plan, Memory>
    ensures { IfOk result (λ it. it ≡ plan.now) }
{
    let mut steps = Vec::new(alloc);
    let mut at = plan;
    loop {
        match at {
            Plan::Scan(table) => return rebuilt(alloc, Plan::Scan(*table), steps),
            Plan::Filter(source, cond) => {
                let cond = cond.copy(alloc)?;
                put_step(&mut steps, PlanStep::Filter(cond), source.get())?;
                at = source.get();
            }
            Plan::Keep(source, items) => {
                let items = items.copy(alloc)?;
                put_step(&mut steps, PlanStep::Keep(items), source.get())?;
                at = source.get();
            }
            Plan::Join(left, right, cond) => {
                let right = copied_plan(alloc, right.get())?;
                let cond = cond.copy(alloc)?;
                put_step(&mut steps, PlanStep::Join(right, cond), left.get())?;
                at = left.get();
            }
            Plan::Union(left, right) => {
                let right = copied_plan(alloc, right.get())?;
                put_step(&mut steps, PlanStep::Union(right), left.get())?;
                at = left.get();
            }
            Plan::Except(left, right) => {
                let right = copied_plan(alloc, right.get())?;
                put_step(&mut steps, PlanStep::Except(right), left.get())?;
                at = left.get();
            }
            Plan::Rename(source, name) => {
                let name = name.copy(alloc)?;
                put_step(&mut steps, PlanStep::Rename(name), source.get())?;
                at = source.get();
            }
            Plan::Choose(expr, left, right) => {
                let expr = expr.copy(alloc)?;
                let right = copied_plan(alloc, right.get())?;
                put_step(&mut steps, PlanStep::Choose(expr, right), left.get())?;
                at = left.get();
            }
            Plan::Nothing => return rebuilt(alloc, Plan::Nothing, steps),
        }
    }
}

/// Adds the innermost step so far, the one round `inner`.
#[tactic(auto, using(crate::proofs::ChainLaws::rewrapped_plan_push))]
fn put_step(steps: &mut Vec<PlanStep>, step: PlanStep, inner: &Plan) -> Result<(), Memory>
    ensures { OnOk result (rewrapped_plan steps.new.items inner.now ≡ rewrapped_plan steps.old.items (wrapped_plan step inner.now)) }
{
    steps.push(step)?;
    Ok(())
}

/// The plan that the steps make of its innermost left side. The first step is the outermost.
#[tactic(auto, using(crate::proofs::ChainLaws::rewrapped_plan_push))]
fn rebuilt(alloc: Global, base: Plan, steps: Vec<PlanStep>) -> Result<Plan, Memory>
    ensures { IfOk result (λ it. it ≡ rewrapped_plan steps.items base) }
{
    let mut steps = steps;
    let mut whole = base;
    while let Some(step) = steps.pop() {
        whole = wrap(alloc, step, whole)?;
    }
    Ok(whole)
}

fn wrap(alloc: Global, step: PlanStep, inner: Plan) -> Result<Plan, Memory>
    ensures { IfOk result (λ it. it ≡ wrapped_plan step inner) }
{
    match step {
        PlanStep::Filter(cond) => plan_filter(alloc, inner, cond),
        PlanStep::Keep(items) => plan_keep(alloc, inner, items),
        PlanStep::Join(right, cond) => plan_join(alloc, inner, right, cond),
        PlanStep::Union(right) => plan_union(alloc, inner, right),
        PlanStep::Except(right) => plan_except(alloc, inner, right),
        PlanStep::Rename(name) => plan_rename(alloc, inner, name),
        PlanStep::Choose(expr, right) => plan_choose(alloc, expr, inner, right),
    }
}
