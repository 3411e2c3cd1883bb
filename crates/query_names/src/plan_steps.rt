ghost use Rattle.std.specs.Prelude.{◌≡◌, IfOk};
ghost use Rattle.query_names.specs.PlanSteps.{wrapped, rewrapped};

use feature_expr::Expr;
use query_meaning::{
    Plan, plan_choose, plan_except, plan_filter, plan_join, plan_keep, plan_rename, plan_union,
};
use std::alloc::Global;
use values::{Memory, Name};
use vra_syntax::{Cond, Items};

/// One step of a plan that is made from the left: what goes round the left side.
#[derive(Drop)]
pub enum PlanStep {
    Filter(Cond),
    Keep(Items),
    Join(Plan, Cond),
    Union(Plan),
    Except(Plan),
    Rename(Name),
    Choose(Expr, Plan),
}

/// The plan that the steps make of its innermost left side. The first step is the outermost.
#[tactic(auto, using(crate::proofs::StepLaws::rewrapped_push))]
pub fn rebuilt(alloc: Global, base: Plan, steps: Vec<PlanStep>) -> Result<Plan, Memory>
    ensures { IfOk result (λ it. it ≡ rewrapped steps.items base) }
{
    let mut steps = steps;
    let mut whole = base;
    while let Some(step) = steps.pop() {
        whole = wrap(alloc, step, whole)?;
    }
    Ok(whole)
}

fn wrap(alloc: Global, step: PlanStep, inner: Plan) -> Result<Plan, Memory>
    ensures { IfOk result (λ it. it ≡ wrapped step inner) }
{
    match step {
        PlanStep::Filter(cond) => plan_filter(alloc, inner, cond),
        PlanStep::Keep(items) => plan_keep(alloc, inner, items),
        PlanStep::Join(right, cond) => plan_join(alloc, inner, right, cond),
        PlanStep::Union(right) => plan_union(alloc, inner, right),
        PlanStep::Except(right) => plan_except(alloc, inner, right),
        PlanStep::Rename(name) => plan_rename(alloc, inner, name),
        PlanStep::Choose(expr, right) => plan_choose(alloc, expr, inner, right),
    }
}
