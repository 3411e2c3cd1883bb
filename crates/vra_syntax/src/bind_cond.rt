ghost use Rattle.std.specs.Prelude.{◌≡◌, OnOk, IfOk};
ghost use Rattle.vra_syntax.specs.Binding.{bound_cond};
ghost use Rattle.vra_syntax.specs.Chains.{wrapped_cond, rewrapped_cond};

use crate::bind_operand::bound_operand;
use crate::cond::{Cond, cond_and, cond_choice, cond_not, cond_or};
use feature_expr::{Expr, Memory, TryCopy, Value};
use std::alloc::Global;

/// One step of a condition that is taken apart from the left: what goes round the left side.
#[derive(Drop)]
enum CondStep {
    Not,
    And(Cond),
    Or(Cond),
    Choice(Expr, Cond),
}

/// The condition with each parameter that has a value replaced by it.
pub fn bound_cond(alloc: Global, cond: &Cond, values: &[Value]) -> Result<Cond, Memory>
    ensures { IfOk result (λ it. it ≡ bound_cond values.now cond.now) }
{
    let mut steps = Vec::new(alloc);
    let mut at = cond;
    loop {
        match at {
            Cond::Cmp(left, op, right) => {
                let left = bound_operand(alloc, left, values)?;
                let right = bound_operand(alloc, right, values)?;
                return rebuilt(alloc, Cond::Cmp(left, *op, right), steps);
            }
            Cond::Not(inner) => {
                put_step(&mut steps, CondStep::Not, inner.get(), values)?;
                at = inner.get();
            }
            Cond::And(left, right) => {
                let right = bound_cond(alloc, right.get(), values)?;
                put_step(&mut steps, CondStep::And(right), left.get(), values)?;
                at = left.get();
            }
            Cond::Or(left, right) => {
                let right = bound_cond(alloc, right.get(), values)?;
                put_step(&mut steps, CondStep::Or(right), left.get(), values)?;
                at = left.get();
            }
            Cond::Choice(expr, left, right) => {
                let expr = expr.copy(alloc)?;
                let right = bound_cond(alloc, right.get(), values)?;
                put_step(
                    &mut steps,
                    CondStep::Choice(expr, right),
                    left.get(),
                    values,
                )?;
                at = left.get();
            }
            Cond::True => return rebuilt(alloc, Cond::True, steps),
            Cond::False => return rebuilt(alloc, Cond::False, steps),
        }
    }
}

/// Adds the innermost step so far, the one round `inner`.
#[tactic(auto, using(crate::proofs::ChainLaws::rewrapped_cond_push))]
fn put_step(
    steps: &mut Vec<CondStep>,
    step: CondStep,
    inner: &Cond,
    values: &[Value],
) -> Result<(), Memory>
    ensures { OnOk result (rewrapped_cond steps.new.items (bound_cond values.now inner.now) ≡ rewrapped_cond steps.old.items (wrapped_cond step (bound_cond values.now inner.now))) }
{
    steps.push(step)?;
    Ok(())
}

/// The condition that the steps make of its innermost left side. The first step is the outermost.
#[tactic(auto, using(crate::proofs::ChainLaws::rewrapped_cond_push))]
fn rebuilt(alloc: Global, base: Cond, steps: Vec<CondStep>) -> Result<Cond, Memory>
    ensures { IfOk result (λ it. it ≡ rewrapped_cond steps.items base) }
{
    let mut steps = steps;
    let mut whole = base;
    while let Some(step) = steps.pop() {
        whole = wrap(alloc, step, whole)?;
    }
    Ok(whole)
}

fn wrap(alloc: Global, step: CondStep, inner: Cond) -> Result<Cond, Memory>
    ensures { IfOk result (λ it. it ≡ wrapped_cond step inner) }
{
    match step {
        CondStep::Not => cond_not(alloc, inner),
        CondStep::And(right) => cond_and(alloc, inner, right),
        CondStep::Or(right) => cond_or(alloc, inner, right),
        CondStep::Choice(expr, right) => cond_choice(alloc, expr, inner, right),
    }
}
