ghost use Rattle.std.specs.Prelude.{◌≡◌, ℕ, Bool, true, IfOk, List as Items};
ghost use Rattle.feature_expr.specs.Satisfaction.{satisfies};
ghost use Rattle.feature_expr.specs.declared.expr.Expr.{Expr};
ghost use Rattle.condition_sat.specs.Admitted.{IsAdmitted, SomeAdmitted};
ghost use Rattle.condition_sat.specs.Possible.{some_admitted, can_hold, can_meet, always_holds, settled};

use crate::model::Model;
use feature_expr::{Expr, Memory};

/// Whether the condition holds in an admitted configuration.
pub fn holds_somewhere(model: &Model, cond: &Expr) -> Result<bool, Memory>
    ensures { IfOk result (λ answer. answer ≡ can_hold model.now cond.now) }
{
    let found = model.find(cond)?;
    Ok(found.is_some())
}

/// Whether both conditions hold together in an admitted configuration.
pub fn meet_somewhere(model: &Model, one: &Expr, other: &Expr) -> Result<bool, Memory>
    ensures { IfOk result (λ answer. answer ≡ can_meet model.now one.now other.now) }
{
    let apart = model.exclusive(one, other)?;
    Ok(!apart)
}

/// Whether the condition holds in all admitted configurations.
pub fn holds_always(model: &Model, cond: &Expr) -> Result<bool, Memory>
    ensures { IfOk result (λ answer. answer ≡ always_holds model.now cond.now) }
{
    match cond {
        Expr::True => Ok(true),
        _ => all_satisfy(model, cond),
    }
}

fn all_satisfy(model: &Model, cond: &Expr) -> Result<bool, Memory>
    ensures { IfOk result (λ answer. answer ≡ always_holds model.now cond.now) }
{
    let always = model.always(cond)?;
    Ok(always)
}

/// The constant `true` in place of a condition that always holds.
pub fn settled_cond(model: &Model, cond: Expr) -> Result<Expr, Memory>
    ensures { IfOk result (λ it. it ≡ settled model.now cond) }
{
    let always = holds_always(model, &cond)?;
    if always {
        return Ok(Expr::True);
    }
    Ok(cond)
}

/// Does nothing: its contract ties the tests of the specifications to the admitted configurations.
#[tactic(auto, using(crate::proofs::PossibleLaws::some_admitted_of, crate::proofs::PossibleLaws::admitted_of))]
pub fn possible_laws()
    ensures held { (model : Expr) (passes : Items ℕ → Bool) (c : Items ℕ) → IsAdmitted model c → passes c ≡ true → some_admitted model passes ≡ true }
    ensures found { (model : Expr) (passes : Items ℕ → Bool) → some_admitted model passes ≡ true → SomeAdmitted model (λ c. passes c ≡ true) }
{}
