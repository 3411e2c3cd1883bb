ghost use Rattle.std.specs.Prelude.{◌≡◌, ℕ, Some, None, if◌then◌else◌, IfOk, IfSome, List as Items, not as negation};
ghost use Rattle.feature_expr.specs.Satisfaction.{satisfies};
ghost use Rattle.asked_conditions.specs.Found.{IsFound, AreFound};
ghost use Rattle.condition_sat.specs.Possible.{can_hold, always_holds, settled};
ghost use Rattle.feature_expr.specs.declared.expr.Expr.{Expr as TheExpr};

use condition_sat::Model;
use feature_expr::{Config, Expr, Memory, TryCopy, not};
use indexmap::IndexMap;
use std::alloc::Global;
use std::marker;

/// Questions to a feature model. What was found of a condition is kept for each that is the same node by node, so that
/// it is searched once. Contracts see it as the model's expression.
#[derive(Drop)]
pub struct Questions<'a> {
    alloc: Global,
    model: &'a Model,
    kept: IndexMap<Expr, Option<Config>>,
}

impl<'a> marker::Model for Questions<'a> {
    ghost use Rattle.std.specs.Coded.{codes};
    ghost use Rattle.feature_expr.specs.declared.expr.Expr.{Expr};
    ghost use Rattle.feature_expr.specs.contracts.expr.Expr as e;
    ghost use Rattle.asked_conditions.specs.Found.{AreFound};

    ghost Value = { Expr };

    ghost coded = { Prim.hlevel (codes, e.the_row.coded) };

    ghost view = { λ it. it.model.now };

    ghost invariant = { λ it. AreFound it.model.now it.kept };
}

impl<'a> Questions<'a> {
    /// It takes no memory.
    pub fn new(alloc: Global, model: &'a Model) -> Questions<'a>
        ensures { result ≡ model.now }
    {
        Questions {
            alloc,
            model,
            kept: IndexMap::new(alloc),
        }
    }

    /// An admitted configuration that satisfies the condition, if there is one. It costs what a look at each node costs
    /// where the condition was asked about before, or is a constant that can't hold.
    pub fn find(&mut self, expr: &Expr) -> Result<Option<Config>, Memory>
        ensures same { self.new ≡ self.old }
        ensures found { IfOk result (IsFound self.old expr.now) }
    {
        match self.known(expr) {
            Some(found) => Ok(found),
            None => self.search(expr),
        }
    }

    fn search(&mut self, expr: &Expr) -> Result<Option<Config>, Memory>
        ensures same { self.new ≡ self.old }
        ensures found { IfOk result (IsFound self.old expr.now) }
    {
        let found = self.model.find(expr)?;
        keep(&mut self.kept, expr.copy(self.alloc)?, found)?;
        Ok(found)
    }

    /// Whether the condition holds in an admitted configuration.
    #[tactic(auto, using(crate::proofs::FoundLaws::somewhere))]
    pub fn holds_somewhere(&mut self, cond: &Expr) -> Result<bool, Memory>
        ensures same { self.new ≡ self.old }
        ensures answer { IfOk result (λ answer. answer ≡ can_hold self.old cond.now) }
    {
        let found = self.find(cond)?;
        Ok(found.is_some())
    }

    /// Whether the condition holds in all admitted configurations.
    #[tactic(auto, using(crate::proofs::FoundLaws::always))]
    pub fn holds_always(&mut self, cond: &Expr) -> Result<bool, Memory>
        ensures same { self.new ≡ self.old }
        ensures answer { IfOk result (λ answer. answer ≡ always_holds self.old cond.now) }
    {
        let failing = negated(self.alloc, cond)?;
        let found = self.find(&failing)?;
        Ok(!found.is_some())
    }

    /// The condition where it can hold, as `true` where it always does.
    pub fn settled(&mut self, cond: Expr) -> Result<Option<Expr>, Memory>
        ensures same { self.new ≡ self.old }
        ensures settled { IfOk result (λ it. it ≡ (if can_hold self.old cond then Some (settled self.old cond) else None)) }
    {
        if !self.holds_somewhere(&cond)? {
            return Ok(None);
        }
        if self.holds_always(&cond)? {
            return Ok(Some(Expr::True));
        }
        Ok(Some(cond))
    }

    /// What is known without a search.
    fn known(&self, expr: &Expr) -> Option<Option<Config>>
        ensures { IfSome result (IsFound self.now expr.now) }
    {
        match expr {
            Expr::False => Some(None),
            _ => self.kept.get(expr).copied(),
        }
    }
}

fn negated(alloc: Global, cond: &Expr) -> Result<Expr, Memory>
    ensures { IfOk result (λ it. (c : Items ℕ) → satisfies c it ≡ negation (satisfies c cond.now)) }
{
    let cond = cond.copy(alloc)?;
    let negated = not(alloc, cond)?;
    Ok(negated)
}

#[tactic(auto, using(crate::proofs::FoundLaws::found_more))]
fn keep(
    kept: &mut IndexMap<Expr, Option<Config>>,
    expr: Expr,
    found: Option<Config>,
) -> Result<(), Memory>
    ensures { (model : TheExpr) → AreFound model kept.old → IsFound model expr found → AreFound model kept.new }
{
    kept.insert(expr, found)?;
    Ok(())
}
