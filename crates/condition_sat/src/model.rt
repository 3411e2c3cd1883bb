ghost use Rattle.std.specs.Prelude.{◌≡◌, ℕ, ◌&&◌, ◌||◌, true, false, not as negation, List as Items, IsTrue, IfOk, IfSome, IfNone};
ghost use Rattle.feature_expr.specs.Config.{has_feature};
ghost use Rattle.feature_expr.specs.Satisfaction.{satisfies};
ghost use Rattle.feature_expr.specs.Expressions.{mentions};
ghost use Rattle.condition_sat.specs.Admitted.{IsAdmitted, SomeAdmitted};
ghost use Rattle.condition_sat.specs.Asked.{all_met, occurs};
ghost use Rattle.condition_sat.specs.Samples.{IsMeeting, IsSample};

use crate::asked::Asked;
use crate::samples::{sample_meeting, samples_of};
use crate::search::{Assignment, search};
use feature_expr::{Config, Expr, Memory, eval};
use std::alloc::Global;
use std::marker;

/// A feature model: the configurations that satisfy its expression are the admitted ones. Contracts see it as
/// the expression.
///
/// Most questions are answered by a few sample configurations, in the time of evaluating the expressions asked
/// about. The others are searched, in a time that may grow with the number of combinations of the features that
/// occur. Neither takes memory: `Memory` stands in the answers for a search that does.
#[derive(Drop)]
pub struct Model {
    expr: Expr,
    samples: Vec<Config>,
}

impl marker::Model for Model {
    ghost use Rattle.std.specs.List.{All};
    ghost use Rattle.std.specs.Coded.{codes};
    ghost use Rattle.feature_expr.specs.declared.expr.Expr.{Expr};
    ghost use Rattle.feature_expr.specs.contracts.expr.Expr as e;
    ghost use Rattle.condition_sat.specs.Samples.{IsSample};

    ghost Value = { Expr };

    ghost coded = { Prim.hlevel (codes, e.the_row.coded) };

    ghost view = { λ m. m.expr };

    ghost invariant = { λ m. All (λ c. IsSample m.expr c) m.samples.items };
}

impl Model {
    /// Takes time that grows with the expression's weight and the number of its features: no search is made.
    pub fn new(alloc: Global, expr: Expr) -> Result<Model, Memory>
        ensures { IfOk result (λ model. model ≡ expr) }
    {
        let samples = samples_of(alloc, &expr)?;
        Ok(Model { expr, samples })
    }

    pub fn expr(&self) -> &Expr
        ensures { result.now ≡ self.now }
    {
        &self.expr
    }

    /// Whether the configuration is an admitted one.
    pub fn admits(&self, config: &Config) -> bool
        ensures { result ≡ satisfies config.now self.now }
    {
        eval(&self.expr, config)
    }

    /// An admitted configuration that satisfies the expression, if there is one.
    pub fn find(&self, expr: &Expr) -> Result<Option<Config>, Memory>
        ensures admitted { IfOk result (λ found. IfSome found (λ c. IsAdmitted self.now c)) }
        ensures satisfying { IfOk result (λ found. IfSome found (λ c. satisfies c expr.now ≡ true)) }
        ensures occurring { IfOk result (λ found. IfSome found (λ c. (i : ℕ) → IsTrue (has_feature c i) → IsTrue (mentions i self.now || mentions i expr.now))) }
        ensures none { IfOk result (λ found. IfNone found ((c : Items ℕ) → IsAdmitted self.now c → satisfies c expr.now ≡ false)) }
    {
        Ok(self.meeting(&[wanted(expr, true)]))
    }

    /// An admitted configuration in which each expression that is asked about has its value, if there is one.
    pub fn find_meeting(&self, asked: &[Asked<'_>]) -> Result<Option<Config>, Memory>
        ensures admitted { IfOk result (λ found. IfSome found (λ c. IsAdmitted self.now c)) }
        ensures met { IfOk result (λ found. IfSome found (λ c. all_met c asked.now ≡ true)) }
        ensures occurring { IfOk result (λ found. IfSome found (λ c. (i : ℕ) → IsTrue (has_feature c i) → IsTrue (mentions i self.now || occurs i asked.now))) }
        ensures none { IfOk result (λ found. IfNone found ((c : Items ℕ) → IsAdmitted self.now c → all_met c asked.now ≡ false)) }
    {
        Ok(self.meeting(asked))
    }

    /// An admitted configuration, if there is one. A model that has none at hand keeps the one that it finds, so that
    /// later questions are tried on it first.
    #[tactic(auto, using(crate::proofs::Found::is_sample, crate::proofs::Found::none_at_all))]
    pub fn find_any(&mut self) -> Result<Option<Config>, Memory>
        ensures same { self.new ≡ self.old }
        ensures admitted { IfOk result (λ found. IfSome found (λ c. IsAdmitted self.old c)) }
        ensures occurring { IfOk result (λ found. IfSome found (λ c. (i : ℕ) → IsTrue (has_feature c i) → IsTrue (mentions i self.old))) }
        ensures none { IfOk result (λ found. IfNone found ((c : Items ℕ) → IsAdmitted self.old c → ⊥)) }
    {
        let found = self.meeting(&[]);
        match found {
            Some(config) => {
                self.keep(config)?;
                Ok(Some(config))
            }
            None => Ok(None),
        }
    }

    /// Keeps a configuration, where none is at hand.
    fn keep(&mut self, config: Config) -> Result<(), Memory>
        requires { IsSample self.old config }
        ensures { self.new ≡ self.old }
    {
        if self.samples.is_empty() {
            self.samples.push(config)?;
        }
        Ok(())
    }

    /// Whether every admitted configuration satisfies the expression.
    pub fn always(&self, expr: &Expr) -> Result<bool, Memory>
        ensures yes { IfOk result (λ answer. answer ≡ true → (c : Items ℕ) → IsAdmitted self.now c → satisfies c expr.now ≡ true) }
        ensures no { IfOk result (λ answer. answer ≡ false → SomeAdmitted self.now (λ c. satisfies c expr.now ≡ false)) }
    {
        let failing = self.meeting(&[wanted(expr, false)]);
        Ok(failing.is_none())
    }

    /// Whether the same admitted configurations satisfy both expressions.
    pub fn equivalent(&self, left: &Expr, right: &Expr) -> Result<bool, Memory>
        ensures yes { IfOk result (λ answer. answer ≡ true → (c : Items ℕ) → IsAdmitted self.now c → satisfies c left.now ≡ satisfies c right.now) }
        ensures no { IfOk result (λ answer. answer ≡ false → SomeAdmitted self.now (λ c. satisfies c left.now ≡ negation (satisfies c right.now))) }
    {
        let left_alone = self.meeting(&[wanted(left, true), wanted(right, false)]);
        if left_alone.is_some() {
            return Ok(false);
        }
        let right_alone = self.meeting(&[wanted(left, false), wanted(right, true)]);
        Ok(right_alone.is_none())
    }

    /// Whether no admitted configuration satisfies both expressions.
    pub fn exclusive(&self, left: &Expr, right: &Expr) -> Result<bool, Memory>
        ensures yes { IfOk result (λ answer. answer ≡ true → (c : Items ℕ) → IsAdmitted self.now c → (satisfies c left.now && satisfies c right.now) ≡ false) }
        ensures no { IfOk result (λ answer. answer ≡ false → SomeAdmitted self.now (λ c. (satisfies c left.now && satisfies c right.now) ≡ true)) }
    {
        let shared = self.meeting(&[wanted(left, true), wanted(right, true)]);
        Ok(shared.is_none())
    }

    /// An admitted configuration that meets all that is asked, if there is one.
    fn meeting(&self, asked: &[Asked]) -> Option<Config>
        ensures some { IfSome result (λ c. IsMeeting self.now asked.now c) }
        ensures none { IfNone result ((c : Items ℕ) → IsAdmitted self.now c → all_met c asked.now ≡ false) }
    {
        match sample_meeting(&self.samples, asked) {
            Some(sample) => Some(sample),
            None => self.searched(asked),
        }
    }

    fn searched(&self, asked: &[Asked]) -> Option<Config>
        ensures some { IfSome result (λ c. IsMeeting self.now asked.now c) }
        ensures none { IfNone result ((c : Items ℕ) → IsAdmitted self.now c → all_met c asked.now ≡ false) }
    {
        let found = search(&self.expr, asked, &Assignment::none())?;
        found.known();
        Some(found)
    }
}

fn wanted(expr: &Expr, value: bool) -> Asked<'_>
    ensures expr { result.expr.now ≡ expr.now }
    ensures value { result.value ≡ value }
{
    Asked { expr, value }
}
