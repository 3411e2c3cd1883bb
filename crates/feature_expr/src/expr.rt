ghost use Rattle.std.specs.Prelude.{◌≡◌, ℕ, List as Items, ◌+◌, ◌-◌, ◌^◌, ◌≤◌, ◌&&◌, ◌||◌, not as negation, min, IsTrue, IfOk, OnOk};
ghost use Rattle.feature_expr.specs.Satisfaction.{satisfies};
ghost use Rattle.feature_expr.specs.Expressions.{weight_of, mentions, and_of, or_of, not_of};
ghost use Rattle.feature_expr.specs.Chains.{wrapped, rewrapped};

use crate::config::Config;
use sqlite_items::Boxed;
use std::alloc::Global;
use values::{Memory, TryCopy};

/// A propositional formula over features, which go by their number.
///
/// A chain of `and` or `or` grows on its left side, and may have millions of links: whatever goes over an
/// expression loops down its left side and recurses to the right alone.
pub enum Expr {
    True,
    False,
    Feature(u8),
    Not(Boxed<Expr>),
    And(Boxed<Expr>, Boxed<Expr>),
    Or(Boxed<Expr>, Boxed<Expr>),
}

impl Drop for Expr {
    fn drop(mut self) {
        loop {
            match self {
                Expr::True => return,
                Expr::False => return,
                Expr::Feature(_) => return,
                Expr::Not(inner) => self = inner.into_inner(),
                Expr::And(left, right) => {
                    let _right = right.into_inner();
                    self = left.into_inner();
                }
                Expr::Or(left, right) => {
                    let _right = right.into_inner();
                    self = left.into_inner();
                }
            }
        }
    }
}

impl TryCopy for Expr {
    fn copy(&self, alloc: Global) -> Result<Self, Memory> {
        copy_expr(alloc, self)
    }
}

/// Whether the configuration satisfies the expression.
pub fn eval(expr: &Expr, config: &Config) -> bool
    ensures { result ≡ satisfies config.now expr.now }
{
    let mut at = expr;
    loop {
        match at {
            Expr::True => return true,
            Expr::False => return false,
            Expr::Feature(feature) => return config.holds(*feature),
            Expr::Not(inner) => return !eval(inner.get(), config),
            Expr::And(left, right) => {
                if !eval(right.get(), config) {
                    return false;
                }
                at = left.get();
            }
            Expr::Or(left, right) => {
                if eval(right.get(), config) {
                    return true;
                }
                at = left.get();
            }
        }
    }
}

/// The number of nodes, or the greatest number where there are more.
pub fn weight(expr: &Expr) -> u64
    ensures { result ≡ min (weight_of expr.now) (2 ^ 64 - 1) }
{
    let mut total: u64 = 0;
    let mut at = expr;
    loop {
        match at {
            Expr::True => return total.saturating_add(1),
            Expr::False => return total.saturating_add(1),
            Expr::Feature(_) => return total.saturating_add(1),
            Expr::Not(inner) => {
                total = total.saturating_add(1);
                at = inner.get();
            }
            Expr::And(left, right) => {
                total = total.saturating_add(1).saturating_add(weight(right.get()));
                at = left.get();
            }
            Expr::Or(left, right) => {
                total = total.saturating_add(1).saturating_add(weight(right.get()));
                at = left.get();
            }
        }
    }
}

/// One step of a chain that is taken apart from the left: what goes round the left side.
#[derive(Drop)]
enum Step {
    Not,
    And(Expr),
    Or(Expr),
}

/// A second expression, equal to the first.
pub fn copy_expr(alloc: Global, expr: &Expr) -> Result<Expr, Memory>
    ensures { IfOk result (λ it. it ≡ expr.now) }
{
    let mut steps = Vec::new(alloc);
    let mut at = expr;
    loop {
        match at {
            Expr::True => return rebuilt(alloc, Expr::True, steps),
            Expr::False => return rebuilt(alloc, Expr::False, steps),
            Expr::Feature(feature) => return rebuilt(alloc, Expr::Feature(*feature), steps),
            Expr::Not(inner) => {
                put_step(&mut steps, Step::Not, inner.get())?;
                at = inner.get();
            }
            Expr::And(left, right) => {
                let right = copy_expr(alloc, right.get())?;
                put_step(&mut steps, Step::And(right), left.get())?;
                at = left.get();
            }
            Expr::Or(left, right) => {
                let right = copy_expr(alloc, right.get())?;
                put_step(&mut steps, Step::Or(right), left.get())?;
                at = left.get();
            }
        }
    }
}

/// Adds the innermost step so far, the one round `inner`.
#[tactic(auto, using(crate::proofs::ChainLaws::rewrapped_push))]
fn put_step(steps: &mut Vec<Step>, step: Step, inner: &Expr) -> Result<(), Memory>
    ensures { OnOk result (rewrapped steps.new.items inner.now ≡ rewrapped steps.old.items (wrapped step inner.now)) }
{
    steps.push(step)?;
    Ok(())
}

/// The expression that the steps make of its innermost left side. The first step is the outermost.
#[tactic(auto, using(crate::proofs::ChainLaws::rewrapped_push))]
fn rebuilt(alloc: Global, base: Expr, steps: Vec<Step>) -> Result<Expr, Memory>
    ensures { IfOk result (λ it. it ≡ rewrapped steps.items base) }
{
    let mut steps = steps;
    let mut whole = base;
    while let Some(step) = steps.pop() {
        whole = wrap(alloc, step, whole)?;
    }
    Ok(whole)
}

fn wrap(alloc: Global, step: Step, inner: Expr) -> Result<Expr, Memory>
    ensures { IfOk result (λ it. it ≡ wrapped step inner) }
{
    match step {
        Step::Not => make_not(alloc, inner),
        Step::And(right) => make_and(alloc, inner, right),
        Step::Or(right) => make_or(alloc, inner, right),
    }
}

pub fn make_not(alloc: Global, inner: Expr) -> Result<Expr, Memory>
    ensures { IfOk result (λ it. it ≡ Expr.Not inner) }
{
    let inner = Boxed::new(alloc, inner)?;
    Ok(Expr::Not(inner))
}

pub fn make_and(alloc: Global, left: Expr, right: Expr) -> Result<Expr, Memory>
    ensures { IfOk result (λ it. it ≡ Expr.And left right) }
{
    let left = Boxed::new(alloc, left)?;
    let right = Boxed::new(alloc, right)?;
    Ok(Expr::And(left, right))
}

pub fn make_or(alloc: Global, left: Expr, right: Expr) -> Result<Expr, Memory>
    ensures { IfOk result (λ it. it ≡ Expr.Or left right) }
{
    let left = Boxed::new(alloc, left)?;
    let right = Boxed::new(alloc, right)?;
    Ok(Expr::Or(left, right))
}

/// Holds where both sides hold. A side that is a constant is folded away.
pub fn and(alloc: Global, left: Expr, right: Expr) -> Result<Expr, Memory>
    ensures folded { IfOk result (λ it. it ≡ and_of left right) }
    ensures meaning { IfOk result (λ it. (c : Items ℕ) → satisfies c it ≡ (satisfies c left && satisfies c right)) }
    ensures weight { IfOk result (λ it. weight_of it ≤ weight_of left + weight_of right + 1) }
    ensures features { IfOk result (λ it. (i : ℕ) → IsTrue (mentions i it) → IsTrue (mentions i left || mentions i right)) }
{
    match (&left, &right) {
        (Expr::True, _) => Ok(right),
        (Expr::False, _) => Ok(Expr::False),
        (_, Expr::True) => Ok(left),
        (_, Expr::False) => Ok(Expr::False),
        _ => make_and(alloc, left, right),
    }
}

/// Holds where a side holds. A side that is a constant is folded away.
pub fn or(alloc: Global, left: Expr, right: Expr) -> Result<Expr, Memory>
    ensures folded { IfOk result (λ it. it ≡ or_of left right) }
    ensures meaning { IfOk result (λ it. (c : Items ℕ) → satisfies c it ≡ (satisfies c left || satisfies c right)) }
    ensures weight { IfOk result (λ it. weight_of it ≤ weight_of left + weight_of right + 1) }
    ensures features { IfOk result (λ it. (i : ℕ) → IsTrue (mentions i it) → IsTrue (mentions i left || mentions i right)) }
{
    match (&left, &right) {
        (Expr::True, _) => Ok(Expr::True),
        (Expr::False, _) => Ok(right),
        (_, Expr::True) => Ok(Expr::True),
        (_, Expr::False) => Ok(left),
        _ => make_or(alloc, left, right),
    }
}

/// Holds where the inner expression doesn't. A constant is folded away.
pub fn not(alloc: Global, inner: Expr) -> Result<Expr, Memory>
    ensures folded { IfOk result (λ it. it ≡ not_of inner) }
    ensures meaning { IfOk result (λ it. (c : Items ℕ) → satisfies c it ≡ negation (satisfies c inner)) }
    ensures weight { IfOk result (λ it. weight_of it ≤ weight_of inner + 1) }
    ensures features { IfOk result (λ it. (i : ℕ) → IsTrue (mentions i it) → IsTrue (mentions i inner)) }
{
    match &inner {
        Expr::True => Ok(Expr::False),
        Expr::False => Ok(Expr::True),
        _ => make_not(alloc, inner),
    }
}
