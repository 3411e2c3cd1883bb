//! Whether some configuration meets all that is asked: by splitting on one feature after another, with no copy of an
//! expression.
ghost use Rattle.std.specs.Prelude.{◌≡◌, ℕ, ◌==◌, ◌||◌, ◌<◌, List as Items, [], true, false, not as negation, if◌then◌else◌, Some, IfSome, IfNone};
ghost use Rattle.feature_expr.specs.declared.expr.Expr.{Expr};
ghost use Rattle.feature_expr.specs.Satisfaction.{satisfies};
ghost use Rattle.feature_expr.specs.Config.{has_feature};
ghost use Rattle.feature_expr.specs.Expressions.{mentions};
ghost use Rattle.condition_sat.specs.Asked.{occurs};
ghost use Rattle.condition_sat.specs.Search.{Extends, IsAssigned, IsStatus, IsOfSides, IsStatusOfAll, IsStatusUnder, admits_all};

use crate::asked::Asked;
use feature_expr::{Config, Expr, FEATURE_LIMIT, eval};

/// A partial assignment: the features that are assigned true, and those that are assigned false.
#[derive(Clone, Copy, Debug)]
pub struct Assignment {
    held: Config,
    lacking: Config,
}

/// What becomes, under a partial assignment, of what is asked.
#[derive(Clone, Copy, Debug)]
pub enum Status {
    /// It is met where nothing holds but what is assigned true.
    Satisfied,
    /// No extension of the assignment meets it.
    Falsified,
    /// It may depend on this feature, which is unassigned.
    Undecided(u8),
}

impl Assignment {
    /// Nothing is assigned.
    pub fn none() -> Assignment
        ensures held { result.held ≡ [] }
        ensures lacking { result.lacking ≡ [] }
    {
        Assignment {
            held: Config::none(),
            lacking: Config::none(),
        }
    }

    /// The configuration in which nothing holds but what is assigned true.
    pub fn held(&self) -> Config
        ensures { result ≡ self.now.held }
    {
        self.held
    }

    /// The same, and the feature is true.
    pub fn holding(&self, feature: u8) -> Assignment
        requires { feature < FEATURE_LIMIT }
        ensures held { (i : ℕ) → has_feature result.held i ≡ (i == feature || has_feature self.now.held i) }
        ensures lacking { result.lacking ≡ self.now.lacking }
    {
        Assignment {
            held: self.held.with(feature),
            lacking: self.lacking,
        }
    }

    /// The same, and the feature is false.
    pub fn without(&self, feature: u8) -> Assignment
        requires { feature < FEATURE_LIMIT }
        ensures held { result.held ≡ self.now.held }
        ensures lacking { (i : ℕ) → has_feature result.lacking i ≡ (i == feature || has_feature self.now.lacking i) }
    {
        Assignment {
            held: self.held,
            lacking: self.lacking.with(feature),
        }
    }

    /// The feature's value, where it is assigned. A feature at or above the limit holds nowhere.
    fn assigned(&self, feature: u8) -> Option<bool>
        ensures { IsAssigned self.now feature result }
    {
        if self.held.holds(feature) {
            Some(true)
        } else if feature >= FEATURE_LIMIT || self.lacking.holds(feature) {
            Some(false)
        } else {
            None
        }
    }

    fn status(&self, feature: u8, value: bool) -> Status
        ensures { IsStatus (Expr.Feature feature) value self.now result }
    {
        match self.assigned(feature) {
            Some(assigned) => if assigned == value {
                Status::Satisfied
            } else {
                Status::Falsified
            },
            None => if value {
                Status::Undecided(feature)
            } else {
                Status::Satisfied
            },
        }
    }

    fn allows(&self, feature: u8, value: bool) -> bool
        ensures { result ≡ false → (c : Items ℕ) → Extends c self.now → satisfies c (Expr.Feature feature) ≡ negation value }
    {
        match self.assigned(feature) {
            Some(assigned) => assigned == value,
            None => true,
        }
    }
}

/// Whether the expression may have the value in a configuration that extends the assignment. False is certain.
fn can_be(expr: &Expr, value: bool, assignment: &Assignment) -> bool
    ensures { result ≡ false → (c : Items ℕ) → Extends c assignment.now → satisfies c expr.now ≡ negation value }
{
    let mut at = expr;
    let mut value = value;
    loop {
        match at {
            Expr::True => return value,
            Expr::False => return !value,
            Expr::Feature(feature) => return assignment.allows(*feature, value),
            Expr::Not(inner) => {
                value = !value;
                at = inner.get();
            }
            Expr::And(left, right) => {
                if can_be(right.get(), value, assignment) != value {
                    return !value;
                }
                at = left.get();
            }
            Expr::Or(left, right) => {
                if can_be(right.get(), value, assignment) == value {
                    return value;
                }
                at = left.get();
            }
        }
    }
}

/// What becomes of the demand that the expression has the value.
fn status_of(expr: &Expr, value: bool, assignment: &Assignment) -> Status
    ensures { IsStatus expr.now value assignment.now result }
{
    let mut at = expr;
    let mut value = value;
    loop {
        match at {
            Expr::True => return fixed(value),
            Expr::False => return fixed(!value),
            Expr::Feature(feature) => return assignment.status(*feature, value),
            Expr::Not(inner) => {
                value = !value;
                at = inner.get();
            }
            Expr::And(left, right) => {
                let right = status_of(right.get(), value, assignment);
                match of_sides(value, left.get(), right, value, assignment) {
                    Some(status) => return status,
                    None => at = left.get(),
                }
            }
            Expr::Or(left, right) => {
                let right = status_of(right.get(), value, assignment);
                match of_sides(!value, left.get(), right, value, assignment) {
                    Some(status) => return status,
                    None => at = left.get(),
                }
            }
        }
    }
}

fn fixed(met: bool) -> Status
    ensures { result ≡ (if met then Status.Satisfied else Status.Falsified) }
{
    if met {
        Status::Satisfied
    } else {
        Status::Falsified
    }
}

/// What becomes of an expression of whose two sides both, or one, must have the value, once the right one's status is
/// known. None: what becomes of the left one.
fn of_sides(
    both: bool,
    left: &Expr,
    right: Status,
    value: bool,
    assignment: &Assignment,
) -> Option<Status>
    ensures { IsOfSides both left.now right value assignment.now result }
{
    match right {
        Status::Satisfied => if both { None } else { Some(Status::Satisfied) },
        Status::Falsified => if both { Some(Status::Falsified) } else { None },
        Status::Undecided(feature) => Some(if both {
            of_open_both(feature, left, value, assignment)
        } else {
            of_open_either(feature, left, value, assignment)
        }),
    }
}

fn of_open_both(feature: u8, left: &Expr, value: bool, assignment: &Assignment) -> Status
    ensures { IsOfSides true left.now (Status.Undecided feature) value assignment.now (Some result) }
{
    if can_be(left, value, assignment) {
        Status::Undecided(feature)
    } else {
        Status::Falsified
    }
}

fn of_open_either(feature: u8, left: &Expr, value: bool, assignment: &Assignment) -> Status
    ensures { IsOfSides false left.now (Status.Undecided feature) value assignment.now (Some result) }
{
    if eval(left, &assignment.held) == value {
        Status::Satisfied
    } else {
        Status::Undecided(feature)
    }
}

/// What becomes of all that is asked. Of the features that it depends on it names one of the last expression's that
/// has any.
pub fn status_of_all(asked: &[Asked], assignment: &Assignment) -> Status
    ensures { IsStatusOfAll asked.now assignment.now result }
{
    let mut all = Status::Satisfied;
    for one in asked {
        match status_of(one.expr, one.value, assignment) {
            Status::Satisfied => {}
            Status::Falsified => return Status::Falsified,
            Status::Undecided(feature) => all = Status::Undecided(feature),
        }
    }
    all
}

/// What becomes of the model and of all that is asked under it.
fn status_under(model: &Expr, asked: &[Asked], assignment: &Assignment) -> Status
    ensures { IsStatusUnder model.now asked.now assignment.now result }
{
    match status_of(model, true, assignment) {
        Status::Falsified => Status::Falsified,
        Status::Satisfied => status_of_all(asked, assignment),
        Status::Undecided(feature) => match status_of_all(asked, assignment) {
            Status::Satisfied => Status::Undecided(feature),
            decided => decided,
        },
    }
}

/// A configuration that extends the assignment, in which the model holds and all that is asked is met, if there is one.
/// The time may grow with the number of combinations of the features that occur, and the depth with the number of
/// these features.
pub fn search(model: &Expr, asked: &[Asked], assignment: &Assignment) -> Option<Config>
    ensures met { IfSome result (λ c. admits_all model.now asked.now c ≡ true) }
    ensures occurring { IfSome result (λ c. (i : ℕ) → has_feature c i ≡ true → (has_feature assignment.now.held i || (mentions i model.now || occurs i asked.now)) ≡ true) }
    ensures none { IfNone result ((c : Items ℕ) → Extends c assignment.now → admits_all model.now asked.now c ≡ false) }
{
    match status_under(model, asked, assignment) {
        Status::Satisfied => Some(assignment.held),
        Status::Falsified => None,
        Status::Undecided(feature) => match search(model, asked, &assignment.holding(feature)) {
            Some(config) => Some(config),
            None => search(model, asked, &assignment.without(feature)),
        },
    }
}
