//! Configurations that are tried before any search: one evaluation of each answers most questions.
ghost use Rattle.std.specs.Prelude.{◌≡◌, ℕ, ◌==◌, ◌<◌, ◌||◌, true, IfOk, IfSome, Contains};
ghost use Rattle.std.specs.List.{All};
ghost use Rattle.feature_expr.specs.Config.{has_feature};
ghost use Rattle.condition_sat.specs.Samples.{IsSample};
ghost use Rattle.condition_sat.specs.Asked.{all_met};

use crate::asked::{Asked, are_met};
use crate::search::{Assignment, Status, status_of_all};
use feature_expr::{Config, Expr, FEATURE_LIMIT, Memory, features_of};
use std::alloc::Global;

/// What the samples are near to, a bit for each feature. Any two features whose numbers differ in their last
/// three bits have all four combinations of values among them.
const PATTERNS: [u64; 8] = [
    0xFFFF_FFFF_FFFF_FFFF,
    0x0000_0000_0000_0000,
    0xAAAA_AAAA_AAAA_AAAA,
    0x5555_5555_5555_5555,
    0xCCCC_CCCC_CCCC_CCCC,
    0x3333_3333_3333_3333,
    0xF0F0_F0F0_F0F0_F0F0,
    0x0F0F_0F0F_0F0F_0F0F,
];

/// A few configurations of the model, or none where none is found without a search.
pub fn samples_of(alloc: Global, model: &Expr) -> Result<Vec<Config>, Memory>
    ensures { IfOk result (λ v. All (λ c. IsSample model.now c) v.items) }
{
    let mut samples = Vec::with_capacity(alloc, PATTERNS.len())?;
    for pattern in PATTERNS {
        match sample_near(model, pattern) {
            Some(sample) => samples.push(sample)?,
            None => {}
        }
    }
    Ok(samples)
}

/// A configuration of the model in which as many of its features as can be have the pattern's value, the first
/// ones first.
fn sample_near(model: &Expr, pattern: u64) -> Option<Config>
    ensures { IfSome result (λ c. IsSample model.now c) }
{
    let asked = [Asked {
        expr: model,
        value: true,
    }];
    let assignment = assigned_near(&asked, features_of(model), pattern);
    match status_of_all(&asked, &assignment) {
        Status::Satisfied => {
            let sample = assignment.held();
            sample.known();
            Some(sample)
        }
        _ => None,
    }
}

/// The features are assigned as in the pattern, but for those with which no extension would meet what is asked.
fn assigned_near(asked: &[Asked], features: Config, pattern: u64) -> Assignment
    ensures { (i : ℕ) → has_feature result.held i ≡ true → has_feature features i ≡ true }
{
    let mut assignment = Assignment::none();
    for feature in 0..FEATURE_LIMIT {
        if features.has(feature) {
            assignment = assigned_next(asked, &assignment, feature, pattern >> feature & 1 == 1);
        }
    }
    assignment
}

/// The same, and the feature is assigned the value, or else the other one where no extension would then meet
/// what is asked.
fn assigned_next(asked: &[Asked], assignment: &Assignment, feature: u8, value: bool) -> Assignment
    requires { feature < FEATURE_LIMIT }
    ensures { (i : ℕ) → has_feature result.held i ≡ true → (i == feature || has_feature assignment.now.held i) ≡ true }
{
    let next = assigned_to(assignment, feature, value);
    match status_of_all(asked, &next) {
        Status::Falsified => assigned_to(assignment, feature, !value),
        _ => next,
    }
}

fn assigned_to(assignment: &Assignment, feature: u8, value: bool) -> Assignment
    requires { feature < FEATURE_LIMIT }
    ensures { (i : ℕ) → has_feature result.held i ≡ true → (i == feature || has_feature assignment.now.held i) ≡ true }
{
    if value {
        assignment.holding(feature)
    } else {
        assignment.without(feature)
    }
}

/// The first sample that meets all that is asked.
pub fn sample_meeting(samples: &[Config], asked: &[Asked]) -> Option<Config>
    ensures { IfSome result (λ c. Contains samples.now c × (all_met c asked.now ≡ true)) }
{
    for sample in samples {
        if are_met(asked, sample) {
            return Some(*sample);
        }
    }
    None
}
