ghost use Rattle.std.specs.Prelude.{◌≡◌, ℕ, List as Items, ◌<◌, ◌==◌, ◌-◌, length, slice_get, Some, None, IfOk, IfErr, position};
ghost use Rattle.std.specs.Option.{option_copied};
ghost use Rattle.std.specs.Str.{bytes_eq};
ghost use Rattle.feature_expr.specs.Names.{among, refusal};

use crate::config::FEATURE_LIMIT;
use std::alloc::Global;
use std::marker::Model;
use thiserror::Error;
use values::{List, Memory, Name, TryCopy};
use word_tokens::is_name;

/// Why a list of names isn't one of features.
#[derive(Clone, Copy, Debug, PartialEq, Eq, Error)]
pub enum FeaturesRefused {
    #[error("{0} features, more than 64")]
    TooMany(u64),
    #[error("the name of feature {0} isn't one")]
    NotAName(u64),
    #[error("feature {0} stood before")]
    Duplicate(u64),
}

/// The features of a product line, each with its number, in the order of their names here.
#[derive(Debug, Drop)]
pub struct Features {
    names: List<Name>,
}

impl Model for Features {
    ghost use Rattle.std.specs.Prelude.{◌≡◌, ℕ, List as Items, None};
    ghost use Rattle.std.specs.Coded.{coded_list, coded_ℕ};

    ghost Value = { Items (Items ℕ) };

    ghost coded = { coded_list (coded_list coded_ℕ) };

    ghost use Rattle.feature_expr.specs.Names.{refusal};

    ghost view = { λ f. f.names };

    ghost invariant = { λ f. refusal f.names ≡ None };
}

impl TryCopy for Features {
    fn copy(&self, alloc: Global) -> Result<Self, Memory> {
        let names = self.names.copy(alloc)?;
        Ok(Features { names })
    }
}

/// Whether the name is among those before it.
fn stood_before(name: &Name, names: &[Name]) -> bool
    ensures { result ≡ among name.now names.now }
{
    names.iter().any(|other| other == name)
}

#[tactic(auto, using(crate::proofs::FeatureLists::at_most_64))]
impl Features {
    /// Keeps the names in their order, where there are at most 64, each is a name, and none stands twice.
    /// The count is tried first, then the places in order, from 0.
    pub fn new(names: List<Name>) -> Result<Features, FeaturesRefused>
        ensures ok { IfOk result (λ features. (features ≡ names) × (refusal names ≡ None)) }
        ensures err { IfErr result (λ why. refusal names ≡ Some why) }
    {
        match refusal_of(names.as_slice()) {
            Some(why) => Err(why),
            None => Ok(Features { names }),
        }
    }

    pub fn count(&self) -> u8
        ensures count { result ≡ length self.now }
        ensures names { refusal self.now ≡ None }
    {
        self.names.len() as u8
    }

    /// The name of a feature.
    pub fn name(&self, feature: u8) -> &Name
        requires { feature < length self.now }
        ensures { slice_get self.now feature ≡ Some result.now }
    {
        &self.names.as_slice()[feature as usize]
    }

    /// The number of the feature with this name. It takes time in the number of features.
    pub fn find(&self, name: &Name) -> Option<u8>
        ensures { result ≡ position (λ other. bytes_eq other name.now) self.now }
    {
        self.find_word(name.as_slice())
    }

    /// The number of the feature whose name has these bytes.
    pub fn find_word(&self, word: &[u8]) -> Option<u8>
        ensures { result ≡ position (λ other. bytes_eq other word.now) self.now }
    {
        match place_of(word, self.names.as_slice()) {
            Some(place) => Some(place as u8),
            None => None,
        }
    }

    /// The name of a feature, or None where there is no such feature.
    pub fn get(&self, feature: u8) -> Option<&Name>
        ensures { option_copied result ≡ slice_get self.now feature }
    {
        self.names.get(feature as usize)
    }
}

fn place_of(word: &[u8], names: &[Name]) -> Option<usize>
    ensures { result ≡ position (λ other. bytes_eq other word.now) names.now }
{
    names.iter().position(|other| other.as_slice() == word)
}

/// The first reason for which the names aren't those of features.
#[tactic(auto, unfolding(crate::specs::Names::refusal))]
fn refusal_of(names: &[Name]) -> Option<FeaturesRefused>
    ensures { result ≡ refusal names.now }
{
    if names.len() > FEATURE_LIMIT as usize {
        return Some(FeaturesRefused::TooMany(names.len() as u64));
    }
    for (place, name) in names.iter().enumerate() {
        if !is_name(name) {
            return Some(FeaturesRefused::NotAName(place as u64));
        }
        if stood_before(name, &names[..place]) {
            return Some(FeaturesRefused::Duplicate(place as u64));
        }
    }
    None
}
