ghost use Rattle.std.specs.Prelude.{◌≡◌, ◌<◌, ◌≤◌, ◌+◌, true, false, length, IfOk, IfErr};
ghost use Rattle.feature_expr.specs.Names.{among};
ghost use Rattle.vschema.specs.Words.{stands};
ghost use Rattle.vschema.specs.Spelling.{NewFeature, FeaturesBefore, IsHead};
ghost use Rattle.vschema.specs.Faults.{FeatureFault, HeadFault};
ghost use Rattle.vschema.specs.declared.words.Sign.TheVariants as sign;

use crate::fault::CatalogFault;
use crate::refused::Which;
use crate::words::{Sign, name_at, stands, wanted};
use feature_expr::{FEATURE_LIMIT, Features, List, Name, Reading};

/// The features that a catalogue declares at its head, and the token behind them.
#[tactic(auto, using(crate::proofs::HeadLaws::never_refused))]
pub fn parse_features(reading: &Reading<'_>) -> Result<(Features, usize), CatalogFault>
    ensures within { IfOk result (λ found. found.1 ≤ length reading.now.tokens.now) }
    ensures spelled { IfOk result (λ found. IsHead reading.now.text.now reading.now.tokens.now found.0 found.1) }
    ensures refused { IfErr result (HeadFault reading.now.text.now reading.now.tokens.now) }
{
    let (names, end) = feature_names(reading)?;
    match Features::new(names) {
        Ok(features) => Ok((features, end)),
        Err(_why) => unreachable!(),
    }
}

#[tactic(auto, using(crate::specs::Faults::head_memory, crate::specs::Faults::no_features_word, crate::proofs::HeadLaws::empty_head))]
fn feature_names(reading: &Reading<'_>) -> Result<(List<Name>, usize), CatalogFault>
    ensures within { IfOk result (λ found. found.1 ≤ length reading.now.tokens.now) }
    ensures spelled { IfOk result (λ found. IsHead reading.now.text.now reading.now.tokens.now found.0 found.1) }
    ensures refused { IfErr result (HeadFault reading.now.text.now reading.now.tokens.now) }
{
    let begin = wanted(reading, 0, Sign::Features)?;
    if stands(reading, begin, Sign::Semicolon) {
        return Ok((List::new(reading.alloc), begin + 1));
    }
    some_feature_names(reading, begin)
}

/// Names of features with commas between them, and the semicolon behind them.
#[tactic(auto, using(crate::specs::Faults::head_memory, crate::specs::Faults::at_feature, crate::specs::Faults::features_unended, crate::proofs::HeadLaws::head_ends, crate::specs::Spelling::no_feature_yet, crate::specs::Spelling::another_feature))]
fn some_feature_names(
    reading: &Reading<'_>,
    begin: usize,
) -> Result<(List<Name>, usize), CatalogFault>
    requires begin { begin ≡ 1 }
    requires within { begin ≤ length reading.now.tokens.now }
    requires begins { stands reading.now.text.now reading.now.tokens.now 0 sign.Features ≡ true }
    requires some { stands reading.now.text.now reading.now.tokens.now 1 sign.Semicolon ≡ false }
    ensures within { IfOk result (λ found. found.1 ≤ length reading.now.tokens.now) }
    ensures spelled { IfOk result (λ found. IsHead reading.now.text.now reading.now.tokens.now found.0 found.1) }
    ensures refused { IfErr result (HeadFault reading.now.text.now reading.now.tokens.now) }
{
    let mut names = Vec::new(reading.alloc);
    let mut at = begin;
    'names: loop {
        let name = new_feature(reading, at, names.as_slice())?;
        names.push(name)?;
        if !stands(reading, at + 1, Sign::Comma) {
            let end = wanted(reading, at + 1, Sign::Semicolon)?;
            return Ok((List::from_vec(names), end));
        }
        at += 2;
    }
}

/// The name of a feature, whose case counts, where it is another one than those before it.
#[tactic(auto, using(crate::specs::Faults::feature_memory, crate::specs::Faults::no_feature_name, crate::specs::Faults::feature_again, crate::specs::Faults::one_feature_more))]
fn new_feature(reading: &Reading<'_>, at: usize, names: &[Name]) -> Result<Name, CatalogFault>
    ensures within { IfOk result (λ name. at < length reading.now.tokens.now) }
    ensures spelled { IfOk result (λ name. NewFeature reading.now.text.now reading.now.tokens.now names.now at name) }
    ensures refused { IfErr result (FeatureFault reading.now.text.now reading.now.tokens.now names.now at) }
{
    let Some(word) = name_at(reading, at) else {
        return Err(CatalogFault::Syntax(at));
    };
    let name = Name::from_slice(reading.alloc, word)?;
    if stood_before(&name, names) {
        return Err(CatalogFault::Duplicate(at));
    }
    if names.len() >= FEATURE_LIMIT as usize {
        return Err(CatalogFault::Limit(at, Which::Features));
    }
    Ok(name)
}

fn stood_before(name: &Name, names: &[Name]) -> bool
    ensures { result ≡ among name.now names.now }
{
    names.iter().any(|other| other == name)
}
