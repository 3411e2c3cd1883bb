ghost use Rattle.std.specs.Prelude.{◌≡◌, ◌≢◌, ◌≤◌, List as ListOf, [], length, IfOk, IfErr};
ghost use Rattle.word_tokens.specs.Tokens.{AreTokens};
ghost use Rattle.vschema.specs.Words.{line_number};
ghost use Rattle.vschema.specs.Spelling.{SpellCatalogue};
ghost use Rattle.vschema.specs.Files.{IsCatalogue};
ghost use Rattle.vschema.specs.Faults.{FileFault};
ghost use Rattle.vschema.specs.Formed.{IsFormed};
ghost use Rattle.vschema.specs.Refusals.{Refuses, GivesCatalogue, GivesFileFault, refused_at};
ghost use Rattle.vschema.specs.declared.catalog.Catalog.{Catalog as Spelled};
ghost use Rattle.vschema.specs.declared.catalog.OpeningRow.{OpeningRow as Row};
ghost use Rattle.vschema.specs.declared.refused.CatalogRefused.{CatalogRefused as Why};
ghost use Rattle.vschema.specs.declared.refused.CatalogRefused.TheVariants as refused;

use crate::catalog::{Catalog, OpeningRow};
use crate::entries::parse_entries;
use crate::fault::CatalogFault;
use crate::parse_conditions::parse_model;
use crate::parse_features::parse_features;
use crate::refused::CatalogRefused;
use feature_expr::{Features, List, NESTING_LIMIT, Reading, Token, end_line, tokens};
use std::alloc::Global;
use std::str;

/// The catalogue that a file's bytes spell, and its opening rows in the file's order.
///
/// It takes time in the number of bytes, but for look-ups of names.
pub fn parse_catalog(
    alloc: Global,
    bytes: &[u8],
) -> Result<(Catalog, List<OpeningRow>), CatalogRefused>
    ensures spelled { IfOk result (λ found. IsCatalogue bytes.now found.0 found.1) }
    ensures formed { IfOk result (λ found. IsFormed found.0 found.1) }
    ensures refused { IfErr result (λ why. Refuses why bytes.now) }
    ensures read { (catalog : Spelled) (rows : ListOf Row) → IsCatalogue bytes.now catalog rows → GivesCatalogue catalog rows result }
    ensures refused_for { (why : Why) → Refuses why bytes.now → why ≢ refused.Memory → GivesFileFault why result }
{
    match str::from_utf8(bytes) {
        Ok(text) => parse_text(alloc, text),
        Err(error) => Err(CatalogRefused::Utf8(error.valid_up_to() as u64)),
    }
}

#[tactic(auto, using(crate::proofs::AnswerLaws::refused_text, crate::proofs::AnswerLaws::is_catalogue, crate::proofs::FileLaws::fault_found))]
fn parse_text(alloc: Global, text: &str) -> Result<(Catalog, List<OpeningRow>), CatalogRefused>
    ensures spelled { IfOk result (λ found. IsCatalogue text.now found.0 found.1) }
    ensures formed { IfOk result (λ found. IsFormed found.0 found.1) }
    ensures refused { IfErr result (λ why. Refuses why text.now) }
    ensures read { (catalog : Spelled) (rows : ListOf Row) → IsCatalogue text.now catalog rows → GivesCatalogue catalog rows result }
    ensures refused_for { (why : Why) → Refuses why text.now → why ≢ refused.Memory → GivesFileFault why result }
{
    let tokens = tokens(alloc, text)?;
    match parse_tokens(alloc, text.as_bytes(), tokens.as_slice()) {
        Ok(found) => Ok(found),
        Err(fault) => Err(placed(fault, text, tokens.as_slice())),
    }
}

/// The catalogue that all the tokens of a text spell.
#[tactic(auto, using(crate::specs::Faults::catalogue_memory, crate::specs::Faults::in_head, crate::specs::Faults::at_model, crate::specs::Faults::in_entries))]
fn parse_tokens(
    alloc: Global,
    text: &[u8],
    tokens: &[Token],
) -> Result<(Catalog, List<OpeningRow>), CatalogFault>
    ensures spelled { IfOk result (λ found. SpellCatalogue text.now tokens.now found.0 found.1) }
    ensures refused { IfErr result (FileFault text.now tokens.now) }
{
    let no_features = no_features(alloc);
    let head = Reading {
        alloc,
        text,
        tokens,
        features: &no_features,
        max_nesting: NESTING_LIMIT,
    };
    let (features, body) = parse_features(&head)?;
    let reading = Reading {
        features: &features,
        ..head
    };
    let (model, entries) = parse_model(&reading, body)?;
    let (tables, rows) = parse_entries(&reading, entries)?;
    let catalog = Catalog {
        features,
        model,
        tables,
    };
    Ok((catalog, rows))
}

#[tactic(auto, unfolding(feature_expr::specs::Names::refusal))]
fn no_features(alloc: Global) -> Features
    ensures { result ≡ [] }
{
    match Features::new(List::new(alloc)) {
        Ok(features) => features,
        Err(_why) => unreachable!(),
    }
}

/// A fault with its line.
fn placed(fault: CatalogFault, text: &str, tokens: &[Token]) -> CatalogRefused
    ensures { result ≡ refused_at text.now tokens.now fault }
{
    match fault {
        CatalogFault::Syntax(at) => CatalogRefused::Syntax(token_line(text, tokens, at)),
        CatalogFault::Duplicate(at) => CatalogRefused::Duplicate(token_line(text, tokens, at)),
        CatalogFault::UnknownFeature(at) => {
            CatalogRefused::UnknownFeature(token_line(text, tokens, at))
        }
        CatalogFault::UnknownName(at) => CatalogRefused::UnknownName(token_line(text, tokens, at)),
        CatalogFault::WrongKind(at) => CatalogRefused::WrongKind(token_line(text, tokens, at)),
        CatalogFault::Limit(at, which) => {
            CatalogRefused::Limit(token_line(text, tokens, at), which)
        }
        CatalogFault::Memory => CatalogRefused::Memory,
    }
}

/// The line of a token, or that of the text's end where there is none.
#[tactic(auto, unfolding(crate::specs::Words::line_number))]
fn token_line(text: &str, tokens: &[Token], at: usize) -> u64
    ensures { result ≡ line_number text.now tokens.now at }
{
    match tokens.get(at) {
        Some(token) => token.line,
        None => end_line(text),
    }
}
