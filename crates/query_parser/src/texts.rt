ghost use Rattle.std.specs.Prelude.{◌≡◌, ◌≢◌, ℕ, List as ListOf, [], ◌∷◌, ◌++◌, IfOk, IfErr};
ghost use Rattle.query_printer.specs.Printing.{text_of};
ghost use Rattle.query_parser.specs.Texts.{IsText, IsRefusedText, GivesStatements, GivesTextFault, placed_at};
ghost use Rattle.query_parser.specs.declared.refused.ParseRefused.{ParseRefused as Why};
ghost use Rattle.query_parser.specs.declared.refused.ParseRefused.TheVariants as refused;
ghost use Rattle.vra_syntax.specs.declared.statement.Statement.{Statement as Parsed};

use crate::fault::ParseFault;
use crate::parsing::Parsing;
use crate::refused::ParseRefused;
use crate::statements::parse_statements;
use feature_expr::{Features, List, Memory, NESTING_LIMIT, Reading, Token, token_place, tokens};
use std::alloc::Global;
use vra_syntax::Statement;

/// The statements of a text, which may name these features. Each level of nesting takes some hundred bytes of the
/// stack.
#[tactic(auto, using(crate::proofs::ParseLaws::is_text, crate::proofs::ParseLaws::is_refused, crate::proofs::TextLaws::gives_found, crate::proofs::TextLaws::gives_refused, crate::proofs::TextLaws::fault_found, crate::proofs::TextLaws::fault_refused))]
pub fn parse(
    alloc: Global,
    text: &str,
    features: &Features,
    with_params: bool,
) -> Result<List<Statement>, ParseRefused>
    ensures ok { IfOk result (IsText features.now with_params text.now) }
    ensures err { IfErr result (IsRefusedText features.now with_params text.now) }
    ensures read { (all : ListOf Parsed) → IsText features.now with_params text.now all → GivesStatements all result }
    ensures refused { (why : Why) → IsRefusedText features.now with_params text.now why → why ≢ refused.Memory → GivesTextFault why result }
    ensures printed { (origin : ListOf ℕ) (before after : ListOf Parsed) (s : Parsed) → IsText features.now with_params origin (before ++ s ∷ after) → text.now ≡ text_of features.now s → GivesStatements (s ∷ []) result }
{
    // The count shows that the names are those of features, so that each is read as its own feature.
    let _names = features.count();
    let tokens = match tokens(alloc, text) {
        Ok(tokens) => tokens,
        Err(Memory) => return Err(ParseRefused::Memory),
    };
    let reading = Reading {
        alloc,
        text: text.as_bytes(),
        tokens: tokens.as_slice(),
        features,
        max_nesting: NESTING_LIMIT,
    };
    let parsing = Parsing {
        reading,
        with_params,
    };
    match parse_statements(&parsing) {
        Ok(statements) => Ok(statements),
        Err(fault) => Err(placed(fault, text, tokens.as_slice())),
    }
}

/// A fault with its place among the characters.
fn placed(fault: ParseFault, text: &str, tokens: &[Token]) -> ParseRefused
    ensures { result ≡ placed_at text.now tokens.now fault }
{
    match fault {
        ParseFault::Syntax(at) => ParseRefused::Syntax(token_place(text, tokens, at)),
        ParseFault::UnknownFeature(at) => {
            ParseRefused::UnknownFeature(token_place(text, tokens, at))
        }
        ParseFault::IntTooLarge(at) => ParseRefused::IntTooLarge(token_place(text, tokens, at)),
        ParseFault::TooDeep(at) => ParseRefused::TooDeep(token_place(text, tokens, at)),
        ParseFault::TooManyParams(at) => ParseRefused::TooManyParams(token_place(text, tokens, at)),
        ParseFault::NoParam(at) => ParseRefused::NoParam(token_place(text, tokens, at)),
        ParseFault::Memory => ParseRefused::Memory,
    }
}
