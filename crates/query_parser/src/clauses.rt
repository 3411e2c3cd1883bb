ghost use Rattle.std.specs.Prelude.{◌≡◌, ◌<◌, ◌≤◌, ◌+◌, true, length, IfOk, IfErr};
ghost use Rattle.query_parser.specs.Parts.{IsExpression, IsChoice, IsWhen};
ghost use Rattle.query_parser.specs.Faults.{ExpressionFault, ChoiceFault, WhenFault};
ghost use Rattle.query_parser.specs.Lexemes.{stands};
ghost use Rattle.query_parser.specs.declared.lexeme.Lexeme.TheVariants as lexeme;
ghost use Rattle.feature_expr.specs.Nesting.{nesting_limit};

use crate::fault::ParseFault;
use crate::lexeme::{Lexeme, stands};
use crate::words::wanted;
use feature_expr::{Expr, Reading, deeper, expression};

/// The feature expression that begins at a place, where `nesting` brackets, `not` and choices are open, and the token
/// behind it.
pub fn parse_expression(
    reading: &Reading<'_>,
    nesting: u32,
    at: usize,
) -> Result<(Expr, usize), ParseFault>
    requires within { at ≤ length reading.now.tokens.now }
    requires limit { reading.now.max_nesting ≡ nesting_limit }
    ensures within { IfOk result (λ found. (at < found.1) × (found.1 ≤ length reading.now.tokens.now)) }
    ensures spelled { IfOk result (λ found. IsExpression reading.now.features.now reading.now.text.now reading.now.tokens.now nesting at found.0 found.1) }
    ensures refused { IfErr result (ExpressionFault reading.now.features.now reading.now.text.now reading.now.tokens.now nesting at) }
{
    match expression(reading, nesting, at) {
        Ok((expr, end)) => Ok((expr, end)),
        Err(fault) => Err(ParseFault::from(fault)),
    }
}

/// What chooses between the sides of the choice whose word stands at a place, and the place where the left side
/// begins. Two more levels are open there.
#[tactic(auto, using(crate::specs::Faults::choice_too_deep, crate::specs::Faults::no_square, crate::proofs::ClauseLaws::chooser_refused, crate::proofs::ClauseLaws::chooser_unclosed, crate::proofs::ClauseLaws::choice_unopened, crate::proofs::ClauseLaws::choice_sides_deep, crate::proofs::ClauseLaws::choice_is))]
pub fn parse_choice(
    reading: &Reading<'_>,
    nesting: u32,
    at: usize,
) -> Result<(Expr, usize), ParseFault>
    requires begins { stands reading.now.text.now reading.now.tokens.now at lexeme.Choice ≡ true }
    requires within { at < length reading.now.tokens.now }
    requires limit { reading.now.max_nesting ≡ nesting_limit }
    ensures within { IfOk result (λ found. (at < found.1) × (found.1 ≤ length reading.now.tokens.now)) }
    ensures nesting { IfOk result (λ found. nesting + 1 < nesting_limit) }
    ensures spelled { IfOk result (λ found. IsChoice reading.now.features.now reading.now.text.now reading.now.tokens.now nesting at found.0 found.1) }
    ensures refused { IfErr result (ChoiceFault reading.now.features.now reading.now.text.now reading.now.tokens.now nesting at) }
{
    let inner = deeper(reading, nesting, at)?;
    let from = wanted(reading, at + 1, Lexeme::OpenSquare)?;
    let (expr, close) = parse_expression(reading, inner, from)?;
    let next = wanted(reading, close, Lexeme::CloseSquare)?;
    let sides = wanted(reading, next, Lexeme::Open)?;
    let _within = deeper(reading, inner, next)?;
    Ok((expr, sides))
}

/// The condition behind the word `when`, or `true` where there is none, and the token behind it.
#[tactic(auto, using(crate::specs::Parts::no_when, crate::specs::Parts::some_when))]
pub fn parse_when(reading: &Reading<'_>, at: usize) -> Result<(Expr, usize), ParseFault>
    requires within { at ≤ length reading.now.tokens.now }
    requires limit { reading.now.max_nesting ≡ nesting_limit }
    ensures within { IfOk result (λ found. (at ≤ found.1) × (found.1 ≤ length reading.now.tokens.now)) }
    ensures spelled { IfOk result (λ found. IsWhen reading.now.features.now reading.now.text.now reading.now.tokens.now at found.0 found.1) }
    ensures refused { IfErr result (WhenFault reading.now.features.now reading.now.text.now reading.now.tokens.now 0 at) }
{
    if stands(reading, at, Lexeme::When) {
        let (cond, end) = parse_expression(reading, 0, at + 1)?;
        Ok((cond, end))
    } else {
        Ok((Expr::True, at))
    }
}
