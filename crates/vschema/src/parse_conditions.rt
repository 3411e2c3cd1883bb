ghost use Rattle.std.specs.Prelude.{◌≡◌, ◌<◌, ◌≤◌, ◌+◌, true, length, IfOk, IfErr};
ghost use Rattle.vschema.specs.Spelling.{IsExpression, IsModel, IsWhen, IsTail};
ghost use Rattle.vschema.specs.Faults.{ExpressionFault, ModelFault, WhenFault, TailFault};
ghost use Rattle.feature_expr.specs.Nesting.{nesting_limit};

use crate::fault::CatalogFault;
use crate::words::{Sign, stands, wanted};
use feature_expr::{Expr, Reading, expression};

/// The expression that begins at a token, where `nesting` brackets are open, and the token behind it.
fn parse_expression(
    reading: &Reading<'_>,
    nesting: u32,
    at: usize,
) -> Result<(Expr, usize), CatalogFault>
    requires within { at ≤ length reading.now.tokens.now }
    requires limit { reading.now.max_nesting ≡ nesting_limit }
    ensures within { IfOk result (λ found. (at < found.1) × (found.1 ≤ length reading.now.tokens.now)) }
    ensures spelled { IfOk result (λ found. IsExpression reading.now.features.now reading.now.text.now reading.now.tokens.now nesting at found.0 found.1) }
    ensures refused { IfErr result (ExpressionFault reading.now.features.now reading.now.text.now reading.now.tokens.now nesting at) }
{
    match expression(reading, nesting, at) {
        Ok((expr, end)) => Ok((expr, end)),
        Err(fault) => Err(CatalogFault::from(fault)),
    }
}

/// The feature model behind the word `model`, or `true` where there is none, and the token behind it.
#[tactic(auto, using(crate::specs::Spelling::no_model, crate::specs::Spelling::some_model, crate::specs::Faults::in_model, crate::specs::Faults::model_unended))]
pub fn parse_model(reading: &Reading<'_>, at: usize) -> Result<(Expr, usize), CatalogFault>
    requires within { at ≤ length reading.now.tokens.now }
    requires limit { reading.now.max_nesting ≡ nesting_limit }
    ensures within { IfOk result (λ found. found.1 ≤ length reading.now.tokens.now) }
    ensures spelled { IfOk result (λ found. IsModel reading.now.features.now reading.now.text.now reading.now.tokens.now at found.0 found.1) }
    ensures refused { IfErr result (ModelFault reading.now.features.now reading.now.text.now reading.now.tokens.now at) }
{
    if !stands(reading, at, Sign::Model) {
        return Ok((Expr::True, at));
    }
    let (model, end) = parse_expression(reading, 0, at + 1)?;
    let end = wanted(reading, end, Sign::Semicolon)?;
    Ok((model, end))
}

/// The condition behind `when`, or `true` where there is none, and the token behind it.
#[tactic(auto, using(crate::specs::Spelling::no_when, crate::specs::Spelling::some_when))]
pub fn parse_when(
    reading: &Reading<'_>,
    nesting: u32,
    at: usize,
) -> Result<(Expr, usize), CatalogFault>
    requires within { at ≤ length reading.now.tokens.now }
    requires limit { reading.now.max_nesting ≡ nesting_limit }
    ensures within { IfOk result (λ found. (at ≤ found.1) × (found.1 ≤ length reading.now.tokens.now)) }
    ensures spelled { IfOk result (λ found. IsWhen reading.now.features.now reading.now.text.now reading.now.tokens.now nesting at found.0 found.1) }
    ensures refused { IfErr result (WhenFault reading.now.features.now reading.now.text.now reading.now.tokens.now nesting at) }
{
    if stands(reading, at, Sign::When) {
        let (cond, end) = parse_expression(reading, nesting, at + 1)?;
        Ok((cond, end))
    } else {
        Ok((Expr::True, at))
    }
}

/// The condition behind the brackets of a table or a row, and the token behind their semicolon.
#[tactic(auto, using(crate::specs::Faults::in_tail_condition, crate::specs::Faults::tail_unended))]
pub fn parse_tail(reading: &Reading<'_>, at: usize) -> Result<(Expr, usize), CatalogFault>
    requires within { at ≤ length reading.now.tokens.now }
    requires limit { reading.now.max_nesting ≡ nesting_limit }
    ensures within { IfOk result (λ found. (at < found.1) × (found.1 ≤ length reading.now.tokens.now)) }
    ensures spelled { IfOk result (λ found. IsTail reading.now.features.now reading.now.text.now reading.now.tokens.now at found.0 found.1) }
    ensures refused { IfErr result (TailFault reading.now.features.now reading.now.text.now reading.now.tokens.now at) }
{
    let (cond, last) = parse_when(reading, 0, at)?;
    let end = wanted(reading, last, Sign::Semicolon)?;
    Ok((cond, end))
}
