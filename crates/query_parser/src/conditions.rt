ghost use Rattle.std.specs.Prelude.{◌≡◌, ℕ, ◌<◌, ◌≤◌, ◌+◌, true, false, length, IfOk, IfErr};
ghost use Rattle.query_parser.specs.Conditions.{Condition, Conjunction, Negation, SpellsCond, IsWhere};
ghost use Rattle.query_parser.specs.Faults.{CondFault, WhereFault};
ghost use Rattle.query_parser.specs.Lexemes.{stands};
ghost use Rattle.query_parser.specs.Truths.{truth_in};
ghost use Rattle.query_parser.specs.declared.lexeme.Lexeme.TheVariants as lexeme;
ghost use Rattle.feature_expr.specs.Nesting.{nesting_limit};

use crate::clauses::parse_choice;
use crate::fault::ParseFault;
use crate::lexeme::{Lexeme, stands};
use crate::parsing::Parsing;
use crate::words::{op_at, parse_operand, wanted};
use feature_expr::{Value, deeper};
use vra_syntax::{Cond, Operand, cond_and, cond_choice, cond_not, cond_or};

/// The condition that begins at a place, where `nesting` brackets, `not` and choices are open, and the token behind it.
#[cycle(condition)]
#[tactic(auto, using(crate::specs::Conditions::one_conjunction, crate::specs::Conditions::another_conjunction, crate::specs::Conditions::whole_condition, crate::specs::Faults::cond_memory, crate::specs::Faults::in_first_conjunction, crate::specs::Faults::in_next_conjunction))]
pub fn parse_condition(
    parsing: &Parsing<'_>,
    nesting: u32,
    at: usize,
) -> Result<(Cond, usize), ParseFault>
    requires within { at ≤ length parsing.now.reading.tokens.now }
    requires limit { parsing.now.reading.max_nesting ≡ nesting_limit }
    ensures within { IfOk result (λ found. (at < found.1) × (found.1 ≤ length parsing.now.reading.tokens.now)) }
    ensures spelled { IfOk result (λ found. SpellsCond parsing.now.with_params parsing.now.reading.features.now parsing.now.reading.text.now parsing.now.reading.tokens.now (Condition nesting) at found.0 found.1) }
    ensures refused { IfErr result (CondFault parsing.now.with_params parsing.now.reading.features.now parsing.now.reading.text.now parsing.now.reading.tokens.now (Condition nesting) at) }
{
    let (mut left, mut end) = parse_conjunction(parsing, nesting, at)?;
    'links: while stands(&parsing.reading, end, Lexeme::Or) {
        let (right, next) = parse_conjunction(parsing, nesting, end + 1)?;
        left = cond_or(parsing.reading.alloc, left, right)?;
        end = next;
    }
    Ok((left, end))
}

#[cycle(condition)]
#[tactic(auto, using(crate::specs::Conditions::one_negation, crate::specs::Conditions::another_negation, crate::specs::Conditions::whole_conjunction, crate::specs::Faults::cond_memory, crate::specs::Faults::in_first_negation, crate::specs::Faults::in_next_negation))]
fn parse_conjunction(
    parsing: &Parsing<'_>,
    nesting: u32,
    at: usize,
) -> Result<(Cond, usize), ParseFault>
    requires within { at ≤ length parsing.now.reading.tokens.now }
    requires limit { parsing.now.reading.max_nesting ≡ nesting_limit }
    ensures within { IfOk result (λ found. (at < found.1) × (found.1 ≤ length parsing.now.reading.tokens.now)) }
    ensures spelled { IfOk result (λ found. SpellsCond parsing.now.with_params parsing.now.reading.features.now parsing.now.reading.text.now parsing.now.reading.tokens.now (Conjunction nesting) at found.0 found.1) }
    ensures refused { IfErr result (CondFault parsing.now.with_params parsing.now.reading.features.now parsing.now.reading.text.now parsing.now.reading.tokens.now (Conjunction nesting) at) }
{
    let (mut left, mut end) = parse_negation(parsing, nesting, at)?;
    'links: while stands(&parsing.reading, end, Lexeme::And) {
        let (right, next) = parse_negation(parsing, nesting, end + 1)?;
        left = cond_and(parsing.reading.alloc, left, right)?;
        end = next;
    }
    Ok((left, end))
}

#[cycle(condition)]
#[tactic(auto, using(crate::specs::Conditions::not_condition, crate::specs::Conditions::condition_in_brackets, crate::specs::Faults::cond_memory, crate::specs::Faults::not_too_deep, crate::specs::Faults::in_not, crate::specs::Faults::cond_too_deep, crate::specs::Faults::in_cond_brackets, crate::specs::Faults::cond_unclosed))]
fn parse_negation(
    parsing: &Parsing<'_>,
    nesting: u32,
    at: usize,
) -> Result<(Cond, usize), ParseFault>
    requires within { at ≤ length parsing.now.reading.tokens.now }
    requires limit { parsing.now.reading.max_nesting ≡ nesting_limit }
    ensures within { IfOk result (λ found. (at < found.1) × (found.1 ≤ length parsing.now.reading.tokens.now)) }
    ensures spelled { IfOk result (λ found. SpellsCond parsing.now.with_params parsing.now.reading.features.now parsing.now.reading.text.now parsing.now.reading.tokens.now (Negation nesting) at found.0 found.1) }
    ensures refused { IfErr result (CondFault parsing.now.with_params parsing.now.reading.features.now parsing.now.reading.text.now parsing.now.reading.tokens.now (Negation nesting) at) }
{
    if stands(&parsing.reading, at, Lexeme::Not) {
        let nested = deeper(&parsing.reading, nesting, at)?;
        let (inner, end) = parse_negation(parsing, nested, at + 1)?;
        Ok((cond_not(parsing.reading.alloc, inner)?, end))
    } else if stands(&parsing.reading, at, Lexeme::Open) {
        let nested = deeper(&parsing.reading, nesting, at)?;
        let (inner, last) = parse_condition(parsing, nested, at + 1)?;
        let end = wanted(&parsing.reading, last, Lexeme::Close)?;
        Ok((inner, end))
    } else if stands(&parsing.reading, at, Lexeme::Choice) {
        parse_cond_choice(parsing, nesting, at)
    } else {
        parse_comparison(parsing, at)
    }
}

#[cycle(condition)]
#[tactic(auto, using(crate::specs::Conditions::choice_of_conditions, crate::specs::Faults::cond_memory, crate::specs::Faults::in_cond_choice, crate::specs::Faults::in_left_cond, crate::specs::Faults::no_right_cond, crate::specs::Faults::in_right_cond, crate::specs::Faults::cond_sides_unclosed))]
fn parse_cond_choice(
    parsing: &Parsing<'_>,
    nesting: u32,
    at: usize,
) -> Result<(Cond, usize), ParseFault>
    requires begins { stands parsing.now.reading.text.now parsing.now.reading.tokens.now at lexeme.Choice ≡ true }
    requires within { at < length parsing.now.reading.tokens.now }
    requires limit { parsing.now.reading.max_nesting ≡ nesting_limit }
    ensures within { IfOk result (λ found. (at < found.1) × (found.1 ≤ length parsing.now.reading.tokens.now)) }
    ensures spelled { IfOk result (λ found. SpellsCond parsing.now.with_params parsing.now.reading.features.now parsing.now.reading.text.now parsing.now.reading.tokens.now (Negation nesting) at found.0 found.1) }
    ensures refused { IfErr result (CondFault parsing.now.with_params parsing.now.reading.features.now parsing.now.reading.text.now parsing.now.reading.tokens.now (Negation nesting) at) }
{
    let (expr, sides) = parse_choice(&parsing.reading, nesting, at)?;
    let (left, middle) = parse_condition(parsing, nesting + 2, sides)?;
    let from = wanted(&parsing.reading, middle, Lexeme::Comma)?;
    let (right, last) = parse_condition(parsing, nesting + 2, from)?;
    let end = wanted(&parsing.reading, last, Lexeme::Close)?;
    Ok((cond_choice(parsing.reading.alloc, expr, left, right)?, end))
}

/// The comparison, or the truth value alone, that begins at a place, and the token behind it.
#[tactic(auto, using(crate::proofs::ConditionLaws::compared, crate::proofs::ConditionLaws::truth_alone, crate::proofs::ConditionLaws::left_refused, crate::proofs::ConditionLaws::not_compared, crate::proofs::ConditionLaws::right_refused))]
fn parse_comparison(parsing: &Parsing<'_>, at: usize) -> Result<(Cond, usize), ParseFault>
    requires not_not { stands parsing.now.reading.text.now parsing.now.reading.tokens.now at lexeme.Not ≡ false }
    requires not_open { stands parsing.now.reading.text.now parsing.now.reading.tokens.now at lexeme.Open ≡ false }
    requires not_choice { stands parsing.now.reading.text.now parsing.now.reading.tokens.now at lexeme.Choice ≡ false }
    ensures within { IfOk result (λ found. (at < found.1) × (found.1 ≤ length parsing.now.reading.tokens.now)) }
    ensures spelled { (n : ℕ) → IfOk result (λ found. SpellsCond parsing.now.with_params parsing.now.reading.features.now parsing.now.reading.text.now parsing.now.reading.tokens.now (Negation n) at found.0 found.1) }
    ensures refused { (n : ℕ) → IfErr result (CondFault parsing.now.with_params parsing.now.reading.features.now parsing.now.reading.text.now parsing.now.reading.tokens.now (Negation n) at) }
{
    let (left, middle) = parse_operand(parsing, at)?;
    let Some(op) = op_at(&parsing.reading, middle) else {
        return match truth_of(&left) {
            Some(truth) => Ok((truth, middle)),
            None => Err(ParseFault::Syntax(middle)),
        };
    };
    let (right, end) = parse_operand(parsing, middle + 1)?;
    Ok((Cond::Cmp(left, op, right), end))
}

/// The condition that a truth value is where it stands alone.
fn truth_of(operand: &Operand) -> Option<Cond>
    ensures { result ≡ truth_in operand.now }
{
    match operand {
        Operand::Literal(Value::Bool(true)) => Some(Cond::True),
        Operand::Literal(Value::Bool(false)) => Some(Cond::False),
        _ => None,
    }
}

/// The condition behind the word `where`, or `true` where there is none, and the token behind it.
#[tactic(auto, using(crate::specs::Conditions::no_where, crate::specs::Conditions::some_where))]
pub fn parse_where(
    parsing: &Parsing<'_>,
    nesting: u32,
    at: usize,
) -> Result<(Cond, usize), ParseFault>
    requires within { at ≤ length parsing.now.reading.tokens.now }
    requires limit { parsing.now.reading.max_nesting ≡ nesting_limit }
    ensures within { IfOk result (λ found. (at ≤ found.1) × (found.1 ≤ length parsing.now.reading.tokens.now)) }
    ensures spelled { IfOk result (λ found. IsWhere parsing.now.with_params parsing.now.reading.features.now parsing.now.reading.text.now parsing.now.reading.tokens.now nesting at found.0 found.1) }
    ensures refused { IfErr result (WhereFault parsing.now.with_params parsing.now.reading.features.now parsing.now.reading.text.now parsing.now.reading.tokens.now nesting at) }
{
    if stands(&parsing.reading, at, Lexeme::Where) {
        let (cond, end) = parse_condition(parsing, nesting, at + 1)?;
        Ok((cond, end))
    } else {
        Ok((Cond::True, at))
    }
}
