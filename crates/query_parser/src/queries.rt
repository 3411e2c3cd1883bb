ghost use Rattle.std.specs.Prelude.{◌≡◌, ◌<◌, ◌≤◌, ◌+◌, true, length, IfOk, IfErr};
ghost use Rattle.query_parser.specs.Faults.{QueryFault};
ghost use Rattle.query_parser.specs.Lexemes.{stands};
ghost use Rattle.query_parser.specs.Queries.{WholeQuery, Term, Simple, WholeSource, SourceTerm, SpellsQuery};
ghost use Rattle.query_parser.specs.declared.lexeme.Lexeme.TheVariants as lexeme;
ghost use Rattle.feature_expr.specs.Nesting.{nesting_limit};

use crate::clauses::parse_choice;
use crate::conditions::{parse_condition, parse_where};
use crate::fault::ParseFault;
use crate::items::parse_items;
use crate::lexeme::{Lexeme, stands};
use crate::parsing::Parsing;
use crate::words::{name_at, wanted};
use feature_expr::deeper;
use vra_syntax::{
    Query, query_alias, query_choice, query_except, query_join, query_select, query_union,
};

/// The query that begins at a place, where `nesting` brackets and choices are open, and the token behind it.
#[cycle(query)]
#[tactic(auto, using(crate::specs::Queries::one_term, crate::specs::Queries::union_term, crate::specs::Queries::except_term, crate::specs::Queries::whole_query, crate::specs::Faults::query_memory, crate::specs::Faults::in_first_term, crate::specs::Faults::in_union_term, crate::specs::Faults::in_except_term))]
pub fn parse_query(
    parsing: &Parsing<'_>,
    nesting: u32,
    at: usize,
) -> Result<(Query, usize), ParseFault>
    requires within { at ≤ length parsing.now.reading.tokens.now }
    requires limit { parsing.now.reading.max_nesting ≡ nesting_limit }
    ensures within { IfOk result (λ found. (at < found.1) × (found.1 ≤ length parsing.now.reading.tokens.now)) }
    ensures spelled { IfOk result (λ found. SpellsQuery parsing.now.with_params parsing.now.reading.features.now parsing.now.reading.text.now parsing.now.reading.tokens.now (WholeQuery nesting) at found.0 found.1) }
    ensures refused { IfErr result (QueryFault parsing.now.with_params parsing.now.reading.features.now parsing.now.reading.text.now parsing.now.reading.tokens.now (WholeQuery nesting) at) }
{
    let (mut left, mut end) = parse_term(parsing, nesting, at)?;
    'links: loop {
        if stands(&parsing.reading, end, Lexeme::Union) {
            let (right, next) = parse_term(parsing, nesting, end + 1)?;
            left = query_union(parsing.reading.alloc, left, right)?;
            end = next;
        } else if stands(&parsing.reading, end, Lexeme::Except) {
            let (right, next) = parse_term(parsing, nesting, end + 1)?;
            left = query_except(parsing.reading.alloc, left, right)?;
            end = next;
        } else {
            return Ok((left, end));
        }
    }
}

#[cycle(query)]
#[tactic(auto, using(crate::specs::Queries::select_term, crate::specs::Queries::simple_term, crate::specs::Faults::query_memory, crate::specs::Faults::in_items, crate::specs::Faults::no_from, crate::specs::Faults::in_source, crate::specs::Faults::in_select_where, crate::specs::Faults::in_simple_term))]
fn parse_term(parsing: &Parsing<'_>, nesting: u32, at: usize) -> Result<(Query, usize), ParseFault>
    requires within { at ≤ length parsing.now.reading.tokens.now }
    requires limit { parsing.now.reading.max_nesting ≡ nesting_limit }
    ensures within { IfOk result (λ found. (at < found.1) × (found.1 ≤ length parsing.now.reading.tokens.now)) }
    ensures spelled { IfOk result (λ found. SpellsQuery parsing.now.with_params parsing.now.reading.features.now parsing.now.reading.text.now parsing.now.reading.tokens.now (Term nesting) at found.0 found.1) }
    ensures refused { IfErr result (QueryFault parsing.now.with_params parsing.now.reading.features.now parsing.now.reading.text.now parsing.now.reading.tokens.now (Term nesting) at) }
{
    if !stands(&parsing.reading, at, Lexeme::Select) {
        return parse_simple(parsing, nesting, at);
    }
    let (items, behind) = parse_items(&parsing.reading, nesting, at + 1)?;
    let from = wanted(&parsing.reading, behind, Lexeme::From)?;
    let (source, last) = parse_source(parsing, nesting, from)?;
    let (cond, end) = parse_where(parsing, nesting, last)?;
    let query = query_select(parsing.reading.alloc, items, source, cond)?;
    Ok((query, end))
}

/// A table, `empty`, a query in brackets or a choice, and the token behind it.
#[cycle(query)]
#[tactic(auto, using(crate::specs::Queries::table, crate::specs::Queries::empty_query, crate::specs::Queries::query_in_brackets, crate::specs::Faults::query_memory, crate::specs::Faults::no_simple_query, crate::specs::Faults::query_too_deep, crate::specs::Faults::in_query_brackets, crate::specs::Faults::query_unclosed))]
fn parse_simple(
    parsing: &Parsing<'_>,
    nesting: u32,
    at: usize,
) -> Result<(Query, usize), ParseFault>
    requires within { at ≤ length parsing.now.reading.tokens.now }
    requires limit { parsing.now.reading.max_nesting ≡ nesting_limit }
    ensures within { IfOk result (λ found. (at < found.1) × (found.1 ≤ length parsing.now.reading.tokens.now)) }
    ensures spelled { IfOk result (λ found. SpellsQuery parsing.now.with_params parsing.now.reading.features.now parsing.now.reading.text.now parsing.now.reading.tokens.now (Simple nesting) at found.0 found.1) }
    ensures refused { IfErr result (QueryFault parsing.now.with_params parsing.now.reading.features.now parsing.now.reading.text.now parsing.now.reading.tokens.now (Simple nesting) at) }
{
    if stands(&parsing.reading, at, Lexeme::Empty) {
        Ok((Query::Empty, at + 1))
    } else if stands(&parsing.reading, at, Lexeme::Open) {
        let nested = deeper(&parsing.reading, nesting, at)?;
        let (query, last) = parse_query(parsing, nested, at + 1)?;
        let end = wanted(&parsing.reading, last, Lexeme::Close)?;
        Ok((query, end))
    } else if stands(&parsing.reading, at, Lexeme::Choice) {
        parse_query_choice(parsing, nesting, at)
    } else {
        let name = name_at(&parsing.reading, at)?;
        Ok((Query::Table(name), at + 1))
    }
}

#[cycle(query)]
#[tactic(auto, using(crate::specs::Queries::choice_of_queries, crate::specs::Faults::query_memory, crate::specs::Faults::in_query_choice, crate::specs::Faults::in_left_query, crate::specs::Faults::no_right_query, crate::specs::Faults::in_right_query, crate::specs::Faults::query_sides_unclosed))]
fn parse_query_choice(
    parsing: &Parsing<'_>,
    nesting: u32,
    at: usize,
) -> Result<(Query, usize), ParseFault>
    requires begins { stands parsing.now.reading.text.now parsing.now.reading.tokens.now at lexeme.Choice ≡ true }
    requires within { at < length parsing.now.reading.tokens.now }
    requires limit { parsing.now.reading.max_nesting ≡ nesting_limit }
    ensures within { IfOk result (λ found. (at < found.1) × (found.1 ≤ length parsing.now.reading.tokens.now)) }
    ensures spelled { IfOk result (λ found. SpellsQuery parsing.now.with_params parsing.now.reading.features.now parsing.now.reading.text.now parsing.now.reading.tokens.now (Simple nesting) at found.0 found.1) }
    ensures refused { IfErr result (QueryFault parsing.now.with_params parsing.now.reading.features.now parsing.now.reading.text.now parsing.now.reading.tokens.now (Simple nesting) at) }
{
    let (expr, sides) = parse_choice(&parsing.reading, nesting, at)?;
    let (left, middle) = parse_query(parsing, nesting + 2, sides)?;
    let from = wanted(&parsing.reading, middle, Lexeme::Comma)?;
    let (right, last) = parse_query(parsing, nesting + 2, from)?;
    let end = wanted(&parsing.reading, last, Lexeme::Close)?;
    Ok((query_choice(parsing.reading.alloc, expr, left, right)?, end))
}

/// What a select reads, with its joins, and the token behind it.
#[cycle(query)]
#[tactic(auto, using(crate::specs::Queries::one_source, crate::specs::Queries::joined_source, crate::specs::Queries::whole_source, crate::specs::Faults::query_memory, crate::specs::Faults::in_first_source, crate::specs::Faults::in_joined_source, crate::specs::Faults::no_on, crate::specs::Faults::in_on))]
fn parse_source(
    parsing: &Parsing<'_>,
    nesting: u32,
    at: usize,
) -> Result<(Query, usize), ParseFault>
    requires within { at ≤ length parsing.now.reading.tokens.now }
    requires limit { parsing.now.reading.max_nesting ≡ nesting_limit }
    ensures within { IfOk result (λ found. (at < found.1) × (found.1 ≤ length parsing.now.reading.tokens.now)) }
    ensures spelled { IfOk result (λ found. SpellsQuery parsing.now.with_params parsing.now.reading.features.now parsing.now.reading.text.now parsing.now.reading.tokens.now (WholeSource nesting) at found.0 found.1) }
    ensures refused { IfErr result (QueryFault parsing.now.with_params parsing.now.reading.features.now parsing.now.reading.text.now parsing.now.reading.tokens.now (WholeSource nesting) at) }
{
    let (mut left, mut end) = parse_source_term(parsing, nesting, at)?;
    'links: while stands(&parsing.reading, end, Lexeme::Join) {
        let (right, on) = parse_source_term(parsing, nesting, end + 1)?;
        let from = wanted(&parsing.reading, on, Lexeme::On)?;
        let (cond, next) = parse_condition(parsing, nesting, from)?;
        left = query_join(parsing.reading.alloc, left, right, cond)?;
        end = next;
    }
    Ok((left, end))
}

/// A simple query with the alias that may stand behind it, and the token behind it.
#[cycle(query)]
#[tactic(auto, using(crate::specs::Queries::plain_source, crate::specs::Queries::source_with_alias, crate::specs::Faults::query_memory, crate::specs::Faults::in_source_term, crate::specs::Faults::no_alias))]
fn parse_source_term(
    parsing: &Parsing<'_>,
    nesting: u32,
    at: usize,
) -> Result<(Query, usize), ParseFault>
    requires within { at ≤ length parsing.now.reading.tokens.now }
    requires limit { parsing.now.reading.max_nesting ≡ nesting_limit }
    ensures within { IfOk result (λ found. (at < found.1) × (found.1 ≤ length parsing.now.reading.tokens.now)) }
    ensures spelled { IfOk result (λ found. SpellsQuery parsing.now.with_params parsing.now.reading.features.now parsing.now.reading.text.now parsing.now.reading.tokens.now (SourceTerm nesting) at found.0 found.1) }
    ensures refused { IfErr result (QueryFault parsing.now.with_params parsing.now.reading.features.now parsing.now.reading.text.now parsing.now.reading.tokens.now (SourceTerm nesting) at) }
{
    let (source, end) = parse_simple(parsing, nesting, at)?;
    if !stands(&parsing.reading, end, Lexeme::As) {
        return Ok((source, end));
    }
    let name = name_at(&parsing.reading, end + 1)?;
    let source = query_alias(parsing.reading.alloc, source, name)?;
    Ok((source, end + 2))
}
