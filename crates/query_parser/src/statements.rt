ghost use Rattle.std.specs.Prelude.{◌≡◌, ◌<◌, ◌≤◌, ◌+◌, ◌^◌, ◌||◌, true, length, IfOk, IfErr, IsTrue};
ghost use Rattle.query_parser.specs.Lexemes.{lexeme_at, stands};
ghost use Rattle.query_parser.specs.Settings.{integer_of, integer_at};
ghost use Rattle.query_parser.specs.StatementGrammar.{is_word};
ghost use Rattle.query_parser.specs.Statements.{IsTail, IsSetting, SpellsStatement, AreStatements};
ghost use Rattle.query_parser.specs.WriteFaults.{SettingFault, StatementFault, StatementsFault};
ghost use Rattle.query_parser.specs.declared.lexeme.Lexeme.TheVariants as lexeme;
ghost use Rattle.feature_expr.specs.Nesting.{nesting_limit};

use crate::fault::ParseFault;
use crate::lexeme::{Lexeme, lexeme_at, stands};
use crate::parsing::Parsing;
use crate::queries::parse_query;
use crate::words::wanted;
use crate::writes::{parse_delete, parse_insert, parse_update};
use feature_expr::{List, Reading, Token, TokenKind};
use vra_syntax::Statement;

/// All the statements of a text.
#[tactic(auto, using(crate::specs::Statements::no_statement_yet, crate::specs::Statements::no_statement_here, crate::specs::Statements::another_statement, crate::specs::Statements::ends_bare, crate::specs::Statements::ends_with_statement, crate::specs::WriteFaults::statements_memory, crate::specs::WriteFaults::in_statement, crate::specs::WriteFaults::statement_unended))]
pub fn parse_statements(parsing: &Parsing<'_>) -> Result<List<Statement>, ParseFault>
    requires limit { parsing.now.reading.max_nesting ≡ nesting_limit }
    ensures spelled { IfOk result (AreStatements parsing.now.with_params parsing.now.reading.features.now parsing.now.reading.text.now parsing.now.reading.tokens.now) }
    ensures refused { IfErr result (StatementsFault parsing.now.with_params parsing.now.reading.features.now parsing.now.reading.text.now parsing.now.reading.tokens.now) }
{
    let reading = &parsing.reading;
    let mut statements = Vec::new(reading.alloc);
    let mut at = 0;
    'statements: while !stands(reading, at, Lexeme::End) {
        if stands(reading, at, Lexeme::Semicolon) {
            at = wanted(reading, at, Lexeme::Semicolon)?;
        } else {
            let (statement, end) = parse_statement(parsing, at)?;
            statements.push(statement)?;
            if stands(reading, end, Lexeme::End) {
                return Ok(List::from_vec(statements));
            }
            at = wanted(reading, end, Lexeme::Semicolon)?;
        }
    }
    Ok(List::from_vec(statements))
}

/// The statement that begins at a token, and the token behind it.
#[tactic(auto, using(crate::specs::Statements::begin_statement, crate::specs::Statements::commit_statement, crate::specs::Statements::rollback_statement, crate::proofs::StatementLaws::sets, crate::specs::Statements::query_statement, crate::specs::WriteFaults::statement_memory, crate::specs::WriteFaults::in_setting, crate::specs::WriteFaults::in_insert, crate::specs::WriteFaults::in_delete, crate::specs::WriteFaults::in_update, crate::specs::WriteFaults::in_query, crate::proofs::StatementLaws::inserts, crate::proofs::StatementLaws::deletes, crate::proofs::StatementLaws::updates))]
fn parse_statement(parsing: &Parsing<'_>, at: usize) -> Result<(Statement, usize), ParseFault>
    requires within { at ≤ length parsing.now.reading.tokens.now }
    requires limit { parsing.now.reading.max_nesting ≡ nesting_limit }
    ensures within { IfOk result (λ found. (at < found.1) × (found.1 ≤ length parsing.now.reading.tokens.now)) }
    ensures spelled { IfOk result (λ found. SpellsStatement parsing.now.with_params parsing.now.reading.features.now parsing.now.reading.text.now parsing.now.reading.tokens.now at found.0 found.1) }
    ensures refused { IfErr result (StatementFault parsing.now.with_params parsing.now.reading.features.now parsing.now.reading.text.now parsing.now.reading.tokens.now at) }
{
    let reading = &parsing.reading;
    if stands(reading, at, Lexeme::Begin) {
        Ok((Statement::Begin, tail_end(reading, at + 1)))
    } else if stands(reading, at, Lexeme::Commit) {
        Ok((Statement::Commit, tail_end(reading, at + 1)))
    } else if stands(reading, at, Lexeme::Rollback) {
        Ok((Statement::Rollback, tail_end(reading, at + 1)))
    } else if stands(reading, at, Lexeme::Set) {
        let end = setting_end(parsing, at + 1)?;
        Ok((Statement::Set, end))
    } else if stands(reading, at, Lexeme::Insert) {
        let (write, end) = parse_insert(parsing, at + 1)?;
        Ok((Statement::Write(write), end))
    } else if stands(reading, at, Lexeme::Delete) {
        let (write, end) = parse_delete(parsing, at + 1)?;
        Ok((Statement::Write(write), end))
    } else if stands(reading, at, Lexeme::Update) {
        let (write, end) = parse_update(parsing, at + 1)?;
        Ok((Statement::Write(write), end))
    } else {
        let (query, end) = parse_query(parsing, 0, at)?;
        Ok((Statement::Query(query), end))
    }
}

/// The token behind `begin`, `commit` or `rollback` and what may stand behind that word.
#[tactic(auto, using(crate::specs::Statements::no_tail, crate::specs::Statements::transaction_tail, crate::specs::Statements::work_tail))]
fn tail_end(reading: &Reading<'_>, at: usize) -> usize
    requires { at ≤ length reading.now.tokens.now }
    ensures within { (at ≤ result) × (result ≤ length reading.now.tokens.now) }
    ensures spelled { IsTail reading.now.text.now reading.now.tokens.now at result }
{
    if stands(reading, at, Lexeme::Transaction) {
        at + 1
    } else if stands(reading, at, Lexeme::Work) {
        at + 1
    } else {
        at
    }
}

/// The token behind a setting, whose word `set` stands before a token. Any setting may be set, and does nothing.
#[tactic(auto, using(crate::specs::Statements::word_setting, crate::specs::Statements::text_setting, crate::proofs::SettingLaws::integer_is_setting, crate::specs::WriteFaults::no_setting, crate::specs::WriteFaults::no_to, crate::specs::WriteFaults::no_setting_value, crate::proofs::SettingLaws::setting_refused))]
fn setting_end(parsing: &Parsing<'_>, at: usize) -> Result<usize, ParseFault>
    requires within { at ≤ length parsing.now.reading.tokens.now }
    ensures ends { IfOk result (λ end. end ≡ at + 3) }
    ensures within { IfOk result (λ end. end ≤ length parsing.now.reading.tokens.now) }
    ensures named { IfOk result (λ end. is_word (lexeme_at parsing.now.reading.text.now parsing.now.reading.tokens.now at) ≡ true) }
    ensures equated { IfOk result (λ end. stands parsing.now.reading.text.now parsing.now.reading.tokens.now (at + 1) lexeme.To || stands parsing.now.reading.text.now parsing.now.reading.tokens.now (at + 1) lexeme.Equal ≡ true) }
    ensures valued { IfOk result (λ end. IsSetting parsing.now.with_params parsing.now.reading.text.now parsing.now.reading.tokens.now (at + 2)) }
    ensures refused { IfErr result (SettingFault parsing.now.with_params parsing.now.reading.text.now parsing.now.reading.tokens.now at) }
{
    let reading = &parsing.reading;
    if !is_word_at(reading, at) {
        return Err(ParseFault::Syntax(at));
    }
    if !is_to_at(reading, at + 1) {
        return Err(ParseFault::Syntax(at + 1));
    }
    if is_word_at(reading, at + 2) {
        return Ok(at + 3);
    }
    if stands(reading, at + 2, Lexeme::Text) {
        return Ok(at + 3);
    }
    if !stands(reading, at + 2, Lexeme::Integer) {
        return Err(ParseFault::Syntax(at + 2));
    }
    match integer_at(reading, at + 2) {
        Some(_value) => Ok(at + 3),
        None => Err(ParseFault::IntTooLarge(at + 2)),
    }
}

/// Whether a word stands at a token, reserved or not.
fn is_word_at(reading: &Reading<'_>, at: usize) -> bool
    ensures exact { result ≡ is_word (lexeme_at reading.now.text.now reading.now.tokens.now at) }
    ensures within { IsTrue result → at < length reading.now.tokens.now }
    ensures room { IsTrue result → at + 1 < 2 ^ 64 }
{
    is_word(lexeme_at(reading, at))
}

fn is_word(lexeme: Lexeme) -> bool
    ensures exact { result ≡ is_word lexeme }
{
    (lexeme as u8) < Lexeme::Integer as u8
}

fn is_to_at(reading: &Reading<'_>, at: usize) -> bool
    ensures exact { result ≡ (stands reading.now.text.now reading.now.tokens.now at lexeme.To || stands reading.now.text.now reading.now.tokens.now at lexeme.Equal) }
    ensures within { IsTrue result → at < length reading.now.tokens.now }
    ensures room { IsTrue result → at + 1 < 2 ^ 64 }
{
    stands(reading, at, Lexeme::To) || stands(reading, at, Lexeme::Equal)
}

fn integer_at(reading: &Reading<'_>, at: usize) -> Option<i64>
    ensures { result ≡ integer_at reading.now.tokens.now at }
{
    match reading.tokens.get(at) {
        Some(token) => integer_of(token),
        None => None,
    }
}

fn integer_of(token: &Token) -> Option<i64>
    ensures { result ≡ integer_of token.now.kind }
{
    match &token.kind {
        TokenKind::Integer(number) => *number,
        _ => None,
    }
}
