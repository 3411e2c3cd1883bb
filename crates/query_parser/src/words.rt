ghost use Rattle.std.specs.Prelude.{◌≡◌, ◌<◌, ◌≤◌, ◌+◌, ◌^◌, true, false, length, Some, None, Ok, Err, IfOk, IfErr, IfSome, IsTrue};
ghost use Rattle.word_tokens.specs.Tokens.{bytes_of};
ghost use Rattle.query_parser.specs.Lexemes.{lexeme_at, stands, is_name, name_at, op_of, op_at, truth_of, value_of_kind, value_at};
ghost use Rattle.query_parser.specs.Wanted.{is_token, IsSyntaxAt, IsNoValue};
ghost use Rattle.query_parser.specs.Parts.{IsColumn, IsOperand};
ghost use Rattle.query_parser.specs.Faults.{ColumnFault, OperandFault};
ghost use Rattle.query_parser.specs.declared.fault.ParseFault.TheVariants as fault;

use crate::fault::ParseFault;
use crate::lexeme::{Lexeme, lexeme_at, stands};
use crate::parsing::Parsing;
use feature_expr::{ColName, Name, Reading, Token, TokenKind, TryCopy, Value, same_word};
use vra_syntax::{Op, Operand};

/// The token behind one that has to stand at a place.
pub fn wanted(reading: &Reading<'_>, at: usize, lexeme: Lexeme) -> Result<usize, ParseFault>
    requires token { IsTrue (is_token lexeme) }
    ensures ok { IfOk result (λ next. (next ≡ at + 1) × (stands reading.now.text.now reading.now.tokens.now at lexeme ≡ true)) }
    ensures within { IfOk result (λ next. next ≤ length reading.now.tokens.now) }
    ensures err { IfErr result (λ why. (why ≡ fault.Syntax at) × (stands reading.now.text.now reading.now.tokens.now at lexeme ≡ false)) }
{
    if stands(reading, at, lexeme) {
        Ok(at + 1)
    } else {
        Err(ParseFault::Syntax(at))
    }
}

/// Whether it may stand as a name.
fn is_name(lexeme: Lexeme) -> bool
    ensures { result ≡ is_name lexeme }
{
    match lexeme {
        Lexeme::Transaction => true,
        Lexeme::Work => true,
        Lexeme::To => true,
        Lexeme::Name => true,
        _ => false,
    }
}

pub fn is_name_at(reading: &Reading<'_>, at: usize) -> bool
    ensures { result ≡ is_name (lexeme_at reading.now.text.now reading.now.tokens.now at) }
{
    is_name(lexeme_at(reading, at))
}

/// The name of a table, a column or an alias that stands at a place.
#[tactic(auto, unfolding(crate::specs::Lexemes::name_at))]
pub fn name_at(reading: &Reading<'_>, at: usize) -> Result<Name, ParseFault>
    ensures ok { IfOk result (λ name. name_at reading.now.text.now reading.now.tokens.now at ≡ Some name) }
    ensures within { IfOk result (λ name. at < length reading.now.tokens.now) }
    ensures room { IfOk result (λ name. at + 1 < 2 ^ 64) }
    ensures err { IfErr result (λ why. IsSyntaxAt at why (name_at reading.now.text.now reading.now.tokens.now at ≡ None)) }
{
    if !is_name_at(reading, at) {
        return Err(ParseFault::Syntax(at));
    }
    match reading.tokens.get(at) {
        Some(token) => Ok(Name::folded(reading.alloc, token.bytes(reading.text))?),
        None => Err(ParseFault::Syntax(at)),
    }
}

fn op_of(lexeme: Lexeme) -> Option<Op>
    ensures exact { result ≡ op_of lexeme }
    ensures token { IfSome result (λ op. IsTrue (is_token lexeme)) }
{
    match lexeme {
        Lexeme::Equal => Some(Op::Eq),
        Lexeme::NotEqual => Some(Op::Ne),
        Lexeme::Less => Some(Op::Lt),
        Lexeme::LessEqual => Some(Op::Le),
        Lexeme::Greater => Some(Op::Gt),
        Lexeme::GreaterEqual => Some(Op::Ge),
        _ => None,
    }
}

/// How the sign at a place compares.
pub fn op_at(reading: &Reading<'_>, at: usize) -> Option<Op>
    ensures exact { result ≡ op_at reading.now.text.now reading.now.tokens.now at }
    ensures within { IfSome result (λ op. at < length reading.now.tokens.now) }
    ensures room { IfSome result (λ op. at + 1 < 2 ^ 64) }
{
    op_of(lexeme_at(reading, at))
}

/// The value that stands at a place: a literal, or a parameter where the text may have some.
#[tactic(auto, unfolding(crate::specs::Lexemes::value_at))]
pub fn value_at(parsing: &Parsing<'_>, at: usize) -> Result<Operand, ParseFault>
    ensures ok { IfOk result (λ value. value_at parsing.now.with_params parsing.now.reading.text.now parsing.now.reading.tokens.now at ≡ Ok value) }
    ensures within { IfOk result (λ value. at < length parsing.now.reading.tokens.now) }
    ensures room { IfOk result (λ value. at + 1 < 2 ^ 64) }
    ensures err { IfErr result (IsNoValue (value_at parsing.now.with_params parsing.now.reading.text.now parsing.now.reading.tokens.now at)) }
{
    match parsing.reading.tokens.get(at) {
        Some(token) => value_of(parsing, at, token),
        None => Err(ParseFault::Syntax(at)),
    }
}

fn value_of(parsing: &Parsing<'_>, at: usize, token: &Token) -> Result<Operand, ParseFault>
    ensures ok { IfOk result (λ value. value_of_kind parsing.now.with_params at token.now.kind (bytes_of parsing.now.reading.text.now token.now) ≡ Ok value) }
    ensures err { IfErr result (IsNoValue (value_of_kind parsing.now.with_params at token.now.kind (bytes_of parsing.now.reading.text.now token.now))) }
{
    match &token.kind {
        TokenKind::Integer(Some(number)) => Ok(Operand::Literal(Value::Int(*number))),
        TokenKind::Integer(None) => Err(ParseFault::IntTooLarge(at)),
        TokenKind::Text(text) => {
            let text = text.copy(parsing.reading.alloc)?;
            Ok(Operand::Literal(Value::Text(text)))
        }
        TokenKind::Param(Some(number)) => {
            if parsing.with_params {
                Ok(Operand::Param(*number))
            } else {
                Err(ParseFault::NoParam(at))
            }
        }
        TokenKind::Param(None) => Err(ParseFault::TooManyParams(at)),
        TokenKind::Word => truth_of(at, token.bytes(parsing.reading.text)),
        TokenKind::Sign => Err(ParseFault::Syntax(at)),
        TokenKind::Bad => Err(ParseFault::Syntax(at)),
    }
}

fn truth_of(at: usize, word: &[u8]) -> Result<Operand, ParseFault>
    ensures { result ≡ truth_of at word.now }
{
    if same_word(word, b"true") {
        Ok(Operand::Literal(Value::Bool(true)))
    } else if same_word(word, b"false") {
        Ok(Operand::Literal(Value::Bool(false)))
    } else {
        Err(ParseFault::Syntax(at))
    }
}

/// The name of the column at a place, and the token behind it.
#[tactic(auto, using(crate::specs::Parts::plain_column, crate::specs::Parts::prefixed_column, crate::specs::Faults::column_memory, crate::specs::Faults::no_column, crate::specs::Faults::no_base))]
pub fn parse_column(reading: &Reading<'_>, at: usize) -> Result<(ColName, usize), ParseFault>
    ensures within { IfOk result (λ found. (at < found.1) × (found.1 ≤ length reading.now.tokens.now)) }
    ensures spelled { IfOk result (λ found. IsColumn reading.now.text.now reading.now.tokens.now at found.0 found.1) }
    ensures refused { IfErr result (ColumnFault reading.now.text.now reading.now.tokens.now at) }
{
    let name = name_at(reading, at)?;
    if !stands(reading, at + 1, Lexeme::Dot) {
        let column = ColName {
            prefix: None,
            base: name,
        };
        return Ok((column, at + 1));
    }
    let base = name_at(reading, at + 2)?;
    let column = ColName {
        prefix: Some(name),
        base,
    };
    Ok((column, at + 3))
}

/// The side of a comparison at a place, and the token behind it.
#[tactic(auto, using(crate::specs::Parts::column_operand, crate::proofs::WordLaws::operand_of_value, crate::proofs::WordLaws::operand_in_column, crate::proofs::WordLaws::operand_no_value))]
pub fn parse_operand(parsing: &Parsing<'_>, at: usize) -> Result<(Operand, usize), ParseFault>
    ensures within { IfOk result (λ found. (at < found.1) × (found.1 ≤ length parsing.now.reading.tokens.now)) }
    ensures spelled { IfOk result (λ found. IsOperand parsing.now.with_params parsing.now.reading.text.now parsing.now.reading.tokens.now at found.0 found.1) }
    ensures refused { IfErr result (OperandFault parsing.now.with_params parsing.now.reading.text.now parsing.now.reading.tokens.now at) }
{
    if is_name_at(&parsing.reading, at) {
        let (column, end) = parse_column(&parsing.reading, at)?;
        Ok((Operand::Column(column), end))
    } else {
        let value = value_at(parsing, at)?;
        Ok((value, at + 1))
    }
}
