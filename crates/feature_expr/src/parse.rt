ghost use Rattle.std.specs.Prelude.{◌≡◌, ◌≢◌, ℕ, true, false, ◌<◌, ◌≤◌, ◌+◌, length, slice_get, IfOk, IfErr, IsTrue};
ghost use Rattle.std.specs.Option.{option_copied};
ghost use Rattle.word_tokens.specs.Tokens.{bytes_of, is_word_at, is_mark_at, place_at, AreTokens};
ghost use Rattle.feature_expr.specs.ExprGrammar.{Disjunction, Conjunction, Negation, sign_of_kind, sign_of_word, sign_of_mark, sign_at, feature_at, IsToken, IsRead, IsRefused, AreKnown, IsFirst, Spells};
ghost use Rattle.feature_expr.specs.ExprTexts.{IsViable, IsFault, IsText, IsRefusedText, Gives, GivesFault, placed_at};
ghost use Rattle.feature_expr.specs.Printing.{HasNames, text_nesting, text_of};
ghost use Rattle.feature_expr.specs.declared.expr.Expr.{Expr};
ghost use Rattle.feature_expr.specs.declared.parse.ExprRefused.{ExprRefused as Why};
ghost use Rattle.feature_expr.specs.declared.parse.ExprRefused.TheVariants as refused;
ghost use Rattle.feature_expr.specs.declared.parse.Fault.TheVariants as fault;
ghost use Rattle.feature_expr.specs.declared.parse.Sign.TheVariants as sign;

use crate::expr::{Expr, make_and, make_not, make_or};
use crate::features::Features;
use std::alloc::Global;
use thiserror::Error;
use values::Memory;
use word_tokens::{Token, TokenKind, end_place, is_name_word, same_word, tokens};

/// How deep brackets, `not` and `choice` may nest in statements and in a catalogue.
pub const NESTING_LIMIT: u32 = 64;

/// Why a text isn't an expression, with the place of the first fault, a count of characters from 1.
#[derive(Clone, Copy, Debug, PartialEq, Eq, Error)]
pub enum ExprRefused {
    #[error("syntax error at character {0}")]
    Syntax(u64),
    #[error("unknown feature at character {0}")]
    UnknownFeature(u64),
    #[error("nesting is too deep at character {0}")]
    TooDeep(u64),
    #[error("out of memory")]
    Memory,
}

/// The first fault among tokens, with the number of its token. One behind the last token is the end of the text.
#[derive(Clone, Copy, Debug, PartialEq, Eq)]
pub enum Fault {
    Syntax(usize),
    UnknownFeature(usize),
    TooDeep(usize),
    Memory,
}

impl From<Memory> for Fault {
    ghost use Rattle.std.specs.Prelude.{◌≡◌};
    ghost use Rattle.feature_expr.specs.ExprTexts.{IsViable, IsFault, IsText, IsRefusedText, placed_at};
    ghost use Rattle.feature_expr.specs.declared.parse.Fault.TheVariants as fault;
    ghost use Rattle.feature_expr.specs.declared.parse.Sign.TheVariants as sign;

    ghost from_gives = { λ _ given. given ≡ fault.Memory };

    fn from(_memory: Memory) -> Fault {
        Fault::Memory
    }
}

/// What tokens are read with: the text that they are of, the features that it may name, and how deep brackets and
/// `not` may nest in it.
#[derive(Clone, Copy)]
pub struct Reading<'a> {
    pub alloc: Global,
    pub text: &'a [u8],
    pub tokens: &'a [Token],
    pub features: &'a Features,
    pub max_nesting: u32,
}

/// The expression that a text spells. Each level of nesting takes some hundred bytes of the stack.
pub fn parse_expr(
    alloc: Global,
    text: &str,
    features: &Features,
    max_nesting: u32,
) -> Result<Expr, ExprRefused>
    ensures ok { IfOk result (λ expr. IsText features.now text.now max_nesting expr) }
    ensures err { IfErr result (λ why. IsRefusedText features.now text.now max_nesting why) }
    ensures read { (expr : Expr) → IsText features.now text.now max_nesting expr → Gives expr result }
    ensures refused { (why : Why) → IsRefusedText features.now text.now max_nesting why → why ≢ refused.Memory → GivesFault why result }
    ensures known { IfOk result (HasNames features.now) }
    ensures printed { (expr : Expr) → HasNames features.now expr → text_nesting expr ≤ max_nesting → text.now ≡ text_of features.now expr → Gives expr result }
{
    // The count shows that the names are those of features, so that each is read as its own feature.
    let _names = features.count();
    let tokens = match tokens(alloc, text) {
        Ok(tokens) => tokens,
        Err(Memory) => return Err(ExprRefused::Memory),
    };
    let reading = Reading {
        alloc,
        text: text.as_bytes(),
        tokens: tokens.as_slice(),
        features,
        max_nesting,
    };
    match whole_expression(&reading) {
        Ok((expr, _end)) => Ok(expr),
        Err(fault) => Err(placed(fault, text, tokens.as_slice())),
    }
}

fn placed(fault: Fault, text: &str, tokens: &[Token]) -> ExprRefused
    ensures { result ≡ placed_at text.now tokens.now fault }
{
    match fault {
        Fault::Syntax(at) => ExprRefused::Syntax(token_place(text, tokens, at)),
        Fault::UnknownFeature(at) => ExprRefused::UnknownFeature(token_place(text, tokens, at)),
        Fault::TooDeep(at) => ExprRefused::TooDeep(token_place(text, tokens, at)),
        Fault::Memory => ExprRefused::Memory,
    }
}

/// The place of a token, or one past the last character where there is none.
pub fn token_place(text: &str, tokens: &[Token], at: usize) -> u64
    ensures { result ≡ place_at text.now tokens.now at }
{
    match tokens.get(at) {
        Some(token) => token.place,
        None => end_place(text),
    }
}

/// The expression that all the tokens spell, and their number.
fn whole_expression(reading: &Reading<'_>) -> Result<(Expr, usize), Fault>
    ensures ends { IfOk result (λ found. sign_at reading.now.text.now reading.now.tokens.now found.1 ≡ sign.End) }
    ensures viable { IfOk result (λ found. IsViable reading.now.text.now reading.now.tokens.now reading.now.max_nesting (found.1 + 1)) }
    ensures spelled { IfOk result (λ found. Spells reading.now.features.now reading.now.text.now reading.now.tokens.now (Disjunction 0) 0 found.0 found.1) }
    ensures refused { IfErr result (IsFault reading.now.features.now reading.now.text.now reading.now.tokens.now reading.now.max_nesting) }
    ensures first { IfErr result (IsFirst reading.now.features.now reading.now.text.now reading.now.tokens.now 0) }
{
    let (expr, end) = expression(reading, 0, 0)?;
    if is_sign(reading, end, Sign::End) {
        Ok((expr, end))
    } else {
        Err(Fault::Syntax(end))
    }
}

/// Whether a token is this word, in any case.
pub fn is_word_at(reading: &Reading<'_>, at: usize, word: &[u8]) -> bool
    ensures exact { result ≡ is_word_at reading.now.text.now reading.now.tokens.now at word.now }
    ensures within { IsTrue result → at < length reading.now.tokens.now }
{
    match reading.tokens.get(at) {
        Some(token) => {
            matches!(&token.kind, TokenKind::Word) && same_word(token.bytes(reading.text), word)
        }
        None => false,
    }
}

/// Whether a token is this sign.
pub fn is_sign_at(reading: &Reading<'_>, at: usize, sign: &[u8]) -> bool
    ensures exact { result ≡ is_mark_at reading.now.text.now reading.now.tokens.now at sign.now }
    ensures within { IsTrue result → at < length reading.now.tokens.now }
{
    match reading.tokens.get(at) {
        Some(token) => {
            matches!(&token.kind, TokenKind::Sign) && token.bytes(reading.text) == sign
        }
        None => false,
    }
}

/// What a token is to the grammar of expressions.
#[derive(Clone, Copy, PartialEq, Eq)]
enum Sign {
    Or,
    And,
    Not,
    True,
    False,
    Feature,
    Open,
    Close,
    End,
    Other,
}

/// What the token at a place is. Behind the last token stands the end of the text.
#[tactic(auto, unfolding(crate::specs::ExprGrammar::sign_at))]
fn sign_at(reading: &Reading<'_>, at: usize) -> Sign
    requires { at ≤ length reading.now.tokens.now }
    ensures exact { result ≡ sign_at reading.now.text.now reading.now.tokens.now at }
    ensures within { IsToken result → at < length reading.now.tokens.now }
{
    match reading.tokens.get(at) {
        Some(token) => sign_of(token, reading.text),
        None => Sign::End,
    }
}

/// Whether the token at a place is this one.
fn is_sign(reading: &Reading<'_>, at: usize, wanted: Sign) -> bool
    requires { at ≤ length reading.now.tokens.now }
    ensures yes { result ≡ true → sign_at reading.now.text.now reading.now.tokens.now at ≡ wanted }
    ensures no { result ≡ false → sign_at reading.now.text.now reading.now.tokens.now at ≡ wanted → ⊥ }
    ensures within { result ≡ true → IsToken wanted → at < length reading.now.tokens.now }
{
    sign_at(reading, at) == wanted
}

fn sign_of(token: &Token, text: &[u8]) -> Sign
    ensures { result ≡ sign_of_kind token.now.kind (bytes_of text.now token.now) }
{
    match &token.kind {
        TokenKind::Word => sign_of_word(token.bytes(text)),
        TokenKind::Sign => sign_of_mark(token.bytes(text)),
        _ => Sign::Other,
    }
}

fn sign_of_word(word: &[u8]) -> Sign
    ensures { result ≡ sign_of_word word.now }
{
    if same_word(word, b"or") {
        Sign::Or
    } else if same_word(word, b"and") {
        Sign::And
    } else if same_word(word, b"not") {
        Sign::Not
    } else if same_word(word, b"true") {
        Sign::True
    } else if same_word(word, b"false") {
        Sign::False
    } else if is_name_word(word) {
        Sign::Feature
    } else {
        Sign::Other
    }
}

fn sign_of_mark(mark: &[u8]) -> Sign
    ensures { result ≡ sign_of_mark mark.now }
{
    if mark == b"(".as_slice() {
        Sign::Open
    } else if mark == b")".as_slice() {
        Sign::Close
    } else {
        Sign::Other
    }
}

fn token_at<'a>(reading: &Reading<'a>, at: usize) -> Option<&'a Token>
    ensures { option_copied result ≡ slice_get reading.now.tokens.now at }
{
    reading.tokens.get(at)
}

/// The number of the feature that the token at a place names.
fn feature_at(reading: &Reading<'_>, at: usize) -> Option<u8>
    ensures { result ≡ feature_at reading.now.features.now reading.now.text.now reading.now.tokens.now at }
{
    match token_at(reading, at) {
        Some(token) => reading.features.find_word(token.bytes(reading.text)),
        None => None,
    }
}

/// The expression that begins at a token, where `nesting` brackets, `not` and choices are open, and the token behind
/// it.
#[cycle(expression)]
pub fn expression(reading: &Reading<'_>, nesting: u32, at: usize) -> Result<(Expr, usize), Fault>
    requires { at ≤ length reading.now.tokens.now }
    ensures order { IfOk result (λ found. (at < found.1) × (found.1 ≤ length reading.now.tokens.now)) }
    ensures read { IfOk result (λ found. IsRead reading.now.text.now reading.now.tokens.now reading.now.max_nesting (Disjunction nesting) at found.1) }
    ensures refused { IfErr result (IsRefused reading.now.features.now reading.now.text.now reading.now.tokens.now reading.now.max_nesting (Disjunction nesting) at) }
    ensures spelled { IfOk result (λ found. Spells reading.now.features.now reading.now.text.now reading.now.tokens.now (Disjunction nesting) at found.0 found.1) }
    ensures known { IfOk result (λ found. AreKnown reading.now.features.now reading.now.text.now reading.now.tokens.now at found.1) }
    ensures first { IfErr result (IsFirst reading.now.features.now reading.now.text.now reading.now.tokens.now at) }
{
    let (mut left, mut end) = conjunction(reading, nesting, at)?;
    'links: while is_sign(reading, end, Sign::Or) {
        let (right, next) = conjunction(reading, nesting, end + 1)?;
        left = make_or(reading.alloc, left, right)?;
        end = next;
    }
    Ok((left, end))
}

#[cycle(expression)]
fn conjunction(reading: &Reading<'_>, nesting: u32, at: usize) -> Result<(Expr, usize), Fault>
    requires { at ≤ length reading.now.tokens.now }
    ensures order { IfOk result (λ found. (at < found.1) × (found.1 ≤ length reading.now.tokens.now)) }
    ensures read { IfOk result (λ found. IsRead reading.now.text.now reading.now.tokens.now reading.now.max_nesting (Conjunction nesting) at found.1) }
    ensures refused { IfErr result (IsRefused reading.now.features.now reading.now.text.now reading.now.tokens.now reading.now.max_nesting (Conjunction nesting) at) }
    ensures spelled { IfOk result (λ found. Spells reading.now.features.now reading.now.text.now reading.now.tokens.now (Conjunction nesting) at found.0 found.1) }
    ensures known { IfOk result (λ found. AreKnown reading.now.features.now reading.now.text.now reading.now.tokens.now at found.1) }
    ensures first { IfErr result (IsFirst reading.now.features.now reading.now.text.now reading.now.tokens.now at) }
{
    let (mut left, mut end) = negation(reading, nesting, at)?;
    'links: while is_sign(reading, end, Sign::And) {
        let (right, next) = negation(reading, nesting, end + 1)?;
        left = make_and(reading.alloc, left, right)?;
        end = next;
    }
    Ok((left, end))
}

#[cycle(expression)]
fn negation(reading: &Reading<'_>, nesting: u32, at: usize) -> Result<(Expr, usize), Fault>
    requires { at ≤ length reading.now.tokens.now }
    ensures order { IfOk result (λ found. (at < found.1) × (found.1 ≤ length reading.now.tokens.now)) }
    ensures read { IfOk result (λ found. IsRead reading.now.text.now reading.now.tokens.now reading.now.max_nesting (Negation nesting) at found.1) }
    ensures refused { IfErr result (IsRefused reading.now.features.now reading.now.text.now reading.now.tokens.now reading.now.max_nesting (Negation nesting) at) }
    ensures spelled { IfOk result (λ found. Spells reading.now.features.now reading.now.text.now reading.now.tokens.now (Negation nesting) at found.0 found.1) }
    ensures known { IfOk result (λ found. AreKnown reading.now.features.now reading.now.text.now reading.now.tokens.now at found.1) }
    ensures first { IfErr result (IsFirst reading.now.features.now reading.now.text.now reading.now.tokens.now at) }
{
    match sign_at(reading, at) {
        Sign::Not => {
            let nesting = deeper(reading, nesting, at)?;
            let (inner, end) = negation(reading, nesting, at + 1)?;
            Ok((make_not(reading.alloc, inner)?, end))
        }
        Sign::True => Ok((Expr::True, at + 1)),
        Sign::False => Ok((Expr::False, at + 1)),
        Sign::Feature => match feature_at(reading, at) {
            Some(feature) => Ok((Expr::Feature(feature), at + 1)),
            None => Err(Fault::UnknownFeature(at)),
        },
        Sign::Open => {
            let nesting = deeper(reading, nesting, at)?;
            let (inner, end) = expression(reading, nesting, at + 1)?;
            if is_sign(reading, end, Sign::Close) {
                Ok((inner, end + 1))
            } else {
                Err(Fault::Syntax(end))
            }
        }
        _ => Err(Fault::Syntax(at)),
    }
}

/// The nesting behind a token that opens one more level.
pub fn deeper(reading: &Reading<'_>, nesting: u32, at: usize) -> Result<u32, Fault>
    ensures ok { IfOk result (λ next. (next ≡ nesting + 1) × (nesting < reading.now.max_nesting)) }
    ensures err { IfErr result (λ why. (why ≡ fault.TooDeep at) × (reading.now.max_nesting ≤ nesting)) }
{
    if nesting >= reading.max_nesting {
        return Err(Fault::TooDeep(at));
    }
    Ok(nesting + 1)
}
