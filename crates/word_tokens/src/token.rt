ghost use Rattle.std.specs.Prelude.{ℕ, true, false, ◌+◌, ◌-◌, ◌*◌, ◌^◌, ◌<◌, ◌≤◌, ◌≡◌, ◌==◌, ◌≢◌, ◌&&◌, not as negation, if◌then◌else◌, min, length, slice_index, count_by, IsTrue, IfOk, IfSome};
ghost use Rattle.std.specs.List.{slice_range};
ghost use Rattle.std.specs.Char.{is_ascii_digit};
ghost use Rattle.word_tokens.specs.Words.{continues_word};
ghost use Rattle.word_tokens.specs.Tokens.{is_white, is_comment_part, comment_at, blank_end, comment_end, run_end, closing_at, unquoted, number_of, integer_of, parameter_of, scanned, integer_at, quoted_at, parameter_at, fault_in, is_bracket, is_short_sign, is_long_sign, sign_length, sign_at, scanned_at, token_at, starts_character, character_at, line_at, AreTokens};

use crate::words::{is_word_part, is_word_start};
use std::alloc::Global;
use values::{List, Memory, Text, TryCopy};

/// The greatest number of a parameter.
pub const PARAMETER_LIMIT: u16 = 1024;

/// What a token is. `Integer` holds None where the number is beyond the range of i64, `Param` where it is above
/// 1,024, and `Text` the characters between the quotes, with `''` read as `'`.
#[derive(Debug, Drop)]
pub enum TokenKind {
    Word,
    Integer(Option<i64>),
    Text(Text),
    Param(Option<u16>),
    Sign,
    Bad,
}

/// A token of a text: its kind, its bytes from `start` up to `end`, the place of its first character and its line,
/// both counted from 1.
#[derive(Debug, Drop)]
pub struct Token {
    pub kind: TokenKind,
    pub start: usize,
    pub end: usize,
    pub place: u64,
    pub line: u64,
}

impl Token {
    /// The token's own bytes, in the text that it was read from.
    pub fn bytes<'a>(&self, text: &'a [u8]) -> &'a [u8]
        ensures { result.now ≡ slice_range text.now self.now.start self.now.end }
    {
        let end = self.end.min(text.len());
        let start = self.start.min(end);
        &text[start..end]
    }
}

impl TryCopy for TokenKind {
    fn copy(&self, alloc: Global) -> Result<Self, Memory> {
        match self {
            TokenKind::Word => Ok(TokenKind::Word),
            TokenKind::Integer(number) => Ok(TokenKind::Integer(*number)),
            TokenKind::Text(text) => {
                let text = text.copy(alloc)?;
                Ok(TokenKind::Text(text))
            }
            TokenKind::Param(number) => Ok(TokenKind::Param(*number)),
            TokenKind::Sign => Ok(TokenKind::Sign),
            TokenKind::Bad => Ok(TokenKind::Bad),
        }
    }
}

impl TryCopy for Token {
    fn copy(&self, alloc: Global) -> Result<Self, Memory> {
        let kind = self.kind.copy(alloc)?;
        Ok(Token {
            kind,
            start: self.start,
            end: self.end,
            place: self.place,
            line: self.line,
        })
    }
}

/// A place in a text, by its bytes, its characters and its lines.
#[derive(Clone, Copy)]
struct Cursor {
    at: usize,
    place: u64,
    line: u64,
}

/// The place of a text's first character.
const START: Cursor = Cursor {
    at: 0,
    place: 1,
    line: 1,
};

/// The tokens of a text, up to the first fault of a token: that is then the last one, of the kind `Bad`, and ends
/// at the end of the text. Each is the longest that begins at its place. It takes time in the text's length.
pub fn tokens(alloc: Global, text: &str) -> Result<List<Token>, Memory>
    ensures { IfOk result (λ tokens. AreTokens text.now tokens) }
{
    let bytes = text.as_bytes();
    let mut found = Vec::new(alloc);
    let mut cursor = moved(bytes, START, blank_end(bytes, 0));
    while cursor.at < bytes.len() {
        let token = token_at(alloc, bytes, cursor)?;
        let end = token.end;
        let is_bad = matches!(&token.kind, TokenKind::Bad);
        found.push(token)?;
        if is_bad {
            return Ok(List::from_vec(found));
        }
        cursor = moved(bytes, cursor, blank_end(bytes, end));
    }
    Ok(List::from_vec(found))
}

fn token_at(alloc: Global, bytes: &[u8], cursor: Cursor) -> Result<Token, Memory>
    requires within { cursor.at < length bytes.now }
    requires place { cursor.place ≡ character_at bytes.now cursor.at }
    requires line { cursor.line ≡ line_at bytes.now cursor.at }
    ensures token { IfOk result (λ token. token ≡ token_at bytes.now cursor.at) }
    ensures order { IfOk result (λ token. cursor.at < token.end) }
    ensures end { IfOk result (λ token. token.end ≤ length bytes.now) }
{
    let (kind, end) = scanned(alloc, bytes, cursor.at)?;
    Ok(Token {
        kind,
        start: cursor.at,
        end,
        place: cursor.place,
        line: cursor.line,
    })
}

/// The place one past the last character of a text, counted from 1.
pub fn end_place(text: &str) -> u64
    ensures { result ≡ character_at text.now (length text.now) }
{
    let bytes = text.as_bytes();
    moved(bytes, START, bytes.len()).place
}

/// The line on which a text ends, counted from 1.
pub fn end_line(text: &str) -> u64
    ensures { result ≡ line_at text.now (length text.now) }
{
    let bytes = text.as_bytes();
    moved(bytes, START, bytes.len()).line
}

/// The cursor at a later place.
#[tactic(auto, using(crate::proofs::PlaceLaws::count_between))]
fn moved(bytes: &[u8], from: Cursor, to: usize) -> Cursor
    requires order { from.at ≤ to }
    requires within { to ≤ length bytes.now }
    requires place { from.place ≡ character_at bytes.now from.at }
    requires line { from.line ≡ line_at bytes.now from.at }
    ensures at { result.at ≡ to }
    ensures place { result.place ≡ character_at bytes.now to }
    ensures line { result.line ≡ line_at bytes.now to }
{
    let passed = &bytes[from.at..to];
    Cursor {
        at: to,
        place: from.place + characters_in(passed),
        line: from.line + line_feeds_in(passed),
    }
}

/// The characters of a text in UTF-8: each has one byte that continues no other.
fn characters_in(bytes: &[u8]) -> u64
    ensures { result ≡ count_by starts_character bytes.now }
{
    bytes.iter().filter(|byte| starts_character(**byte)).count() as u64
}

fn starts_character(byte: u8) -> bool
    ensures { result ≡ starts_character byte }
{
    byte < 0x80 || byte >= 0xC0
}

fn line_feeds_in(bytes: &[u8]) -> u64
    ensures { result ≡ count_by (λ byte. byte == 10) bytes.now }
{
    bytes.iter().filter(|byte| **byte == b'\n').count() as u64
}

/// Where the white space and the comments that begin at a place end.
#[tactic(auto, using(crate::proofs::BlankLaws::blank_white, crate::proofs::BlankLaws::blank_comment, crate::proofs::BlankLaws::blank_stop, crate::proofs::BlankLaws::white_within, crate::proofs::BlankLaws::comment_within))]
fn blank_end(bytes: &[u8], from: usize) -> usize
    requires { from ≤ length bytes.now }
    ensures exact { result ≡ blank_end bytes.now from }
    ensures order { from ≤ result }
    ensures within { result ≤ length bytes.now }
{
    let mut at = from;
    loop {
        if is_white(byte_at(bytes, at)) {
            at += 1;
        } else if begins_comment(bytes, at) {
            at = comment_end(bytes, at + 2);
        } else {
            return at;
        }
    }
}

fn begins_comment(bytes: &[u8], at: usize) -> bool
    ensures { result ≡ comment_at bytes.now at }
{
    byte_at(bytes, at) == b'-' && byte_at(bytes, at + 1) == b'-'
}

fn is_white(byte: u8) -> bool
    ensures { result ≡ is_white byte }
{
    byte == b' ' || byte == b'\t' || byte == b'\n' || byte == b'\r'
}

/// A comment ends before the line feed, or at the end of the text. A zero byte isn't part of it.
#[tactic(auto, using(crate::proofs::BlankLaws::comment_on, crate::proofs::BlankLaws::comment_off, crate::proofs::BlankLaws::comment_part_within))]
fn comment_end(bytes: &[u8], from: usize) -> usize
    requires { from ≤ length bytes.now }
    ensures exact { blank_end bytes.now result ≡ comment_end bytes.now from }
    ensures order { from ≤ result }
    ensures within { result ≤ length bytes.now }
{
    let mut at = from;
    while is_comment_part(byte_at(bytes, at)) {
        at += 1;
    }
    at
}

fn is_comment_part(byte: u8) -> bool
    ensures { result ≡ is_comment_part byte }
{
    byte != b'\n' && byte != 0
}

/// The byte at a place, or a zero byte past the end. No token holds one.
fn byte_at(bytes: &[u8], at: usize) -> u8
    ensures { result ≡ slice_index bytes.now at }
{
    match bytes.get(at) {
        Some(byte) => *byte,
        None => 0,
    }
}

/// The kind of the token that begins at a place, and where it ends.
#[tactic(auto, unfolding(crate::specs::Tokens::scanned_at))]
fn scanned(alloc: Global, bytes: &[u8], at: usize) -> Result<(TokenKind, usize), Memory>
    requires { at < length bytes.now }
    ensures exact { IfOk result (λ found. scanned found.0 found.1 ≡ scanned_at bytes.now at) }
    ensures order { IfOk result (λ found. at < found.1) }
    ensures within { IfOk result (λ found. found.1 ≤ length bytes.now) }
{
    let first = bytes[at];
    if is_word_start(first) {
        Ok((TokenKind::Word, word_end(bytes, at)))
    } else if first.is_ascii_digit() {
        Ok(integer(bytes, at, false))
    } else if first == b'-' {
        Ok(negative_integer(bytes, at))
    } else if first == b'\'' {
        quoted(alloc, bytes, at)
    } else if first == b'$' {
        Ok(parameter(bytes, at))
    } else {
        Ok(sign(bytes, at))
    }
}

fn word_end(bytes: &[u8], from: usize) -> usize
    requires { from ≤ length bytes.now }
    ensures exact { result ≡ run_end continues_word bytes.now from }
    ensures within { result ≤ length bytes.now }
{
    let mut at = from;
    while at < bytes.len() && is_word_part(bytes[at]) {
        at += 1;
    }
    at
}

fn digits_end(bytes: &[u8], from: usize) -> usize
    requires { from ≤ length bytes.now }
    ensures exact { result ≡ run_end is_ascii_digit bytes.now from }
    ensures within { result ≤ length bytes.now }
{
    let mut at = from;
    while at < bytes.len() && bytes[at].is_ascii_digit() {
        at += 1;
    }
    at
}

/// An integer whose digits begin at a place.
fn integer(bytes: &[u8], from: usize, negative: bool) -> (TokenKind, usize)
    requires digit { IsTrue (is_ascii_digit (slice_index bytes.now from)) }
    ensures exact { scanned result.0 result.1 ≡ integer_at negative bytes.now from }
    ensures order { from < result.1 }
    ensures within { result.1 ≤ length bytes.now }
{
    let end = digits_end(bytes, from);
    let digits = &bytes[from..end];
    (TokenKind::Integer(integer_of(digits, negative)), end)
}

/// A `-` begins an integer only directly before a digit.
fn negative_integer(bytes: &[u8], at: usize) -> (TokenKind, usize)
    requires { at < length bytes.now }
    ensures exact { scanned result.0 result.1 ≡ (if is_ascii_digit (slice_index bytes.now (at + 1)) then integer_at true bytes.now (at + 1) else fault_in bytes.now) }
    ensures order { at < result.1 }
    ensures within { result.1 ≤ length bytes.now }
{
    if byte_at(bytes, at + 1).is_ascii_digit() {
        integer(bytes, at + 1, true)
    } else {
        (TokenKind::Bad, bytes.len())
    }
}

/// The number that digits spell, or the greatest number where it is above that.
fn number_of(digits: &[u8]) -> u64
    ensures { result ≡ min (number_of digits.now) (2 ^ 64 - 1) }
{
    let mut number: u64 = 0;
    for digit in digits {
        number = number
            .saturating_mul(10)
            .saturating_add(u64::from(digit.saturating_sub(b'0')));
    }
    number
}

/// The number that digits spell, or None where it is beyond the range.
fn integer_of(digits: &[u8], negative: bool) -> Option<i64>
    ensures { result ≡ integer_of negative digits.now }
{
    let number = number_of(digits);
    if negative {
        0_i64.checked_sub_unsigned(number)
    } else {
        0_i64.checked_add_unsigned(number)
    }
}

/// A text from its quote on. One that isn't closed, or holds a zero byte, is a fault.
fn quoted(alloc: Global, bytes: &[u8], at: usize) -> Result<(TokenKind, usize), Memory>
    requires { at < length bytes.now }
    ensures exact { IfOk result (λ found. scanned found.0 found.1 ≡ quoted_at bytes.now at (closing_at bytes.now (at + 1))) }
    ensures order { IfOk result (λ found. at < found.1) }
    ensures within { IfOk result (λ found. found.1 ≤ length bytes.now) }
{
    match closing_at(bytes, at + 1) {
        Some(end) => {
            let text = unquoted(alloc, &bytes[at + 1..end - 1])?;
            Ok((TokenKind::Text(text), end))
        }
        None => Ok((TokenKind::Bad, bytes.len())),
    }
}

/// Where a text whose characters begin at a place ends, behind its closing quote.
#[tactic(auto, using(crate::proofs::QuoteLaws::closing_plain, crate::proofs::QuoteLaws::closing_pair, crate::proofs::QuoteLaws::closing_last, crate::proofs::QuoteLaws::closing_none, crate::proofs::BlankLaws::some_within))]
fn closing_at(bytes: &[u8], from: usize) -> Option<usize>
    requires { from ≤ length bytes.now }
    ensures exact { result ≡ closing_at bytes.now from }
    ensures order { IfSome result (λ end. from < end) }
    ensures within { IfSome result (λ end. end ≤ length bytes.now) }
{
    let mut at = from;
    'characters: loop {
        let byte = byte_at(bytes, at);
        if byte == 0 {
            return None;
        }
        if byte != b'\'' {
            at += 1;
        } else if byte_at(bytes, at + 1) == b'\'' {
            at += 2;
        } else {
            return Some(at + 1);
        }
    }
}

/// The characters of a text, with `''` read as `'`.
#[tactic(auto, using(crate::proofs::QuoteLaws::unquoted_quote, crate::proofs::QuoteLaws::unquoted_other))]
fn unquoted(alloc: Global, bytes: &[u8]) -> Result<Text, Memory>
    ensures { IfOk result (λ text. text ≡ unquoted bytes.now) }
{
    let mut plain = Vec::with_capacity(alloc, bytes.len())?;
    let mut at = 0;
    while at < bytes.len() {
        let byte = byte_at(bytes, at);
        plain.push(byte)?;
        if byte == b'\'' {
            at += 2;
        } else {
            at += 1;
        }
    }
    Ok(Text::from_vec(plain))
}

/// A parameter from its `$` on. Its digits have no leading zero.
fn parameter(bytes: &[u8], at: usize) -> (TokenKind, usize)
    requires { at < length bytes.now }
    ensures exact { scanned result.0 result.1 ≡ (if is_ascii_digit (slice_index bytes.now (at + 1)) && negation (slice_index bytes.now (at + 1) == 48) then parameter_at bytes.now at else fault_in bytes.now) }
    ensures order { at < result.1 }
    ensures within { result.1 ≤ length bytes.now }
{
    let next = byte_at(bytes, at + 1);
    if next.is_ascii_digit() && next != b'0' {
        let end = digits_end(bytes, at + 1);
        let digits = &bytes[at + 1..end];
        (TokenKind::Param(parameter_of(digits)), end)
    } else {
        (TokenKind::Bad, bytes.len())
    }
}

/// The number that digits spell, or None where it is above the limit.
fn parameter_of(digits: &[u8]) -> Option<u16>
    ensures { result ≡ parameter_of digits.now }
{
    let number = number_of(digits);
    if number <= PARAMETER_LIMIT as u64 {
        Some(number as u16)
    } else {
        None
    }
}

fn sign(bytes: &[u8], at: usize) -> (TokenKind, usize)
    requires { at < length bytes.now }
    ensures exact { scanned result.0 result.1 ≡ sign_at bytes.now at (sign_length (slice_index bytes.now at) (slice_index bytes.now (at + 1))) }
    ensures order { at < result.1 }
    ensures within { result.1 ≤ length bytes.now }
{
    let length = sign_length(bytes[at], byte_at(bytes, at + 1));
    if length == 0 {
        (TokenKind::Bad, bytes.len())
    } else {
        (TokenKind::Sign, at + length)
    }
}

/// How long the sign is that begins with two bytes, or 0 where none does.
fn sign_length(first: u8, second: u8) -> usize
    ensures exact { result ≡ sign_length first second }
    ensures two { result ≡ 2 → second ≢ 0 }
    ensures short { result ≤ 2 }
{
    if is_long_sign(first, second) {
        2
    } else if is_short_sign(first) {
        1
    } else {
        0
    }
}

fn is_long_sign(first: u8, second: u8) -> bool
    ensures { result ≡ is_long_sign first second }
{
    (first == b'<' && (second == b'=' || second == b'>'))
        || ((first == b'>' || first == b'!') && second == b'=')
}

fn is_short_sign(byte: u8) -> bool
    ensures { result ≡ is_short_sign byte }
{
    is_bracket(byte)
        || byte == b','
        || byte == b';'
        || byte == b'.'
        || byte == b'*'
        || byte == b'='
        || byte == b'<'
        || byte == b'>'
}

fn is_bracket(byte: u8) -> bool
    ensures { result ≡ is_bracket byte }
{
    byte == b'(' || byte == b')' || byte == b'[' || byte == b']'
}
