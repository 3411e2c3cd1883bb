ghost use Rattle.std.specs.Prelude.{◌≡◌, ◌<◌, ◌≤◌, ◌+◌, ◌^◌, true, false, length, slice_get, IfOk, IfErr, IsTrue};
ghost use Rattle.word_tokens.specs.Tokens.{bytes_of};
ghost use Rattle.query_parser.specs.Lexemes.{lexeme_of_name, lexeme_of_inner, lexeme_of_reserved, lexeme_of_word, is_unequal, lexeme_of_comparison, lexeme_of_mark, lexeme_of_kind, lexeme_at, stands};
ghost use Rattle.query_parser.specs.Wanted.{is_token};
ghost use Rattle.query_parser.specs.declared.fault.ParseFault.TheVariants as fault;

use crate::fault::ParseFault;
use feature_expr::{Reading, Token, TokenKind, is_name_word, same_word};

/// What a token is to the grammar of statements.
#[derive(Clone, Copy, PartialEq, Eq)]
pub enum Lexeme {
    Or,
    And,
    Not,
    True,
    False,
    Begin,
    Commit,
    Rollback,
    Set,
    Insert,
    Delete,
    Update,
    Select,
    Empty,
    Choice,
    As,
    Except,
    From,
    Into,
    Join,
    On,
    Union,
    Values,
    When,
    Where,
    /// A name, as the two below.
    Transaction,
    Work,
    To,
    Name,
    /// A word that is no name and has no meaning here.
    Word,
    Integer,
    Text,
    Parameter,
    Open,
    Close,
    OpenSquare,
    CloseSquare,
    Comma,
    Semicolon,
    Dot,
    Star,
    Equal,
    NotEqual,
    Less,
    LessEqual,
    Greater,
    GreaterEqual,
    /// Behind the last token.
    End,
    Fault,
}

/// What the token at a place is.
#[tactic(auto, using(crate::proofs::WordLaws::token_within), unfolding(crate::specs::Lexemes::lexeme_at))]
pub fn lexeme_at(reading: &Reading<'_>, at: usize) -> Lexeme
    ensures exact { result ≡ lexeme_at reading.now.text.now reading.now.tokens.now at }
    ensures within { IsTrue (is_token result) → at < length reading.now.tokens.now }
{
    match reading.tokens.get(at) {
        Some(token) => lexeme_of(token, reading.text),
        None => {
            if at == reading.tokens.len() {
                Lexeme::End
            } else {
                Lexeme::Fault
            }
        }
    }
}

/// Whether the token at a place is this one.
#[tactic(auto, using(crate::proofs::WordLaws::stands_within))]
pub fn stands(reading: &Reading<'_>, at: usize, wanted: Lexeme) -> bool
    ensures exact { result ≡ stands reading.now.text.now reading.now.tokens.now at wanted }
    ensures within { IsTrue result → IsTrue (is_token wanted) → at < length reading.now.tokens.now }
    ensures room { IsTrue result → IsTrue (is_token wanted) → at + 1 < 2 ^ 64 }
{
    lexeme_at(reading, at) == wanted
}

fn lexeme_of(token: &Token, text: &[u8]) -> Lexeme
    ensures { result ≡ lexeme_of_kind token.now.kind (bytes_of text.now token.now) }
{
    match &token.kind {
        TokenKind::Word => lexeme_of_word(token.bytes(text)),
        TokenKind::Integer(_) => Lexeme::Integer,
        TokenKind::Text(_) => Lexeme::Text,
        TokenKind::Param(_) => Lexeme::Parameter,
        TokenKind::Sign => lexeme_of_mark(token.bytes(text)),
        TokenKind::Bad => Lexeme::Fault,
    }
}

fn lexeme_of_word(word: &[u8]) -> Lexeme
    ensures { result ≡ lexeme_of_word word.now }
{
    if same_word(word, b"or") {
        Lexeme::Or
    } else if same_word(word, b"and") {
        Lexeme::And
    } else if same_word(word, b"not") {
        Lexeme::Not
    } else if same_word(word, b"true") {
        Lexeme::True
    } else if same_word(word, b"false") {
        Lexeme::False
    } else if is_name_word(word) {
        lexeme_of_name(word)
    } else {
        lexeme_of_reserved(word)
    }
}

fn lexeme_of_name(word: &[u8]) -> Lexeme
    ensures { result ≡ lexeme_of_name word.now }
{
    if same_word(word, b"transaction") {
        Lexeme::Transaction
    } else if same_word(word, b"work") {
        Lexeme::Work
    } else if same_word(word, b"to") {
        Lexeme::To
    } else {
        Lexeme::Name
    }
}

fn lexeme_of_reserved(word: &[u8]) -> Lexeme
    ensures { result ≡ lexeme_of_reserved word.now }
{
    if same_word(word, b"begin") {
        Lexeme::Begin
    } else if same_word(word, b"commit") {
        Lexeme::Commit
    } else if same_word(word, b"rollback") {
        Lexeme::Rollback
    } else if same_word(word, b"set") {
        Lexeme::Set
    } else if same_word(word, b"insert") {
        Lexeme::Insert
    } else if same_word(word, b"delete") {
        Lexeme::Delete
    } else if same_word(word, b"update") {
        Lexeme::Update
    } else if same_word(word, b"select") {
        Lexeme::Select
    } else if same_word(word, b"empty") {
        Lexeme::Empty
    } else if same_word(word, b"choice") {
        Lexeme::Choice
    } else {
        lexeme_of_inner(word)
    }
}

fn lexeme_of_inner(word: &[u8]) -> Lexeme
    ensures { result ≡ lexeme_of_inner word.now }
{
    if same_word(word, b"as") {
        Lexeme::As
    } else if same_word(word, b"except") {
        Lexeme::Except
    } else if same_word(word, b"from") {
        Lexeme::From
    } else if same_word(word, b"into") {
        Lexeme::Into
    } else if same_word(word, b"join") {
        Lexeme::Join
    } else if same_word(word, b"on") {
        Lexeme::On
    } else if same_word(word, b"union") {
        Lexeme::Union
    } else if same_word(word, b"values") {
        Lexeme::Values
    } else if same_word(word, b"when") {
        Lexeme::When
    } else if same_word(word, b"where") {
        Lexeme::Where
    } else {
        Lexeme::Word
    }
}

fn lexeme_of_mark(mark: &[u8]) -> Lexeme
    ensures { result ≡ lexeme_of_mark mark.now }
{
    if mark == b"(".as_slice() {
        Lexeme::Open
    } else if mark == b")".as_slice() {
        Lexeme::Close
    } else if mark == b"[".as_slice() {
        Lexeme::OpenSquare
    } else if mark == b"]".as_slice() {
        Lexeme::CloseSquare
    } else if mark == b",".as_slice() {
        Lexeme::Comma
    } else if mark == b";".as_slice() {
        Lexeme::Semicolon
    } else if mark == b".".as_slice() {
        Lexeme::Dot
    } else if mark == b"*".as_slice() {
        Lexeme::Star
    } else {
        lexeme_of_comparison(mark)
    }
}

fn lexeme_of_comparison(mark: &[u8]) -> Lexeme
    ensures { result ≡ lexeme_of_comparison mark.now }
{
    if mark == b"=".as_slice() {
        Lexeme::Equal
    } else if is_unequal(mark) {
        Lexeme::NotEqual
    } else if mark == b"<".as_slice() {
        Lexeme::Less
    } else if mark == b"<=".as_slice() {
        Lexeme::LessEqual
    } else if mark == b">".as_slice() {
        Lexeme::Greater
    } else if mark == b">=".as_slice() {
        Lexeme::GreaterEqual
    } else {
        Lexeme::Fault
    }
}

fn is_unequal(mark: &[u8]) -> bool
    ensures { result ≡ is_unequal mark.now }
{
    mark == b"<>".as_slice() || mark == b"!=".as_slice()
}
