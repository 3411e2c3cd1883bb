ghost use Rattle.std.specs.Prelude.{◌≡◌, ◌<◌, ◌≤◌, ◌+◌, true, false, length, slice_get, Some, None, IfOk, IfErr, IfSome, IfNone, IsTrue};
ghost use Rattle.std.specs.Option.{option_copied};
ghost use Rattle.word_tokens.specs.Words.{is_name_of};
ghost use Rattle.vschema.specs.Faults.{IsSyntaxAt};
ghost use Rattle.vschema.specs.Words.{stands, name_of, spelled_name_at, folded_at, kind_at, value_of, value_at, truth_of};
ghost use Rattle.vschema.specs.declared.fault.CatalogFault.TheVariants as fault;

use crate::fault::CatalogFault;
use feature_expr::{
    Kind, Name, Reading, Token, TokenKind, TryCopy, Value, is_name_word, is_sign_at, is_word_at,
    same_word,
};

/// The words and signs of a catalogue that stand for themselves.
#[derive(Clone, Copy, PartialEq, Eq)]
pub enum Sign {
    Features,
    Model,
    Table,
    Row,
    When,
    Open,
    Close,
    Comma,
    Semicolon,
}

/// Whether a token is this word or sign.
#[tactic(auto, unfolding(crate::specs::Words::stands))]
pub fn stands(reading: &Reading<'_>, at: usize, sign: Sign) -> bool
    ensures exact { result ≡ stands reading.now.text.now reading.now.tokens.now at sign }
    ensures within { IsTrue result → at < length reading.now.tokens.now }
{
    match sign {
        Sign::Features => is_word_at(reading, at, b"features"),
        Sign::Model => is_word_at(reading, at, b"model"),
        Sign::Table => is_word_at(reading, at, b"table"),
        Sign::Row => is_word_at(reading, at, b"row"),
        Sign::When => is_word_at(reading, at, b"when"),
        Sign::Open => is_sign_at(reading, at, b"("),
        Sign::Close => is_sign_at(reading, at, b")"),
        Sign::Comma => is_sign_at(reading, at, b","),
        Sign::Semicolon => is_sign_at(reading, at, b";"),
    }
}

/// The token behind a word or sign that has to stand at a token.
pub fn wanted(reading: &Reading<'_>, at: usize, sign: Sign) -> Result<usize, CatalogFault>
    ensures ok { IfOk result (λ next. (next ≡ at + 1) × (stands reading.now.text.now reading.now.tokens.now at sign ≡ true)) }
    ensures within { IfOk result (λ next. next ≤ length reading.now.tokens.now) }
    ensures err { IfErr result (λ why. (why ≡ fault.Syntax at) × (stands reading.now.text.now reading.now.tokens.now at sign ≡ false)) }
{
    if stands(reading, at, sign) {
        Ok(at + 1)
    } else {
        Err(CatalogFault::Syntax(at))
    }
}

/// The bytes of a name that stands at a token.
#[tactic(auto, unfolding(crate::specs::Words::spelled_name_at))]
pub fn name_at<'a>(reading: &Reading<'a>, at: usize) -> Option<&'a [u8]>
    ensures some { IfSome result (λ word. spelled_name_at reading.now.text.now reading.now.tokens.now at ≡ Some word.now) }
    ensures within { IfSome result (λ word. at < length reading.now.tokens.now) }
    ensures none { IfNone result (spelled_name_at reading.now.text.now reading.now.tokens.now at ≡ None) }
{
    let tokens = reading.tokens;
    let text = reading.text;
    match tokens.get(at) {
        Some(token) => name_of(token, text),
        None => None,
    }
}

fn name_of<'a>(token: &Token, text: &'a [u8]) -> Option<&'a [u8]>
    ensures some { IfSome result (λ word. name_of text.now (Some token.now) ≡ Some word.now) }
    ensures none { IfNone result (name_of text.now (Some token.now) ≡ None) }
{
    match &token.kind {
        TokenKind::Word => name_word(token.bytes(text)),
        _ => None,
    }
}

fn name_word(bytes: &[u8]) -> Option<&[u8]>
    ensures some { IfSome result (λ word. (word.now ≡ bytes.now) × (is_name_of bytes.now ≡ true)) }
    ensures none { IfNone result (is_name_of bytes.now ≡ false) }
{
    if is_name_word(bytes) {
        Some(bytes)
    } else {
        None
    }
}

/// A name of a table or a column that stands at a token.
#[tactic(auto, unfolding(crate::specs::Words::folded_at))]
pub fn folded_name_at(reading: &Reading<'_>, at: usize) -> Result<Name, CatalogFault>
    ensures ok { IfOk result (λ name. folded_at reading.now.text.now reading.now.tokens.now at ≡ Some name) }
    ensures within { IfOk result (λ name. at < length reading.now.tokens.now) }
    ensures err { IfErr result (λ why. IsSyntaxAt at why (folded_at reading.now.text.now reading.now.tokens.now at ≡ None)) }
{
    match name_at(reading, at) {
        Some(word) => Ok(Name::folded(reading.alloc, word)?),
        None => Err(CatalogFault::Syntax(at)),
    }
}

/// The kind of a column that stands at a token.
#[tactic(auto, unfolding(crate::specs::Words::kind_at))]
pub fn kind_at(reading: &Reading<'_>, at: usize) -> Option<Kind>
    ensures exact { result ≡ kind_at reading.now.text.now reading.now.tokens.now at }
    ensures within { IfSome result (λ kind. at < length reading.now.tokens.now) }
{
    if is_word_at(reading, at, b"int8") {
        Some(Kind::Int)
    } else if is_word_at(reading, at, b"text") {
        Some(Kind::Text)
    } else if is_word_at(reading, at, b"bool") {
        Some(Kind::Bool)
    } else {
        None
    }
}

/// The value that stands at a token.
#[tactic(auto, unfolding(crate::specs::Words::value_at))]
pub fn value_at(reading: &Reading<'_>, at: usize) -> Result<Value, CatalogFault>
    ensures ok { IfOk result (λ value. value_at reading.now.text.now reading.now.tokens.now at ≡ Some value) }
    ensures within { IfOk result (λ value. at < length reading.now.tokens.now) }
    ensures err { IfErr result (λ why. IsSyntaxAt at why (value_at reading.now.text.now reading.now.tokens.now at ≡ None)) }
{
    let Some(token) = reading.tokens.get(at) else {
        return Err(CatalogFault::Syntax(at));
    };
    match &token.kind {
        TokenKind::Integer(Some(number)) => Ok(Value::Int(*number)),
        TokenKind::Integer(None) => Err(CatalogFault::Syntax(at)),
        TokenKind::Text(text) => {
            let text = text.copy(reading.alloc)?;
            Ok(Value::Text(text))
        }
        TokenKind::Word => match truth_of(token.bytes(reading.text)) {
            Some(truth) => Ok(Value::Bool(truth)),
            None => Err(CatalogFault::Syntax(at)),
        },
        TokenKind::Param(_) => Err(CatalogFault::Syntax(at)),
        TokenKind::Sign => Err(CatalogFault::Syntax(at)),
        TokenKind::Bad => Err(CatalogFault::Syntax(at)),
    }
}

fn truth_of(word: &[u8]) -> Option<bool>
    ensures { result ≡ truth_of word.now }
{
    if same_word(word, b"true") {
        Some(true)
    } else if same_word(word, b"false") {
        Some(false)
    } else {
        None
    }
}
