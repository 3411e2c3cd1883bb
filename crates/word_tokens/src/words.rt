//! Words and names: what a word is, and which words are reserved.

ghost use Rattle.std.specs.Prelude.{◌≡◌, ◌<◌, ◌==◌, ◌-◌, ◌&&◌, length, Some, None};
ghost use Rattle.std.specs.List.{list_any, list_all};
ghost use Rattle.word_tokens.specs.Words.{starts_word, continues_word, is_word_of, same_word_as, is_reserved_word, is_name_of};

use values::Name;

/// The greatest length of a name, in bytes.
pub const NAME_LIMIT: usize = 63;

/// The words that are never a name, in any case.
pub const RESERVED: [&[u8]; 28] = [
    b"alter",
    b"and",
    b"as",
    b"begin",
    b"choice",
    b"commit",
    b"create",
    b"delete",
    b"empty",
    b"except",
    b"false",
    b"from",
    b"insert",
    b"into",
    b"join",
    b"none",
    b"not",
    b"on",
    b"or",
    b"rollback",
    b"select",
    b"set",
    b"true",
    b"union",
    b"update",
    b"values",
    b"when",
    b"where",
];

/// Whether the name is a word of 1 to 63 bytes that isn't reserved.
pub fn is_name(name: &Name) -> bool
    ensures { result ≡ is_name_of name.now }
{
    is_name_word(name.as_slice())
}

/// Whether bytes are a name, as `is_name` says.
pub fn is_name_word(bytes: &[u8]) -> bool
    ensures { result ≡ is_name_of bytes.now }
{
    bytes.len() <= NAME_LIMIT && is_word(bytes) && !is_reserved(bytes)
}

/// Whether a byte is a letter or `_`.
pub fn is_word_start(byte: u8) -> bool
    ensures { result ≡ starts_word byte }
{
    byte.is_ascii_alphabetic() || byte == b'_'
}

/// Whether a byte is a letter, a digit or `_`.
pub fn is_word_part(byte: u8) -> bool
    ensures { result ≡ continues_word byte }
{
    byte.is_ascii_alphanumeric() || byte == b'_'
}

fn is_word(bytes: &[u8]) -> bool
    ensures { result ≡ is_word_of bytes.now }
{
    match bytes.split_first() {
        Some((first, rest)) => is_word_start(*first) && is_word_tail(rest),
        None => false,
    }
}

fn is_word_tail(bytes: &[u8]) -> bool
    ensures { result ≡ list_all continues_word bytes.now }
{
    bytes.iter().all(|byte| is_word_part(*byte))
}

/// Whether two words are the same but for ASCII case.
pub fn same_word(left: &[u8], right: &[u8]) -> bool
    ensures { result ≡ same_word_as left.now right.now }
{
    left.eq_ignore_ascii_case(right)
}

fn is_reserved(bytes: &[u8]) -> bool
    ensures { result ≡ is_reserved_word bytes.now }
{
    is_one_of(bytes, &RESERVED)
}

fn is_one_of(bytes: &[u8], words: &[&[u8]]) -> bool
    ensures { result ≡ list_any (λ word. same_word_as bytes.now word.now) words.now }
{
    words.iter().any(|word| same_word(bytes, word))
}
