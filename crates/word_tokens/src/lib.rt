//! Words, names and the tokens of every text, and grammars over tokens as data.
//!
//! The path of a type's file is part of this crate's interface: a specification above names it.
#![tactic(auto)]

mod token;
mod words;

pub use token::{PARAMETER_LIMIT, Token, TokenKind, end_line, end_place, tokens};
pub use words::{
    NAME_LIMIT, RESERVED, is_name, is_name_word, is_word_part, is_word_start, same_word,
};
