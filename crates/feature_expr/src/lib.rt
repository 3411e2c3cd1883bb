//! Feature expressions. What the crates below have is passed on.
//!
//! The path of a type's file is part of this crate's interface: a specification above names it.
#![tactic(auto)]

mod config;
mod expr;
mod features;
mod laws;
mod occurring;
mod parse;
mod print;
mod same;
mod variant;

pub use config::{Config, FEATURE_LIMIT};
pub use expr::{Expr, and, copy_expr, eval, not, or, weight};
pub use features::{Features, FeaturesRefused};
pub use laws::expression_laws;
pub use occurring::features_of;
pub use parse::{
    ExprRefused, Fault, NESTING_LIMIT, Reading, deeper, expression, is_sign_at, is_word_at,
    parse_expr, token_place,
};
pub use print::print_expr;
pub use same::{fingerprint, is_same_expr, mixed};
pub use values::{ColName, Kind, List, Memory, Name, Text, TryCopy, Value};
pub use variant::push_variant;
pub use word_tokens::{
    Token, TokenKind, end_line, end_place, is_name, is_name_word, same_word, tokens,
};
