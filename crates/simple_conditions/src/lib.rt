//! Conditions with the same truth in fewer nodes.
#![tactic(auto)]

mod chain;
mod known;
mod literals;
mod plain;
mod simplify;
mod sweep;

pub use simplify::{WEIGHT_LIMIT, is_given_back, simplified};
