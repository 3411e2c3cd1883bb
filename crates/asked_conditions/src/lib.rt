//! Questions to a feature model, each of which is searched once.
#![tactic(auto)]

mod questions;

pub use questions::Questions;
