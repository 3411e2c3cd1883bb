//! Queries over a catalogue's opening rows, for tests and figures; and tests of the run of plans for all variants at once,
//! on generated queries beside the plain evaluator.
//!
//! The path of a type's file is part of this crate's interface: a specification names it.
#![tactic(auto)]

mod answered;
#[cfg(test)]
mod configured;
#[cfg(test)]
mod generated_tests;

pub use answered::{Opened, answer, made, opening_of, typed};
