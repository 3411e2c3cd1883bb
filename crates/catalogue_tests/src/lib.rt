//! Tests of catalogues: what files spell, why others are refused, how much a catalogue may hold, and what its check
//! finds. It exports nothing.
#![tactic(auto)]

#[cfg(test)]
mod check_tests;
#[cfg(test)]
mod limit_tests;
#[cfg(test)]
mod parse_tests;
