//! The tables of a catalogue before any commit, without the rows that no variant has.
#![tactic(auto)]

mod opened;

pub use opened::opened_tables;
