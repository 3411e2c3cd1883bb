//! Tests of messages: what is read of bytes, and what is written. It exports nothing.
#![tactic(auto)]

#[cfg(test)]
mod reading_tests;
#[cfg(test)]
mod writing_tests;
