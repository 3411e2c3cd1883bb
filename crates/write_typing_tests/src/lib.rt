//! Tests of the typing of writes: on writes whose answer was worked out by hand, and on generated writes beside a plain
//! evaluation of each in every variant. It exports nothing.
#![tactic(auto)]

#[cfg(test)]
mod generated_tests;
#[cfg(test)]
mod given;
#[cfg(test)]
mod known_tests;
#[cfg(test)]
mod plain;
#[cfg(test)]
mod said;
