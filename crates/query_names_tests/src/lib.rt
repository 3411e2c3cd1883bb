//! Tests of what the names of a query say: on generated queries beside the plain evaluator, on queries whose answer is
//! known, and on long chains. It exports nothing.
#![tactic(auto)]

#[cfg(test)]
mod chain_tests;
#[cfg(test)]
mod generated_tests;
#[cfg(test)]
mod known_tests;
#[cfg(test)]
mod named;
