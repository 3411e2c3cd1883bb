//! Tests of the typing of queries for all variants at once: on generated queries beside the plain evaluator, and on long
//! chains. It exports nothing.
#![tactic(auto)]

#[cfg(test)]
mod chain_tests;
#[cfg(test)]
mod generated_tests;
#[cfg(test)]
mod stated;
