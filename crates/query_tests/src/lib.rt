//! Tests of queries: what the plain evaluator finds of worked examples and of generated queries, and that a long plan is
//! copied and dropped. It exports nothing.
#![tactic(auto)]

#[cfg(test)]
mod evaluated;
#[cfg(test)]
mod generated_tests;
#[cfg(test)]
mod plan_tests;
#[cfg(test)]
mod worked_tests;
