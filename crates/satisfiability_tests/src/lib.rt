//! Tests of satisfiability: what is found for expressions under a model, and how expressions compare. It exports nothing.
#![tactic(auto)]

#[cfg(test)]
mod question_tests;
