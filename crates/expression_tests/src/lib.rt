//! Tests of values, tokens and expressions: what is read of texts, why others are refused, what is printed, and chains of
//! a million. It exports nothing.
#![tactic(auto)]

#[cfg(test)]
mod expression_tests;
