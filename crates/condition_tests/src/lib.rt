//! Tests of simplified conditions: their texts, and their truth in each configuration. It exports nothing.
#![tactic(auto)]

#[cfg(test)]
mod simplified_tests;
