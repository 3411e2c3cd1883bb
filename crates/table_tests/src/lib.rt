//! Tests of tables: what they are in table form, and in one variant. It exports nothing.
#![tactic(auto)]

#[cfg(test)]
mod table_tests;
