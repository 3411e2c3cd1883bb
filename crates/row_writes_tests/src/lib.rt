//! Tests of writes on rows under conditions, and of the numbers in their tags. It exports nothing.
#![tactic(auto)]

#[cfg(test)]
mod count_tests;
#[cfg(test)]
mod given;
#[cfg(test)]
mod known_tests;
