//! Tests of statements: what is read of texts, why others are refused, what is printed, and what binding makes. It
//! exports nothing.
#![tactic(auto)]

#[cfg(test)]
mod bind_tests;
#[cfg(test)]
mod chain_tests;
#[cfg(test)]
mod fault_tests;
#[cfg(test)]
mod print_tests;
#[cfg(test)]
mod printed;
