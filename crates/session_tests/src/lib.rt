//! Tests of what a session answers.
#![tactic(auto)]

#[cfg(test)]
mod client;
#[cfg(test)]
mod replies;
#[cfg(test)]
mod texts;
#[cfg(test)]
mod transactions;
