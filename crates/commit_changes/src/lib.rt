//! What a commit's writes make of the newest rows of stored tables.
#![tactic(auto)]

mod changes;
mod ended;
mod pending;
mod written;

pub use changes::commit_changes;
