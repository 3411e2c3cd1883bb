//! Commits put into row versions.
#![tactic(auto)]

mod append;
mod apply;
mod changes;

pub use append::append_commit;
pub use apply::apply_commit;
