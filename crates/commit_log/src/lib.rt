//! The log of commits, as one of those who add to it has seen it, and the log in memory.
//!
//! The path of a type's file is part of this crate's interface: a specification above names it.
#![tactic(auto)]

mod append;
mod commit;
mod keeper;
mod own;
mod refresh;

pub use append::Append;
pub use commit::Commit;
pub use keeper::Keeper;
pub use own::{FailingLog, OwnLog};
pub use refresh::Refresh;
