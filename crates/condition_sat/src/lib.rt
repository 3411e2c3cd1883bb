//! Satisfiability of conditions under a feature model.
//!
//! The search is plain: it splits on one feature after another. Public contracts know nothing of it.
#![tactic(auto)]

mod asked;
mod model;
mod possible;
mod samples;
mod search;

pub use asked::Asked;
pub use model::Model;
pub use possible::{holds_always, holds_somewhere, meet_somewhere, possible_laws, settled_cond};
