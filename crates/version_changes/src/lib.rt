//! What a commit makes of versions of rows: which end and which begin. No code.
#![tactic(auto)]

mod laws;

pub use laws::change_laws;
