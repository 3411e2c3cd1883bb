//! What a log of commits makes of the tables, what the versions of rows say of it, and when commits conflict. No code.
#![tactic(auto)]

mod laws;

pub use laws::{conflict_laws, log_laws, version_laws};
