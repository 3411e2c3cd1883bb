//! What a store answered, and how that ties two moments of its log. No code.
#![tactic(auto)]

mod laws;

pub use laws::{event_laws, line_laws};
