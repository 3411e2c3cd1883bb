//! What contracts see of a store of row versions, and what its calls leave. No code.
#![tactic(auto)]

mod laws;

pub use laws::store_laws;
