//! Lists of row versions: what snapshots see of them, and their order. No code.
#![tactic(auto)]

mod laws;

pub use laws::order_laws;
