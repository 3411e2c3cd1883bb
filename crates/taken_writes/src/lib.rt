//! Which writes of a log count.
#![tactic(auto)]

mod below;
mod fit;
mod taken;

pub use fit::is_fit;
pub use taken::is_taken;
