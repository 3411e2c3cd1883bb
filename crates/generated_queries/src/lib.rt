//! Small catalogues, and queries and writes over them, made from a seed, as texts: for tests that compare what is typed
//! or evaluated for all variants at once with one variant after another.
#![tactic(auto)]

mod catalogues;
mod queries;
mod random;
mod terms;
mod writes;

pub use catalogues::generated_catalogue;
pub use queries::generated_query;
pub use random::Random;
pub use terms::{PARAMETER_KINDS, parameter_values};
pub use writes::generated_write;
