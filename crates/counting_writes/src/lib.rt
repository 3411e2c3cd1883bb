//! Those of another's writes that count.
#![tactic(auto)]

mod counting;

pub use counting::counting_writes;
