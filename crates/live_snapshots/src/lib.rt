//! The snapshots of a store that are live.
#![tactic(auto)]

mod laws;
mod live;
mod snapshot;

pub use laws::snapshot_laws;
pub use live::Live;
pub use snapshot::Snap;
