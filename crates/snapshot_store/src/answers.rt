use live_snapshots::Snap;
use values::{List, Name};
use vra_syntax::Write;

/// Why a store wasn't opened.
#[derive(Clone, Copy, Debug, PartialEq, Eq)]
pub enum OpenRefused {
    KeeperFault,
    Memory,
}

/// Why a snapshot wasn't begun.
#[derive(Clone, Copy, Debug, PartialEq, Eq)]
pub enum BeginRefused {
    KeeperFault,
    Memory,
}

/// What came of a commit. The snapshot and the writes come back where they weren't spent.
#[derive(Drop)]
pub enum CommitAnswer {
    At(u64),
    Conflict(Name, u64),
    Behind(u64, Snap, List<Write>),
    KeeperFault(Snap, List<Write>),
    LogFull(u64, Snap, List<Write>),
    Memory(Snap, List<Write>),
}
