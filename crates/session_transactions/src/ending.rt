use values::Name;

/// What came of the end of a transaction.
#[derive(Drop)]
pub enum Ending {
    /// There were no own writes.
    Nothing,
    /// They are the commit at this place.
    At(u64),
    /// The commit at this place wrote this table first.
    Conflict(Name, u64),
    /// Another's commit came to this place first.
    Behind(u64),
    KeeperFault,
    /// The log holds its greatest number of commits, this one.
    LogFull(u64),
    Memory,
}
