use values::List;
use vtable::VRow;

/// What a commit makes of a table's newest rows: some of them end, and others begin behind those that stay.
#[derive(Drop)]
pub struct TableChange {
    pub table: u32,
    /// The places of the rows that end, from 0, in rising order.
    pub ends: List<usize>,
    pub begun: List<VRow>,
}
