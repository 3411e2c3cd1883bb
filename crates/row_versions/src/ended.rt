use vtable::VRow;

/// A row that a commit has ended, with the numbers of its version and of its table and the commit at which it began.
#[derive(Drop)]
pub struct EndedRow {
    pub number: u64,
    pub table: u32,
    pub begins: u64,
    pub ends: u64,
    pub row: VRow,
}
