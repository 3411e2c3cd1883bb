use values::List;
use vtable::VTable;

/// A stored table by its number, with its rows in every variant.
#[derive(Drop)]
pub struct TableRows {
    pub table: u32,
    pub rows: VTable,
}

/// The stored tables over which a plan is run.
#[derive(Drop)]
pub struct Rows {
    pub tables: List<TableRows>,
}
