/// The version of a newest row: its number, and the commit at which it began.
#[derive(Drop)]
pub struct Mark {
    pub number: u64,
    pub begins: u64,
}
