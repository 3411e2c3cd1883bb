use values::List;
use vtable::VRow;

/// What becomes of a row under a write.
#[derive(Drop)]
pub enum Fate {
    /// It stays as it is.
    Stays,
    /// It ends, and these rows begin in its place.
    Ends(List<VRow>),
}
