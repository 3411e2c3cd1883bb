use values::Text;

/// The greatest length of a frontend message.
pub const FRONT_LIMIT: u32 = 1_048_580;

/// A message of a client.
#[derive(Debug, Drop)]
pub enum Front {
    Query(Text),
    Terminate,
}

/// Which message a type byte announces.
#[derive(Clone, Copy)]
pub enum FrontKind {
    Query,
    Terminate,
}
