use values::{List, Text};

/// The code of a StartupMessage, the protocol's number 3.0.
pub const STARTUP_CODE: u32 = 196_608;

/// The greatest length of a start-up packet.
pub const STARTUP_LIMIT: u32 = 10_000;

/// A packet that a connection begins with.
#[derive(Debug, Drop)]
pub enum Startup {
    /// A StartupMessage with its parameters.
    Start(List<Pair>),
    /// A packet with another code, whose rest is left unread.
    Other(u32),
}

/// A parameter of a StartupMessage.
#[derive(Debug, Drop)]
pub struct Pair {
    pub name: Text,
    pub value: Text,
}

/// Which packet a code announces.
#[derive(Clone, Copy)]
pub enum StartupKind {
    Start,
    Other(u32),
}
