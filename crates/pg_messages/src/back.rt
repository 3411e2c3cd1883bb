use values::{List, Text};

/// The greatest length of a backend message.
pub const BACK_LIMIT: u32 = 2_147_483_647;

/// A message of a server.
#[derive(Debug, Drop)]
pub enum Back {
    AuthenticationOk,
    /// The process and its key.
    BackendKeyData(u32, u32),
    /// The parameter's name and its value.
    ParameterStatus(Text, Text),
    ReadyForQuery(Status),
    RowDescription(List<Field>),
    /// The cells of a row, None where a cell is null.
    DataRow(List<Option<Text>>),
    CommandComplete(Text),
    /// What stands in the place of a CommandComplete where a text has no statement.
    EmptyQueryResponse,
    ErrorResponse(List<ErrorField>),
}

/// Which message a type byte announces.
#[derive(Clone, Copy)]
pub enum BackKind {
    AuthenticationOk,
    BackendKeyData,
    ParameterStatus,
    ReadyForQuery,
    RowDescription,
    DataRow,
    CommandComplete,
    EmptyQueryResponse,
    ErrorResponse,
}

/// Where a session's transaction stands.
#[derive(Clone, Copy, Debug, PartialEq, Eq, Drop)]
pub enum Status {
    Idle,
    InBlock,
    Failed,
}

/// A column of a row's description: its name, the number of its type, the bytes of that type (-1 where they vary),
/// and its format, 0 for text and 1 for binary.
#[derive(Debug, Drop)]
pub struct Field {
    pub name: Text,
    pub kind_number: u32,
    pub size: i16,
    pub format: u16,
}

/// A field of an error, with its code, such as `C` for the SQLSTATE.
#[derive(Debug, Drop)]
pub struct ErrorField {
    pub code: u8,
    pub text: Text,
}
