use feature_expr::{Memory, Name};
use query_meaning::TypeRefused;
use query_parser::ParseRefused;

/// Why a statement or a message is refused.
#[derive(Drop)]
pub enum Refusal {
    /// It is taken by a later version. The session ends with it.
    NotBuilt,
    NotUtf8,
    /// The text isn't a list of statements.
    Unparsed(ParseRefused),
    /// The statement has no type.
    Untyped(TypeRefused),
    /// A message of the reply would have this length, which its length field can't say.
    TooLong(u64),
    OutOfMemory,
    /// An error came in the transaction, which is still to be ended.
    TransactionFailed,
    KeeperFault,
    /// The commit with this number wrote a table that the transaction read or wrote.
    Conflict(Name, u64),
    /// A commit with this number, of another writer of the log, came first.
    CameFirst(u64),
    /// The log holds this number of commits, and no more.
    LogFull(u64),
}

impl From<Memory> for Refusal {
    ghost use Rattle.std.specs.Prelude.{◌≡◌};
    ghost use Rattle.session_replies.specs.declared.refusal.Refusal.TheVariants as refusal;

    ghost from_gives = { λ _ given. given ≡ refusal.OutOfMemory };

    fn from(_memory: Memory) -> Refusal {
        Refusal::OutOfMemory
    }
}
