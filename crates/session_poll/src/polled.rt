//! How a session stands between two polls.

ghost use Rattle.std.specs.Prelude.{◌≡◌};
ghost use Rattle.session_poll.specs.Session.{held_of};
ghost use Rattle.session_poll.specs.Standing.{works, is_ended, standing_of};

use crate::session::Session;
use crate::state::Phase;
use pg_messages::{decided_front, decided_startup};

/// How a session stands after a poll.
///
/// - `Closed`: it has ended, and no output waits.
/// - `NeedOutput`: output waits, and the session has ended, or no work waits, or no memory was found for a reply of
///   fixed bytes behind it. In that case alone the poll did nothing though work may wait.
/// - `NeedInput`: it goes on, no output waits, and no work waits.
/// - `Again`: work waits. A whole packet, a bad one and an unfinished Query are work.
///
/// A session has ended after a Terminate and after a fatal error, and where nothing more comes and no work is left.
#[derive(Clone, Copy, Debug, PartialEq, Eq)]
pub enum Polled {
    NeedInput,
    NeedOutput,
    Closed,
    Again,
}

impl Session {
    /// How the session stands. It takes no memory.
    pub(crate) fn standing(&self) -> Polled
        ensures { result ≡ standing_of self.now }
    {
        if self.has_work() {
            Polled::Again
        } else if self.output.len() > 0 {
            Polled::NeedOutput
        } else if self.is_ended() || self.is_over {
            Polled::Closed
        } else {
            Polled::NeedInput
        }
    }

    /// Whether the next poll can do something without more input.
    fn has_work(&self) -> bool
        ensures { result ≡ works self.now.phase (held_of self.now) }
    {
        match &self.phase {
            Phase::Start => decided_startup(self.inbox.bytes()),
            Phase::Ready => decided_front(self.inbox.bytes()),
            Phase::Statements(_, _) | Phase::Query(_) => true,
            Phase::Ended => false,
        }
    }

    fn is_ended(&self) -> bool
        ensures { result ≡ is_ended self.now.phase }
    {
        matches!(&self.phase, Phase::Ended)
    }
}
