//! A poll: none or one step of the session machine.

ghost use Rattle.std.specs.Prelude.{◌≡◌, ◌≤◌, ◌++◌, true, false, not, length, take, drop, is_some, min, IfOk, IfSome, OnErr};
ghost use Rattle.pg_messages.specs.Front.{front_head, front_of};
ghost use Rattle.pg_messages.specs.Front.{IsFront};
ghost use Rattle.pg_messages.specs.Packet.{Answers, IfWhole, IfMemory, length_of};
ghost use Rattle.pg_messages.specs.Startup.{startup_head, startup_of};
ghost use Rattle.pg_messages.specs.Startup.{IsStartup};
ghost use Rattle.session_poll.specs.declared.state.Phase.TheVariants as phases;
ghost use Rattle.session_poll.specs.Parts.{BeginsStartup, BeginsQuery, Drops, Skips, Moves, Takes, WantsMemory};
ghost use Rattle.session_poll.specs.Polls.{Polls};
ghost use Rattle.session_poll.specs.Session.{held_of};
ghost use Rattle.session_poll.specs.Rooms.{HasStepRoom};
ghost use Rattle.session_poll.specs.Steps.{Handles};
ghost use Rattle.session_transactions.specs.Goings.{FitsStore};

use crate::polled::Polled;
use crate::session::Session;
use crate::state::Phase;
use commit_log::Keeper;
use feature_expr::Memory;
use pg_messages::{
    Decoded, Front, Startup, decode_front, decode_startup, front_length, startup_length,
};
use snapshot_store::Store;
use std::alloc::Global;

impl Session {
    /// Takes at most one packet, one more statement of a Query or a Query's end, and says how the session stands then.
    #[tactic(auto, using(crate::proofs::PollLaws::polls_moved, crate::proofs::PollLaws::polls_full))]
    pub fn poll<K: Keeper>(&mut self, store: &mut Store<K>) -> Polled
        requires { FitsStore self.old.transaction store.old }
        ensures { Polls self.old store.old result self.new store.new }
    {
        match self.move_on(store) {
            Ok(_has_moved) => self.standing(),
            Err(Memory) => Polled::NeedOutput,
        }
    }

    /// Makes room for the replies of a step, and takes one if there is one to take.
    #[tactic(auto, using(crate::proofs::PollLaws::moves_from, crate::proofs::PollLaws::wants_memory))]
    fn move_on<K: Keeper>(&mut self, store: &mut Store<K>) -> Result<bool, Memory>
        requires { FitsStore self.old.transaction store.old }
        ensures ok { IfOk result (λ has_moved. Moves self.old store.old has_moved self.new store.new) }
        ensures err { OnErr result (WantsMemory self.old store.old self.new store.new) }
    {
        self.output.make_room()?;
        let has_moved = self.step(store);
        Ok(has_moved)
    }

    /// Takes a step if there is one to take.
    #[tactic(auto, using(crate::proofs::MoveLaws::gone_on, crate::proofs::MoveLaws::query_ended, crate::proofs::MoveLaws::idle_ended))]
    fn step<K: Keeper>(&mut self, store: &mut Store<K>) -> bool
        requires fits { FitsStore self.old.transaction store.old }
        requires room { HasStepRoom self.old }
        ensures { Moves self.old store.old result self.new store.new }
    {
        match &self.phase {
            Phase::Start => self.take_startup(store),
            Phase::Ready => self.take_message(store),
            Phase::Statements(_, _) => {
                self.go_on(store);
                true
            }
            Phase::Query(_) => {
                self.end_query(store);
                true
            }
            Phase::Ended => false,
        }
    }

    #[tactic(auto, using(crate::proofs::MoveLaws::started, crate::proofs::MoveLaws::start_bad, crate::proofs::MoveLaws::start_unread, crate::proofs::MoveLaws::start_idle))]
    fn take_startup<K: Keeper>(&mut self, store: &mut Store<K>) -> bool
        requires fits { FitsStore self.old.transaction store.old }
        requires room { HasStepRoom self.old }
        requires phase { self.old.phase ≡ phases.Start }
        ensures { Moves self.old store.old result self.new store.new }
    {
        match self.next_startup() {
            Decoded::Whole(packet, count) => {
                self.discard(count);
                self.start_up(&packet, store);
                true
            }
            Decoded::More => false,
            Decoded::Bad(_place, _why) => {
                self.discard_all();
                self.reject(store);
                true
            }
            Decoded::Memory => {
                self.skip_startup();
                self.refuse_start(store);
                true
            }
        }
    }

    #[tactic(auto, using(crate::proofs::MoveLaws::handled, crate::proofs::MoveLaws::message_bad, crate::proofs::MoveLaws::message_unread, crate::proofs::MoveLaws::message_idle))]
    fn take_message<K: Keeper>(&mut self, store: &mut Store<K>) -> bool
        requires fits { FitsStore self.old.transaction store.old }
        requires room { HasStepRoom self.old }
        requires phase { self.old.phase ≡ phases.Ready }
        ensures { Moves self.old store.old result self.new store.new }
    {
        match self.next_front() {
            Decoded::Whole(message, count) => {
                self.discard(count);
                self.handle(&message, store);
                true
            }
            Decoded::More => false,
            Decoded::Bad(_place, _why) => {
                self.discard_all();
                self.reject(store);
                true
            }
            Decoded::Memory => {
                self.skip_message();
                self.run_out(store);
                true
            }
        }
    }

    #[tactic(auto, using(crate::proofs::QueryLaws::handles_query, crate::proofs::QueryLaws::handles_terminate))]
    fn handle<K: Keeper>(&mut self, message: &Front, store: &mut Store<K>)
        requires fits { FitsStore self.old.transaction store.old }
        requires room { HasStepRoom self.old }
        ensures { Takes (Handles message.now) self.old store.old self.new store.new }
    {
        match message {
            Front::Query(text) => self.query(text, store),
            Front::Terminate => self.terminate(store),
        }
    }

    fn next_startup(&self) -> Decoded<Startup>
        ensures whole { IfWhole result (λ m n. (n ≤ length (held_of self.now)) × IsStartup m (take n (held_of self.now))) }
        ensures exact { Answers result (startup_of (held_of self.now)) }
        ensures memory { IfMemory result (is_some (length_of (startup_head (held_of self.now))) ≡ true) }
        ensures unread { IfMemory result (BeginsStartup (length_of (startup_head (held_of self.now))) (held_of self.now)) }
    {
        read_startup(self.alloc, self.inbox.bytes())
    }

    fn next_front(&self) -> Decoded<Front>
        ensures whole { IfWhole result (λ m n. (n ≤ length (held_of self.now)) × IsFront m (take n (held_of self.now))) }
        ensures exact { Answers result (front_of (held_of self.now)) }
        ensures memory { IfMemory result (is_some (length_of (front_head (held_of self.now))) ≡ true) }
        ensures unread { IfMemory result (BeginsQuery (length_of (front_head (held_of self.now))) (held_of self.now)) }
    {
        read_front(self.alloc, self.inbox.bytes())
    }

    /// Drops a packet that was taken.
    fn discard(&mut self, count: usize)
        requires { count ≤ length (held_of self.old) }
        ensures { Drops count self.old self.new }
    {
        self.inbox.discard(count);
    }

    /// Drops all that is held.
    fn discard_all(&mut self)
        ensures { Drops (length (held_of self.old)) self.old self.new }
    {
        let count = self.inbox.bytes().len();
        self.inbox.discard(count);
    }

    /// Drops a start-up packet that wasn't read.
    fn skip_startup(&mut self)
        requires { is_some (length_of (startup_head (held_of self.old))) ≡ true }
        ensures { Skips (length_of (startup_head (held_of self.old))) self.old self.new }
    {
        if let Some(count) = startup_length(self.inbox.bytes()) {
            self.inbox.discard(count);
        }
    }

    /// Drops a message that wasn't read.
    fn skip_message(&mut self)
        requires { is_some (length_of (front_head (held_of self.old))) ≡ true }
        ensures { Skips (length_of (front_head (held_of self.old))) self.old self.new }
    {
        if let Some(count) = front_length(self.inbox.bytes()) {
            self.inbox.discard(count);
        }
    }
}

/// The start-up packet at the front of the bytes. One for which no memory is found is a StartupMessage.
fn read_startup(alloc: Global, bytes: &[u8]) -> Decoded<Startup>
    ensures whole { IfWhole result (λ m n. (n ≤ length bytes.now) × IsStartup m (take n bytes.now)) }
    ensures exact { Answers result (startup_of bytes.now) }
    ensures memory { IfMemory result (is_some (length_of (startup_head bytes.now)) ≡ true) }
    ensures unread { IfMemory result (BeginsStartup (length_of (startup_head bytes.now)) bytes.now) }
{
    decode_startup(alloc, bytes)
}

/// The message at the front of the bytes. One for which no memory is found is a Query.
fn read_front(alloc: Global, bytes: &[u8]) -> Decoded<Front>
    ensures whole { IfWhole result (λ m n. (n ≤ length bytes.now) × IsFront m (take n bytes.now)) }
    ensures exact { Answers result (front_of bytes.now) }
    ensures memory { IfMemory result (is_some (length_of (front_head bytes.now)) ≡ true) }
    ensures unread { IfMemory result (BeginsQuery (length_of (front_head bytes.now)) bytes.now) }
{
    decode_front(alloc, bytes)
}
