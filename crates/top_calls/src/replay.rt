ghost use Rattle.std.specs.Prelude.{◌≡◌, ◌<◌, ◌≤◌, [], true, false, length, Option, List, ℕ, IfSome, IfNone};
ghost use Rattle.causes.specs.Faults.{Rose};
ghost use Rattle.commit_log.specs.Places.{own_kept};
ghost use Rattle.session_poll.specs.Runs.{IsAt};
ghost use Rattle.session_poll.specs.Session.{waiting_of, is_over};
ghost use Rattle.top_calls.specs.Exits.{CountsWrites};
ghost use Rattle.session_transactions.specs.Goings.{FitsStore};
ghost use Rattle.store_states.specs.Promises.{Opens};
ghost use Rattle.store_states.specs.Views.{IsStore};
ghost use Rattle.stored_versions.specs.Openings.{Opening};
ghost use Rattle.top_calls.specs.Replays.{FeedsOn, GoesOn, IsReplayExit, Moves, PutsAll, Replays, ReplaysAll, ReplaysAllFrom, ReplaysFrom, Stops, log_limit};
ghost use Rattle.top_calls.specs.declared.exit.Exit.TheVariants as exit;

use crate::exit::Exit;
use crate::sink::{Sink, SinkPut};
use commit_log::{Keeper, OwnLog};
use feature_expr::Memory;
use session_poll::{Polled, Session};
use snapshot_store::Store;
use std::alloc::Global;

/// How many bytes a session is fed at once.
const CUT: usize = 4_096;

/// How many bytes may wait before they are put out, though the session could go on.
const WAITING_LIMIT: usize = 65_536;

/// The number of a replay's loop of sessions, which has one.
pub const LOOP_NO: u32 = 0;

/// Runs one session over a stream of bytes, up to its end or to the session's, and puts out what it answers. The store was
/// just opened over an empty log.
#[tactic(auto, using(crate::proofs::LogLaws::replays_nothing, crate::proofs::LogLaws::replays_alone, crate::proofs::LogLaws::replays_all_alone))]
pub fn replay<O: Sink>(alloc: Global, store: Store<OwnLog>, stream: &[u8], out: &mut O) -> Exit
    ensures ends { IsReplayExit result (O.held out.old) (O.held out.new) }
    ensures writes { CountsWrites result (O.held out.old).faults (O.held out.new).faults }
    ensures later { (O.held out.old).faults ≤ (O.held out.new).faults }
    ensures replays { (opening : Opening) → Opens opening (own_kept [] log_limit 0) 0 store → Replays opening stream.now (O.held out.old).bytes (O.held out.new).bytes }
    ensures all { result ≡ exit.Done → (opening : Opening) → Opens opening (own_kept [] log_limit 0) 0 store → ReplaysAll opening stream.now (O.held out.old).bytes (O.held out.new).bytes }
{
    let mut store = store;
    let mut session = match Session::open(alloc) {
        Ok(session) => session,
        Err(Memory) => {
            store.into_keeper().known();
            return Exit::Memory;
        }
    };
    let exit = drive(&mut session, &mut store, stream, out);
    session.close(&mut store);
    store.into_keeper().known();
    exit
}

#[tactic(auto, using(crate::proofs::ReplayLaws::replays_so_far, crate::proofs::ReplayLaws::closed_all))]
fn drive<K: Keeper, O: Sink>(
    session: &mut Session,
    store: &mut Store<K>,
    stream: &[u8],
    out: &mut O,
) -> Exit
    requires first { (opening : Opening) → IsAt opening [] [] [] session.old }
    requires over { is_over session.old ≡ false }
    requires fits { FitsStore session.old.transaction store.old }
    ensures ends { IsReplayExit result (O.held out.old) (O.held out.new) }
    ensures writes { CountsWrites result (O.held out.old).faults (O.held out.new).faults }
    ensures later { (O.held out.old).faults ≤ (O.held out.new).faults }
    ensures fits { FitsStore session.new.transaction store.new }
    ensures replays { (opening : Opening) → IsStore opening store.old → ReplaysFrom opening stream.now store.old.moment store.new.moment (O.held out.old).bytes (O.held out.new).bytes }
    ensures all { result ≡ exit.Done → (opening : Opening) → IsStore opening store.old → ReplaysAllFrom opening stream.now store.old.moment store.new.moment (O.held out.old).bytes (O.held out.new).bytes }
{
    let mut fed: usize = 0;
    'turns: for _ in 0..u64::MAX {
        let polled = session.poll(store);
        if polled == Polled::Closed {
            return Exit::Done;
        }
        match follow(session, polled, stream, fed, out) {
            Some(next) => fed = next,
            None => return Exit::WriteFault,
        }
    }
    Exit::Memory
}

/// Does what a poll asks for, and answers how many bytes were fed then. None: the sink failed.
#[tactic(auto, using(crate::proofs::ReplayLaws::same_on))]
fn follow<O: Sink>(
    session: &mut Session,
    polled: Polled,
    stream: &[u8],
    fed: usize,
    out: &mut O,
) -> Option<usize>
    requires { fed ≤ length stream.now }
    ensures within { IfSome result (λ next. next ≤ length stream.now) }
    ensures on { IfSome result (λ next. GoesOn stream.now fed (O.held out.old).bytes session.old next (O.held out.new).bytes session.new) }
    ensures stops { IfNone result (Stops stream.now fed (O.held out.old).bytes session.old (O.held out.new).bytes session.new) }
    ensures quiet { IfSome result (λ _. (O.held out.new).faults ≡ (O.held out.old).faults) }
    ensures fault { IfNone result (Rose (O.held out.old).faults (O.held out.new).faults) }
    ensures later { (O.held out.old).faults ≤ (O.held out.new).faults }
    ensures moves { IfSome result (λ next. Moves stream.now polled fed session.old next session.new) }
{
    match polled {
        Polled::NeedOutput => put_waiting(session, stream, fed, out),
        Polled::NeedInput => Some(feed_on(session, stream, fed)),
        Polled::Again if session.waiting() >= WAITING_LIMIT => {
            put_waiting(session, stream, fed, out)
        }
        _ => Some(fed),
    }
}

/// Feeds the next piece of a stream, or tells the session that it has ended, and answers how many bytes were fed.
#[tactic(auto, using(crate::proofs::ReplayLaws::fed_on, crate::proofs::ReplayLaws::ended_on))]
fn feed_on(session: &mut Session, stream: &[u8], fed: usize) -> usize
    requires { fed ≤ length stream.now }
    ensures within { result ≤ length stream.now }
    ensures on { (now : Option (List ℕ)) → GoesOn stream.now fed now session.old result now session.new }
    ensures feeds { FeedsOn stream.now fed session.old result session.new }
{
    let (_, left) = stream.split_at(fed);
    if left.is_empty() {
        session.end_input();
        return fed;
    }
    let (piece, _) = left.split_at(left.len().min(CUT));
    fed + session.feed(piece)
}

/// Puts out all that a session has for the client. None: the sink failed.
#[tactic(auto, using(crate::proofs::ReplayLaws::sent_on, crate::proofs::ReplayLaws::stops_in))]
fn put_waiting<O: Sink>(
    session: &mut Session,
    stream: &[u8],
    fed: usize,
    out: &mut O,
) -> Option<usize>
    ensures same { IfSome result (λ next. next ≡ fed) }
    ensures on { IfSome result (λ next. GoesOn stream.now fed (O.held out.old).bytes session.old fed (O.held out.new).bytes session.new) }
    ensures stops { IfNone result (Stops stream.now fed (O.held out.old).bytes session.old (O.held out.new).bytes session.new) }
    ensures quiet { IfSome result (λ _. (O.held out.new).faults ≡ (O.held out.old).faults) }
    ensures fault { IfNone result (Rose (O.held out.old).faults (O.held out.new).faults) }
    ensures later { (O.held out.old).faults ≤ (O.held out.new).faults }
    ensures empty { IfSome result (λ _. waiting_of session.new ≡ []) }
{
    if !put_all(session.bytes(), out) {
        return None;
    }
    session.take(session.waiting());
    Some(fed)
}

/// Puts out a whole piece. False: the sink failed.
#[tactic(auto, using(crate::proofs::Pieces::pieces, crate::proofs::ReplayLaws::front_none, crate::proofs::ReplayLaws::front_rest))]
pub fn put_all<O: Sink>(piece: &[u8], out: &mut O) -> bool
    ensures put { PutsAll piece.now result (O.held out.old) (O.held out.new) }
    ensures later { (O.held out.old).faults ≤ (O.held out.new).faults }
{
    let mut rest = piece;
    'pieces: while !rest.is_empty() {
        match out.put(rest) {
            SinkPut::Took(count) => {
                let (_, left) = rest.split_at(count);
                rest = left;
            }
            SinkPut::Failed => return false,
        }
    }
    true
}
