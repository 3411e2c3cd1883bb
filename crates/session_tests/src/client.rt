//! A client's side of sessions over one store.

ghost use Rattle.std.specs.Prelude.{◌≡◌, IfOk};
ghost use Rattle.session_transactions.specs.Goings.{FitsStore, IsBeside};
ghost use Rattle.session_transactions.specs.declared.transaction.Transaction.{Transaction};
ghost use Rattle.session_transactions.specs.declared.transaction.Transaction.TheVariants as held;
ghost use Rattle.store_states.specs.Stored.{Stored};

use commit_log::{Keeper, OwnLog};
use session_poll::{Polled, Session};
use snapshot_store::Store;
use std::alloc::Global;
use std::test::Fail;
use vra_types::check_catalog;
use vschema::parse_catalog;

/// A store over a catalogue, with an empty log that holds so many commits.
pub fn store_of(alloc: Global, catalogue: &[u8], most: u64) -> Result<Store<OwnLog>, Fail> {
    store_over(alloc, catalogue, OwnLog::new(alloc, most))
}

/// A store over a catalogue and a log.
pub fn store_over<K: Keeper + Drop>(
    alloc: Global,
    catalogue: &[u8],
    log: K,
) -> Result<Store<K>, Fail> {
    let (catalog, rows) = parse_catalog(alloc, catalogue)?;
    let model = check_catalog(alloc, &catalog, &rows)?;
    match Store::over(alloc, catalog, rows, model, log, 0) {
        Ok(store) => Ok(store),
        Err(_refused) => Err("a store")?,
    }
}

/// What a session over a catalogue answers to a stream that it is fed in pieces of this size.
pub fn reply(alloc: Global, catalogue: &[u8], stream: &[u8], cut: usize) -> Result<Vec<u8>, Fail> {
    let mut store = store_of(alloc, catalogue, 1_000)?;
    let mut session = open(alloc)?;
    let out = send(alloc, &mut session, &mut store, stream, cut)?;
    session.close(&mut store);
    Ok(out)
}

/// What a session answers to bytes that it is fed in pieces of this size, until it waits for more or has ended.
pub fn send<K: Keeper>(
    alloc: Global,
    session: &mut Session,
    store: &mut Store<K>,
    bytes: &[u8],
    cut: usize,
) -> Result<Vec<u8>, Fail>
    requires { FitsStore session.old.transaction store.old }
    ensures fits { FitsStore session.new.transaction store.new }
    ensures beside { (other : Transaction) → IsBeside session.old.transaction other store.old → IsBeside session.new.transaction other store.new }
{
    let mut out = Vec::new(alloc);
    let mut fed = 0usize;
    'polls: for _ in 0..10_000 {
        match session.poll(store) {
            Polled::Again => {}
            Polled::Closed => return Ok(out),
            Polled::NeedOutput => take_all(session, &mut out)?,
            Polled::NeedInput if fed == bytes.len() => return Ok(out),
            Polled::NeedInput => fed = feed_on(session, bytes, fed, cut)?,
        }
    }
    Err("no end of polls")?
}

fn take_all(session: &mut Session, out: &mut Vec<u8>) -> Result<(), Fail>
    ensures { session.new.transaction ≡ session.old.transaction }
{
    out.extend_from_slice(session.bytes())?;
    session.take(session.waiting());
    Ok(())
}

fn feed_on(session: &mut Session, bytes: &[u8], fed: usize, cut: usize) -> Result<usize, Fail>
    ensures { session.new.transaction ≡ session.old.transaction }
{
    let end = fed.saturating_add(cut).min(bytes.len());
    let piece = bytes.get(fed..end).ok_or("a piece")?;
    Ok(fed.saturating_add(session.feed(piece)))
}

/// Whether, behind these bytes, polls answer these, one after another.
#[tactic(auto, using(crate::proofs::ClientLaws::fits_same))]
pub fn polls<K: Keeper>(
    session: &mut Session,
    store: &mut Store<K>,
    bytes: &[u8],
    wanted: &[Polled],
) -> bool
    requires { FitsStore session.old.transaction store.old }
    ensures { FitsStore session.new.transaction store.new }
{
    let count = session.feed(bytes);
    'polls: for polled in wanted {
        if session.poll(store) != *polled {
            return false;
        }
    }
    count == bytes.len()
}

/// A session that has taken nothing.
#[tactic(auto, using(crate::proofs::ClientLaws::fits_idle))]
pub fn open(alloc: Global) -> Result<Session, Fail>
    ensures idle { IfOk result (λ session. session.transaction ≡ held.Idle) }
    ensures fits { IfOk result (λ session. (store : Stored) → FitsStore session.transaction store) }
{
    match Session::open(alloc) {
        Ok(session) => Ok(session),
        Err(_memory) => Err("memory")?,
    }
}
