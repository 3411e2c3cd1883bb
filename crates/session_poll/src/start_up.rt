//! The start-up rule: which start-up message is taken, and what it is answered.

ghost use Rattle.std.specs.Prelude.{◌≡◌, ◌++◌, [], ◌∷◌, map, drop, take, codes, length, Option, Some, None, not, ◌&&◌, ◌==◌, ◌<◌, if◌then◌else◌, OnOk, IfOk, IfSome, IfNone, true, OnErr};
ghost use Rattle.std.specs.List.{list_any, flat_map};
ghost use Rattle.std.specs.Option.{option_map};
ghost use Rattle.session_poll.specs.StartUps.{is_taken, is_refused_name, is_not_empty, value_of, value_in, later_or, with_commas, piece, fixed_parameters, welcome, StartsUp, Welcomes};
ghost use Rattle.session_poll.specs.Parts.{Takes, KeepsState};
ghost use Rattle.session_poll.specs.State.{status_of};
ghost use Rattle.session_poll.specs.Rooms.{HasErrorRoom, HasStatementRoom, HasStepRoom};
ghost use Rattle.session_replies.specs.Replies.{out_of_memory, spelled};
ghost use Rattle.session_transactions.specs.Goings.{FitsStore};
ghost use Rattle.session_transactions.specs.Transactions.{transaction_of};
ghost use Rattle.session_poll.specs.StartUps as rule;
ghost use Rattle.session_poll.specs.Steps.{RefusesStart};

use crate::queries::status;
use crate::session::Session;
use crate::state::Phase;
use commit_log::Keeper;
use feature_expr::{Features, List, Memory, print_expr};
use pg_messages::{Back, Pair, Startup, Status};
use session_replies::{Refusal, parameter};
use snapshot_store::Store;
use std::alloc::Global;
use vschema::Catalog;

impl Session {
    /// Answers a start-up packet.
    #[tactic(auto, using(crate::proofs::StartLaws::starts_up, crate::proofs::StartLaws::starts_not))]
    pub(crate) fn start_up<K: Keeper>(&mut self, packet: &Startup, store: &mut Store<K>)
        requires fits { FitsStore self.old.transaction store.old }
        requires room { HasStepRoom self.old }
        ensures { Takes (StartsUp packet.now) self.old store.old self.new store.new }
    {
        if is_taken(packet) {
            self.welcome(store);
        } else {
            self.reject(store);
        }
    }

    #[tactic(auto, using(crate::proofs::StartLaws::welcomed, crate::proofs::StartLaws::not_welcomed))]
    fn welcome<K: Keeper>(&mut self, store: &Store<K>)
        requires fits { FitsStore self.old.transaction store.now }
        requires room { HasStepRoom self.old }
        ensures { Takes Welcomes self.old store.now self.new store.now }
    {
        match self.put_welcome(store.catalog()) {
            Ok(()) => self.phase = Phase::Ready,
            Err(Memory) => self.say_out_of_memory(),
        }
    }

    fn put_welcome(&mut self, catalog: &Catalog) -> Result<(), Memory>
        requires { HasStepRoom self.old }
        ensures ok { OnOk result (self.new.output.bytes ≡ self.old.output.bytes ++ spelled (rule.welcome catalog.now (status_of (transaction_of self.old.transaction)))) }
        ensures err { OnErr result (self.new.output.bytes ≡ self.old.output.bytes) }
        ensures room { HasStatementRoom self.new }
        ensures state { KeepsState self.old self.new }
    {
        let messages = welcome(self.alloc, catalog, status(&self.transaction))?;
        self.output.put_all(messages.as_slice())
    }

    /// Want of memory stands for a start-up packet that wasn't read, and the session still waits for one.
    #[tactic(auto, using(crate::proofs::StartLaws::refused))]
    pub(crate) fn refuse_start<K: Keeper>(&mut self, store: &Store<K>)
        requires fits { FitsStore self.old.transaction store.now }
        requires room { HasStepRoom self.old }
        ensures { Takes RefusesStart self.old store.now self.new store.now }
    {
        let _store = store;
        self.say_out_of_memory();
    }

    fn say_out_of_memory(&mut self)
        requires { HasErrorRoom self.old }
        ensures put { self.new.output.bytes ≡ self.old.output.bytes ++ spelled (out_of_memory ∷ []) }
        ensures state { KeepsState self.old self.new }
    {
        self.output.refuse_fixed(&Refusal::OutOfMemory);
    }
}

/// Whether a start-up packet is taken: it names a user, and neither an option of a later protocol nor replication.
pub fn is_taken(startup: &Startup) -> bool
    ensures { result ≡ is_taken startup.now }
{
    match startup {
        Startup::Start(pairs) => {
            let pairs = pairs.as_slice();
            !has_refused_name(pairs) && names_user(pairs)
        }
        Startup::Other(_) => false,
    }
}

fn has_refused_name(pairs: &[Pair]) -> bool
    ensures { result ≡ list_any is_refused_name pairs.now }
{
    pairs.iter().any(|pair| is_refused_name(pair))
}

fn is_refused_name(pair: &Pair) -> bool
    ensures { result ≡ is_refused_name pair.now }
{
    let name = pair.name.as_slice();
    name.starts_with(b"_pq_.") || name == b"replication".as_slice()
}

/// Whether there is a user whose name isn't empty. Of a parameter that comes again the last value counts.
fn names_user(pairs: &[Pair]) -> bool
    ensures { result ≡ is_not_empty (value_of (codes "user") pairs.now) }
{
    match last_value(b"user", pairs) {
        Some(value) => !value.is_empty(),
        None => false,
    }
}

#[tactic(auto, using(crate::proofs::StartTextLaws::last_same, crate::proofs::StartTextLaws::last_new))]
fn last_value<'a>(name: &[u8], pairs: &'a [Pair]) -> Option<&'a [u8]>
    ensures { option_map (λ value. value.now) result ≡ value_of name.now pairs.now }
{
    let mut found = None;
    'pairs: for pair in pairs {
        if pair.name.as_slice() == name {
            found = Some(pair.value.as_slice());
        }
    }
    found
}

/// The reply to a start-up message that is taken.
pub fn welcome(alloc: Global, catalog: &Catalog, status: Status) -> Result<List<Back>, Memory>
    ensures { IfOk result (λ it. it ≡ welcome catalog.now status) }
{
    let mut messages = fixed_parameters(alloc)?;
    let features = &catalog.features;
    let names = feature_names(alloc, features)?;
    messages.push(parameter(alloc, b"vdb_features", names.as_slice())?)?;
    let model = print_expr(alloc, &catalog.model, features)?;
    messages.push(parameter(alloc, b"vdb_model", model.as_slice())?)?;
    messages.push(Back::BackendKeyData(1, 0))?;
    messages.push(Back::ReadyForQuery(status))?;
    Ok(List::from_vec(messages))
}

/// What is told alike over each catalogue.
fn fixed_parameters(alloc: Global) -> Result<Vec<Back>, Memory>
    ensures { IfOk result (λ it. it.items ≡ fixed_parameters) }
{
    let mut messages = Vec::with_capacity(alloc, 11)?;
    messages.push(Back::AuthenticationOk)?;
    messages.push(parameter(alloc, b"server_version", b"14.0")?)?;
    messages.push(parameter(alloc, b"server_encoding", b"UTF8")?)?;
    messages.push(parameter(alloc, b"client_encoding", b"UTF8")?)?;
    messages.push(parameter(alloc, b"DateStyle", b"ISO, MDY")?)?;
    messages.push(parameter(alloc, b"integer_datetimes", b"on")?)?;
    messages.push(parameter(alloc, b"standard_conforming_strings", b"on")?)?;
    Ok(messages)
}

/// The names of the features, in their order, with commas between them.
#[tactic(auto, using(crate::proofs::StartTextLaws::listed_more))]
fn feature_names(alloc: Global, features: &Features) -> Result<Vec<u8>, Memory>
    ensures { IfOk result (λ it. it.items ≡ with_commas features.now) }
{
    let mut names = Vec::new(alloc);
    for feature in 0..features.count() {
        push_name(features, feature, &mut names)?;
    }
    Ok(names)
}

/// Adds the name of a feature, behind a comma if another stands before it.
fn push_name(features: &Features, feature: u8, names: &mut Vec<u8>) -> Result<(), Memory>
    requires { feature < length features.now }
    ensures { OnOk result (names.new.items ≡ names.old.items ++ piece features.now feature) }
{
    push_comma(feature, names)?;
    names.extend_from_slice(features.name(feature).as_slice())?;
    Ok(())
}

fn push_comma(feature: u8, names: &mut Vec<u8>) -> Result<(), Memory>
    ensures { OnOk result (names.new.items ≡ names.old.items ++ (if feature == 0 then [] else codes ",")) }
{
    if feature > 0 {
        names.push(b',')?;
    }
    Ok(())
}
