//! The query rule.

ghost use Rattle.std.specs.Prelude.{IfSome, ◌≡◌, ◌++◌, [], ◌∷◌, ◌≤◌, true, None, Some, Option, List as Items};
ghost use Rattle.pg_messages.specs.declared.back.Back.{Back};
ghost use Rattle.session_poll.specs.Errors.{Rejects, Runs};
ghost use Rattle.session_poll.specs.Parts.{Done, Failed, GoesPast, IsEnded, IsReady, IsTaken, KeepsState, Takes};
ghost use Rattle.session_poll.specs.Queries.{AnswersStatements, Completes, EndsQuery, EndsWith, IsTextRead, Queries, RunsOut, RunsStatement, last_of};
ghost use Rattle.session_poll.specs.State.{in_phase, status_of};
ghost use Rattle.session_poll.specs.Steps.{Terminates};
ghost use Rattle.session_poll.specs.declared.state.Phase.TheVariants as phases;
ghost use Rattle.session_poll.specs.Rooms.{HasErrorRoom, HasStatementRoom, HasStepRoom, HasTagRoom};
ghost use Rattle.session_replies.specs.declared.tag.Tag.{Tag as OneTag};
ghost use Rattle.session_transactions.specs.Goings.{FitsStore};
ghost use Rattle.session_transactions.specs.Transactions.{transaction_of};
ghost use Rattle.stored_versions.specs.Openings.{Opening};

use crate::left::Left;
use crate::session::Session;
use crate::state::Phase;
use commit_log::Keeper;
use feature_expr::{Features, List, Text};
use pg_messages::Status;
use query_parser::parse;
use session_replies::{Refusal, Tag};
use session_transactions::Transaction;
use snapshot_store::Store;
use std::alloc::Global;
use std::{mem, str};
use vra_syntax::Statement;

impl Session {
    /// Reads the text of a Query, whose statements are left to be run.
    #[tactic(auto, using(crate::proofs::QueryLaws::query_read, crate::proofs::QueryLaws::query_refused))]
    pub(crate) fn query<K: Keeper>(&mut self, text: &Text, store: &mut Store<K>)
        requires fits { FitsStore self.old.transaction store.old }
        requires room { HasStepRoom self.old }
        ensures { Takes (Queries text.now) self.old store.old self.new store.new }
    {
        match read(self.alloc, text.as_slice(), &store.catalog().features) {
            Ok(statements) => self.leave(statements, store),
            Err(why) => self.fail(&why, store),
        }
    }

    /// Leaves these statements to be run. Where there is none, that is told.
    #[tactic(auto, using(crate::proofs::QueryLaws::leaves, crate::proofs::QueryLaws::leaves_none))]
    fn leave<K: Keeper>(&mut self, statements: List<Statement>, store: &mut Store<K>)
        requires fits { FitsStore self.old.transaction store.old }
        requires room { HasStepRoom self.old }
        ensures { Takes (AnswersStatements statements) self.old store.old self.new store.new }
    {
        let mut left = Left::new(statements);
        match left.next() {
            Some(first) => self.phase = Phase::Statements(first, left),
            None => self.end_with(None, store),
        }
    }

    /// Goes on with the next statement of a Query.
    #[tactic(auto, using(crate::proofs::QueryLaws::goes_on_with))]
    pub(crate) fn go_on<K: Keeper>(&mut self, store: &mut Store<K>)
        requires fits { FitsStore self.old.transaction store.old }
        requires room { HasStepRoom self.old }
        ensures { (first : Statement) (left : Items Statement) → self.old.phase ≡ phases.Statements first left → Takes (λ opening old c. RunsStatement first left opening (in_phase phases.Ready old) c) self.old store.old self.new store.new }
    {
        if let Phase::Statements(first, left) = self.take_phase() {
            self.run_statement(first, left, store);
        }
    }

    fn take_phase(&mut self) -> Phase
        ensures phase { result ≡ self.old.phase }
        ensures taken { IsTaken self.old self.new }
    {
        mem::replace(&mut self.phase, Phase::Ready)
    }

    /// Runs a statement behind which these are left.
    #[tactic(auto, using(crate::proofs::QueryLaws::runs_through, crate::proofs::QueryLaws::runs_failed))]
    fn run_statement<K: Keeper>(&mut self, first: Statement, left: Left, store: &mut Store<K>)
        requires fits { FitsStore self.old.transaction store.old }
        requires room { HasStepRoom self.old }
        ensures { Takes (Runs (Completes first left)) self.old store.old self.new store.new }
    {
        if let Some(why) = self.complete(first, left, store) {
            self.fail(&why, store);
        }
    }

    #[tactic(auto, using(crate::proofs::QueryLaws::completes, crate::proofs::QueryLaws::completes_not))]
    fn complete<K: Keeper>(
        &mut self,
        first: Statement,
        left: Left,
        store: &mut Store<K>,
    ) -> Option<Refusal>
        requires fits { FitsStore self.old.transaction store.old }
        requires room { HasStepRoom self.old }
        ensures done { Done (Completes first left) self.old store.old result self.new store.new }
        ensures room { IfSome result (λ why. HasErrorRoom self.new) }
    {
        match self.run(first, store) {
            Ok(tag) => {
                self.go_past(tag, left);
                None
            }
            Err(why) => Some(why),
        }
    }

    /// Goes on behind a statement, whose tag is sent at once where others are left.
    fn go_past(&mut self, tag: Tag, mut left: Left)
        requires { HasTagRoom self.old }
        ensures { GoesPast tag left self.old self.new }
    {
        match left.next() {
            Some(next) => {
                self.output.complete(tag);
                self.phase = Phase::Statements(next, left);
            }
            None => self.phase = Phase::Query(tag),
        }
    }

    /// The end of a Query whose last statement was answered: a transaction that no BEGIN began is committed, and its tag
    /// is sent.
    #[tactic(auto, using(crate::proofs::QueryLaws::ends_query))]
    pub(crate) fn end_query<K: Keeper>(&mut self, store: &mut Store<K>)
        requires fits { FitsStore self.old.transaction store.old }
        requires room { HasStepRoom self.old }
        ensures { (tag : OneTag) → self.old.phase ≡ phases.Query tag → Takes (EndsQuery tag) self.old store.old self.new store.new }
    {
        if let Phase::Query(tag) = &self.phase {
            let tag = *tag;
            self.end_with(Some(tag), store);
        }
    }

    /// Ends a Query with a tag, or with the reply to a text without a statement.
    #[tactic(auto, using(crate::proofs::QueryLaws::ends_through, crate::proofs::QueryLaws::ends_failed))]
    fn end_with<K: Keeper>(&mut self, last: Option<Tag>, store: &mut Store<K>)
        requires fits { FitsStore self.old.transaction store.old }
        requires room { HasStatementRoom self.old }
        ensures { Takes (Runs (EndsWith (last_of last ∷ []))) self.old store.old self.new store.new }
    {
        match self.end_implicit(store) {
            Some(why) => self.fail(&why, store),
            None => self.be_ready(last),
        }
    }

    fn be_ready(&mut self, last: Option<Tag>)
        requires { HasTagRoom self.old }
        ensures { IsReady (last_of last) self.old self.new }
    {
        match last {
            Some(tag) => self.output.complete(tag),
            None => self.output.say_empty(),
        }
        self.output.ready(status(&self.transaction));
        self.phase = Phase::Ready;
    }

    /// The error rule in a Query: an open transaction is broken, the error is told, and the Query ends. The statements
    /// that are left aren't run.
    #[tactic(auto, using(crate::proofs::QueryLaws::failed_by))]
    pub(crate) fn fail<K: Keeper>(&mut self, why: &Refusal, store: &mut Store<K>)
        requires fits { FitsStore self.old.transaction store.old }
        requires room { HasErrorRoom self.old }
        ensures { Failed why.now self.old store.old self.new store.new }
    {
        self.transaction.fail(store);
        self.output
            .refuse(self.alloc, why, &store.catalog().features);
        self.output.ready(status(&self.transaction));
        self.phase = Phase::Ready;
    }

    /// Want of memory stands for the message that took it.
    #[tactic(auto, using(crate::proofs::QueryLaws::ran_out))]
    pub(crate) fn run_out<K: Keeper>(&mut self, store: &mut Store<K>)
        requires fits { FitsStore self.old.transaction store.old }
        requires room { HasErrorRoom self.old }
        ensures { Takes RunsOut self.old store.old self.new store.new }
    {
        self.fail(&Refusal::OutOfMemory, store);
    }

    /// Refuses what isn't built yet, and ends.
    #[tactic(auto, using(crate::proofs::QueryLaws::rejected))]
    pub(crate) fn reject<K: Keeper>(&mut self, store: &mut Store<K>)
        requires fits { FitsStore self.old.transaction store.old }
        requires room { HasErrorRoom self.old }
        ensures { Takes Rejects self.old store.old self.new store.new }
    {
        self.output.refuse_fixed(&Refusal::NotBuilt);
        self.end(store);
    }

    /// The client says that it ends.
    #[tactic(auto, using(crate::proofs::QueryLaws::terminated))]
    pub(crate) fn terminate<K: Keeper>(&mut self, store: &mut Store<K>)
        requires fits { FitsStore self.old.transaction store.old }
        ensures { Takes Terminates self.old store.old self.new store.new }
    {
        self.end(store);
    }

    #[tactic(auto, using(crate::proofs::QueryLaws::is_ended))]
    fn end<K: Keeper>(&mut self, store: &mut Store<K>)
        requires fits { FitsStore self.old.transaction store.old }
        ensures { IsEnded self.old store.old self.new store.new }
    {
        self.transaction.roll_back(store);
        self.phase = Phase::Ended;
    }
}

/// What a client is told of a transaction.
pub fn status(transaction: &Transaction) -> Status
    ensures { result ≡ status_of (transaction_of transaction.now) }
{
    match transaction {
        Transaction::Idle => Status::Idle,
        Transaction::Implicit(_, _) => Status::Idle,
        Transaction::Block(_, _) => Status::InBlock,
        Transaction::Failed => Status::Failed,
    }
}

/// The statements of a text, in which no parameter may stand.
pub fn read(alloc: Global, text: &[u8], features: &Features) -> Result<List<Statement>, Refusal>
    ensures { IsTextRead features.now text.now result }
{
    let Ok(text) = str::from_utf8(text) else {
        return Err(Refusal::NotUtf8);
    };
    match parse(alloc, text, features, false) {
        Ok(statements) => Ok(statements),
        Err(why) => Err(Refusal::Unparsed(why)),
    }
}
