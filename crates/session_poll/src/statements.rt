//! The statement rule.

ghost use Rattle.std.specs.Prelude.{◌≡◌, None, Some, IfErr, IfOk, OnOk};
ghost use Rattle.session_poll.specs.Parts.{Done, Stopped};
ghost use Rattle.session_poll.specs.Queries.{Acts, IsStatement, RunsHere};
ghost use Rattle.session_poll.specs.Statements.{CommitsBlock, RollsBack, BeginsBlock, refused_in};
ghost use Rattle.session_poll.specs.Tags.{commit_tag};
ghost use Rattle.session_poll.specs.Rooms.{HasStatementRoom, HasStepRoom, HasTagRoom};
ghost use Rattle.session_transactions.specs.Goings.{FitsStore};
ghost use Rattle.session_transactions.specs.Transactions.{transaction_of};

use crate::session::Session;
use commit_log::Keeper;
use session_replies::{Refusal, Tag};
use session_transactions::Transaction;
use snapshot_store::Store;
use vra_syntax::Statement;

impl Session {
    /// Runs a statement in a transaction, where it is allowed, and gives the tag that is to be sent.
    #[tactic(auto, using(crate::proofs::StatementLaws::runs, crate::proofs::StatementLaws::runs_not, crate::proofs::StatementLaws::refused))]
    pub(crate) fn run<K: Keeper>(
        &mut self,
        statement: Statement,
        store: &mut Store<K>,
    ) -> Result<Tag, Refusal>
        requires fits { FitsStore self.old.transaction store.old }
        requires room { HasStepRoom self.old }
        ensures ok { IfOk result (λ tag. Done (IsStatement statement tag) self.old store.old None self.new store.new) }
        ensures err { IfErr result (λ why. Stopped (IsStatement statement) self.old store.old why self.new store.new) }
        ensures room { HasTagRoom self.new }
    {
        match refused_in(&self.transaction, &statement) {
            Some(why) => Err(why),
            None => self.begin_and_act(statement, store),
        }
    }

    #[tactic(auto, using(crate::proofs::StatementLaws::acts, crate::proofs::StatementLaws::acts_not, crate::proofs::StatementLaws::begins_not))]
    fn begin_and_act<K: Keeper>(
        &mut self,
        statement: Statement,
        store: &mut Store<K>,
    ) -> Result<Tag, Refusal>
        requires fits { FitsStore self.old.transaction store.old }
        requires room { HasStepRoom self.old }
        ensures ok { IfOk result (λ tag. Done (RunsHere statement tag) self.old store.old None self.new store.new) }
        ensures err { IfErr result (λ why. Stopped (RunsHere statement) self.old store.old why self.new store.new) }
        ensures room { HasTagRoom self.new }
    {
        match self.begin(store) {
            Some(why) => Err(why),
            None => self.act(statement, store),
        }
    }

    /// What a statement does in a transaction.
    #[tactic(auto, using(crate::proofs::StatementLaws::shows, crate::proofs::StatementLaws::shows_not, crate::proofs::StatementLaws::writes, crate::proofs::StatementLaws::writes_not, crate::proofs::StatementLaws::blocks, crate::proofs::StatementLaws::commits, crate::proofs::StatementLaws::commits_not, crate::proofs::StatementLaws::rolls_back, crate::proofs::StatementLaws::sets))]
    fn act<K: Keeper>(&mut self, statement: Statement, store: &mut Store<K>) -> Result<Tag, Refusal>
        requires fits { FitsStore self.old.transaction store.old }
        requires room { HasStatementRoom self.old }
        ensures ok { IfOk result (λ tag. Done (Acts statement tag) self.old store.old None self.new store.new) }
        ensures err { IfErr result (λ why. Stopped (Acts statement) self.old store.old why self.new store.new) }
        ensures room { HasTagRoom self.new }
    {
        match statement {
            Statement::Query(query) => self.show(&query, store),
            Statement::Write(write) => self.write(write, store),
            Statement::Begin => Ok(self.begin_block(store)),
            Statement::Commit => self.commit_block(store),
            Statement::Rollback => Ok(self.roll_back(store)),
            Statement::Set => Ok(Tag::Set),
        }
    }

    /// BEGIN.
    #[tactic(auto, using(crate::proofs::StatementLaws::blocked_by))]
    fn begin_block<K: Keeper>(&mut self, store: &Store<K>) -> Tag
        requires fits { FitsStore self.old.transaction store.now }
        ensures done { Done (BeginsBlock result) self.old store.now None self.new store.now }
        ensures output { self.new.output ≡ self.old.output }
    {
        let _store = store;
        self.transaction.block();
        Tag::Begin
    }

    /// COMMIT. In a failed transaction it only ends it, and says so.
    #[tactic(auto, using(crate::proofs::StatementLaws::committed, crate::proofs::StatementLaws::committed_not))]
    fn commit_block<K: Keeper>(&mut self, store: &mut Store<K>) -> Result<Tag, Refusal>
        requires fits { FitsStore self.old.transaction store.old }
        requires room { HasStatementRoom self.old }
        ensures ok { IfOk result (λ tag. Done (CommitsBlock tag) self.old store.old None self.new store.new) }
        ensures err { IfErr result (λ why. Stopped CommitsBlock self.old store.old why self.new store.new) }
        ensures room { HasTagRoom self.new }
    {
        let tag = commit_tag(&self.transaction);
        match self.commit(store) {
            Some(why) => Err(why),
            None => Ok(tag),
        }
    }

    /// ROLLBACK. It takes no memory.
    #[tactic(auto, using(crate::proofs::StatementLaws::rolled_back))]
    fn roll_back<K: Keeper>(&mut self, store: &mut Store<K>) -> Tag
        requires fits { FitsStore self.old.transaction store.old }
        ensures done { Done (RollsBack result) self.old store.old None self.new store.new }
        ensures output { self.new.output ≡ self.old.output }
    {
        self.transaction.roll_back(store);
        Tag::Rollback
    }
}

fn commit_tag(transaction: &Transaction) -> Tag
    ensures { result ≡ commit_tag (transaction_of transaction.now) }
{
    match transaction {
        Transaction::Failed => Tag::Rollback,
        _ => Tag::Commit,
    }
}

/// Why a statement isn't run in this transaction.
fn refused_in(transaction: &Transaction, statement: &Statement) -> Option<Refusal>
    ensures { result ≡ refused_in (transaction_of transaction.now) statement.now }
{
    match transaction {
        Transaction::Failed => match statement {
            Statement::Commit | Statement::Rollback => None,
            _ => Some(Refusal::TransactionFailed),
        },
        _ => None,
    }
}
