//! A query of a Query: it is typed, and answered in every variant at once.

ghost use Rattle.std.specs.Prelude.{◌≡◌, ◌++◌, [], None, Some, IfOk, IfErr, OnOk, OnErr};
ghost use Rattle.query_meaning.specs.Typing.{Refuses};
ghost use Rattle.session_poll.specs.Parts.{Done, KeepsState, Stopped};
ghost use Rattle.session_poll.specs.Queries.{MayAnswer};
ghost use Rattle.session_poll.specs.Reads.{IsAnswered};
ghost use Rattle.session_poll.specs.Typings.{HasType, IsUnanswered, refusal_for};
ghost use Rattle.session_replies.specs.AnswerMessages.{answer_messages, answer_too_long};
ghost use Rattle.session_poll.specs.Rooms.{HasStatementRoom, HasTagRoom};
ghost use Rattle.session_replies.specs.Replies.{spelled};
ghost use Rattle.session_replies.specs.Sends.{Sends};
ghost use Rattle.session_transactions.specs.Goings.{FitsStore};

use crate::session::Session;
use asked_conditions::Questions;
use commit_log::Keeper;
use feature_expr::Features;
use query_meaning::{TypeRefused, TypedColumn};
use query_names::{TableNames, Typed};
use query_typing::type_query;
use session_replies::{Refusal, Tag, put_answer};
use snapshot_store::Store;
use std::alloc::Global;
use transaction_answers::answer_over;
use vra_syntax::Query;
use vtable::{OutTable, VTable};

impl Session {
    /// Answers a query over the snapshot of the open transaction and its own writes, and gives the tag that is to follow.
    #[tactic(auto, using(crate::proofs::ShowLaws::shown, crate::proofs::ShowLaws::too_long_shown, crate::proofs::ShowLaws::no_memory, crate::proofs::ShowLaws::unanswered))]
    pub(crate) fn show<K: Keeper>(
        &mut self,
        query: &Query,
        store: &Store<K>,
    ) -> Result<Tag, Refusal>
        requires fits { FitsStore self.old.transaction store.now }
        requires room { HasStatementRoom self.old }
        ensures ok { IfOk result (λ tag. Done (MayAnswer query.now tag) self.old store.now None self.new store.now) }
        ensures err { IfErr result (λ why. Stopped (MayAnswer query.now) self.old store.now why self.new store.now) }
        ensures room { HasTagRoom self.new }
    {
        let (typed, answer) = self.answered(query, store)?;
        let answer = answer.table();
        self.put_shown(
            typed.columns().as_slice(),
            answer,
            &store.catalog().features,
        )?;
        Ok(Tag::Select(answer.rows.len() as u64))
    }

    /// The type of a query without parameters, and an answer to it in table form. Its steps aren't counted.
    #[tactic(auto, using(crate::proofs::ShowLaws::untyped, crate::proofs::ShowLaws::answered_by))]
    fn answered<K: Keeper>(
        &self,
        query: &Query,
        store: &Store<K>,
    ) -> Result<(Typed, OutTable), Refusal>
        requires fits { FitsStore self.now.transaction store.now }
        ensures ok { IfOk result (λ it. IsAnswered self.now.transaction store.now query.now it.0 it.1) }
        ensures err { IfErr result (IsUnanswered store.now.catalog query.now) }
    {
        store.known();
        let Some((snap, writes)) = self.transaction.view() else {
            // (a statement is run in a transaction)
            return Err(Refusal::OutOfMemory);
        };
        let typed = match typed(self.alloc, query, store) {
            Ok(typed) => typed,
            Err(why) => return Err(refusal_of(why)),
        };
        let answer = answer_over(self.alloc, store, snap, writes, &typed)?;
        Ok((typed, answer))
    }

    /// Puts the description of an answer and its rows, all of them or none.
    fn put_shown(
        &mut self,
        columns: &[TypedColumn],
        answer: &VTable,
        features: &Features,
    ) -> Result<(), Refusal>
        requires { HasStatementRoom self.old }
        ensures ok { OnOk result (self.new.output.bytes ≡ self.old.output.bytes ++ spelled (answer_messages features.now columns.now answer.now)) }
        ensures err { OnErr result (self.new.output.bytes ≡ self.old.output.bytes) }
        ensures sends { Sends (answer_too_long features.now columns.now answer.now) result }
        ensures room { HasStatementRoom self.new }
        ensures state { KeepsState self.old self.new }
    {
        put_answer(self.alloc, columns, answer, features, &mut self.output)
    }
}

fn typed<K: Keeper>(alloc: Global, query: &Query, store: &Store<K>) -> Result<Typed, TypeRefused>
    ensures ok { IfOk result (λ it. HasType store.now.catalog query.now it.columns it.plan) }
    ensures refused { IfErr result (Refuses store.now.catalog.model [] store.now.catalog.tables query.now) }
{
    store.known();
    let Ok(tables) = TableNames::new(alloc, store.catalog().tables.as_slice()) else {
        return Err(TypeRefused::Memory);
    };
    let mut questions = Questions::new(alloc, store.model());
    type_query(alloc, &mut questions, &tables, query, &[])
}

pub fn refusal_of(why: TypeRefused) -> Refusal
    ensures { result ≡ refusal_for why }
{
    match why {
        TypeRefused::Memory => Refusal::OutOfMemory,
        why => Refusal::Untyped(why),
    }
}
