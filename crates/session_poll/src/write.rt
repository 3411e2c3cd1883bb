//! A write of a Query: it is typed, counted, and added to the transaction's own writes.

ghost use Rattle.std.specs.Prelude.{◌≡◌, None, Some, IfOk, IfErr};
ghost use Rattle.session_poll.specs.Parts.{Done, Stopped};
ghost use Rattle.session_poll.specs.Queries.{MayWrite};
ghost use Rattle.session_poll.specs.Reads.{IsWritable};
ghost use Rattle.session_poll.specs.Tags.{write_tag};
ghost use Rattle.session_poll.specs.Typings.{IsUnwritten};
ghost use Rattle.session_transactions.specs.Goings.{FitsStore};

use crate::session::Session;
use crate::show::refusal_of;
use commit_log::Keeper;
use counted_writes::{check_own_write, count_write};
use session_replies::{Refusal, Tag};
use snapshot_store::Store;
use values::Memory;
use vra_syntax::Write;

impl Session {
    /// Adds a write to the own writes of the open transaction, and gives the tag that is to follow.
    #[tactic(auto, using(crate::proofs::WriteLaws::added, crate::proofs::WriteLaws::not_added, crate::proofs::WriteLaws::unwritten))]
    pub(crate) fn write<K: Keeper>(
        &mut self,
        write: Write,
        store: &Store<K>,
    ) -> Result<Tag, Refusal>
        requires fits { FitsStore self.old.transaction store.now }
        ensures ok { IfOk result (λ tag. Done (MayWrite write tag) self.old store.now None self.new store.now) }
        ensures err { IfErr result (λ why. Stopped (MayWrite write) self.old store.now why self.new store.now) }
        ensures output { self.new.output ≡ self.old.output }
    {
        let count = self.counted(&write, store)?;
        let tag = write_tag(&write, count);
        match self.transaction.add(write) {
            Ok(()) => Ok(tag),
            Err(Memory) => Err(Refusal::OutOfMemory),
        }
    }

    /// The number in the tag of a write, which is well typed.
    #[tactic(auto, using(crate::proofs::WriteLaws::untyped, crate::proofs::WriteLaws::writable_by))]
    fn counted<K: Keeper>(&self, write: &Write, store: &Store<K>) -> Result<u64, Refusal>
        requires fits { FitsStore self.now.transaction store.now }
        ensures ok { IfOk result (λ count. IsWritable self.now.transaction store.now write.now count) }
        ensures err { IfErr result (IsUnwritten store.now.catalog write.now) }
    {
        store.known();
        let Some((snap, writes)) = self.transaction.view() else {
            // (a statement is run in a transaction)
            return Err(Refusal::OutOfMemory);
        };
        match check_own_write(self.alloc, store, write) {
            Ok(()) => {}
            Err(why) => return Err(refusal_of(why)),
        }
        let count = count_write(self.alloc, store, snap, writes, write)?;
        Ok(count)
    }
}

fn write_tag(write: &Write, count: u64) -> Tag
    ensures { result ≡ write_tag write.now count }
{
    match write {
        Write::Insert(_, _, _, _) => Tag::Insert(count),
        Write::Delete(_, _, _) => Tag::Delete(count),
        Write::Update(_, _, _, _) => Tag::Update(count),
    }
}
