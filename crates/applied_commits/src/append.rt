ghost use Rattle.std.specs.Prelude.{◌≡◌, [], true, length, map};
ghost use Rattle.applied_commits.specs.Carrying.{ChangesAt, settled_by};
ghost use Rattle.commit_log.specs.Kept.{Appends, Lasts};
ghost use Rattle.row_versions.specs.Changing.{AreChangesOf};
ghost use Rattle.row_versions.specs.Holdings.{IsKept};
ghost use Rattle.store_states.specs.Steps.{AppendsTo};
ghost use Rattle.stored_versions.specs.Logs.{all_taken};
ghost use Rattle.table_changes.specs.Changes.{RiseFrom};
ghost use Rattle.vschema.specs.Formed.{IsFormed};
ghost use Rattle.write_meaning.specs.StoredTables.{stored_columns};

use crate::changes::changes_of;
use commit_log::{Append, Commit, Keeper};
use condition_sat::Model;
use row_versions::{Prepared, RowVersions};
use std::alloc::Global;
use std::mem;
use table_changes::TableChange;
use values::{List, Memory};
use vschema::Catalog;

/// Adds a commit, whose writes count, to a log of which all is applied, and applies it. All memory for it is taken before
/// it is added.
#[tactic(auto, using(crate::proofs::AdvanceLaws::appended))]
pub fn append_commit<K: Keeper>(
    alloc: Global,
    catalog: &Catalog,
    model: &Model,
    versions: &mut RowVersions,
    keeper: &mut K,
    commit: Commit,
) -> Append
    requires model { model.now ≡ catalog.now.model }
    requires formed { IsFormed catalog.now [] }
    requires columns { versions.old.columns ≡ map stored_columns catalog.now.tables }
    requires applied { versions.old.applied ≡ length (K.kept keeper.old).seen }
    requires taken { all_taken catalog.now commit.writes ≡ true }
    ensures added { Appends (K.kept keeper.old) commit result (K.kept keeper.new) }
    ensures lasts { Lasts (K.kept keeper.old) (K.kept keeper.new) }
    ensures versions { AppendsTo (K.kept keeper.new).seen catalog.now versions.old result versions.new }
{
    match changes_of(alloc, catalog, model, versions, commit.writes.as_slice()) {
        Ok(changes) => append_changes(alloc, versions, keeper, changes, commit),
        Err(Memory) => Append::Memory(commit),
    }
}

fn append_changes<K: Keeper>(
    alloc: Global,
    versions: &mut RowVersions,
    keeper: &mut K,
    changes: List<TableChange>,
    commit: Commit,
) -> Append
    requires rising { RiseFrom 0 changes }
    requires places { AreChangesOf changes versions.old }
    ensures added { Appends (K.kept keeper.old) commit result (K.kept keeper.new) }
    ensures lasts { Lasts (K.kept keeper.old) (K.kept keeper.new) }
    ensures changed { ChangesAt changes versions.old result versions.new }
    ensures kept { IsKept versions.new }
{
    let old = mem::replace(versions, RowVersions::none(alloc));
    match old.prepare(alloc, changes) {
        Ok(prepared) => {
            let answer = keeper.append(commit);
            let new = settled(prepared, &answer);
            new.known();
            *versions = new;
            answer
        }
        Err(back) => {
            back.known();
            *versions = back;
            Append::Memory(commit)
        }
    }
}

/// The versions with their changes where the commit was added, else as they were. It takes no memory.
fn settled(prepared: Prepared, answer: &Append) -> RowVersions
    ensures { result ≡ settled_by answer.now prepared }
{
    match answer {
        Append::At(_place) => prepared.install(),
        _ => prepared.give_up(),
    }
}
