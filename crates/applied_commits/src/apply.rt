ghost use Rattle.std.specs.Prelude.{◌≡◌, [], List as Items, map, slice_get, Some, IfErr, IfOk, OnOk};
ghost use Rattle.commit_log.specs.declared.commit.Commit.{Commit as OneCommit};
ghost use Rattle.row_versions.specs.Changing.{AreChangesOf, IsChanged};
ghost use Rattle.row_versions.specs.Holdings.{IsKept};
ghost use Rattle.store_states.specs.Steps.{IsAdvanced};
ghost use Rattle.stored_versions.specs.Logs.{taken_from};
ghost use Rattle.table_changes.specs.Changes.{RiseFrom};
ghost use Rattle.vschema.specs.Formed.{IsFormed};
ghost use Rattle.write_meaning.specs.StoredTables.{stored_columns};

use crate::changes::changes_of;
use asked_conditions::Questions;
use commit_log::Commit;
use condition_sat::Model;
use counting_writes::counting_writes;
use query_names::TableNames;
use row_versions::RowVersions;
use std::alloc::Global;
use std::mem;
use table_changes::TableChange;
use values::{List, Memory};
use vra_syntax::Write;
use vschema::Catalog;

/// Applies the next commit of a log, of which those writes count that are well typed.
#[tactic(auto, using(crate::proofs::AdvanceLaws::applied))]
pub fn apply_commit(
    alloc: Global,
    catalog: &Catalog,
    model: &Model,
    versions: &mut RowVersions,
    commit: &Commit,
) -> Result<(), Memory>
    requires model { model.now ≡ catalog.now.model }
    requires formed { IsFormed catalog.now [] }
    requires columns { versions.old.columns ≡ map stored_columns catalog.now.tables }
    ensures ok { OnOk result ((log : Items OneCommit) → slice_get log versions.old.applied ≡ Some commit.now → IsAdvanced log catalog.now versions.old versions.new) }
    ensures err { IfErr result (λ why. versions.new ≡ versions.old) }
{
    let writes = counted(alloc, catalog, model, commit.writes.as_slice())?;
    let changes = changes_of(alloc, catalog, model, versions, writes.as_slice())?;
    put_changes(alloc, versions, changes)
}

/// Copies of those of the writes that count.
fn counted(
    alloc: Global,
    catalog: &Catalog,
    model: &Model,
    writes: &[Write],
) -> Result<List<Write>, Memory>
    requires model { model.now ≡ catalog.now.model }
    requires formed { IsFormed catalog.now [] }
    ensures { IfOk result (λ it. it ≡ taken_from catalog.now writes.now) }
{
    let mut questions = Questions::new(alloc, model);
    let tables = TableNames::new(alloc, catalog.tables.as_slice())?;
    counting_writes(alloc, catalog, &mut questions, &tables, writes)
}

/// Makes the changes.
fn put_changes(
    alloc: Global,
    versions: &mut RowVersions,
    changes: List<TableChange>,
) -> Result<(), Memory>
    requires rising { RiseFrom 0 changes }
    requires places { AreChangesOf changes versions.old }
    ensures ok { OnOk result (IsChanged changes versions.old versions.new) }
    ensures kept { OnOk result (IsKept versions.new) }
    ensures err { IfErr result (λ why. versions.new ≡ versions.old) }
{
    let old = mem::replace(versions, RowVersions::none(alloc));
    match old.prepare(alloc, changes) {
        Ok(prepared) => {
            let new = prepared.install();
            new.known();
            *versions = new;
            Ok(())
        }
        Err(back) => {
            *versions = back;
            Err(Memory)
        }
    }
}
