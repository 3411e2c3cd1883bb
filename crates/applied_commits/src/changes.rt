//! What writes make of the newest rows of a catalogue's tables.
ghost use Rattle.std.specs.Prelude.{◌≡◌, [], map, IfOk};
ghost use Rattle.applied_commits.specs.Carrying.{CarriesWrites};
ghost use Rattle.row_versions.specs.Changing.{AreChangesOf};
ghost use Rattle.table_changes.specs.Changes.{RiseFrom};
ghost use Rattle.vschema.specs.Formed.{IsFormed};
ghost use Rattle.write_meaning.specs.StoredTables.{stored_columns};

use asked_conditions::Questions;
use commit_changes::commit_changes;
use condition_sat::Model;
use query_names::TableNames;
use row_versions::RowVersions;
use std::alloc::Global;
use table_changes::TableChange;
use values::{List, Memory};
use vra_syntax::Write;
use vschema::Catalog;

#[tactic(auto, using(crate::proofs::NewestLaws::newest_stored, crate::proofs::NewestLaws::changes_within, crate::proofs::AdvanceLaws::writes_carried))]
/// The changes that writes make of the newest rows, where each of the writes counts.
pub fn changes_of(
    alloc: Global,
    catalog: &Catalog,
    model: &Model,
    versions: &RowVersions,
    writes: &[Write],
) -> Result<List<TableChange>, Memory>
    requires model { model.now ≡ catalog.now.model }
    requires formed { IsFormed catalog.now [] }
    requires columns { versions.now.columns ≡ map stored_columns catalog.now.tables }
    ensures rising { IfOk result (RiseFrom 0) }
    ensures places { IfOk result (λ it. AreChangesOf it versions.now) }
    ensures carried { IfOk result (CarriesWrites catalog.now versions.now writes.now) }
{
    let mut questions = Questions::new(alloc, model);
    let tables = TableNames::new(alloc, catalog.tables.as_slice())?;
    commit_changes(alloc, &mut questions, &tables, versions.newest(), writes)
}
