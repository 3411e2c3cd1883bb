ghost use Rattle.std.specs.Prelude.{◌≡◌, [], true, IfErr, OnOk};
ghost use Rattle.query_meaning.specs.WriteTyping.{IsWellTypedWrite, RefusesWrite};
ghost use Rattle.write_meaning.specs.TakenWrites.{is_taken};

use asked_conditions::Questions;
use commit_log::Keeper;
use query_meaning::TypeRefused;
use query_names::TableNames;
use snapshot_store::Store;
use std::alloc::Global;
use taken_writes::is_fit;
use values::Memory;
use vra_syntax::Write;
use write_typing::check_write;

/// Why a write of a statement is refused, over the tables of the store. One that isn't is an own write that counts.
///
/// A write with a feature that the catalogue lacks, or with a list of values that isn't as long as its names, comes from no
/// text. Such a one is refused as where memory runs out.
#[tactic(auto, using(crate::proofs::CheckLaws::counts))]
pub fn check_own_write<K: Keeper>(
    alloc: Global,
    store: &Store<K>,
    write: &Write,
) -> Result<(), TypeRefused>
    ensures taken { OnOk result (is_taken store.now.catalog write.now ≡ true) }
    ensures typed { OnOk result (IsWellTypedWrite store.now.catalog.model [] store.now.catalog.tables write.now) }
    ensures refused { IfErr result (RefusesWrite store.now.catalog.model [] store.now.catalog.tables write.now) }
{
    store.known();
    let catalog = store.catalog();
    let tables = match TableNames::new(alloc, catalog.tables.as_slice()) {
        Ok(tables) => tables,
        Err(Memory) => return Err(TypeRefused::Memory),
    };
    let mut questions = Questions::new(alloc, store.model());
    match check_write(alloc, &mut questions, &tables, write, &[]) {
        Ok(()) => {}
        Err(why) => return Err(why),
    }
    if is_fit(catalog.features.count(), write) {
        Ok(())
    } else {
        Err(TypeRefused::Memory)
    }
}
