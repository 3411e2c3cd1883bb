ghost use Rattle.std.specs.Prelude.{◌≡◌, IfOk};
ghost use Rattle.write_meaning.specs.TakenWrites.{has_type, is_taken};

use crate::fit::is_fit;
use asked_conditions::Questions;
use query_meaning::TypeRefused;
use query_names::TableNames;
use std::alloc::Global;
use values::Memory;
use vra_syntax::Write;
use vschema::Catalog;
use write_typing::check_write;

/// Whether a write counts over a catalogue: it holds no parameter and is well typed, and its features and values are a
/// statement's. It takes the time of typing it.
pub fn is_taken(
    alloc: Global,
    catalog: &Catalog,
    questions: &mut Questions<'_>,
    tables: &TableNames<'_>,
    write: &Write,
) -> Result<bool, Memory>
    requires model { questions.old ≡ catalog.now.model }
    requires tables { tables.now.tables.now ≡ catalog.now.tables }
    ensures same { questions.new ≡ questions.old }
    ensures taken { IfOk result (λ it. it ≡ is_taken catalog.now write.now) }
{
    if !is_fit(catalog.features.count(), write) {
        return Ok(false);
    }
    has_type(alloc, questions, tables, write)
}

/// Whether a write without parameters has a type in every admitted variant.
#[tactic(auto, using(crate::proofs::TypeLaws::typed, crate::proofs::TypeLaws::is_refused))]
fn has_type(
    alloc: Global,
    questions: &mut Questions<'_>,
    tables: &TableNames<'_>,
    write: &Write,
) -> Result<bool, Memory>
    ensures same { questions.new ≡ questions.old }
    ensures typed { IfOk result (λ it. it ≡ has_type questions.old tables.now.tables.now write.now) }
{
    match check_write(alloc, questions, tables, write, &[]) {
        Ok(()) => Ok(true),
        Err(TypeRefused::Ill(_case)) => Ok(false),
        Err(TypeRefused::TooWide(_count)) => Ok(false),
        Err(TypeRefused::Memory) => Err(Memory),
    }
}
