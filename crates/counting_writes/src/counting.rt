ghost use Rattle.std.specs.Prelude.{◌≡◌, ◌++◌, ◌∷◌, [], IfOk, OnOk};
ghost use Rattle.stored_versions.specs.Logs.{taken_from};

use asked_conditions::Questions;
use query_names::TableNames;
use std::alloc::Global;
use taken_writes::is_taken;
use values::{List, Memory, TryCopy};
use vra_syntax::Write;
use vschema::Catalog;

/// Copies of those of the writes that count, each over the catalogue at its place. It takes the time of typing each.
#[tactic(auto, using(crate::proofs::CountingLaws::counting_more))]
pub fn counting_writes(
    alloc: Global,
    catalog: &Catalog,
    questions: &mut Questions<'_>,
    tables: &TableNames<'_>,
    writes: &[Write],
) -> Result<List<Write>, Memory>
    requires model { questions.old ≡ catalog.now.model }
    requires tables { tables.now.tables.now ≡ catalog.now.tables }
    ensures same { questions.new ≡ questions.old }
    ensures counting { IfOk result (λ it. it ≡ taken_from catalog.now writes.now) }
{
    let mut counting = Vec::new(alloc);
    let mut writes = writes;
    while let Some((write, more)) = writes.split_first() {
        put_counting(alloc, catalog, questions, tables, write, &mut counting)?;
        writes = more;
    }
    Ok(List::from_vec(counting))
}

fn put_counting(
    alloc: Global,
    catalog: &Catalog,
    questions: &mut Questions<'_>,
    tables: &TableNames<'_>,
    write: &Write,
    counting: &mut Vec<Write>,
) -> Result<(), Memory>
    requires model { questions.old ≡ catalog.now.model }
    requires tables { tables.now.tables.now ≡ catalog.now.tables }
    ensures same { questions.new ≡ questions.old }
    ensures put { OnOk result (counting.new.items ≡ counting.old.items ++ taken_from catalog.now (write.now ∷ [])) }
{
    if is_taken(alloc, catalog, questions, tables, write)? {
        counting.push(write.copy(alloc)?)?;
    }
    Ok(())
}
