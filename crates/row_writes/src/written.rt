ghost use Rattle.std.specs.Prelude.{◌≡◌, ◌++◌, [], true, IfOk, OnOk};
ghost use Rattle.row_writes.specs.Made.{AreWritten};
ghost use Rattle.vschema.specs.Formed.{has_distinct_columns};
ghost use Rattle.write_meaning.specs.RowWrites.{IsRowWrite, begun_by, staying_by};
ghost use Rattle.write_meaning.specs.StoredTables.{stored_columns};

use crate::fates::row_fate;
use crate::inserted::inserted_rows;
use asked_conditions::Questions;
use std::alloc::Global;
use values::{List, Memory};
use vra_syntax::Write;
use vschema::Table;
use vtable::{VColumn, VRow};
use write_meaning::Fate;

/// The rows of a table after a write of it: those that stay, and behind them those that begin. A row that stays is moved.
#[tactic(auto, using(crate::proofs::WrittenLaws::written_whole))]
pub fn write_rows(
    alloc: Global,
    questions: &mut Questions<'_>,
    table: &Table,
    columns: &List<VColumn>,
    write: &Write,
    rows: List<VRow>,
) -> Result<List<VRow>, Memory>
    requires columns { columns.now ≡ stored_columns table.now }
    requires distinct { has_distinct_columns table.now ≡ true }
    ensures same { questions.new ≡ questions.old }
    ensures written { IfOk result (λ it. IsRowWrite questions.old table.now write.now rows it) }
{
    let mut begun = Vec::new(alloc);
    let mut stay = staying_rows(alloc, questions, table, columns, write, rows, &mut begun)?;
    let mut inserted = inserted_rows(alloc, questions, table, write)?;
    stay.append(&mut inserted)?;
    stay.append(&mut begun)?;
    Ok(List::from_vec(stay))
}

/// The rows that stay. Adds those that begin.
#[tactic(auto, using(crate::proofs::WrittenLaws::written_none, crate::proofs::WrittenLaws::written_more))]
fn staying_rows(
    alloc: Global,
    questions: &mut Questions<'_>,
    table: &Table,
    columns: &List<VColumn>,
    write: &Write,
    rows: List<VRow>,
    begun: &mut Vec<VRow>,
) -> Result<Vec<VRow>, Memory>
    requires columns { columns.now ≡ stored_columns table.now }
    requires distinct { has_distinct_columns table.now ≡ true }
    requires none { begun.old.items ≡ [] }
    ensures same { questions.new ≡ questions.old }
    ensures written { IfOk result (λ stay. AreWritten questions.old table.now write.now rows stay.items begun.new.items) }
{
    let mut stay = Vec::with_capacity(alloc, rows.len())?;
    for row in rows.into_vec() {
        let fate = row_fate(alloc, questions, table, columns, write, &row)?;
        place(fate, row, &mut stay, begun)?;
    }
    Ok(stay)
}

fn place(fate: Fate, row: VRow, stay: &mut Vec<VRow>, begun: &mut Vec<VRow>) -> Result<(), Memory>
    ensures stays { OnOk result (stay.new.items ≡ stay.old.items ++ staying_by fate row) }
    ensures begins { OnOk result (begun.new.items ≡ begun.old.items ++ begun_by fate) }
{
    match fate {
        Fate::Stays => stay.push(row)?,
        Fate::Ends(rows) => {
            let mut rows = rows.into_vec();
            begun.append(&mut rows)?;
        }
    }
    Ok(())
}
