ghost use Rattle.std.specs.Prelude.{◌≡◌, ◌++◌, [], true, IfOk, OnOk};
ghost use Rattle.commit_changes.specs.Ends.{AddsWritten};
ghost use Rattle.commit_changes.specs.Made.{IsMade};
ghost use Rattle.vschema.specs.Formed.{has_distinct_columns};
ghost use Rattle.write_meaning.specs.RowWrites.{begun_by, holding, inserted, staying_by};
ghost use Rattle.write_meaning.specs.StoredTables.{stored_columns};

use crate::ended::ended_places;
use asked_conditions::Questions;
use row_writes::{inserted_rows, row_fate};
use std::alloc::Global;
use std::mem;
use table_changes::TableChange;
use values::{List, Memory};
use vra_syntax::Write;
use vschema::Table;
use vtable::{VColumn, VRow, VTable};
use write_meaning::Fate;

/// Makes a write in the change of its table, whose newest rows these are.
#[tactic(auto, using(crate::proofs::WriteLaws::insert_made))]
pub fn write_change(
    alloc: Global,
    questions: &mut Questions<'_>,
    table: &Table,
    rows: &VTable,
    write: &Write,
    change: &mut TableChange,
) -> Result<(), Memory>
    requires columns { rows.now.columns ≡ stored_columns table.now }
    requires distinct { has_distinct_columns table.now ≡ true }
    ensures same { questions.new ≡ questions.old }
    ensures made { OnOk result (IsMade questions.old table.now write.now rows.now.rows change.old change.new) }
{
    match write {
        Write::Insert(_name, _names, _rows, _expr) => {
            add_inserted(alloc, questions, table, write, change)
        }
        Write::Delete(_name, _cond, _expr) => {
            end_touched(alloc, questions, table, rows, write, change)
        }
        Write::Update(_name, _items, _cond, _expr) => {
            end_touched(alloc, questions, table, rows, write, change)
        }
    }
}

/// Adds the rows that an INSERT lists.
fn add_inserted(
    alloc: Global,
    questions: &mut Questions<'_>,
    table: &Table,
    write: &Write,
    change: &mut TableChange,
) -> Result<(), Memory>
    ensures same { questions.new ≡ questions.old }
    ensures table { OnOk result (change.new.table ≡ change.old.table) }
    ensures ends { OnOk result (change.new.ends ≡ change.old.ends) }
    ensures begun { OnOk result (change.new.begun ≡ change.old.begun ++ holding questions.old table.now (inserted table.now write.now)) }
{
    let mut rows = inserted_rows(alloc, questions, table, write)?;
    let mut begun = mem::replace(&mut change.begun, List::new(alloc)).into_vec();
    begun.append(&mut rows)?;
    change.begun = List::from_vec(begun);
    Ok(())
}

/// Ends the rows that a write touches, also those that this commit had begun, and begins others in their places.
fn end_touched(
    alloc: Global,
    questions: &mut Questions<'_>,
    table: &Table,
    rows: &VTable,
    write: &Write,
    change: &mut TableChange,
) -> Result<(), Memory>
    requires columns { rows.now.columns ≡ stored_columns table.now }
    requires distinct { has_distinct_columns table.now ≡ true }
    requires others { inserted table.now write.now ≡ [] }
    ensures same { questions.new ≡ questions.old }
    ensures made { OnOk result (IsMade questions.old table.now write.now rows.now.rows change.old change.new) }
{
    let newest = rows.rows.as_slice();
    let ended = change.ends.as_slice();
    let (ends, begins) = ended_places(
        alloc,
        questions,
        table,
        &rows.columns,
        write,
        newest,
        ended,
    )?;
    let mut begins = begins;
    let earlier = mem::replace(&mut change.begun, List::new(alloc));
    let mut begun = staying_rows(
        alloc,
        questions,
        table,
        &rows.columns,
        write,
        earlier,
        &mut begins,
    )?;
    begun.append(&mut begins)?;
    change.ends = List::from_vec(ends);
    change.begun = List::from_vec(begun);
    Ok(())
}

/// Those of the rows that stay. Adds what begins in the places of the others.
#[tactic(auto, using(crate::proofs::AddLaws::adds_none, crate::proofs::AddLaws::adds_more))]
fn staying_rows(
    alloc: Global,
    questions: &mut Questions<'_>,
    table: &Table,
    columns: &List<VColumn>,
    write: &Write,
    rows: List<VRow>,
    begins: &mut Vec<VRow>,
) -> Result<Vec<VRow>, Memory>
    requires columns { columns.now ≡ stored_columns table.now }
    requires distinct { has_distinct_columns table.now ≡ true }
    ensures same { questions.new ≡ questions.old }
    ensures written { IfOk result (λ stay. AddsWritten questions.old table.now write.now rows stay.items begins.old.items begins.new.items) }
{
    let mut stay = Vec::with_capacity(alloc, rows.len())?;
    for row in rows.into_vec() {
        let fate = row_fate(alloc, questions, table, columns, write, &row)?;
        put_row(fate, row, &mut stay, begins)?;
    }
    Ok(stay)
}

fn put_row(
    fate: Fate,
    row: VRow,
    stay: &mut Vec<VRow>,
    begins: &mut Vec<VRow>,
) -> Result<(), Memory>
    ensures stays { OnOk result (stay.new.items ≡ stay.old.items ++ staying_by fate row) }
    ensures begins { OnOk result (begins.new.items ≡ begins.old.items ++ begun_by fate) }
{
    match fate {
        Fate::Stays => stay.push(row)?,
        Fate::Ends(rows) => {
            let mut rows = rows.into_vec();
            begins.append(&mut rows)?;
        }
    }
    Ok(())
}
