ghost use Rattle.std.specs.Prelude.{◌≡◌, [], IfOk, OnOk};
ghost use Rattle.commit_changes.specs.Carried.{CarriesCommit, CarriesEach};
ghost use Rattle.commit_changes.specs.Made.{IsWritten};
ghost use Rattle.commit_changes.specs.Stored.{AreOfTables, ArePending, AreStored};
ghost use Rattle.query_meaning.specs.WriteTyping.{table_name_of};
ghost use Rattle.table_changes.specs.Changes.{RiseFrom};

use crate::pending::{no_changes, without_idle};
use crate::written::write_change;
use asked_conditions::Questions;
use plan_tables::{Rows, TableRows};
use query_names::TableNames;
use std::alloc::Global;
use table_changes::TableChange;
use values::{List, Memory, Name};
use vra_syntax::Write;

/// What a commit makes of the newest rows of the tables, if these are its writes that count. No row that stays is copied,
/// and an INSERT looks at no row.
#[tactic(auto, using(crate::proofs::CommitLaws::commit_rises, crate::proofs::CommitLaws::commit_places, crate::proofs::CommitLaws::commit_carried))]
pub fn commit_changes(
    alloc: Global,
    questions: &mut Questions<'_>,
    tables: &TableNames<'_>,
    newest: &Rows,
    writes: &[Write],
) -> Result<List<TableChange>, Memory>
    requires stored { AreStored 0 tables.now.tables.now newest.now.tables }
    ensures same { questions.new ≡ questions.old }
    ensures rising { IfOk result (RiseFrom 0) }
    ensures places { IfOk result (AreOfTables newest.now.tables) }
    ensures carried { IfOk result (CarriesCommit questions.old tables.now.tables.now writes.now newest.now.tables) }
{
    let pending = pending_changes(alloc, questions, tables, newest.tables.as_slice(), writes)?;
    let changes = without_idle(pending);
    Ok(List::from_vec(changes))
}

/// The change of each table, after one write and another.
fn pending_changes(
    alloc: Global,
    questions: &mut Questions<'_>,
    tables: &TableNames<'_>,
    newest: &[TableRows],
    writes: &[Write],
) -> Result<Vec<TableChange>, Memory>
    requires stored { AreStored 0 tables.now.tables.now newest.now }
    ensures same { questions.new ≡ questions.old }
    ensures pending { IfOk result (λ it. ArePending 0 newest.now it.items) }
    ensures carried { IfOk result (λ it. CarriesEach questions.old tables.now.tables.now writes.now newest.now [] it.items) }
{
    let mut pending = no_changes(alloc, newest)?;
    let mut writes = writes;
    while let Some((write, more)) = writes.split_first() {
        put_write(alloc, questions, tables, newest, write, &mut pending)?;
        writes = more;
    }
    Ok(pending)
}

/// Makes a write in the change of its table.
#[tactic(auto, using(crate::proofs::PutLaws::distinct_at))]
fn put_write(
    alloc: Global,
    questions: &mut Questions<'_>,
    tables: &TableNames<'_>,
    newest: &[TableRows],
    write: &Write,
    pending: &mut Vec<TableChange>,
) -> Result<(), Memory>
    requires stored { AreStored 0 tables.now.tables.now newest.now }
    ensures same { questions.new ≡ questions.old }
    ensures written { OnOk result (IsWritten questions.old tables.now.tables.now newest.now write.now pending.old.items pending.new.items) }
{
    let Some(number) = tables.number(table_name(write)) else {
        return Ok(());
    };
    let place = number as usize;
    let Some(table) = tables.tables().get(place) else {
        return Ok(());
    };
    let Some(rows) = newest.get(place) else {
        return Ok(());
    };
    match pending.get_mut(place) {
        Some(change) => write_change(alloc, questions, table, &rows.rows, write, change),
        None => Ok(()),
    }
}

fn table_name(write: &Write) -> &Name
    ensures { result.now ≡ table_name_of write.now }
{
    match write {
        Write::Insert(table, _names, _rows, _expr) => table,
        Write::Delete(table, _cond, _expr) => table,
        Write::Update(table, _items, _cond, _expr) => table,
    }
}
