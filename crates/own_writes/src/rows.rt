ghost use Rattle.std.specs.Prelude.{◌≡◌, ◌∷◌, [], Some, slice_get, true, IfOk};
ghost use Rattle.own_writes.specs.Carried.{Carries};
ghost use Rattle.query_meaning.specs.WriteTyping.{table_name_of};
ghost use Rattle.stored_versions.specs.Databases.{is_number};
ghost use Rattle.vschema.specs.Formed.{has_distinct_columns};
ghost use Rattle.write_meaning.specs.StoredTables.{stored_columns};

use asked_conditions::Questions;
use query_names::TableNames;
use row_writes::{stored_columns, write_rows};
use std::alloc::Global;
use values::{List, Memory, Name};
use vra_syntax::Write;
use vschema::Table;
use vtable::{VColumn, VRow};

/// The rows of the table with this number after these writes, where each of them counts. A row that no write touches is
/// moved.
#[tactic(auto, using(crate::proofs::CarriedLaws::carries_end, crate::proofs::CarriedLaws::carries_more))]
pub fn rows_after(
    alloc: Global,
    questions: &mut Questions<'_>,
    tables: &TableNames<'_>,
    number: u32,
    table: &Table,
    writes: &[Write],
    rows: List<VRow>,
) -> Result<List<VRow>, Memory>
    requires table { slice_get tables.now.tables.now number ≡ Some table.now }
    requires distinct { has_distinct_columns table.now ≡ true }
    ensures same { questions.new ≡ questions.old }
    ensures rows { IfOk result (λ it. Carries questions.old tables.now.tables.now number table.now writes.now rows it) }
{
    let columns = stored_columns(alloc, table)?;
    let mut rows = rows;
    let mut writes = writes;
    while let Some((write, more)) = writes.split_first() {
        rows = rows_after_one(
            alloc, questions, tables, number, table, &columns, write, rows,
        )?;
        writes = more;
    }
    Ok(rows)
}

#[tactic(auto, using(crate::proofs::CarriedLaws::carries_written, crate::proofs::CarriedLaws::carries_left))]
fn rows_after_one(
    alloc: Global,
    questions: &mut Questions<'_>,
    tables: &TableNames<'_>,
    number: u32,
    table: &Table,
    columns: &List<VColumn>,
    write: &Write,
    rows: List<VRow>,
) -> Result<List<VRow>, Memory>
    requires table { slice_get tables.now.tables.now number ≡ Some table.now }
    requires columns { columns.now ≡ stored_columns table.now }
    requires distinct { has_distinct_columns table.now ≡ true }
    ensures same { questions.new ≡ questions.old }
    ensures rows { IfOk result (λ it. Carries questions.old tables.now.tables.now number table.now (write.now ∷ []) rows it) }
{
    let written = tables.number(table_name(write));
    if !is_number(number, written) {
        return Ok(rows);
    }
    write_rows(alloc, questions, table, columns, write, rows)
}

fn is_number(number: u32, other: Option<u32>) -> bool
    ensures { result ≡ is_number number other }
{
    match other {
        Some(other) => other == number,
        None => false,
    }
}

fn table_name(write: &Write) -> &Name
    ensures { result.now ≡ table_name_of write.now }
{
    match write {
        Write::Insert(table, _names, _rows, _expr) => table,
        Write::Delete(table, _cond, _expr) => table,
        Write::Update(table, _items, _cond, _expr) => table,
    }
}
