ghost use Rattle.std.specs.Prelude.{◌≡◌, ◌++◌, ◌∷◌, false, length, true, IfOk, MatchOption, OnOk};
ghost use Rattle.commit_changes.specs.Ends.{AreEnds, IsJudged, IsLookedAt, first_is, places_by};
ghost use Rattle.vschema.specs.Formed.{has_distinct_columns};
ghost use Rattle.write_meaning.specs.RowWrites.{begun_by};
ghost use Rattle.write_meaning.specs.StoredTables.{stored_columns};

use asked_conditions::Questions;
use row_writes::row_fate;
use std::alloc::Global;
use values::{List, Memory};
use vra_syntax::Write;
use vschema::Table;
use vtable::{VColumn, VRow};
use write_meaning::Fate;

/// The places of the rows that have ended after a write, where these had ended before it; and what begins in the places
/// of those that it ends.
pub fn ended_places(
    alloc: Global,
    questions: &mut Questions<'_>,
    table: &Table,
    columns: &List<VColumn>,
    write: &Write,
    rows: &[VRow],
    ended: &[usize],
) -> Result<(Vec<usize>, Vec<VRow>), Memory>
    requires columns { columns.now ≡ stored_columns table.now }
    requires distinct { has_distinct_columns table.now ≡ true }
    ensures same { questions.new ≡ questions.old }
    ensures ends { IfOk result (λ it. AreEnds questions.old table.now write.now 0 (length rows.now) ended.now rows.now it.0.items it.1.items) }
{
    let mut ends = Vec::new(alloc);
    let mut begins = Vec::new(alloc);
    let mut ended = ended;
    for (place, row) in rows.iter().enumerate() {
        ended = look_at(
            alloc,
            questions,
            table,
            columns,
            write,
            place,
            row,
            ended,
            &mut ends,
            &mut begins,
        )?;
    }
    Ok((ends, begins))
}

/// Adds the place of a row if it has ended or the write ends it. What is left of the places of those that had ended.
fn look_at<'a>(
    alloc: Global,
    questions: &mut Questions<'_>,
    table: &Table,
    columns: &List<VColumn>,
    write: &Write,
    place: usize,
    row: &VRow,
    ended: &'a [usize],
    ends: &mut Vec<usize>,
    begins: &mut Vec<VRow>,
) -> Result<&'a [usize], Memory>
    requires columns { columns.now ≡ stored_columns table.now }
    requires distinct { has_distinct_columns table.now ≡ true }
    ensures same { questions.new ≡ questions.old }
    ensures looked { IfOk result (λ left. IsLookedAt questions.old table.now write.now place row.now ended.now left.now ends.old.items ends.new.items begins.old.items begins.new.items) }
{
    match behind(place, ended) {
        Some(left) => {
            ends.push(place)?;
            Ok(left)
        }
        None => {
            judge(
                alloc, questions, table, columns, write, place, row, ends, begins,
            )?;
            Ok(ended)
        }
    }
}

/// The places behind this one, if it is the first.
fn behind(place: usize, ended: &[usize]) -> Option<&[usize]>
    ensures { MatchOption result (first_is place ended.now ≡ false) (λ left. ended.now ≡ place ∷ left.now) }
{
    let (first, left) = ended.split_first()?;
    if *first == place { Some(left) } else { None }
}

/// Adds the place of a row if the write touches it, and what begins there.
fn judge(
    alloc: Global,
    questions: &mut Questions<'_>,
    table: &Table,
    columns: &List<VColumn>,
    write: &Write,
    place: usize,
    row: &VRow,
    ends: &mut Vec<usize>,
    begins: &mut Vec<VRow>,
) -> Result<(), Memory>
    requires columns { columns.now ≡ stored_columns table.now }
    requires distinct { has_distinct_columns table.now ≡ true }
    ensures same { questions.new ≡ questions.old }
    ensures judged { OnOk result (IsJudged questions.old table.now write.now place row.now ends.old.items ends.new.items begins.old.items begins.new.items) }
{
    let fate = row_fate(alloc, questions, table, columns, write, row)?;
    put_place(fate, place, ends, begins)
}

fn put_place(
    fate: Fate,
    place: usize,
    ends: &mut Vec<usize>,
    begins: &mut Vec<VRow>,
) -> Result<(), Memory>
    ensures ends { OnOk result (ends.new.items ≡ ends.old.items ++ places_by place fate) }
    ensures begins { OnOk result (begins.new.items ≡ begins.old.items ++ begun_by fate) }
{
    match fate {
        Fate::Stays => {}
        Fate::Ends(rows) => {
            ends.push(place)?;
            let mut rows = rows.into_vec();
            begins.append(&mut rows)?;
        }
    }
    Ok(())
}
