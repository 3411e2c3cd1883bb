ghost use Rattle.std.specs.Prelude.{◌≡◌, ◌+◌, ◌<◌, ◌≤◌, [], ◌∷◌, ◌++◌, true, length, vec_capacity, if◌then◌else◌};
ghost use Rattle.std.specs.VecDeque.{deque_capacity};
ghost use Rattle.row_versions.specs.Marks.{end_row, is_end, marks_without};
ghost use Rattle.row_versions.specs.Room.{AreEndedBehind};
ghost use Rattle.table_changes.specs.Changes.{rows_without};
ghost use Rattle.version_changes.specs.Changes.{ends_behind};

use crate::ended::EndedRow;
use crate::mark::Mark;
use crate::newest::Newest;
use std::collections::VecDeque;
use vtable::VRow;

/// Parts a table's rows: those at these places are put behind the ended ones, with this commit as their end, and those
/// that stay go to another list. It takes no memory.
pub fn part(
    commit: u64,
    table: u32,
    ends: &[usize],
    newest: Newest,
    kept: &mut Newest,
    ended: &mut VecDeque<EndedRow>,
)
    requires marked { length newest.marks.items ≡ length newest.rows.items }
    requires no_rows { kept.old.rows.items ≡ [] }
    requires no_marks { kept.old.marks.items ≡ [] }
    requires room { length newest.rows.items ≤ vec_capacity kept.old.rows }
    requires marks_room { length newest.rows.items ≤ vec_capacity kept.old.marks }
    requires ended_room { length ended.old.items + length ends.now ≤ deque_capacity ended.old }
    ensures rows { kept.new.rows.items ≡ rows_without 0 ends.now newest.rows.items }
    ensures marks { kept.new.marks.items ≡ marks_without 0 ends.now newest.marks.items }
    ensures ended { AreEndedBehind commit table ends.now newest ended.old.items ended.new.items }
    ensures room { vec_capacity kept.new.rows ≡ vec_capacity kept.old.rows }
    ensures marks_room { vec_capacity kept.new.marks ≡ vec_capacity kept.old.marks }
    ensures ended_room { deque_capacity ended.new ≡ deque_capacity ended.old }
{
    let Newest { rows, marks } = newest;
    let mut rows = VecDeque::from_vec(rows);
    let mut marks = VecDeque::from_vec(marks);
    let mut left = ends;
    let mut place = 0;
    while let Some(row) = rows.pop_front() {
        let Some(mark) = marks.pop_front() else {
            return;
        };
        let here = is_end(place, left);
        put_part(commit, table, here, mark, row, kept, ended);
        left = ends_behind(place, left);
        place += 1;
    }
}

/// Whether the row at a place ends.
fn is_end(place: usize, ends: &[usize]) -> bool
    ensures { result ≡ is_end place ends.now }
{
    match ends.split_first() {
        Some((end, _more)) => *end == place,
        None => false,
    }
}

/// The places that are left behind this one.
fn ends_behind(place: usize, ends: &[usize]) -> &[usize]
    ensures { result.now ≡ ends_behind place ends.now }
{
    match ends.split_first() {
        Some((end, more)) => { if *end == place { more } else { ends } }
        None => ends,
    }
}

fn put_part(
    commit: u64,
    table: u32,
    here: bool,
    mark: Mark,
    row: VRow,
    kept: &mut Newest,
    ended: &mut VecDeque<EndedRow>,
)
    requires room { length kept.old.rows.items < vec_capacity kept.old.rows }
    requires marks_room { length kept.old.marks.items < vec_capacity kept.old.marks }
    requires ended_room { here ≡ true → length ended.old.items < deque_capacity ended.old }
    ensures rows { kept.new.rows.items ≡ kept.old.rows.items ++ (if here then [] else row ∷ []) }
    ensures marks { kept.new.marks.items ≡ kept.old.marks.items ++ (if here then [] else mark ∷ []) }
    ensures ended { ended.new.items ≡ ended.old.items ++ (if here then end_row commit table mark row ∷ [] else []) }
    ensures room { vec_capacity kept.new.rows ≡ vec_capacity kept.old.rows }
    ensures marks_room { vec_capacity kept.new.marks ≡ vec_capacity kept.old.marks }
    ensures ended_room { deque_capacity ended.new ≡ deque_capacity ended.old }
{
    if here {
        ended.push_back_reserved(EndedRow {
            number: mark.number,
            table,
            begins: mark.begins,
            ends: commit,
            row,
        });
    } else {
        kept.rows.push_reserved(row);
        kept.marks.push_reserved(mark);
    }
}
