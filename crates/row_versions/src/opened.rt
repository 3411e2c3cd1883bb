ghost use Rattle.std.specs.Prelude.{◌≡◌, ◌+◌, ◌<◌, ◌≤◌, ◌^◌, [], ◌++◌, ℕ, length, OnOk};
ghost use Rattle.std.specs.VecDeque.{deque_capacity};
ghost use Rattle.row_versions.specs.Marks.{marks_without};
ghost use Rattle.row_versions.specs.Room.{AreEndedBehind, HasPlacesFor, IsRoom, IsRoomFor};
ghost use Rattle.row_versions.specs.Waiting.{HasEndedRoom, HasRoom, ended_after, marks_after, table_after, table_of};
ghost use Rattle.table_changes.specs.Changes.{rows_without};

use crate::ended::EndedRow;
use crate::mark::Mark;
use crate::newest::{Newest, add_begun, make_room, no_rows};
use crate::part::part;
use plan_tables::TableRows;
use std::alloc::Global;
use std::collections::VecDeque;
use table_changes::TableChange;
use values::{List, Memory};
use vtable::{VColumn, VTable};

/// A table that is taken out for its change, with room for what it will be.
#[derive(Drop)]
pub struct Opened {
    pub change: TableChange,
    pub number: u32,
    pub columns: List<VColumn>,
    pub newest: Newest,
    pub kept: Newest,
}

/// A table as one that is taken out, without room yet.
pub fn taken_out(alloc: Global, change: TableChange, table: TableRows, marks: List<Mark>) -> Opened
    ensures change { result.change ≡ change }
    ensures table { table_of result ≡ table }
    ensures marks { result.newest.marks.items ≡ marks }
    ensures rows { result.kept.rows.items ≡ [] }
    ensures kept_marks { result.kept.marks.items ≡ [] }
{
    let TableRows {
        table: number,
        rows,
    } = table;
    let VTable { columns, rows } = rows;
    Opened {
        change,
        number,
        columns,
        newest: Newest {
            rows: rows.into_vec(),
            marks: marks.into_vec(),
        },
        kept: no_rows(alloc),
    }
}

/// Makes room for what the rows of a table will be.
pub fn give_room(one: &mut Opened) -> Result<(), Memory>
    requires marked { length one.old.newest.marks.items ≡ length one.old.newest.rows.items }
    requires no_rows { one.old.kept.rows.items ≡ [] }
    requires no_marks { one.old.kept.marks.items ≡ [] }
    ensures change { one.new.change ≡ one.old.change }
    ensures table { table_of one.new ≡ table_of one.old }
    ensures marks { one.new.newest.marks.items ≡ one.old.newest.marks.items }
    ensures room { OnOk result (HasRoom one.new) }
{
    let more = one.change.begun.len();
    make_room(
        &mut one.newest,
        &mut one.kept,
        one.change.ends.as_slice(),
        more,
    )
}

/// The table as it was, and its marks.
pub fn closed(one: Opened) -> (TableRows, List<Mark>)
    ensures table { result.0 ≡ table_of one }
    ensures marks { result.1 ≡ one.newest.marks.items }
{
    let Opened {
        number,
        columns,
        newest,
        ..
    } = one;
    whole(number, columns, newest)
}

fn whole(number: u32, columns: List<VColumn>, newest: Newest) -> (TableRows, List<Mark>)
    ensures number { result.0.table ≡ number }
    ensures columns { result.0.rows.columns ≡ columns }
    ensures rows { result.0.rows.rows ≡ newest.rows.items }
    ensures marks { result.1 ≡ newest.marks.items }
{
    let Newest { rows, marks } = newest;
    let rows = VTable {
        columns,
        rows: List::from_vec(rows),
    };
    let table = TableRows {
        table: number,
        rows,
    };
    (table, List::from_vec(marks))
}

/// The table after its change by a commit, and its marks; the rows that end are put behind the ended ones. It takes no
/// memory.
pub fn changed(
    commit: u64,
    next: u64,
    one: Opened,
    ended: &mut VecDeque<EndedRow>,
) -> (TableRows, List<Mark>)
    requires room { HasRoom one }
    requires ended_room { HasEndedRoom one ended.old.items (deque_capacity ended.old) }
    requires fits { next + length one.change.begun < 2 ^ 64 }
    ensures table { result.0 ≡ table_after one }
    ensures marks { result.1 ≡ marks_after commit next one }
    ensures ended { ended.new.items ≡ ended.old.items ++ ended_after commit one }
    ensures ended_room { deque_capacity ended.new ≡ deque_capacity ended.old }
{
    let Opened {
        change,
        number,
        columns,
        newest,
        kept,
    } = one;
    let TableChange { ends, begun, .. } = change;
    let mut newest = staying(commit, number, ends.as_slice(), newest, kept, ended);
    add_begun(commit, next, begun, &mut newest);
    whole(number, columns, newest)
}

/// The rows that stay.
fn staying(
    commit: u64,
    table: u32,
    ends: &[usize],
    newest: Newest,
    kept: Newest,
    ended: &mut VecDeque<EndedRow>,
) -> Newest
    requires marked { length newest.marks.items ≡ length newest.rows.items }
    requires room { IsRoom ends.now (length newest.rows.items) newest kept }
    requires ended_room { length ended.old.items + length ends.now ≤ deque_capacity ended.old }
    ensures rows { result.rows.items ≡ rows_without 0 ends.now newest.rows.items }
    ensures marks { result.marks.items ≡ marks_without 0 ends.now newest.marks.items }
    ensures ended { AreEndedBehind commit table ends.now newest ended.old.items ended.new.items }
    ensures marked { length result.marks.items ≡ length result.rows.items }
    ensures room { (more : ℕ) → IsRoomFor more ends.now newest kept → HasPlacesFor more result }
    ensures ended_room { deque_capacity ended.new ≡ deque_capacity ended.old }
{
    if ends.is_empty() {
        return newest;
    }
    let mut kept = kept;
    part(commit, table, ends, newest, &mut kept, ended);
    kept
}
