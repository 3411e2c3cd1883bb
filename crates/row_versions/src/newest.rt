ghost use Rattle.std.specs.Prelude.{◌≡◌, ◌+◌, ◌<◌, ◌≤◌, ◌^◌, [], ◌++◌, length, vec_capacity, OnOk};
ghost use Rattle.row_versions.specs.Marks.{begun_marks};
ghost use Rattle.row_versions.specs.Room.{IsRoom};

use crate::mark::Mark;
use std::alloc::Global;
use values::{List, Memory};
use vtable::VRow;

/// The newest rows of a table and a mark for each, as lists that can be written.
#[derive(Drop)]
pub struct Newest {
    pub rows: Vec<VRow>,
    pub marks: Vec<Mark>,
}

/// Rows without a row. It takes no memory.
pub fn no_rows(alloc: Global) -> Newest
    ensures rows { result.rows.items ≡ [] }
    ensures marks { result.marks.items ≡ [] }
{
    Newest {
        rows: Vec::new(alloc),
        marks: Vec::new(alloc),
    }
}

/// Makes room for so many more rows: in the list itself, or where some end, in the one that takes those that stay.
pub fn make_room(
    newest: &mut Newest,
    kept: &mut Newest,
    ends: &[usize],
    more: usize,
) -> Result<(), Memory>
    requires marked { length newest.old.marks.items ≡ length newest.old.rows.items }
    requires no_rows { kept.old.rows.items ≡ [] }
    requires no_marks { kept.old.marks.items ≡ [] }
    ensures rows { newest.new.rows.items ≡ newest.old.rows.items }
    ensures marks { newest.new.marks.items ≡ newest.old.marks.items }
    ensures kept_rows { kept.new.rows.items ≡ kept.old.rows.items }
    ensures kept_marks { kept.new.marks.items ≡ kept.old.marks.items }
    ensures room { OnOk result (IsRoom ends.now (length newest.old.rows.items + more) newest.new kept.new) }
{
    if ends.is_empty() {
        room_for(newest, more)?;
        return Ok(());
    }
    let Some(count) = newest.rows.len().checked_add(more) else {
        return Err(Memory);
    };
    room_for(kept, count)?;
    Ok(())
}

fn room_for(newest: &mut Newest, more: usize) -> Result<(), Memory>
    ensures rows { newest.new.rows.items ≡ newest.old.rows.items }
    ensures marks { newest.new.marks.items ≡ newest.old.marks.items }
    ensures room { OnOk result (length newest.old.rows.items + more ≤ vec_capacity newest.new.rows) }
    ensures marks_room { OnOk result (length newest.old.marks.items + more ≤ vec_capacity newest.new.marks) }
{
    newest.rows.reserve(more)?;
    newest.marks.reserve(more)?;
    Ok(())
}

/// Adds rows that begin with a commit, under the numbers from this one on.
pub fn add_begun(commit: u64, number: u64, begun: List<VRow>, newest: &mut Newest)
    requires fits { number + length begun < 2 ^ 64 }
    requires room { length newest.old.rows.items + length begun ≤ vec_capacity newest.old.rows }
    requires marks_room { length newest.old.marks.items + length begun ≤ vec_capacity newest.old.marks }
    ensures rows { newest.new.rows.items ≡ newest.old.rows.items ++ begun }
    ensures marks { newest.new.marks.items ≡ newest.old.marks.items ++ begun_marks number commit begun }
{
    add_marks(commit, number, begun.as_slice(), &mut newest.marks);
    let mut begun = begun.into_vec();
    move_rows(&mut begun, &mut newest.rows);
}

fn move_rows(begun: &mut Vec<VRow>, rows: &mut Vec<VRow>)
    requires { length rows.old.items + length begun.old.items ≤ vec_capacity rows.old }
    ensures { rows.new.items ≡ rows.old.items ++ begun.old.items }
{
    match rows.append(begun) {
        Ok(()) => {}
        Err(_no_room) => {}
    }
}

fn add_marks(commit: u64, number: u64, rows: &[VRow], marks: &mut Vec<Mark>)
    requires fits { number + length rows.now < 2 ^ 64 }
    requires room { length marks.old.items + length rows.now ≤ vec_capacity marks.old }
    ensures { marks.new.items ≡ marks.old.items ++ begun_marks number commit rows.now }
{
    let mut number = number;
    let mut rows = rows;
    while let Some((_row, more)) = rows.split_first() {
        marks.push_reserved(Mark {
            number,
            begins: commit,
        });
        number += 1;
        rows = more;
    }
}
