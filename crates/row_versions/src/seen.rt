ghost use Rattle.std.specs.Prelude.{◌≡◌, ◌≤◌, ◌++◌, length, map, IfOk, OnOk};
ghost use Rattle.std.specs.Option.{option_copied};
ghost use Rattle.row_versions.specs.Seeing.{newest_by, place_in, put_all, put_ended, put_row, row_of, seen_newest, seen_table};

use crate::ended::EndedRow;
use crate::mark::Mark;
use plan_tables::TableRows;
use std::alloc::Global;
use std::collections::VecDeque;
use values::{List, Memory, TryCopy};
use vtable::VRow;

/// A row that a snapshot sees, with the number of its version.
#[derive(Drop)]
pub struct SeenRow {
    pub number: u64,
    pub row: VRow,
}

/// The rows of a table that a snapshot of so many commits sees, in the order of their numbers.
#[tactic(auto, using(crate::proofs::SeeingLaws::both_put))]
pub fn rows_seen(
    alloc: Global,
    seen: u64,
    table: u32,
    ended: &VecDeque<EndedRow>,
    marks: Option<&List<Mark>>,
    rows: Option<&TableRows>,
) -> Result<List<VRow>, Memory>
    ensures { IfOk result (λ it. it ≡ map row_of (put_all seen table ended.now.items (seen_table seen (option_copied marks.entry) (option_copied rows.entry)))) }
{
    let mut seen_rows = newest_seen(alloc, seen, marks, rows)?;
    let (front, back) = ended.as_slices();
    put_seen(alloc, seen, table, back, &mut seen_rows)?;
    put_seen(alloc, seen, table, front, &mut seen_rows)?;
    let out = without_numbers(alloc, seen_rows)?;
    Ok(out)
}

/// Of the newest rows of a table those that had begun by then.
fn newest_seen(
    alloc: Global,
    seen: u64,
    marks: Option<&List<Mark>>,
    rows: Option<&TableRows>,
) -> Result<Vec<SeenRow>, Memory>
    ensures { IfOk result (λ it. it.items ≡ seen_table seen (option_copied marks.entry) (option_copied rows.entry)) }
{
    match marks {
        Some(marks) => match rows {
            Some(table) => begun_by(alloc, seen, marks.as_slice(), table.rows.rows.as_slice()),
            None => Ok(Vec::new(alloc)),
        },
        None => Ok(Vec::new(alloc)),
    }
}

fn begun_by(alloc: Global, seen: u64, marks: &[Mark], rows: &[VRow]) -> Result<Vec<SeenRow>, Memory>
    ensures { IfOk result (λ it. it.items ≡ seen_newest seen marks.now rows.now) }
{
    let mut out = Vec::with_capacity(alloc, rows.len())?;
    let mut marks = marks;
    let mut rows = rows;
    while let Some((mark, more)) = marks.split_first() {
        let Some((row, rest)) = rows.split_first() else {
            return Ok(out);
        };
        put_newest(alloc, seen, mark, row, &mut out)?;
        marks = more;
        rows = rest;
    }
    Ok(out)
}

fn put_newest(
    alloc: Global,
    seen: u64,
    mark: &Mark,
    row: &VRow,
    out: &mut Vec<SeenRow>,
) -> Result<(), Memory>
    ensures { OnOk result (out.new.items ≡ out.old.items ++ newest_by seen mark.now row.now) }
{
    if mark.begins <= seen {
        let row = row.copy(alloc)?;
        out.push(SeenRow {
            number: mark.number,
            row,
        })?;
    }
    Ok(())
}

/// Puts those of the ended rows of a table that the snapshot sees at their places.
#[tactic(auto, using(crate::proofs::SeeingLaws::last_put))]
fn put_seen(
    alloc: Global,
    seen: u64,
    table: u32,
    ended: &[EndedRow],
    rows: &mut Vec<SeenRow>,
) -> Result<(), Memory>
    ensures { OnOk result (rows.new.items ≡ put_all seen table ended.now rows.old.items) }
{
    let mut ended = ended;
    while let Some((last, others)) = ended.split_last() {
        put_ended(alloc, seen, table, last, rows)?;
        ended = others;
    }
    Ok(())
}

fn put_ended(
    alloc: Global,
    seen: u64,
    table: u32,
    it: &EndedRow,
    rows: &mut Vec<SeenRow>,
) -> Result<(), Memory>
    ensures { OnOk result (rows.new.items ≡ put_ended seen table it.now rows.old.items) }
{
    if it.table == table && it.begins <= seen && seen < it.ends {
        let row = it.row.copy(alloc)?;
        put_row(
            rows,
            SeenRow {
                number: it.number,
                row,
            },
        )?;
    }
    Ok(())
}

#[tactic(auto, using(crate::proofs::SeeingLaws::inserted))]
fn put_row(rows: &mut Vec<SeenRow>, it: SeenRow) -> Result<(), Memory>
    ensures { OnOk result (rows.new.items ≡ put_row it rows.old.items) }
{
    let place = place_in(it.number, rows.as_slice());
    rows.insert(place, it)?;
    Ok(())
}

/// How many rows stand in front of the first one whose number isn't lower.
fn place_in(number: u64, rows: &[SeenRow]) -> usize
    ensures place { result ≡ place_in number rows.now }
    ensures within { result ≤ length rows.now }
{
    let mut place = 0;
    let mut rows = rows;
    while let Some((row, more)) = rows.split_first() {
        if number <= row.number {
            return place;
        }
        place += 1;
        rows = more;
    }
    place
}

fn without_numbers(alloc: Global, rows: Vec<SeenRow>) -> Result<List<VRow>, Memory>
    ensures { IfOk result (λ it. it ≡ map row_of rows.items) }
{
    let mut out = Vec::with_capacity(alloc, rows.len())?;
    for it in rows {
        let SeenRow { row, .. } = it;
        out.push(row)?;
    }
    Ok(List::from_vec(out))
}
