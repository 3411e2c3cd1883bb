ghost use Rattle.std.specs.Prelude.{◌≡◌, ◌+◌, ◌<◌, ◌≤◌, ◌^◌, [], ◌∷◌, ◌++◌, ℕ, length, set, OnOk};
ghost use Rattle.std.specs.VecDeque.{deque_capacity};
ghost use Rattle.row_versions.specs.Changing.{AreWithin};
ghost use Rattle.row_versions.specs.Prepared.{IsHeld, IsReady, after, stored_held};
ghost use Rattle.version_changes.specs.Changes.{begun_count};
ghost use Rattle.row_versions.specs.Waiting.{AreAlike, AreMarksBack, AreTablesBack, HasEndedRoom, HasRoom, HaveRoom, changes_of, ended_after, ends_count, marks_after, marks_back, table_after, table_of, tables_back};

use crate::counting::counted;
use crate::ended::EndedRow;
use crate::mark::Mark;
use crate::opened::{Opened, changed, closed, give_room, taken_out};
use plan_tables::TableRows;
use std::alloc::{AllocFailed, Global};
use std::collections::VecDeque;
use std::mem;
use table_changes::TableChange;
use values::{List, Memory};
use vtable::VTable;

/// What is held of stored tables, as lists that can be written.
#[derive(Drop)]
pub struct Held {
    pub tables: Vec<TableRows>,
    pub marks: Vec<List<Mark>>,
    pub ended: VecDeque<EndedRow>,
    pub next: u64,
}

/// Takes a table out for its change, with room for what it will be. It can be put back as it was in either case.
pub fn open(
    alloc: Global,
    change: TableChange,
    held: &mut Held,
    waiting: &mut VecDeque<Opened>,
) -> Result<(), Memory>
    requires place { change.table < length held.old.tables.items }
    requires marks_place { change.table < length held.old.marks.items }
    requires alike { AreAlike held.old.marks.items held.old.tables.items }
    ensures tables { AreTablesBack waiting.new.items held.new.tables.items waiting.old.items held.old.tables.items }
    ensures marks { AreMarksBack waiting.new.items held.new.marks.items waiting.old.items held.old.marks.items }
    ensures many { length held.new.tables.items ≡ length held.old.tables.items }
    ensures many_marks { length held.new.marks.items ≡ length held.old.marks.items }
    ensures alike { OnOk result (AreAlike held.new.marks.items held.new.tables.items) }
    ensures within { (n : ℕ) → change.table < n → AreWithin n (changes_of waiting.old.items) → AreWithin n (changes_of waiting.new.items) }
    ensures changes { OnOk result (changes_of waiting.new.items ≡ change ∷ changes_of waiting.old.items) }
    ensures room { OnOk result (HaveRoom waiting.old.items → HaveRoom waiting.new.items) }
    ensures ended { held.new.ended ≡ held.old.ended }
    ensures next { held.new.next ≡ held.old.next }
{
    let place = change.table as usize;
    let (table, marks) = take_table(alloc, place, held);
    let mut one = taken_out(alloc, change, table, marks);
    let room = give_room(&mut one);
    match waiting.push_front(one) {
        Ok(()) => room,
        Err(AllocFailed { value, .. }) => {
            close(value, held);
            Err(Memory)
        }
    }
}

/// Puts a table back as it was.
pub fn close(one: Opened, held: &mut Held)
    requires place { one.change.table < length held.old.tables.items }
    requires marks_place { one.change.table < length held.old.marks.items }
    ensures tables { held.new.tables.items ≡ set held.old.tables.items one.change.table (table_of one) }
    ensures marks { held.new.marks.items ≡ set held.old.marks.items one.change.table one.newest.marks.items }
    ensures ended { held.new.ended ≡ held.old.ended }
    ensures next { held.new.next ≡ held.old.next }
{
    let place = one.change.table as usize;
    let (table, marks) = closed(one);
    put_table(place, table, marks, held);
}

/// Puts a table back as it is after its change by a commit.
pub fn change_one(commit: u64, one: Opened, held: &mut Held)
    requires place { one.change.table < length held.old.tables.items }
    requires marks_place { one.change.table < length held.old.marks.items }
    requires room { HasRoom one }
    requires ended_room { HasEndedRoom one held.old.ended.items (deque_capacity held.old.ended) }
    requires fits { held.old.next + length one.change.begun < 2 ^ 64 }
    ensures tables { held.new.tables.items ≡ set held.old.tables.items one.change.table (table_after one) }
    ensures marks { held.new.marks.items ≡ set held.old.marks.items one.change.table (marks_after commit held.old.next one) }
    ensures ended { held.new.ended.items ≡ held.old.ended.items ++ ended_after commit one }
    ensures ended_room { deque_capacity held.new.ended ≡ deque_capacity held.old.ended }
    ensures next { held.new.next ≡ held.old.next + length one.change.begun }
{
    let place = one.change.table as usize;
    let begun = one.change.begun.len() as u64;
    let next = held.next;
    let (table, marks) = changed(commit, next, one, &mut held.ended);
    put_table(place, table, marks, held);
    held.next = next + begun;
}

fn put_table(place: usize, table: TableRows, marks: List<Mark>, held: &mut Held)
    requires place { place < length held.old.tables.items }
    requires marks_place { place < length held.old.marks.items }
    ensures tables { held.new.tables.items ≡ set held.old.tables.items place table }
    ensures marks { held.new.marks.items ≡ set held.old.marks.items place marks }
    ensures ended { held.new.ended ≡ held.old.ended }
    ensures next { held.new.next ≡ held.old.next }
{
    held.tables[place] = table;
    held.marks[place] = marks;
}

/// Takes out a table and its marks, and leaves none there.
fn take_table(alloc: Global, place: usize, held: &mut Held) -> (TableRows, List<Mark>)
    requires place { place < length held.old.tables.items }
    requires marks_place { place < length held.old.marks.items }
    ensures tables { set held.new.tables.items place result.0 ≡ held.old.tables.items }
    ensures marks { set held.new.marks.items place result.1 ≡ held.old.marks.items }
    ensures many { length held.new.tables.items ≡ length held.old.tables.items }
    ensures many_marks { length held.new.marks.items ≡ length held.old.marks.items }
    ensures alike { AreAlike held.old.marks.items held.old.tables.items → AreAlike held.new.marks.items held.new.tables.items }
    ensures ended { held.new.ended ≡ held.old.ended }
    ensures next { held.new.next ≡ held.old.next }
{
    let none = TableRows {
        table: 0,
        rows: VTable::empty(alloc),
    };
    let table = take_at(place, none, &mut held.tables);
    let marks = take_at(place, List::new(alloc), &mut held.marks);
    (table, marks)
}

fn take_at<T>(place: usize, none: T, items: &mut Vec<T>) -> T
    requires { place < length items.old.items }
    ensures was { set items.new.items place result ≡ items.old.items }
    ensures left { items.new.items ≡ set items.old.items place none }
{
    mem::replace(&mut items[place], none)
}

/// Takes out the tables of changes, each with room for what it will be.
pub fn open_all(
    alloc: Global,
    changes: List<TableChange>,
    held: &mut Held,
    waiting: &mut VecDeque<Opened>,
) -> Result<(), Memory>
    requires within { AreWithin (length held.old.tables.items) changes }
    requires alike { AreAlike held.old.marks.items held.old.tables.items }
    requires none { waiting.old.items ≡ [] }
    ensures tables { tables_back waiting.new.items held.new.tables.items ≡ held.old.tables.items }
    ensures marks { marks_back waiting.new.items held.new.marks.items ≡ held.old.marks.items }
    ensures many { length held.new.tables.items ≡ length held.old.tables.items }
    ensures many_marks { length held.new.marks.items ≡ length held.old.tables.items }
    ensures within { AreWithin (length held.old.tables.items) (changes_of waiting.new.items) }
    ensures changes { OnOk result (changes_of waiting.new.items ≡ changes) }
    ensures room { OnOk result (HaveRoom waiting.new.items) }
    ensures ended { held.new.ended ≡ held.old.ended }
    ensures next { held.new.next ≡ held.old.next }
{
    let mut changes = changes;
    while let Some(change) = changes.pop() {
        open(alloc, change, held, waiting)?;
    }
    Ok(())
}

/// Puts all tables back as they were.
pub fn close_all(held: &mut Held, waiting: VecDeque<Opened>)
    requires within { AreWithin (length held.old.tables.items) (changes_of waiting.items) }
    requires many { length held.old.marks.items ≡ length held.old.tables.items }
    ensures tables { held.new.tables.items ≡ tables_back waiting.items held.old.tables.items }
    ensures marks { held.new.marks.items ≡ marks_back waiting.items held.old.marks.items }
    ensures ended { held.new.ended ≡ held.old.ended }
    ensures next { held.new.next ≡ held.old.next }
{
    let mut waiting = waiting;
    while let Some(one) = waiting.pop_front() {
        close(one, held);
    }
}

/// Puts all tables back as they are after the next commit's changes. It takes no memory.
pub fn change_all(applied: u64, held: &mut Held, waiting: VecDeque<Opened>)
    requires { IsReady waiting.items held.old applied }
    ensures stored { stored_held held.new (applied + 1) ≡ after waiting.items held.old applied }
    ensures holding { IsHeld held.new (applied + 1) }
{
    let commit = applied + 1;
    let mut waiting = waiting;
    while let Some(one) = waiting.pop_front() {
        change_one(commit, one, held);
    }
}

/// Takes out the tables of changes, with room for all that the next commit makes of them.
pub fn open_with_room(
    alloc: Global,
    applied: u64,
    changes: List<TableChange>,
    held: &mut Held,
    waiting: &mut VecDeque<Opened>,
) -> Result<(), Memory>
    requires within { AreWithin (length held.old.tables.items) changes }
    requires alike { AreAlike held.old.marks.items held.old.tables.items }
    requires none { waiting.old.items ≡ [] }
    ensures tables { tables_back waiting.new.items held.new.tables.items ≡ held.old.tables.items }
    ensures marks { marks_back waiting.new.items held.new.marks.items ≡ held.old.marks.items }
    ensures many { length held.new.tables.items ≡ length held.old.tables.items }
    ensures many_marks { length held.new.marks.items ≡ length held.old.tables.items }
    ensures within { AreWithin (length held.old.tables.items) (changes_of waiting.new.items) }
    ensures ended { held.new.ended.items ≡ held.old.ended.items }
    ensures next { held.new.next ≡ held.old.next }
    ensures changes { OnOk result (changes_of waiting.new.items ≡ changes) }
    ensures room { OnOk result (HaveRoom waiting.new.items) }
    ensures ended_room { OnOk result (length held.old.ended.items + ends_count changes ≤ deque_capacity held.new.ended) }
    ensures numbers { OnOk result (held.old.next + begun_count changes < 2 ^ 64) }
    ensures commits { OnOk result (applied + 1 < 2 ^ 64) }
{
    let counts = counted(applied, held.next, changes.as_slice());
    open_all(alloc, changes, held, waiting)?;
    let Some(ends) = counts else {
        return Err(Memory);
    };
    held.ended.reserve(ends)?;
    Ok(())
}
