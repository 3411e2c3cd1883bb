ghost use Rattle.std.specs.Prelude.{◌≡◌, ◌==◌, ◌||◌, ◌<◌, ◌^◌, ℕ, [], true, false, length, map, slice_index_or, IfOk};
ghost use Rattle.query_meaning.specs.Plans.{scans};
ghost use Rattle.query_meaning.specs.Typing.{AreTables, stored_column};
ghost use Rattle.query_names.specs.ScannedTables.{AreMarked, AreMarks, all_below};

use crate::scan_list::plan_scans;
use feature_expr::and;
use query_meaning::{Plan, TableColumns, TypedColumn};
use std::alloc::Global;
use values::{ColName, List, Memory, TryCopy};
use vschema::{Column, Table};

/// The tables that a plan scans, ascending and each once, with their columns as they stand in the catalogue.
#[tactic(auto, using(crate::proofs::ScanLaws::are_tables))]
pub fn plan_tables(
    alloc: Global,
    tables: &[Table],
    plan: &Plan,
) -> Result<List<TableColumns>, Memory>
    requires countable { length tables.now < 2 ^ 32 }
    requires known { all_below (length tables.now) (scans plan.now) ≡ true }
    ensures { IfOk result (λ them. AreTables tables.now plan.now them) }
{
    let numbers = plan_scans(alloc, plan)?;
    let marks = marked(alloc, numbers.as_slice(), tables.len())?;
    let them = marked_tables(alloc, tables, marks.as_slice())?;
    Ok(List::from_vec(them))
}

/// For each number below the count whether it is among the numbers.
#[tactic(auto, using(crate::proofs::ScanLaws::has_more))]
fn marked(alloc: Global, numbers: &[u32], count: usize) -> Result<Vec<bool>, Memory>
    ensures { IfOk result (λ them. AreMarks count numbers.now them.items) }
{
    let mut marks = unmarked(alloc, count)?;
    for number in numbers {
        mark(&mut marks, *number);
    }
    Ok(marks)
}

fn unmarked(alloc: Global, count: usize) -> Result<Vec<bool>, Memory>
    ensures { IfOk result (λ them. AreMarks count [] them.items) }
{
    let mut marks = Vec::with_capacity(alloc, count)?;
    for _number in 0..count {
        marks.push(false)?;
    }
    Ok(marks)
}

fn mark(marks: &mut Vec<bool>, number: u32)
    ensures length { length marks.new.items ≡ length marks.old.items }
    ensures each { (k : ℕ) → k < length marks.old.items → slice_index_or marks.new.items k false ≡ (slice_index_or marks.old.items k false || (number == k)) }
{
    let place = number as usize;
    if place < marks.len() {
        marks[place] = true;
    }
}

/// The tables whose numbers are marked.
fn marked_tables(
    alloc: Global,
    tables: &[Table],
    marks: &[bool],
) -> Result<Vec<TableColumns>, Memory>
    requires countable { length tables.now < 2 ^ 32 }
    requires each { length marks.now ≡ length tables.now }
    ensures { IfOk result (λ them. AreMarked tables.now marks.now them.items) }
{
    let mut them = Vec::new(alloc);
    for (number, table) in tables.iter().enumerate() {
        if marks[number] {
            let columns = stored_columns(alloc, table)?;
            them.push(TableColumns {
                table: number as u32,
                columns,
            })?;
        }
    }
    Ok(them)
}

/// A table's columns, each under its own condition and the table's.
fn stored_columns(alloc: Global, table: &Table) -> Result<List<TypedColumn>, Memory>
    ensures { IfOk result (λ columns. columns ≡ map (stored_column table.now) table.now.columns) }
{
    let mut columns = Vec::with_capacity(alloc, table.columns.len())?;
    for column in table.columns.as_slice() {
        let column = stored_column(alloc, table, column)?;
        columns.push(column)?;
    }
    Ok(List::from_vec(columns))
}

fn stored_column(alloc: Global, table: &Table, column: &Column) -> Result<TypedColumn, Memory>
    ensures { IfOk result (λ it. it ≡ stored_column table.now column.now) }
{
    let base = column.name.copy(alloc)?;
    let of_table = table.cond.copy(alloc)?;
    let own = column.cond.copy(alloc)?;
    let cond = and(alloc, of_table, own)?;
    Ok(TypedColumn {
        name: ColName { prefix: None, base },
        kind: column.kind,
        cond,
    })
}
