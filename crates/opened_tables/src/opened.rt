ghost use Rattle.std.specs.Prelude.{◌≡◌, ◌<◌, ◌^◌, length, IfOk};
ghost use Rattle.opened_tables.specs.Opened.{PutsNext, opened_tables, present, present_tables};

use asked_conditions::Questions;
use condition_sat::Model;
use plan_tables::{Rows, TableRows};
use query_answers::opening_rows;
use row_writes::present_rows;
use std::alloc::Global;
use values::{List, Memory};
use vschema::{Catalog, OpeningRow, Table};
use vtable::VTable;

/// Each table of the catalogue with its columns and those of its opening rows that are there in some variant.
pub fn opened_tables(
    alloc: Global,
    catalog: &Catalog,
    model: &Model,
    rows: &[OpeningRow],
) -> Result<Rows, Memory>
    requires countable { length catalog.now.tables < 2 ^ 32 }
    ensures { IfOk result (λ it. it.tables ≡ opened_tables model.now catalog.now.tables rows.now) }
{
    let Rows { tables } = opening_rows(alloc, catalog, rows)?;
    let mut questions = Questions::new(alloc, model);
    let opened = present_tables(alloc, &mut questions, catalog.tables.as_slice(), tables)?;
    Ok(Rows { tables: opened })
}

/// The tables with those of their rows that are there in some variant. The rows are moved.
#[tactic(auto, using(crate::proofs::PresentLaws::goes_on, crate::proofs::PresentLaws::at_start, crate::proofs::PresentLaws::at_end))]
fn present_tables(
    alloc: Global,
    questions: &mut Questions<'_>,
    tables: &[Table],
    all: List<TableRows>,
) -> Result<List<TableRows>, Memory>
    ensures same { questions.new ≡ questions.old }
    ensures present { IfOk result (λ it. it ≡ present_tables questions.old tables.now all) }
{
    let mut present = Vec::with_capacity(alloc, all.len())?;
    let mut tables = tables;
    for it in all.into_vec() {
        tables = put_next(alloc, questions, tables, it, &mut present)?;
    }
    Ok(List::from_vec(present))
}

/// Adds the first of the tables. Those behind it are left.
#[tactic(auto, using(crate::proofs::PresentLaws::one_put, crate::proofs::PresentLaws::none_put))]
fn put_next<'a>(
    alloc: Global,
    questions: &mut Questions<'_>,
    tables: &'a [Table],
    it: TableRows,
    present: &mut Vec<TableRows>,
) -> Result<&'a [Table], Memory>
    ensures same { questions.new ≡ questions.old }
    ensures put { IfOk result (λ left. PutsNext questions.old tables.now it present.old.items left.now present.new.items) }
{
    match tables.split_first() {
        Some((table, left)) => {
            present.push(present_table(alloc, questions, table, it)?)?;
            Ok(left)
        }
        None => Ok(tables),
    }
}

fn present_table(
    alloc: Global,
    questions: &mut Questions<'_>,
    table: &Table,
    it: TableRows,
) -> Result<TableRows, Memory>
    ensures same { questions.new ≡ questions.old }
    ensures present { IfOk result (λ new. new ≡ present questions.old table.now it) }
{
    let TableRows {
        table: number,
        rows: VTable { columns, rows },
    } = it;
    let rows = present_rows(alloc, questions, table, rows)?;
    Ok(TableRows {
        table: number,
        rows: VTable { columns, rows },
    })
}
