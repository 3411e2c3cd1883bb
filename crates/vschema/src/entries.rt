ghost use Rattle.std.specs.Prelude.{◌≡◌, ◌<◌, ◌≤◌, length, IfOk, IfErr};
ghost use Rattle.vschema.specs.Spelling.{IsEntry, IsFresh, EntriesTo, tables_with, rows_with};
ghost use Rattle.vschema.specs.Faults.{EntryFault, EntriesFault};
ghost use Rattle.feature_expr.specs.Nesting.{nesting_limit};

use crate::catalog::{OpeningRow, Table};
use crate::fault::CatalogFault;
use crate::parse_row::parse_row;
use crate::parse_table::parse_table;
use crate::tables::Tables;
use crate::words::{Sign, stands};
use feature_expr::{List, Memory, Reading};
use std::alloc::Global;

/// A part of a catalogue behind its head.
#[derive(Drop)]
pub enum Entry {
    Table(Table),
    Row(OpeningRow),
}

/// The tables and rows that were read.
#[derive(Drop)]
struct Entries {
    tables: Tables,
    rows: Vec<OpeningRow>,
}

impl Entries {
    fn with(self, alloc: Global, entry: Entry) -> Result<Entries, Memory>
        requires { IsFresh self.tables.tables.items entry }
        ensures tables { IfOk result (λ entries. entries.tables.tables.items ≡ tables_with self.tables.tables.items entry) }
        ensures rows { IfOk result (λ entries. entries.rows.items ≡ rows_with self.rows.items entry) }
    {
        let Entries { tables, mut rows } = self;
        match entry {
            Entry::Table(table) => {
                let tables = tables.with(alloc, table)?;
                Ok(Entries { tables, rows })
            }
            Entry::Row(row) => {
                rows.push(row)?;
                Ok(Entries { tables, rows })
            }
        }
    }
}

/// The tables and rows from a token on, up to the last token.
#[tactic(auto, using(crate::specs::Spelling::no_entry_yet, crate::specs::Spelling::another_entry, crate::proofs::EntryLaws::entries_refused))]
pub fn parse_entries(
    reading: &Reading<'_>,
    from: usize,
) -> Result<(List<Table>, List<OpeningRow>), CatalogFault>
    requires within { from ≤ length reading.now.tokens.now }
    requires limit { reading.now.max_nesting ≡ nesting_limit }
    ensures spelled { IfOk result (λ found. EntriesTo reading.now.features.now reading.now.text.now reading.now.tokens.now from found.0 found.1 (length reading.now.tokens.now)) }
    ensures refused { IfErr result (EntriesFault reading.now.features.now reading.now.text.now reading.now.tokens.now from) }
{
    let mut entries = Entries {
        tables: Tables::new(reading.alloc),
        rows: Vec::new(reading.alloc),
    };
    let mut at = from;
    'entries: while at < reading.tokens.len() {
        let (entry, end) = parse_entry(reading, at, &entries.tables)?;
        entries = entries.with(reading.alloc, entry)?;
        at = end;
    }
    let Entries { tables, rows } = entries;
    Ok((tables.into_list(), List::from_vec(rows)))
}

/// The table or the row that begins at a token, behind these tables, and the token behind it.
#[tactic(auto, using(crate::specs::Faults::entry_memory, crate::specs::Faults::in_table, crate::specs::Faults::in_row, crate::specs::Faults::no_entry))]
fn parse_entry(
    reading: &Reading<'_>,
    at: usize,
    tables: &Tables,
) -> Result<(Entry, usize), CatalogFault>
    requires within { at < length reading.now.tokens.now }
    requires limit { reading.now.max_nesting ≡ nesting_limit }
    ensures within { IfOk result (λ found. (at < found.1) × (found.1 ≤ length reading.now.tokens.now)) }
    ensures spelled { IfOk result (λ found. IsEntry reading.now.features.now reading.now.text.now reading.now.tokens.now tables.now.tables.items at found.0 found.1) }
    ensures refused { IfErr result (EntryFault reading.now.features.now reading.now.text.now reading.now.tokens.now tables.now.tables.items at) }
{
    if stands(reading, at, Sign::Table) {
        let (table, end) = parse_table(reading, at, tables)?;
        Ok((Entry::Table(table), end))
    } else if stands(reading, at, Sign::Row) {
        let (row, end) = parse_row(reading, at, tables)?;
        Ok((Entry::Row(row), end))
    } else {
        Err(CatalogFault::Syntax(at))
    }
}
