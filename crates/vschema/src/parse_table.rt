ghost use Rattle.std.specs.Prelude.{◌≡◌, ◌<◌, ◌≤◌, ◌+◌, true, length, IfOk, IfErr};
ghost use Rattle.vschema.specs.Spelling.{NewTable, IsTable, NewColumn, IsColumn, AreColumns};
ghost use Rattle.vschema.specs.Words.{stands};
ghost use Rattle.vschema.specs.Faults.{TableNameFault, TableFault, ColumnNameFault, ColumnFault, ColumnsFault};
ghost use Rattle.feature_expr.specs.Nesting.{nesting_limit};
ghost use Rattle.vschema.specs.declared.words.Sign.TheVariants as sign;

use crate::catalog::{Column, Table};
use crate::columns::{COLUMN_LIMIT, find_column};
use crate::fault::CatalogFault;
use crate::parse_conditions::{parse_tail, parse_when};
use crate::refused::Which;
use crate::tables::{TABLE_LIMIT, Tables};
use crate::words::{Sign, folded_name_at, kind_at, stands, wanted};
use feature_expr::{List, Name, Reading};

/// The table whose word `table` stands at a token, behind other tables, and the token behind it.
#[tactic(auto, using(crate::specs::Faults::at_table_name, crate::specs::Faults::table_unopened, crate::specs::Faults::in_columns, crate::specs::Faults::in_table_tail, crate::proofs::EntryLaws::table_ends, crate::proofs::EntryLaws::table_tail_refused))]
pub fn parse_table(
    reading: &Reading<'_>,
    at: usize,
    tables: &Tables,
) -> Result<(Table, usize), CatalogFault>
    requires begins { stands reading.now.text.now reading.now.tokens.now at sign.Table ≡ true }
    requires within { at < length reading.now.tokens.now }
    requires limit { reading.now.max_nesting ≡ nesting_limit }
    ensures within { IfOk result (λ found. (at < found.1) × (found.1 ≤ length reading.now.tokens.now)) }
    ensures spelled { IfOk result (λ found. IsTable reading.now.features.now reading.now.text.now reading.now.tokens.now tables.now.tables.items at found.0 found.1) }
    ensures refused { IfErr result (TableFault reading.now.features.now reading.now.text.now reading.now.tokens.now tables.now.tables.items at) }
{
    let name = new_table(reading, at + 1, tables)?;
    let from = wanted(reading, at + 2, Sign::Open)?;
    let (columns, behind) = parse_columns(reading, from)?;
    let (cond, end) = parse_tail(reading, behind)?;
    let table = Table {
        name,
        columns,
        cond,
    };
    Ok((table, end))
}

/// The name of a table, where it is another one than those before it.
#[tactic(auto, using(crate::specs::Faults::table_name_memory, crate::specs::Faults::no_table_name, crate::specs::Faults::table_again, crate::specs::Faults::one_table_more))]
fn new_table(reading: &Reading<'_>, at: usize, tables: &Tables) -> Result<Name, CatalogFault>
    ensures within { IfOk result (λ name. at < length reading.now.tokens.now) }
    ensures spelled { IfOk result (λ name. NewTable reading.now.text.now reading.now.tokens.now tables.now.tables.items at name) }
    ensures refused { IfErr result (TableNameFault reading.now.text.now reading.now.tokens.now tables.now.tables.items at) }
{
    let name = folded_name_at(reading, at)?;
    if let Some(_number) = tables.find(&name) {
        return Err(CatalogFault::Duplicate(at));
    }
    if tables.as_slice().len() >= TABLE_LIMIT {
        return Err(CatalogFault::Limit(at, Which::Tables));
    }
    Ok(name)
}

/// Columns with commas between them, up to the bracket that closes them, and the token behind it.
#[tactic(auto, using(crate::specs::Spelling::no_column_yet, crate::specs::Spelling::another_column, crate::specs::Faults::columns_memory, crate::specs::Faults::at_column, crate::specs::Faults::columns_unclosed, crate::proofs::EntryLaws::columns_end))]
fn parse_columns(reading: &Reading<'_>, from: usize) -> Result<(List<Column>, usize), CatalogFault>
    requires within { from ≤ length reading.now.tokens.now }
    requires limit { reading.now.max_nesting ≡ nesting_limit }
    ensures within { IfOk result (λ found. (from < found.1) × (found.1 ≤ length reading.now.tokens.now)) }
    ensures spelled { IfOk result (λ found. AreColumns reading.now.features.now reading.now.text.now reading.now.tokens.now from found.0 found.1) }
    ensures refused { IfErr result (ColumnsFault reading.now.features.now reading.now.text.now reading.now.tokens.now from) }
{
    let mut columns = Vec::new(reading.alloc);
    let mut at = from;
    'columns: loop {
        let (column, end) = parse_column(reading, at, columns.as_slice())?;
        columns.push(column)?;
        if !stands(reading, end, Sign::Comma) {
            let end = wanted(reading, end, Sign::Close)?;
            return Ok((List::from_vec(columns), end));
        }
        at = end + 1;
    }
}

/// A column behind others, and the token behind it.
#[tactic(auto, using(crate::specs::Faults::column_memory, crate::specs::Faults::at_column_name, crate::specs::Faults::no_kind, crate::specs::Faults::in_column_condition))]
fn parse_column(
    reading: &Reading<'_>,
    at: usize,
    columns: &[Column],
) -> Result<(Column, usize), CatalogFault>
    requires within { at ≤ length reading.now.tokens.now }
    requires limit { reading.now.max_nesting ≡ nesting_limit }
    ensures within { IfOk result (λ found. (at < found.1) × (found.1 ≤ length reading.now.tokens.now)) }
    ensures spelled { IfOk result (λ found. IsColumn reading.now.features.now reading.now.text.now reading.now.tokens.now columns.now at found.0 found.1) }
    ensures refused { IfErr result (ColumnFault reading.now.features.now reading.now.text.now reading.now.tokens.now columns.now at) }
{
    let name = new_column(reading, at, columns)?;
    let Some(kind) = kind_at(reading, at + 1) else {
        return Err(CatalogFault::Syntax(at + 1));
    };
    let (cond, end) = parse_when(reading, 1, at + 2)?;
    Ok((Column { name, kind, cond }, end))
}

/// The name of a column, where it is another one than those before it.
#[tactic(auto, using(crate::specs::Faults::column_name_memory, crate::specs::Faults::no_column_name, crate::specs::Faults::column_again, crate::specs::Faults::one_column_more))]
fn new_column(reading: &Reading<'_>, at: usize, columns: &[Column]) -> Result<Name, CatalogFault>
    ensures within { IfOk result (λ name. at < length reading.now.tokens.now) }
    ensures spelled { IfOk result (λ name. NewColumn reading.now.text.now reading.now.tokens.now columns.now at name) }
    ensures refused { IfErr result (ColumnNameFault reading.now.text.now reading.now.tokens.now columns.now at) }
{
    let name = folded_name_at(reading, at)?;
    if let Some(_place) = find_column(columns, &name) {
        return Err(CatalogFault::Duplicate(at));
    }
    if columns.len() >= COLUMN_LIMIT {
        return Err(CatalogFault::Limit(at, Which::Columns));
    }
    Ok(name)
}
