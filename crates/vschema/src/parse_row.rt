ghost use Rattle.std.specs.Prelude.{◌≡◌, ◌<◌, ◌≤◌, ◌+◌, true, false, ◌≢◌, length, vec_len, slice_get, IfOk, IfErr, Some};
ghost use Rattle.values.specs.Value.{kind_of};
ghost use Rattle.vschema.specs.Words.{stands, line_number};
ghost use Rattle.feature_expr.specs.Nesting.{nesting_limit};
ghost use Rattle.vschema.specs.declared.words.Sign.TheVariants as sign;
ghost use Rattle.vschema.specs.Spelling.{IsTableName, IsRow, no_cells, has_value, NewCell, IsCell, CellsBefore, AreCells};
ghost use Rattle.vschema.specs.Faults.{RowNameFault, RowFault, CellNameFault, CellFault, CellsFault};

use crate::catalog::{Column, OpeningRow, Table};
use crate::columns::find_column;
use crate::fault::CatalogFault;
use crate::parse_conditions::parse_tail;
use crate::tables::Tables;
use crate::words::{Sign, folded_name_at, stands, value_at, wanted};
use feature_expr::{List, Memory, Reading, Value};

/// The row whose word `row` stands at a token, behind its table and others, and the token behind it.
#[tactic(auto, using(crate::specs::Faults::at_row_name, crate::specs::Faults::row_unopened, crate::specs::Faults::in_cells, crate::specs::Faults::in_row_tail, crate::proofs::EntryLaws::row_ends, crate::proofs::EntryLaws::row_tail_refused))]
pub fn parse_row(
    reading: &Reading<'_>,
    at: usize,
    tables: &Tables,
) -> Result<(OpeningRow, usize), CatalogFault>
    requires begins { stands reading.now.text.now reading.now.tokens.now at sign.Row ≡ true }
    requires within { at < length reading.now.tokens.now }
    requires limit { reading.now.max_nesting ≡ nesting_limit }
    ensures within { IfOk result (λ found. (at < found.1) × (found.1 ≤ length reading.now.tokens.now)) }
    ensures spelled { IfOk result (λ found. IsRow reading.now.features.now reading.now.text.now reading.now.tokens.now tables.now.tables.items at found.0 found.1) }
    ensures refused { IfErr result (RowFault reading.now.features.now reading.now.text.now reading.now.tokens.now tables.now.tables.items at) }
{
    let (number, table) = named_table(reading, at + 1, tables)?;
    let from = wanted(reading, at + 2, Sign::Open)?;
    let (cells, behind) = parse_cells(reading, from, table.columns.as_slice())?;
    let (cond, end) = parse_tail(reading, behind)?;
    let row = OpeningRow {
        table: number,
        cells,
        cond,
        line: line_of(reading, at),
    };
    Ok((row, end))
}

#[tactic(auto, unfolding(crate::specs::Words::line_number))]
fn line_of(reading: &Reading<'_>, at: usize) -> u64
    requires { at < length reading.now.tokens.now }
    ensures { result ≡ line_number reading.now.text.now reading.now.tokens.now at }
{
    match reading.tokens.get(at) {
        Some(token) => token.line,
        None => unreachable!(),
    }
}

/// The table that is named, and its number.
#[tactic(auto, using(crate::specs::Faults::row_name_memory, crate::specs::Faults::no_row_name, crate::specs::Faults::no_such_table))]
fn named_table<'a>(
    reading: &Reading<'_>,
    at: usize,
    tables: &'a Tables,
) -> Result<(u32, &'a Table), CatalogFault>
    ensures within { IfOk result (λ found. at < length reading.now.tokens.now) }
    ensures spelled { IfOk result (λ found. IsTableName reading.now.text.now reading.now.tokens.now tables.now.tables.items at found.0 found.1.now) }
    ensures refused { IfErr result (RowNameFault reading.now.text.now reading.now.tokens.now tables.now.tables.items at) }
{
    let name = folded_name_at(reading, at)?;
    match tables.find(&name) {
        Some(number) => Ok((number, &tables.as_slice()[number as usize])),
        None => Err(CatalogFault::UnknownName(at)),
    }
}

/// Values with commas between them, each behind the name of its column, up to the bracket that closes them, and the
/// token behind it.
#[tactic(auto, using(crate::specs::Spelling::no_cell_yet, crate::specs::Spelling::another_cell, crate::specs::Faults::cells_memory, crate::specs::Faults::at_cell, crate::specs::Faults::cells_unclosed))]
fn parse_cells(
    reading: &Reading<'_>,
    from: usize,
    columns: &[Column],
) -> Result<(List<Option<Value>>, usize), CatalogFault>
    requires within { from ≤ length reading.now.tokens.now }
    ensures within { IfOk result (λ found. (from < found.1) × (found.1 ≤ length reading.now.tokens.now)) }
    ensures spelled { IfOk result (λ found. AreCells reading.now.text.now reading.now.tokens.now columns.now from found.0 found.1) }
    ensures refused { IfErr result (CellsFault reading.now.text.now reading.now.tokens.now columns.now from) }
{
    let mut cells = no_cells(reading, columns)?;
    let mut at = from;
    'cells: loop {
        let (place, value) = parse_cell(reading, at, columns, cells.as_slice())?;
        cells[place] = Some(value);
        if !stands(reading, at + 2, Sign::Comma) {
            let end = wanted(reading, at + 2, Sign::Close)?;
            return Ok((List::from_vec(cells), end));
        }
        at += 3;
    }
}

/// One absent cell per column.
fn no_cells(reading: &Reading<'_>, columns: &[Column]) -> Result<Vec<Option<Value>>, Memory>
    ensures { IfOk result (λ cells. cells.items ≡ no_cells columns.now) }
{
    let mut cells = Vec::with_capacity(reading.alloc, columns.len())?;
    'cells: for _column in columns {
        cells.push(None)?;
    }
    Ok(cells)
}

/// The value behind the name of a column that has none yet, and the column's place.
#[tactic(auto, using(crate::proofs::EntryLaws::cell_is, crate::specs::Faults::cell_memory, crate::specs::Faults::at_cell_name, crate::specs::Faults::no_value, crate::specs::Faults::another_kind))]
fn parse_cell(
    reading: &Reading<'_>,
    at: usize,
    columns: &[Column],
    cells: &[Option<Value>],
) -> Result<(usize, Value), CatalogFault>
    requires { length cells.now ≡ length columns.now }
    ensures within { IfOk result (λ found. at + 1 < length reading.now.tokens.now) }
    ensures place { IfOk result (λ found. found.0 < length cells.now) }
    ensures spelled { IfOk result (λ found. IsCell reading.now.text.now reading.now.tokens.now columns.now cells.now at found.0 found.1) }
    ensures refused { IfErr result (CellFault reading.now.text.now reading.now.tokens.now columns.now cells.now at) }
{
    let (place, column) = new_cell(reading, at, columns, cells)?;
    let value = value_at(reading, at + 1)?;
    if !is_of_kind(&value, column) {
        return Err(CatalogFault::WrongKind(at + 1));
    }
    Ok((place, value))
}

fn is_of_kind(value: &Value, column: &Column) -> bool
    ensures yes { result ≡ true → kind_of value.now ≡ column.now.kind }
    ensures no { result ≡ false → kind_of value.now ≢ column.now.kind }
{
    value.kind() == column.kind
}

/// The column that is named, which has no value yet, and its place.
#[tactic(auto, using(crate::specs::Faults::cell_name_memory, crate::specs::Faults::no_cell_name, crate::specs::Faults::no_such_column, crate::specs::Faults::cell_again))]
fn new_cell<'a>(
    reading: &Reading<'_>,
    at: usize,
    columns: &'a [Column],
    cells: &[Option<Value>],
) -> Result<(usize, &'a Column), CatalogFault>
    ensures within { IfOk result (λ found. at < length reading.now.tokens.now) }
    ensures place { IfOk result (λ found. found.0 < length columns.now) }
    ensures spelled { IfOk result (λ found. NewCell reading.now.text.now reading.now.tokens.now columns.now cells.now at found.0 found.1.now) }
    ensures refused { IfErr result (CellNameFault reading.now.text.now reading.now.tokens.now columns.now cells.now at) }
{
    let name = folded_name_at(reading, at)?;
    let Some(place) = find_column(columns, &name) else {
        return Err(CatalogFault::UnknownName(at));
    };
    if has_value(cells, place) {
        return Err(CatalogFault::Duplicate(at));
    }
    Ok((place, &columns[place]))
}

fn has_value(cells: &[Option<Value>], place: usize) -> bool
    ensures { result ≡ has_value cells.now place }
{
    match cells.get(place) {
        Some(cell) => cell.is_some(),
        None => false,
    }
}
