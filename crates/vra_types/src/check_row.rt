ghost use Rattle.std.specs.Prelude.{◌≡◌, true, [], ◌∷◌, map, slice_get, IfOk, IfErr, IfSome, IfNone, OnOk};
ghost use Rattle.std.specs.List.{flat_map};
ghost use Rattle.std.specs.Option.{option_copied};
ghost use Rattle.vschema.specs.Gaps.{columns_without};
ghost use Rattle.vschema.specs.Spelling.{is_filled};
ghost use Rattle.vra_types.specs.Check.{RowGap, row_gaps, row_gaps_in, IsGapAt, IsNowhere, AreNowhere, RefusesGaps};

use crate::alike::{fingerprint, is_alike_to_judged};
use crate::refused::CheckRefused;
use condition_sat::{Asked, Model};
use feature_expr::{Config, Expr, Memory, TryCopy};
use std::alloc::Global;
use std::collections::BTreeMap;
use vschema::{Column, OpeningRow, Table};

/// Looks for the first row, and in it for the first column, that are there in an admitted variant without a value.
///
/// Of rows that are alike only the first is judged. The places of judged rows are kept under their fingerprints, as a
/// hint: the row at such a place is compared before it counts.
pub fn check_rows(
    alloc: Global,
    model: &Model,
    tables: &[Table],
    rows: &[OpeningRow],
) -> Result<(), CheckRefused>
    ensures ok { OnOk result (AreNowhere model.now (flat_map (row_gaps tables.now) rows.now)) }
    ensures err { IfErr result (λ why. RefusesGaps model.now (flat_map (row_gaps tables.now) rows.now) why) }
{
    let mut judged = BTreeMap::new(alloc);
    for (place, row) in rows.iter().enumerate() {
        let print = fingerprint(row);
        if !is_alike_to_judged(&judged, print, &rows[..place], row) {
            check_row(alloc, model, tables, row)?;
            judged.insert(print, place)?;
        }
    }
    Ok(())
}

fn check_row(
    alloc: Global,
    model: &Model,
    tables: &[Table],
    row: &OpeningRow,
) -> Result<(), CheckRefused>
    ensures ok { OnOk result (AreNowhere model.now (row_gaps tables.now row.now)) }
    ensures err { IfErr result (λ why. RefusesGaps model.now (row_gaps tables.now row.now) why) }
{
    match table_of(tables, row.table) {
        Some(table) => check_cells(alloc, model, table, row, table.columns.as_slice()),
        None => Ok(()),
    }
}

fn table_of(tables: &[Table], number: u32) -> Option<&Table>
    ensures { option_copied result ≡ slice_get tables.now number }
{
    tables.get(number as usize)
}

/// The columns are those of the table. Only one without a value is asked about.
fn check_cells(
    alloc: Global,
    model: &Model,
    table: &Table,
    row: &OpeningRow,
    columns: &[Column],
) -> Result<(), CheckRefused>
    ensures ok { OnOk result (AreNowhere model.now (map (RowGap table.now row.now) (columns_without columns.now row.now.cells))) }
    ensures err { IfErr result (λ why. RefusesGaps model.now (map (RowGap table.now row.now) (columns_without columns.now row.now.cells)) why) }
{
    for (place, column) in columns.iter().enumerate() {
        if !has_value(row, place) {
            check_cell(alloc, model, table, row, column)?;
        }
    }
    Ok(())
}

fn has_value(row: &OpeningRow, place: usize) -> bool
    ensures { result ≡ is_filled (slice_get row.now.cells place) }
{
    match row.cells.get(place) {
        Some(cell) => cell.is_some(),
        None => false,
    }
}

fn check_cell(
    alloc: Global,
    model: &Model,
    table: &Table,
    row: &OpeningRow,
    column: &Column,
) -> Result<(), CheckRefused>
    ensures ok { OnOk result (IsNowhere model.now (RowGap table.now row.now column.now)) }
    ensures err { IfErr result (λ why. RefusesGaps model.now (RowGap table.now row.now column.now ∷ []) why) }
{
    match missing_variant(model, table, row, column)? {
        Some(config) => {
            let name = column.name.copy(alloc)?;
            Err(CheckRefused::MissingValue(row.line, name, config))
        }
        None => Ok(()),
    }
}

/// An admitted variant in which the row and the column are there. The table's condition is that of many rows, and is
/// asked about only where the other two hold together.
fn missing_variant(
    model: &Model,
    table: &Table,
    row: &OpeningRow,
    column: &Column,
) -> Result<Option<Config>, Memory>
    ensures some { IfOk result (λ found. IfSome found (λ c. IsGapAt model.now (RowGap table.now row.now column.now) c)) }
    ensures none { IfOk result (λ found. IfNone found (IsNowhere model.now (RowGap table.now row.now column.now))) }
{
    let with_row = holds(&row.cond);
    let with_column = holds(&column.cond);
    match model.find_meeting(&[with_row, with_column])? {
        Some(_config) => model.find_meeting(&[with_row, with_column, holds(&table.cond)]),
        None => Ok(None),
    }
}

fn holds(cond: &Expr) -> Asked<'_>
    ensures expr { result.expr.now ≡ cond.now }
    ensures value { result.value ≡ true }
{
    Asked {
        expr: cond,
        value: true,
    }
}
