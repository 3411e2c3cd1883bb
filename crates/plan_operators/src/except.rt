ghost use Rattle.std.specs.Prelude.{◌≡◌, [], ◌∷◌, ◌++◌, filter, fold, slice_get, if◌then◌else◌, Option as Maybe, IfOk, OnOk};
ghost use Rattle.std.specs.Global.{Vec as TheVec};
ghost use Rattle.std.specs.List.{filter_map};
ghost use Rattle.std.specs.Option.{option_copied, option_to_list};
ghost use Rattle.feature_expr.specs.Expressions.{and_of, not_of};
ghost use Rattle.plan_tables.specs.Tables.{any_of, cell_under, heading, laid_cells};
ghost use Rattle.plan_operators.specs.Operators.{ArePlaces, alike, excepted_table, is_sure, matched, matching, row_without, same_cell, sure_columns, with_alike, with_match};
ghost use Rattle.row_conditions.specs.Truths.{slots_of};
ghost use Rattle.row_places.specs.Places.{places_under};
ghost use Rattle.values.specs.declared.value.Value.{Value as TheValue};
ghost use Rattle.vtable.specs.TableForm.{same_cells};

use feature_expr::{Expr, and, is_same_expr, not, or};
use plan_tables::{any_of, is_same_column, is_true, laid_cells, put_copied};
use row_places::Places;
use std::alloc::Global;
use values::{List, Memory, TryCopy, Value};
use vtable::{VColumn, VRow, VTable};

/// The rows of the left side that the right one lacks: each in the variants in which no row of the right side with the
/// same cells is there, or the right side isn't. A row is compared with those alone that have its cells in the columns
/// that are there whenever the right side is.
pub fn excepted(alloc: Global, left: &VTable, right: &VTable) -> Result<VTable, Memory>
    ensures made { IfOk result (λ it. it ≡ excepted_table left.now right.now) }
{
    let columns = left.columns.copy(alloc)?;
    let there = any_of(alloc, right.columns.as_slice())?;
    let keys = sure_columns(alloc, &there, right.columns.as_slice())?;
    let places = places_of(
        alloc,
        keys.as_slice(),
        right.columns.as_slice(),
        right.rows.as_slice(),
    )?;
    let rows = rows_without(
        alloc,
        left.columns.as_slice(),
        &there,
        keys.as_slice(),
        &places,
        right,
        left.rows.as_slice(),
    )?;
    Ok(VTable { columns, rows })
}

/// The columns that are there whenever the side is.
fn sure_columns(alloc: Global, there: &Expr, columns: &[VColumn]) -> Result<List<VColumn>, Memory>
    ensures { IfOk result (λ it. it ≡ sure_columns there.now columns.now) }
{
    let mut out = Vec::new(alloc);
    for column in columns {
        put_sure(alloc, there, column, &mut out)?;
    }
    Ok(List::from_vec(out))
}

fn put_sure(
    alloc: Global,
    there: &Expr,
    column: &VColumn,
    out: &mut Vec<VColumn>,
) -> Result<(), Memory>
    ensures { OnOk result (out.new.items ≡ out.old.items ++ filter (is_sure there.now) (column.now ∷ [])) }
{
    if is_sure(there, column) {
        let column = column.copy(alloc)?;
        out.push(column)?;
    }
    Ok(())
}

fn is_sure(there: &Expr, column: &VColumn) -> bool
    ensures { result ≡ is_sure there.now column.now }
{
    is_true(&column.cond) || is_same_expr(&column.cond, there)
}

/// The places of the rows by their cells in some columns.
fn places_of(
    alloc: Global,
    keys: &[VColumn],
    columns: &[VColumn],
    rows: &[VRow],
) -> Result<Places, Memory>
    ensures { IfOk result (ArePlaces keys.now columns.now rows.now) }
{
    let mut places = Places::new(alloc);
    for place in 0..rows.len() {
        put_place(alloc, keys, columns, &rows[place], place, &mut places)?;
    }
    Ok(places)
}

fn put_place(
    alloc: Global,
    keys: &[VColumn],
    columns: &[VColumn],
    row: &VRow,
    place: usize,
    places: &mut Places,
) -> Result<(), Memory>
    ensures { OnOk result ((key : TheVec (Maybe TheValue)) → places_under key.items places.new ≡ (if same_cells (laid_cells keys.now (slots_of columns.now row.now.cells)) key.items then places_under key.items places.old ++ place ∷ [] else places_under key.items places.old)) }
{
    let key = laid_cells(alloc, keys, columns, row.cells.as_slice())?;
    places.add(alloc, key.into_vec(), place)?;
    Ok(())
}

fn rows_without(
    alloc: Global,
    columns: &[VColumn],
    there: &Expr,
    keys: &[VColumn],
    places: &Places,
    right: &VTable,
    rows: &[VRow],
) -> Result<List<VRow>, Memory>
    requires there { there.now ≡ any_of right.now.columns }
    requires keys { keys.now ≡ sure_columns (any_of right.now.columns) right.now.columns }
    requires places { ArePlaces keys.now right.now.columns right.now.rows places.now }
    ensures { IfOk result (λ it. it ≡ filter_map (row_without columns.now right.now) rows.now) }
{
    let mut out = Vec::new(alloc);
    for row in rows {
        put_without(alloc, columns, there, keys, places, right, row, &mut out)?;
    }
    Ok(List::from_vec(out))
}

fn put_without(
    alloc: Global,
    columns: &[VColumn],
    there: &Expr,
    keys: &[VColumn],
    places: &Places,
    right: &VTable,
    row: &VRow,
    out: &mut Vec<VRow>,
) -> Result<(), Memory>
    requires there { there.now ≡ any_of right.now.columns }
    requires keys { keys.now ≡ sure_columns (any_of right.now.columns) right.now.columns }
    requires places { ArePlaces keys.now right.now.columns right.now.rows places.now }
    ensures { OnOk result (out.new.items ≡ out.old.items ++ option_to_list (row_without columns.now right.now row.now)) }
{
    let found = matching(alloc, columns, row.cells.as_slice(), keys, places, right)?;
    let there = there.copy(alloc)?;
    let found = and(alloc, there, found)?;
    let lacked = not(alloc, found)?;
    let here = row.cond.copy(alloc)?;
    let cond = and(alloc, here, lacked)?;
    put_copied(alloc, &row.cells, cond, out)?;
    Ok(())
}

/// Where one of the rows is there and has the same cells.
fn matching(
    alloc: Global,
    columns: &[VColumn],
    cells: &[Option<Value>],
    keys: &[VColumn],
    places: &Places,
    right: &VTable,
) -> Result<Expr, Memory>
    requires keys { keys.now ≡ sure_columns (any_of right.now.columns) right.now.columns }
    requires places { ArePlaces keys.now right.now.columns right.now.rows places.now }
    ensures { IfOk result (λ it. it ≡ matching (slots_of columns.now cells.now) right.now) }
{
    let key = laid_cells(alloc, keys, columns, cells)?;
    let key = key.into_vec();
    let found = places.find(&key);
    let it = matched(alloc, columns, cells, right, found)?;
    Ok(it)
}

/// Where one of the rows at these places is there and has the same cells.
fn matched(
    alloc: Global,
    columns: &[VColumn],
    cells: &[Option<Value>],
    right: &VTable,
    places: &[usize],
) -> Result<Expr, Memory>
    ensures { IfOk result (λ it. it ≡ matched right.now.columns (slots_of columns.now cells.now) (filter_map (slice_get right.now.rows) places.now)) }
{
    let mut out = Expr::False;
    let mut places = places;
    while let Some((place, more)) = places.split_first() {
        let row = right.rows.as_slice().get(*place);
        out = with_match_of(alloc, out, columns, cells, right.columns.as_slice(), row)?;
        places = more;
    }
    Ok(out)
}

fn with_match_of(
    alloc: Global,
    out: Expr,
    columns: &[VColumn],
    cells: &[Option<Value>],
    others: &[VColumn],
    row: Option<&VRow>,
) -> Result<Expr, Memory>
    ensures { IfOk result (λ it. it ≡ fold (with_match others.now (slots_of columns.now cells.now)) out (option_to_list (option_copied row.entry))) }
{
    match row {
        Some(row) => with_match(alloc, out, columns, cells, others, row),
        None => Ok(out),
    }
}

fn with_match(
    alloc: Global,
    out: Expr,
    columns: &[VColumn],
    cells: &[Option<Value>],
    others: &[VColumn],
    row: &VRow,
) -> Result<Expr, Memory>
    ensures { IfOk result (λ it. it ≡ with_match others.now (slots_of columns.now cells.now) out row.now) }
{
    let same = alike(alloc, columns, cells, others, row.cells.as_slice())?;
    let here = row.cond.copy(alloc)?;
    let both = and(alloc, here, same)?;
    or(alloc, out, both)
}

/// Where two rows have the same cells, both sides having the same columns.
fn alike(
    alloc: Global,
    columns: &[VColumn],
    cells: &[Option<Value>],
    others: &[VColumn],
    values: &[Option<Value>],
) -> Result<Expr, Memory>
    ensures { IfOk result (λ it. it ≡ alike (slots_of columns.now cells.now) (slots_of others.now values.now)) }
{
    let mut out = Expr::True;
    let mut columns = columns;
    let mut cells = cells;
    while let Some((column, more)) = columns.split_first() {
        let Some((cell, rest)) = cells.split_first() else {
            return Ok(out);
        };
        if !has_cell(others, values, column, cell) {
            out = unless(alloc, out, &column.cond)?;
        }
        columns = more;
        cells = rest;
    }
    Ok(out)
}

/// Where the first holds and the second doesn't.
fn unless(alloc: Global, out: Expr, cond: &Expr) -> Result<Expr, Memory>
    ensures { IfOk result (λ it. it ≡ and_of out (not_of cond.now)) }
{
    let cond = cond.copy(alloc)?;
    let cond = not(alloc, cond)?;
    and(alloc, out, cond)
}

/// Whether the row has this cell in the column of this name and kind.
fn has_cell(
    columns: &[VColumn],
    cells: &[Option<Value>],
    key: &VColumn,
    wanted: &Option<Value>,
) -> bool
    ensures { result ≡ same_cell wanted.now (cell_under (slots_of columns.now cells.now) (heading key.now)) }
{
    let mut columns = columns;
    let mut cells = cells;
    while let Some((column, more)) = columns.split_first() {
        let Some((cell, rest)) = cells.split_first() else {
            return wanted.is_none();
        };
        if is_same_column(key, column) {
            return is_same_cell(wanted, cell);
        }
        columns = more;
        cells = rest;
    }
    wanted.is_none()
}

fn is_same_cell(one: &Option<Value>, other: &Option<Value>) -> bool
    ensures { result ≡ same_cell one.now other.now }
{
    one.cmp(other).is_eq()
}
