ghost use Rattle.std.specs.Prelude.{◌≡◌, ◌≤◌, ◌+◌, ◌*◌, ◌++◌, ◌∷◌, [], length, slice_get, if◌then◌else◌, IfOk, OnOk, Option as Maybe};
ghost use Rattle.std.specs.Global.{Vec as TheVec};
ghost use Rattle.std.specs.List.{filter_map, flat_map};
ghost use Rattle.std.specs.Option.{option_copied, option_to_list};
ghost use Rattle.key_links.specs.KeyLinks.{IsColumnLink, cell_at};
ghost use Rattle.plan_merges.specs.LinkedPairs.{AreAt, key_at};
ghost use Rattle.plan_merges.specs.Merges.{pair_meeting, pairs_of_row};
ghost use Rattle.row_places.specs.Places.{places_under};
ghost use Rattle.values.specs.declared.value.Value.{Value as TheValue};
ghost use Rattle.vtable.specs.TableForm.{same_cells};

use crate::join::put_pair;
use key_links::{ColumnLink, cell_at};
use row_places::Places;
use std::alloc::Global;
use std::sync::ledger::Ledger;
use steps::Steps;
use values::{List, Memory, Value};
use vra_syntax::Cond;
use vtable::{VColumn, VRow, VTable};

/// The pairs of rows of which the condition is true, where a link of it says which rows can be paired.
pub fn linked_pairs<L: Ledger>(
    alloc: Global,
    cond: &Cond,
    link: ColumnLink,
    columns: &[VColumn],
    right: &VTable,
    rows: &[VRow],
    steps: &mut Steps<L>,
) -> Result<List<VRow>, Memory>
    requires { IsColumnLink cond.now columns.now right.now.columns link }
    ensures made { IfOk result (λ it. it ≡ flat_map (pairs_of_row cond.now columns.now right.now) rows.now) }
    ensures steps { steps.new ≤ steps.old + length rows.now * length right.now.rows }
{
    let places = places_of(alloc, link.right, right.rows.as_slice())?;
    let mut out = Vec::new(alloc);
    for row in rows {
        put_linked(
            alloc, cond, link, columns, right, &places, row, &mut out, steps,
        )?;
    }
    Ok(List::from_vec(out))
}

/// The places of the rows by their cell at a place.
fn places_of(alloc: Global, at: usize, rows: &[VRow]) -> Result<Places, Memory>
    ensures { IfOk result (AreAt at rows.now) }
{
    let mut places = Places::new(alloc);
    for place in 0..rows.len() {
        put_place(alloc, at, &rows[place], place, &mut places)?;
    }
    Ok(places)
}

fn put_place(
    alloc: Global,
    at: usize,
    row: &VRow,
    place: usize,
    places: &mut Places,
) -> Result<(), Memory>
    ensures { OnOk result ((key : TheVec (Maybe TheValue)) → places_under key.items places.new ≡ (if same_cells (key_at at row.now) key.items then places_under key.items places.old ++ place ∷ [] else places_under key.items places.old)) }
{
    let key = key_of(alloc, at, row.cells.as_slice())?;
    places.add(alloc, key, place)?;
    Ok(())
}

/// The cell at a place, as a key.
fn key_of(alloc: Global, at: usize, cells: &[Option<Value>]) -> Result<Vec<Option<Value>>, Memory>
    ensures { IfOk result (λ it. it.items ≡ cell_at at cells.now ∷ []) }
{
    let cell = cell_at(alloc, at, cells)?;
    let mut key = Vec::with_capacity(alloc, 1)?;
    key.push(cell)?;
    Ok(key)
}

fn put_linked<L: Ledger>(
    alloc: Global,
    cond: &Cond,
    link: ColumnLink,
    columns: &[VColumn],
    right: &VTable,
    places: &Places,
    row: &VRow,
    out: &mut Vec<VRow>,
    steps: &mut Steps<L>,
) -> Result<(), Memory>
    requires link { IsColumnLink cond.now columns.now right.now.columns link }
    requires places { AreAt link.right right.now.rows places.now }
    ensures made { OnOk result (out.new.items ≡ out.old.items ++ pairs_of_row cond.now columns.now right.now row.now) }
    ensures steps { steps.new ≤ steps.old + length right.now.rows }
{
    let key = key_of(alloc, link.left, row.cells.as_slice())?;
    let found = places.find(&key);
    let others = right.columns.as_slice();
    let rows = right.rows.as_slice();
    put_pairs_at(alloc, cond, columns, others, rows, row, found, out, steps)?;
    Ok(())
}

/// The pairs with the rows at these places.
fn put_pairs_at<L: Ledger>(
    alloc: Global,
    cond: &Cond,
    columns: &[VColumn],
    others: &[VColumn],
    rows: &[VRow],
    row: &VRow,
    places: &[usize],
    out: &mut Vec<VRow>,
    steps: &mut Steps<L>,
) -> Result<(), Memory>
    ensures made { OnOk result (out.new.items ≡ out.old.items ++ filter_map (pair_meeting cond.now columns.now others.now row.now) (filter_map (slice_get rows.now) places.now)) }
    ensures steps { steps.new ≤ steps.old + length (filter_map (slice_get rows.now) places.now) }
{
    let mut places = places;
    while let Some((place, more)) = places.split_first() {
        let other = row_at(rows, *place);
        put_pair_of(alloc, cond, columns, others, row, other, out, steps)?;
        places = more;
    }
    Ok(())
}

fn row_at(rows: &[VRow], place: usize) -> Option<&VRow>
    ensures { option_copied result ≡ slice_get rows.now place }
{
    rows.get(place)
}

/// The pair with the row, if there is one.
fn put_pair_of<L: Ledger>(
    alloc: Global,
    cond: &Cond,
    columns: &[VColumn],
    others: &[VColumn],
    row: &VRow,
    other: Option<&VRow>,
    out: &mut Vec<VRow>,
    steps: &mut Steps<L>,
) -> Result<(), Memory>
    ensures made { OnOk result (out.new.items ≡ out.old.items ++ filter_map (pair_meeting cond.now columns.now others.now row.now) (option_to_list (option_copied other.entry))) }
    ensures steps { steps.new ≤ steps.old + length (option_to_list (option_copied other.entry)) }
{
    match other {
        Some(other) => put_pair(alloc, cond, columns, others, row, other, out, steps),
        None => Ok(()),
    }
}
