ghost use Rattle.std.specs.Prelude.{◌≡◌, ◌≤◌, ◌+◌, ◌*◌, ◌++◌, length, IfOk, OnOk};
ghost use Rattle.std.specs.List.{filter_map, flat_map};
ghost use Rattle.std.specs.Option.{option_to_list};
ghost use Rattle.plan_merges.specs.Merges.{joined_table, pair_meeting, pairs_of_row, pairs_table};
ghost use Rattle.plan_tables.specs.Tables.{any_of, columns_under};

use crate::linked::linked_pairs;
use crate::merge::merged;
use feature_expr::and;
use key_links::column_link;
use plan_tables::{any_of, is_false, put_columns_under, put_under};
use row_conditions::{Part, pair_rows, truth_on};
use std::alloc::Global;
use std::sync::ledger::Ledger;
use steps::Steps;
use values::{List, Memory};
use vra_syntax::Cond;
use vtable::{VColumn, VRow, VTable};

/// The pairs of rows of which the condition is true. A pair is judged before it is formed; each pair that is formed is
/// a step.
pub fn joined<L: Ledger>(
    alloc: Global,
    cond: &Cond,
    left: &VTable,
    right: &VTable,
    steps: &mut Steps<L>,
) -> Result<VTable, Memory>
    ensures made { IfOk result (λ it. it ≡ joined_table cond.now left.now right.now) }
    ensures steps { steps.new ≤ steps.old + length left.now.rows * length right.now.rows }
{
    let columns = columns_of_both(alloc, left, right)?;
    let rows = pairs(
        alloc,
        cond,
        left.columns.as_slice(),
        right,
        left.rows.as_slice(),
        steps,
    )?;
    let wide = VTable { columns, rows };
    let table = merged(alloc, &wide)?;
    Ok(table)
}

/// The columns of each side where the other side is there.
fn columns_of_both(alloc: Global, left: &VTable, right: &VTable) -> Result<List<VColumn>, Memory>
    ensures { IfOk result (λ it. it ≡ columns_under (any_of right.now.columns) left.now.columns ++ columns_under (any_of left.now.columns) right.now.columns) }
{
    let left_there = any_of(alloc, left.columns.as_slice())?;
    let right_there = any_of(alloc, right.columns.as_slice())?;
    let mut out = Vec::new(alloc);
    put_columns_under(alloc, &right_there, left.columns.as_slice(), &mut out)?;
    put_columns_under(alloc, &left_there, right.columns.as_slice(), &mut out)?;
    Ok(List::from_vec(out))
}

/// Where the condition has a link between the sides, a row is paired with those alone that have its cell there.
fn pairs<L: Ledger>(
    alloc: Global,
    cond: &Cond,
    columns: &[VColumn],
    right: &VTable,
    rows: &[VRow],
    steps: &mut Steps<L>,
) -> Result<List<VRow>, Memory>
    ensures made { IfOk result (λ it. it ≡ flat_map (pairs_of_row cond.now columns.now right.now) rows.now) }
    ensures steps { steps.new ≤ steps.old + length rows.now * length right.now.rows }
{
    match column_link(cond, columns, right.columns.as_slice()) {
        Some(link) => linked_pairs(alloc, cond, link, columns, right, rows, steps),
        None => all_pairs(alloc, cond, columns, right, rows, steps),
    }
}

fn all_pairs<L: Ledger>(
    alloc: Global,
    cond: &Cond,
    columns: &[VColumn],
    right: &VTable,
    rows: &[VRow],
    steps: &mut Steps<L>,
) -> Result<List<VRow>, Memory>
    ensures made { IfOk result (λ it. it ≡ flat_map (pairs_of_row cond.now columns.now right.now) rows.now) }
    ensures steps { steps.new ≤ steps.old + length rows.now * length right.now.rows }
{
    let mut out = Vec::new(alloc);
    for row in rows {
        put_pairs(alloc, cond, columns, right, row, &mut out, steps)?;
    }
    Ok(List::from_vec(out))
}

fn put_pairs<L: Ledger>(
    alloc: Global,
    cond: &Cond,
    columns: &[VColumn],
    right: &VTable,
    row: &VRow,
    out: &mut Vec<VRow>,
    steps: &mut Steps<L>,
) -> Result<(), Memory>
    ensures made { OnOk result (out.new.items ≡ out.old.items ++ pairs_of_row cond.now columns.now right.now row.now) }
    ensures steps { steps.new ≤ steps.old + length right.now.rows }
{
    put_pairs_in(
        alloc,
        cond,
        columns,
        right.columns.as_slice(),
        right.rows.as_slice(),
        row,
        out,
        steps,
    )
}

fn put_pairs_in<L: Ledger>(
    alloc: Global,
    cond: &Cond,
    columns: &[VColumn],
    others: &[VColumn],
    rows: &[VRow],
    row: &VRow,
    out: &mut Vec<VRow>,
    steps: &mut Steps<L>,
) -> Result<(), Memory>
    ensures made { OnOk result (out.new.items ≡ out.old.items ++ filter_map (pair_meeting cond.now columns.now others.now row.now) rows.now) }
    ensures steps { steps.new ≤ steps.old + length rows.now }
{
    for other in rows {
        put_pair(alloc, cond, columns, others, row, other, out, steps)?;
    }
    Ok(())
}

pub fn put_pair<L: Ledger>(
    alloc: Global,
    cond: &Cond,
    columns: &[VColumn],
    others: &[VColumn],
    row: &VRow,
    other: &VRow,
    out: &mut Vec<VRow>,
    steps: &mut Steps<L>,
) -> Result<(), Memory>
    ensures made { OnOk result (out.new.items ≡ out.old.items ++ option_to_list (pair_meeting cond.now columns.now others.now row.now other.now)) }
    ensures steps { steps.new ≤ steps.old + 1 }
{
    let left = Part {
        columns,
        cells: row.cells.as_slice(),
    };
    let right = Part {
        columns: others,
        cells: other.cells.as_slice(),
    };
    let truth = truth_on(alloc, cond, left, right)?;
    if is_false(&truth) {
        return Ok(());
    }
    let VRow { cells, cond } = pair_rows(alloc, row, other, steps)?;
    let cond = and(alloc, cond, truth)?;
    put_under(cells, cond, out)?;
    Ok(())
}
