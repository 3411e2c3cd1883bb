ghost use Rattle.std.specs.Prelude.{◌≡◌, ◌++◌, true, IfOk, OnOk};
ghost use Rattle.plan_operators.specs.Operators.{united_table};
ghost use Rattle.plan_tables.specs.Tables.{any_of, headings, once_each, rows_laid, settled};

use plan_tables::{any_of, put_columns, put_moved, settled};
use std::alloc::Global;
use values::{List, Memory};
use vtable::{VColumn, VRow, VTable};

/// The rows of either side, each in the variants in which its side is there. A side whose columns are in the answer's order
/// is moved.
#[tactic(auto, using(plan_tables::proofs::SettleLaws::settled_once))]
pub fn united(alloc: Global, left: VTable, right: VTable) -> Result<VTable, Memory>
    ensures made { IfOk result (λ it. it ≡ united_table left right) }
{
    let columns = columns_of_both(alloc, left.columns.as_slice(), right.columns.as_slice())?;
    let mut rows = Vec::new(alloc);
    put_side(alloc, columns.as_slice(), left, &mut rows)?;
    put_side(alloc, columns.as_slice(), right, &mut rows)?;
    let rows = List::from_vec(rows);
    Ok(VTable { columns, rows })
}

fn columns_of_both(
    alloc: Global,
    left: &[VColumn],
    right: &[VColumn],
) -> Result<List<VColumn>, Memory>
    ensures { IfOk result (λ it. it ≡ settled (left.now ++ right.now)) }
{
    let mut all = Vec::new(alloc);
    put_columns(alloc, left, &mut all)?;
    put_columns(alloc, right, &mut all)?;
    let columns = settled(alloc, all.as_slice())?;
    Ok(columns)
}

fn put_side(alloc: Global, to: &[VColumn], side: VTable, rows: &mut Vec<VRow>) -> Result<(), Memory>
    requires { once_each (headings to.now) ≡ true }
    ensures { OnOk result (rows.new.items ≡ rows.old.items ++ rows_laid to.now side.columns (any_of side.columns) side.rows) }
{
    let there = any_of(alloc, side.columns.as_slice())?;
    put_moved(alloc, to, side, &there, rows)
}
