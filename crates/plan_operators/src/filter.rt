ghost use Rattle.std.specs.Prelude.{◌≡◌, ◌++◌, IfOk, OnOk};
ghost use Rattle.std.specs.Option.{option_to_list};
ghost use Rattle.key_links.specs.KeyLinks.{AreNeeded};
ghost use Rattle.plan_operators.specs.Operators.{filtered_table, row_meeting, rows_meeting};

use feature_expr::and;
use key_links::{ValueLink, meets_links, value_links};
use plan_tables::{is_false, put_copied};
use row_conditions::row_truth;
use std::alloc::Global;
use values::{List, Memory, TryCopy};
use vra_syntax::Cond;
use vtable::{VColumn, VRow, VTable};

/// The rows of which the condition is true. A row is judged before any of it is copied.
pub fn filtered(alloc: Global, cond: &Cond, table: &VTable) -> Result<VTable, Memory>
    ensures made { IfOk result (λ it. it ≡ filtered_table cond.now table.now) }
{
    let columns = table.columns.copy(alloc)?;
    let rows = rows_meeting(alloc, cond, table.columns.as_slice(), table.rows.as_slice())?;
    Ok(VTable { columns, rows })
}

fn rows_meeting(
    alloc: Global,
    cond: &Cond,
    columns: &[VColumn],
    rows: &[VRow],
) -> Result<List<VRow>, Memory>
    ensures { IfOk result (λ it. it ≡ rows_meeting cond.now columns.now rows.now) }
{
    let links = value_links(alloc, cond, columns)?;
    let mut out = Vec::new(alloc);
    for row in rows {
        put_linked(alloc, cond, columns, &links, row, &mut out)?;
    }
    Ok(List::from_vec(out))
}

/// A row that doesn't meet the links is passed by before anything is made for it.
#[tactic(auto, using(crate::proofs::CodeLaws::row_unlinked))]
fn put_linked(
    alloc: Global,
    cond: &Cond,
    columns: &[VColumn],
    links: &[ValueLink],
    row: &VRow,
    out: &mut Vec<VRow>,
) -> Result<(), Memory>
    requires { AreNeeded cond.now columns.now links.now }
    ensures { OnOk result (out.new.items ≡ out.old.items ++ option_to_list (row_meeting cond.now columns.now row.now)) }
{
    if meets_links(links, row.cells.as_slice()) {
        put_meeting(alloc, cond, columns, row, out)
    } else {
        Ok(())
    }
}

fn put_meeting(
    alloc: Global,
    cond: &Cond,
    columns: &[VColumn],
    row: &VRow,
    out: &mut Vec<VRow>,
) -> Result<(), Memory>
    ensures { OnOk result (out.new.items ≡ out.old.items ++ option_to_list (row_meeting cond.now columns.now row.now)) }
{
    let truth = row_truth(alloc, cond, columns, row.cells.as_slice())?;
    if is_false(&truth) {
        return Ok(());
    }
    let here = row.cond.copy(alloc)?;
    let both = and(alloc, here, truth)?;
    put_copied(alloc, &row.cells, both, out)?;
    Ok(())
}
