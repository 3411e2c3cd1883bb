ghost use Rattle.std.specs.Prelude.{◌≡◌, ◌++◌, IfOk};
ghost use Rattle.feature_expr.specs.Expressions.{not_of};
ghost use Rattle.plan_operators.specs.Operators.{chosen_table};
ghost use Rattle.plan_tables.specs.Tables.{columns_under, settled};

use feature_expr::{Expr, not};
use plan_tables::{put_columns_under, put_moved, settled};
use std::alloc::Global;
use values::{List, Memory, TryCopy};
use vtable::{VColumn, VTable};

/// The left side where the expression holds, else the right one. A side whose columns are in the answer's order is moved.
#[tactic(auto, using(plan_tables::proofs::SettleLaws::settled_once))]
pub fn chosen(alloc: Global, expr: &Expr, left: VTable, right: VTable) -> Result<VTable, Memory>
    ensures made { IfOk result (λ it. it ≡ chosen_table expr.now left right) }
{
    let otherwise = expr.copy(alloc)?;
    let otherwise = not(alloc, otherwise)?;
    let columns = columns_of_sides(alloc, expr, &otherwise, &left, &right)?;
    let to = columns.as_slice();
    let mut rows = Vec::new(alloc);
    put_moved(alloc, to, left, expr, &mut rows)?;
    put_moved(alloc, to, right, &otherwise, &mut rows)?;
    let rows = List::from_vec(rows);
    Ok(VTable { columns, rows })
}

fn columns_of_sides(
    alloc: Global,
    expr: &Expr,
    otherwise: &Expr,
    left: &VTable,
    right: &VTable,
) -> Result<List<VColumn>, Memory>
    ensures { IfOk result (λ it. it ≡ settled (columns_under expr.now left.now.columns ++ columns_under otherwise.now right.now.columns)) }
{
    let mut all = Vec::new(alloc);
    put_columns_under(alloc, expr, left.columns.as_slice(), &mut all)?;
    put_columns_under(alloc, otherwise, right.columns.as_slice(), &mut all)?;
    let columns = settled(alloc, all.as_slice())?;
    Ok(columns)
}
