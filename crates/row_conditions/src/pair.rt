ghost use Rattle.std.specs.Prelude.{◌≡◌, ◌+◌, ◌++◌, IfOk, OnOk};
ghost use Rattle.feature_expr.specs.Expressions.{and_of};
ghost use Rattle.row_conditions.specs.RowConditions.{IsPair};

use feature_expr::and;
use std::alloc::Global;
use std::sync::ledger::Ledger;
use steps::Steps;
use values::{List, Memory, TryCopy, Value};
use vtable::VRow;

/// The two rows as one, in the variants in which both are there. Each call is a step, whatever it answers.
#[tactic(auto, using(crate::proofs::TruthOn::pair_is))]
pub fn pair_rows<L: Ledger>(
    alloc: Global,
    left: &VRow,
    right: &VRow,
    steps: &mut Steps<L>,
) -> Result<VRow, Memory>
    ensures pair { IfOk result (λ pair. IsPair left.now right.now pair) }
    ensures folded { IfOk result (λ pair. pair.cond ≡ and_of left.now.cond right.now.cond) }
    ensures steps { steps.new ≡ steps.old + 1 }
{
    steps.tick();
    let mut cells = Vec::with_capacity(alloc, left.cells.len())?;
    put_cells(alloc, &mut cells, left.cells.as_slice())?;
    put_cells(alloc, &mut cells, right.cells.as_slice())?;
    let left_cond = left.cond.copy(alloc)?;
    let right_cond = right.cond.copy(alloc)?;
    let cond = and(alloc, left_cond, right_cond)?;
    let cells = List::from_vec(cells);
    Ok(VRow { cells, cond })
}

/// Adds copies of the cells.
fn put_cells(
    alloc: Global,
    out: &mut Vec<Option<Value>>,
    cells: &[Option<Value>],
) -> Result<(), Memory>
    ensures { OnOk result (out.new.items ≡ out.old.items ++ cells.now) }
{
    for cell in cells {
        let cell = cell.copy(alloc)?;
        out.push(cell)?;
    }
    Ok(())
}
