ghost use Rattle.std.specs.Prelude.{◌≡◌, ◌++◌, ◌∷◌, true, map, reverse, List as Items, Option, IfOk, IfSome, OnOk};
ghost use Rattle.feature_expr.specs.declared.expr.Expr.{Expr};
ghost use Rattle.vtable.specs.declared.decision.Fate.{Fate};
ghost use Rattle.vtable.specs.declared.table.VColumn.{VColumn};
ghost use Rattle.condition_sat.specs.Possible.{can_hold, can_meet};
ghost use Rattle.vtable.specs.Passes.{IsDecision, fate_of, cells_by, cell_by, row_staying};
ghost use Rattle.vtable.specs.TableForm.{has_cell};

use crate::table::{VColumn, VRow};
use condition_sat::{Model, holds_always, holds_somewhere, meet_somewhere};
use feature_expr::{Expr, List, Memory, TryCopy, Value, is_same_expr};
use std::alloc::Global;

/// What becomes of a row's cell in a column.
#[derive(Clone, Copy)]
pub enum Fate {
    Kept,
    /// The row and the column can't be there together.
    Blanked,
    /// The column doesn't stay.
    Dropped,
}

/// What was decided of the rows with one condition.
#[derive(Drop)]
pub struct Decision {
    pub cond: Expr,
    pub possible: bool,
    pub always: bool,
    pub fates: Vec<Fate>,
}

/// Decides of the rows with a condition. Where it can't hold no column is asked for, nor is one that is always there.
pub fn decide(
    alloc: Global,
    model: &Model,
    columns: &[Option<VColumn>],
    cond: &Expr,
) -> Result<Decision, Memory>
    ensures is { IfOk result (λ decision. IsDecision model.now columns.now decision) }
    ensures cond { IfOk result (λ decision. decision.cond ≡ cond.now) }
{
    let cond = cond.copy(alloc)?;
    let possible = holds_somewhere(model, &cond)?;
    let always = holds_always(model, &cond)?;
    let fates = fates_of(alloc, model, columns, &cond, possible)?;
    Ok(Decision {
        cond,
        possible,
        always,
        fates,
    })
}

fn fates_of(
    alloc: Global,
    model: &Model,
    columns: &[Option<VColumn>],
    cond: &Expr,
    possible: bool,
) -> Result<Vec<Fate>, Memory>
    requires { possible ≡ can_hold model.now cond.now }
    ensures { IfOk result (λ fates. possible ≡ true → fates.items ≡ map (fate_of model.now cond.now) columns.now) }
{
    let mut fates = Vec::new(alloc);
    if !possible {
        return Ok(fates);
    }
    for column in columns {
        let fate = fate_in(model, cond, column)?;
        fates.push(fate)?;
    }
    Ok(fates)
}

fn fate_in(model: &Model, cond: &Expr, column: &Option<VColumn>) -> Result<Fate, Memory>
    requires { can_hold model.now cond.now ≡ true }
    ensures { IfOk result (λ fate. fate ≡ fate_of model.now cond.now column.now) }
{
    match column {
        None => Ok(Fate::Dropped),
        Some(column) => {
            if meets_column(model, cond, &column.cond)? {
                Ok(Fate::Kept)
            } else {
                Ok(Fate::Blanked)
            }
        }
    }
}

fn meets_column(model: &Model, cond: &Expr, column: &Expr) -> Result<bool, Memory>
    requires { can_hold model.now cond.now ≡ true }
    ensures { IfOk result (λ meets. meets ≡ can_meet model.now cond.now column.now) }
{
    match column {
        Expr::True => Ok(true),
        _ => {
            let meets = meet_somewhere(model, cond, column)?;
            Ok(meets)
        }
    }
}

/// The decision of a row's condition: the last one where it is of the same condition, else a new one.
pub fn decision_for(
    alloc: Global,
    model: &Model,
    columns: &[Option<VColumn>],
    last: Option<Decision>,
    cond: &Expr,
) -> Result<Decision, Memory>
    requires { IfSome last (λ decision. IsDecision model.now columns.now decision) }
    ensures is { IfOk result (λ it. IsDecision model.now columns.now it) }
    ensures cond { IfOk result (λ it. it.cond ≡ cond.now) }
{
    match last {
        Some(decision) => {
            if is_same_expr(&decision.cond, cond) {
                Ok(decision)
            } else {
                decide(alloc, model, columns, cond)
            }
        }
        None => decide(alloc, model, columns, cond),
    }
}

/// A row cut to the columns that stay, or none where it doesn't stay.
pub fn cut_row(alloc: Global, decision: &Decision, row: VRow) -> Result<Option<VRow>, Memory>
    ensures { (model : Expr) (columns : Items (Option VColumn)) → IsDecision model columns decision.now → decision.now.cond ≡ row.cond → IfOk result (λ it. it ≡ row_staying model columns row) }
{
    let VRow { cells, cond } = row;
    if !decision.possible {
        return Ok(None);
    }
    let cells = cut_cells(alloc, &decision.fates, cells)?;
    if !has_cell_in(cells.as_slice()) {
        return Ok(None);
    }
    let cond = if decision.always { Expr::True } else { cond };
    Ok(Some(VRow { cells, cond }))
}

/// Whether a cell is there.
fn has_cell_in(cells: &[Option<Value>]) -> bool
    ensures { result ≡ has_cell cells.now }
{
    cells.iter().any(|cell| cell.is_some())
}

pub fn cut_cells(
    alloc: Global,
    fates: &[Fate],
    cells: List<Option<Value>>,
) -> Result<List<Option<Value>>, Memory>
    ensures { IfOk result (λ it. it ≡ cells_by fates.now cells) }
{
    let mut cells = cells.into_vec();
    cells.reverse();
    let mut cells = List::from_vec(cells);
    let mut cut = Vec::with_capacity(alloc, cells.len())?;
    for fate in fates {
        put_next(&mut cut, &mut cells, *fate)?;
    }
    Ok(List::from_vec(cut))
}

/// Puts the first of the cells that are left, which stand in reverse.
fn put_next(
    cut: &mut Vec<Option<Value>>,
    cells: &mut List<Option<Value>>,
    fate: Fate,
) -> Result<(), Memory>
    ensures { OnOk result ((fates : Items Fate) → cut.new.items ++ cells_by fates (reverse cells.new) ≡ cut.old.items ++ cells_by (fate ∷ fates) (reverse cells.old)) }
{
    match cells.pop() {
        Some(cell) => {
            put_cell(cut, fate, cell)?;
            Ok(())
        }
        None => Ok(()),
    }
}

fn put_cell(cut: &mut Vec<Option<Value>>, fate: Fate, cell: Option<Value>) -> Result<(), Memory>
    ensures { OnOk result (cut.new.items ≡ cut.old.items ++ cell_by fate cell) }
{
    match fate {
        Fate::Kept => cut.push(cell)?,
        Fate::Blanked => cut.push(None)?,
        Fate::Dropped => {}
    }
    Ok(())
}
