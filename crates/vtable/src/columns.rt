ghost use Rattle.std.specs.Prelude.{◌≡◌, ◌++◌, map, IfOk, OnOk};
ghost use Rattle.std.specs.Option.{option_to_list};
ghost use Rattle.std.specs.List.{filter_map};
ghost use Rattle.vtable.specs.TableForm.{column_staying};
ghost use Rattle.vtable.specs.Passes.{staying};

use crate::table::VColumn;
use condition_sat::{Model, holds_somewhere, settled_cond};
use feature_expr::{List, Memory};
use std::alloc::Global;

/// For each column what it is in table form, or none where it doesn't stay.
pub fn decided_columns(
    alloc: Global,
    model: &Model,
    columns: List<VColumn>,
) -> Result<Vec<Option<VColumn>>, Memory>
    ensures { IfOk result (λ decided. decided.items ≡ map (column_staying model.now) columns) }
{
    let mut decided = Vec::new(alloc);
    for column in columns.into_vec() {
        let column = decided_column(model, column)?;
        decided.push(column)?;
    }
    Ok(decided)
}

fn decided_column(model: &Model, column: VColumn) -> Result<Option<VColumn>, Memory>
    ensures { IfOk result (λ decided. decided ≡ column_staying model.now column) }
{
    if !holds_somewhere(model, &column.cond)? {
        return Ok(None);
    }
    let VColumn { name, kind, cond } = column;
    let cond = settled_cond(model, cond)?;
    Ok(Some(VColumn { name, kind, cond }))
}

/// The columns that stay.
#[tactic(auto, using(crate::proofs::PassLaws::staying_push))]
pub fn staying_columns(
    alloc: Global,
    decided: Vec<Option<VColumn>>,
) -> Result<List<VColumn>, Memory>
    ensures { IfOk result (λ columns. columns ≡ staying decided.items) }
{
    let mut columns = Vec::new(alloc);
    for column in decided {
        put_column(&mut columns, column)?;
    }
    Ok(List::from_vec(columns))
}

fn put_column(columns: &mut Vec<VColumn>, column: Option<VColumn>) -> Result<(), Memory>
    ensures { OnOk result (columns.new.items ≡ columns.old.items ++ option_to_list column) }
{
    match column {
        Some(column) => columns.push(column)?,
        None => {}
    }
    Ok(())
}
