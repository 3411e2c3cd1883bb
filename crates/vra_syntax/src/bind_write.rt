ghost use Rattle.std.specs.Prelude.{◌≡◌, IfOk};
ghost use Rattle.vra_syntax.specs.Binding.{bound_rows, bound_set_item, bound_set_items, bound_write};

use crate::bind_cond::bound_cond;
use crate::bind_operand::{bound_operand, bound_row};
use crate::cond::Operand;
use crate::write::{SetItem, Write};
use feature_expr::{List, Memory, TryCopy, Value};
use std::alloc::Global;

/// The write with each parameter that has a value replaced by it.
pub fn bound_write(alloc: Global, write: &Write, values: &[Value]) -> Result<Write, Memory>
    ensures { IfOk result (λ it. it ≡ bound_write values.now write.now) }
{
    match write {
        Write::Insert(table, columns, rows, expr) => {
            let table = table.copy(alloc)?;
            let columns = columns.copy(alloc)?;
            let rows = bound_rows(alloc, rows.as_slice(), values)?;
            let expr = expr.copy(alloc)?;
            Ok(Write::Insert(table, columns, rows, expr))
        }
        Write::Delete(table, cond, expr) => {
            let table = table.copy(alloc)?;
            let cond = bound_cond(alloc, cond, values)?;
            let expr = expr.copy(alloc)?;
            Ok(Write::Delete(table, cond, expr))
        }
        Write::Update(table, items, cond, expr) => {
            let table = table.copy(alloc)?;
            let items = bound_set_items(alloc, items.as_slice(), values)?;
            let cond = bound_cond(alloc, cond, values)?;
            let expr = expr.copy(alloc)?;
            Ok(Write::Update(table, items, cond, expr))
        }
    }
}

fn bound_rows(
    alloc: Global,
    rows: &[List<Operand>],
    values: &[Value],
) -> Result<List<List<Operand>>, Memory>
    ensures { IfOk result (λ it. it ≡ bound_rows values.now rows.now) }
{
    let mut bound = Vec::with_capacity(alloc, rows.len())?;
    for row in rows {
        let row = bound_row(alloc, row.as_slice(), values)?;
        bound.push(row)?;
    }
    Ok(List::from_vec(bound))
}

fn bound_set_items(
    alloc: Global,
    items: &[SetItem],
    values: &[Value],
) -> Result<List<SetItem>, Memory>
    ensures { IfOk result (λ it. it ≡ bound_set_items values.now items.now) }
{
    let mut bound = Vec::with_capacity(alloc, items.len())?;
    for item in items {
        let item = bound_set_item(alloc, item, values)?;
        bound.push(item)?;
    }
    Ok(List::from_vec(bound))
}

fn bound_set_item(alloc: Global, item: &SetItem, values: &[Value]) -> Result<SetItem, Memory>
    ensures { IfOk result (λ it. it ≡ bound_set_item values.now item.now) }
{
    let column = item.column.copy(alloc)?;
    let value = bound_operand(alloc, &item.value, values)?;
    Ok(SetItem { column, value })
}
