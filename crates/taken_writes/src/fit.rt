//! What a text of a statement can't spell, but a log may hold.
ghost use Rattle.std.specs.Prelude.{◌≡◌, ◌==◌, ◌&&◌, length, List as Items};
ghost use Rattle.std.specs.List.{list_all};
ghost use Rattle.taken_writes.specs.Without.{item_without, row_without};
ghost use Rattle.vra_syntax.specs.Parameters.{param_in_write};
ghost use Rattle.vra_syntax.specs.declared.cond.Operand.{Operand as OneOperand};
ghost use Rattle.write_meaning.specs.TakenWrites.{values_fit, write_below};

use crate::below::{is_cond_fit, is_expr_below, is_no_param};
use values::List;
use vra_syntax::{Operand, SetItem, Write};

/// Whether a write holds no parameter, has only features below the count, and lists of values as long as its names.
#[tactic(auto, using(crate::proofs::WriteLaws::insert_rest, crate::proofs::WriteLaws::delete_fits, crate::proofs::WriteLaws::update_rest))]
pub fn is_fit(count: u8, write: &Write) -> bool
    ensures { result ≡ (param_in_write write.now == 0 && write_below count write.now && values_fit write.now) }
{
    match write {
        Write::Insert(_table, names, rows, expr) => {
            let rows = rows.as_slice();
            is_expr_below(count, expr) && have_length(names.len(), rows) && are_rows_without(rows)
        }
        Write::Delete(_table, cond, expr) => {
            is_expr_below(count, expr) && is_cond_fit(count, cond)
        }
        Write::Update(_table, items, cond, expr) => {
            is_expr_below(count, expr)
                && is_cond_fit(count, cond)
                && are_items_without(items.as_slice())
        }
    }
}

fn have_length(count: usize, rows: &[List<Operand>]) -> bool
    ensures { result ≡ list_all (λ (row : Items OneOperand). length row == count) rows.now }
{
    rows.iter().all(|row| has_length(count, row))
}

fn has_length(count: usize, row: &List<Operand>) -> bool
    ensures { result ≡ (length row.now == count) }
{
    row.len() == count
}

/// Whether the rows hold no parameter.
fn are_rows_without(rows: &[List<Operand>]) -> bool
    ensures { result ≡ list_all row_without rows.now }
{
    rows.iter().all(|row| is_row_without(row.as_slice()))
}

fn is_row_without(row: &[Operand]) -> bool
    ensures { result ≡ row_without row.now }
{
    row.iter().all(|operand| is_no_param(operand))
}

fn are_items_without(items: &[SetItem]) -> bool
    ensures { result ≡ list_all item_without items.now }
{
    items.iter().all(|item| is_item_without(item))
}

fn is_item_without(item: &SetItem) -> bool
    ensures { result ≡ item_without item.now }
{
    is_no_param(&item.value)
}
