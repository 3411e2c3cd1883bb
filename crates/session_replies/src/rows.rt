//! The rows of an answer, put as bytes: no message, and no text of a cell, is made for them.

ghost use Rattle.std.specs.Prelude.{◌≡◌, ◌≤◌, ◌++◌, map, min, Some, IfOk, IfSome, OnOk, OnErr};
ghost use Rattle.std.specs.Fmt.{signed_decimal};
ghost use Rattle.std.specs.List.{flat_map};
ghost use Rattle.message_shapes.specs.Shapes.{sized_bytes};
ghost use Rattle.pg_messages.specs.Back.{back_bytes};
ghost use Rattle.feature_expr.specs.Printing.{text_of};
ghost use Rattle.session_replies.specs.AnswerMessages.{cell_text, data_row, message_too_long, row_with, too_long, value_text};
ghost use Rattle.session_replies.specs.Output.{KeepsFront};
ghost use Rattle.session_replies.specs.Sends.{Sends};
ghost use Rattle.session_replies.specs.declared.output.TheConstants.{KEPT_ROOM};
ghost use Rattle.session_replies.specs.Replies.{spelled};

use crate::output::Output;
use crate::refusal::Refusal;
use feature_expr::{Expr, Features, Memory, Text, Value, is_same_expr, print_expr};
use itoa::Buffer;
use std::alloc::Global;
use vtable::VRow;

/// What is told for a cell that isn't there.
const NULL: u32 = u32::MAX;

/// Puts rows one behind the other, up to the first that is too long or for which no memory is found.
#[tactic(auto, using(crate::proofs::OutputLaws::begins_same, crate::proofs::OutputLaws::begins_as, crate::proofs::OutputLaws::begins_put, crate::proofs::OutputLaws::put_more, crate::proofs::LengthLaws::sends_more, crate::proofs::LengthLaws::sends_not))]
pub(crate) fn put_rows(
    alloc: Global,
    rows: &[VRow],
    features: &Features,
    output: &mut Output,
) -> Result<(), Refusal>
    ensures ok { OnOk result (output.new.bytes ≡ output.old.bytes ++ spelled (map (data_row features.now) rows.now)) }
    ensures sends { Sends (too_long (map (data_row features.now) rows.now)) result }
    ensures begins { KeepsFront output.old.bytes output.new.bytes }
    ensures room { min KEPT_ROOM output.old.spare ≤ output.new.spare }
{
    let mut cells = Vec::new(alloc);
    let mut text = Text::from_vec(Vec::new(alloc));
    let mut last = None;
    'rows: for row in rows {
        text = condition_text(alloc, &row.cond, features, last, text)?;
        put_row(row.cells.as_slice(), text.as_slice(), &mut cells, output)?;
        last = Some(&row.cond);
    }
    Ok(())
}

/// A condition's text, which may be that of the last row's.
fn condition_text(
    alloc: Global,
    cond: &Expr,
    features: &Features,
    last: Option<&Expr>,
    text: Text,
) -> Result<Text, Memory>
    requires { IfSome last (λ it. text ≡ text_of features.now it.now) }
    ensures { IfOk result (λ it. it ≡ text_of features.now cond.now) }
{
    match last {
        Some(last) if is_same_expr(last, cond) => Ok(text),
        _ => print_expr(alloc, cond, features),
    }
}

/// Puts a row, whose last cell is its condition. Its cells are made in `cells`, whatever stood there.
#[tactic(auto, using(crate::proofs::RowLaws::row_cells, crate::proofs::RowLaws::row_long))]
fn put_row(
    row: &[Option<Value>],
    condition: &[u8],
    cells: &mut Vec<u8>,
    output: &mut Output,
) -> Result<(), Refusal>
    ensures ok { OnOk result (output.new.bytes ≡ output.old.bytes ++ back_bytes (row_with row.now condition.now)) }
    ensures err { OnErr result (output.new.bytes ≡ output.old.bytes) }
    ensures sends { Sends (message_too_long (row_with row.now condition.now)) result }
    ensures room { min KEPT_ROOM output.old.spare ≤ output.new.spare }
{
    cells.clear();
    push_cells(row, cells)?;
    push_text(condition, cells)?;
    output.put_row(row.len().saturating_add(1), cells.as_slice())
}

fn push_cells(row: &[Option<Value>], cells: &mut Vec<u8>) -> Result<(), Memory>
    ensures { OnOk result (cells.new.items ≡ cells.old.items ++ flat_map sized_bytes (map cell_text row.now)) }
{
    'cells: for cell in row {
        push_cell(cell, cells)?;
    }
    Ok(())
}

#[tactic(auto, unfolding(message_shapes::specs::Shapes::sized_bytes))]
fn push_cell(cell: &Option<Value>, cells: &mut Vec<u8>) -> Result<(), Memory>
    ensures { OnOk result (cells.new.items ≡ cells.old.items ++ sized_bytes (cell_text cell.now)) }
{
    match cell {
        Some(value) => push_value(value, cells),
        None => {
            cells.extend_from_slice(&NULL.to_be_bytes())?;
            Ok(())
        }
    }
}

/// A value in text form, behind its length.
fn push_value(value: &Value, cells: &mut Vec<u8>) -> Result<(), Memory>
    ensures { OnOk result (cells.new.items ≡ cells.old.items ++ sized_bytes (Some (value_text value.now))) }
{
    match value {
        Value::Int(number) => push_number(*number, cells),
        Value::Text(text) => push_text(text.as_slice(), cells),
        Value::Bool(true) => push_text(b"t", cells),
        Value::Bool(false) => push_text(b"f", cells),
    }
}

fn push_number(number: i64, cells: &mut Vec<u8>) -> Result<(), Memory>
    ensures { OnOk result (cells.new.items ≡ cells.old.items ++ sized_bytes (Some (signed_decimal number))) }
{
    let mut buffer = Buffer::new();
    push_text(buffer.format(number).as_bytes(), cells)
}

/// A text behind its length. One whose length can't be told counts as want of memory.
#[tactic(auto, unfolding(message_shapes::specs::Shapes::sized_bytes))]
fn push_text(text: &[u8], cells: &mut Vec<u8>) -> Result<(), Memory>
    ensures { OnOk result (cells.new.items ≡ cells.old.items ++ sized_bytes (Some text.now)) }
{
    let Ok(length) = u32::try_from(text.len()) else {
        return Err(Memory);
    };
    cells.extend_from_slice(&length.to_be_bytes())?;
    cells.extend_from_slice(text)?;
    Ok(())
}
