//! Messages as texts.

use feature_expr::Text;
use pg_messages::{Back, Decoded, Status, decode_back};
use std::alloc::Global;
use std::str;
use std::test::Fail;

/// What is told behind the first ReadyForQuery.
pub fn behind_start(alloc: Global, reply: &[u8]) -> Result<&[u8], Fail> {
    let mut rest = reply;
    for _ in 0..100 {
        let Decoded::Whole(back, count) = decode_back(alloc, rest) else {
            break;
        };
        rest = rest.get(count..).ok_or("a message")?;
        if matches!(&back, Back::ReadyForQuery(_)) {
            return Ok(rest);
        }
    }
    Err("no ReadyForQuery")?
}

/// Each message's texts, with a comma between two, and a semicolon. Of ReadyForQuery the letter is told where it isn't `I`.
pub fn texts_told(alloc: Global, messages: &[u8]) -> Result<String, Fail> {
    let mut text = String::new(alloc);
    let mut rest = messages;
    for _ in 0..100 {
        let Decoded::Whole(back, count) = decode_back(alloc, rest) else {
            return Ok(text);
        };
        push_texts(&mut text, &back)?;
        rest = rest.get(count..).ok_or("a message")?;
    }
    Ok(text)
}

fn push_texts(text: &mut String, back: &Back) -> Result<(), Fail> {
    match back {
        Back::ParameterStatus(name, value) => {
            push_text(text, name)?;
            push_text(text, value)?;
        }
        Back::RowDescription(fields) => {
            for field in fields.as_slice() {
                push_text(text, &field.name)?;
            }
        }
        Back::DataRow(cells) => {
            for cell in cells.as_slice() {
                push_cell_text(text, cell)?;
            }
        }
        Back::CommandComplete(tag) => push_text(text, tag)?,
        Back::ErrorResponse(fields) => {
            for field in fields.as_slice() {
                push_text(text, &field.text)?;
            }
        }
        Back::EmptyQueryResponse => text.push_str("empty, ")?,
        Back::ReadyForQuery(status) => text.push_str(readiness(*status))?,
        _ => {}
    }
    let end = text.len().saturating_sub(2);
    if text.is_char_boundary(end) {
        text.truncate(end);
    }
    text.push_str("; ")?;
    Ok(())
}

fn push_cell_text(text: &mut String, cell: &Option<Text>) -> Result<(), Fail> {
    match cell {
        Some(cell) => push_text(text, cell),
        None => {
            text.push_str("-, ")?;
            Ok(())
        }
    }
}

fn push_text(text: &mut String, more: &Text) -> Result<(), Fail> {
    text.push_str(str::from_utf8(more.as_slice())?)?;
    text.push_str(", ")?;
    Ok(())
}

fn readiness(status: Status) -> &'static str {
    match status {
        Status::Idle => "ready, ",
        Status::InBlock => "ready T, ",
        Status::Failed => "ready E, ",
    }
}
