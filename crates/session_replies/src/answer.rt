//! How an answer is spelled: its columns, and each of its rows under its condition.

ghost use Rattle.std.specs.Prelude.{◌≡◌, ◌≤◌, ◌++◌, min, IfOk, OnOk, OnErr};
ghost use Rattle.session_replies.specs.AnswerMessages.{answer_messages, answer_too_long, name_text, when_text, field_of, select_tag};
ghost use Rattle.session_replies.specs.AnswerMessages as spelling;
ghost use Rattle.session_replies.specs.Output.{KeepsFront};
ghost use Rattle.session_replies.specs.Replies.{spelled};
ghost use Rattle.session_replies.specs.Sends.{Sends};
ghost use Rattle.session_replies.specs.declared.output.TheConstants.{KEPT_ROOM};

use crate::output::Output;
use crate::refusal::Refusal;
use crate::rows::put_rows;
use feature_expr::{ColName, Expr, Features, Kind, List, Memory, Text, print_expr};
use itoa::Buffer;
use pg_messages::{Back, Field};
use query_meaning::TypedColumn;
use std::alloc::Global;
use vtable::VTable;

/// Puts the description of an answer and its rows, all of them or none.
pub fn put_answer(
    alloc: Global,
    columns: &[TypedColumn],
    answer: &VTable,
    features: &Features,
    output: &mut Output,
) -> Result<(), Refusal>
    ensures ok { OnOk result (output.new.bytes ≡ output.old.bytes ++ spelled (answer_messages features.now columns.now answer.now)) }
    ensures sends { Sends (answer_too_long features.now columns.now answer.now) result }
    ensures err { OnErr result (output.new.bytes ≡ output.old.bytes) }
    ensures room { min KEPT_ROOM output.old.spare ≤ output.new.spare }
{
    let before = output.len();
    let put = put_messages(alloc, columns, answer, features, output);
    if put.is_err() {
        output.truncate(before);
    }
    put
}

/// That a row is too long is told before that the description is.
#[tactic(auto, using(crate::proofs::OutputLaws::begins_same, crate::proofs::OutputLaws::begins_as, crate::proofs::OutputLaws::begins_put, crate::proofs::OutputLaws::put_more, crate::proofs::LengthLaws::rows_first, crate::proofs::LengthLaws::then_described))]
fn put_messages(
    alloc: Global,
    columns: &[TypedColumn],
    answer: &VTable,
    features: &Features,
    output: &mut Output,
) -> Result<(), Refusal>
    ensures ok { OnOk result (output.new.bytes ≡ output.old.bytes ++ spelled (answer_messages features.now columns.now answer.now)) }
    ensures sends { Sends (answer_too_long features.now columns.now answer.now) result }
    ensures begins { KeepsFront output.old.bytes output.new.bytes }
    ensures room { min KEPT_ROOM output.old.spare ≤ output.new.spare }
{
    let description = describe(alloc, columns, features)?;
    let described = output.put_or_refuse(&description);
    put_rows(alloc, answer.rows.as_slice(), features, output)?;
    described
}

/// A field for each column, and last the field `when`, which holds each row's condition.
fn describe(alloc: Global, columns: &[TypedColumn], features: &Features) -> Result<Back, Memory>
    ensures { IfOk result (λ it. it ≡ spelling.description features.now columns.now) }
{
    let mut fields = Vec::with_capacity(alloc, columns.len())?;
    'columns: for column in columns {
        let name = field_name(alloc, column, features)?;
        fields.push(field(name, column.kind))?;
    }
    fields.push(field(Text::from_slice(alloc, b"when")?, Kind::Text))?;
    Ok(Back::RowDescription(List::from_vec(fields)))
}

/// A column's name, and its condition where it isn't always there.
fn field_name(alloc: Global, column: &TypedColumn, features: &Features) -> Result<Text, Memory>
    ensures { IfOk result (λ it. it ≡ name_text column.now.name ++ when_text features.now column.now.cond) }
{
    let mut text = Vec::new(alloc);
    push_name(&column.name, &mut text)?;
    push_when(alloc, &column.cond, features, &mut text)?;
    Ok(Text::from_vec(text))
}

/// A column's name, behind its prefix and a point where it has one.
pub(crate) fn push_name(name: &ColName, text: &mut Vec<u8>) -> Result<(), Memory>
    ensures { OnOk result (text.new.items ≡ text.old.items ++ name_text name.now) }
{
    if let Some(prefix) = &name.prefix {
        text.extend_from_slice(prefix.as_slice())?;
        text.push(b'.')?;
    }
    text.extend_from_slice(name.base.as_slice())?;
    Ok(())
}

fn push_when(
    alloc: Global,
    cond: &Expr,
    features: &Features,
    text: &mut Vec<u8>,
) -> Result<(), Memory>
    ensures { OnOk result (text.new.items ≡ text.old.items ++ when_text features.now cond.now) }
{
    if matches!(cond, Expr::True) {
        return Ok(());
    }
    let printed = print_expr(alloc, cond, features)?;
    text.extend_from_slice(b" when ")?;
    text.extend_from_slice(printed.as_slice())?;
    Ok(())
}

/// A field in text form, with the type number and the size that PostgreSQL's catalogue gives its kind.
fn field(name: Text, kind: Kind) -> Field
    ensures { result ≡ field_of name kind }
{
    match kind {
        Kind::Bool => sized_field(name, 16, 1),
        Kind::Int => sized_field(name, 20, 8),
        Kind::Text => sized_field(name, 25, -1),
    }
}

fn sized_field(name: Text, kind_number: u32, size: i16) -> Field
    ensures { result ≡ record { name = name; kind_number = kind_number; size = size; format = 0 } }
{
    Field {
        name,
        kind_number,
        size,
        format: 0,
    }
}

/// The message that ends an answer: how many rows it has.
pub fn select_complete(alloc: Global, count: usize) -> Result<Back, Memory>
    ensures { IfOk result (λ it. it ≡ spelling.select_complete count) }
{
    let tag = select_tag(alloc, count)?;
    Ok(Back::CommandComplete(tag))
}

fn select_tag(alloc: Global, count: usize) -> Result<Text, Memory>
    ensures { IfOk result (λ it. it ≡ select_tag count) }
{
    let mut buffer = Buffer::new();
    let mut tag = Vec::from_slice(alloc, b"SELECT ")?;
    tag.extend_from_slice(buffer.format(count).as_bytes())?;
    Ok(Text::from_vec(tag))
}
