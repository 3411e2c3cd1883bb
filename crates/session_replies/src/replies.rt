//! The messages that a session sends, as values.

ghost use Rattle.std.specs.Prelude.{◌≡◌, ◌++◌, codes, decimal, IfOk};
ghost use Rattle.pg_messages.specs.declared.back.Back.TheVariants as back;
ghost use Rattle.session_replies.specs.Replies.{error_of, error_with, fault, field};
ghost use Rattle.session_replies.specs.Replies as told;

use crate::refusal::Refusal;
use crate::untyped::ill_typed;
use feature_expr::{Features, List, Memory, Name, Text};
use itoa::Buffer;
use pg_messages::{Back, ErrorField};
use query_meaning::TypeRefused;
use std::alloc::Global;

/// A parameter's value, told to the client.
pub fn parameter(alloc: Global, name: &[u8], value: &[u8]) -> Result<Back, Memory>
    ensures { IfOk result (λ it. it ≡ back.ParameterStatus name.now value.now) }
{
    let name = Text::from_slice(alloc, name)?;
    let value = Text::from_slice(alloc, value)?;
    Ok(Back::ParameterStatus(name, value))
}

/// The error of a refusal in whose text a name stands.
pub(crate) fn named_error(alloc: Global, why: &Refusal, features: &Features) -> Result<Back, Memory>
    ensures { IfOk result (λ it. it ≡ error_of features.now why.now) }
{
    match why {
        Refusal::Untyped(TypeRefused::Ill(why)) => ill_typed(alloc, why, features),
        Refusal::Conflict(table, place) => conflict(alloc, table, *place),
        // No other has a name in its text.
        _ => Err(Memory),
    }
}

/// A commit that wrote what a transaction read or wrote.
fn conflict(alloc: Global, table: &Name, place: u64) -> Result<Back, Memory>
    ensures { IfOk result (λ it. it ≡ error_with (codes "ERROR") (fault (codes "40001") (codes "table " ++ table.now ++ codes " was written by commit " ++ decimal place))) }
{
    let mut buffer = Buffer::new();
    let mut text = Vec::from_slice(alloc, b"table ")?;
    text.extend_from_slice(table.as_slice())?;
    text.extend_from_slice(b" was written by commit ")?;
    text.extend_from_slice(buffer.format(place).as_bytes())?;
    let message = refused(alloc, b"40001", text.as_slice())?;
    Ok(message)
}

/// An error in whose text a number stands.
pub(crate) fn numbered(
    alloc: Global,
    code: &[u8],
    before: &[u8],
    number: u64,
    after: &[u8],
) -> Result<Back, Memory>
    ensures { IfOk result (λ it. it ≡ error_with (codes "ERROR") (fault code.now (before.now ++ decimal number ++ after.now))) }
{
    let mut buffer = Buffer::new();
    let mut text = Vec::from_slice(alloc, before)?;
    text.extend_from_slice(buffer.format(number).as_bytes())?;
    text.extend_from_slice(after)?;
    let message = refused(alloc, code, text.as_slice())?;
    Ok(message)
}

pub(crate) fn refused(alloc: Global, code: &[u8], text: &[u8]) -> Result<Back, Memory>
    ensures { IfOk result (λ it. it ≡ error_with (codes "ERROR") (fault code.now text.now)) }
{
    let fields = error_fields(alloc, code, text)?;
    Ok(Back::ErrorResponse(List::from_vec(fields)))
}

/// What each error tells. The severity stands in it twice, once for clients that translate it.
fn error_fields(alloc: Global, code: &[u8], text: &[u8]) -> Result<Vec<ErrorField>, Memory>
    ensures { IfOk result (λ it. it.items ≡ told.fields (codes "ERROR") code.now text.now) }
{
    let mut fields = Vec::with_capacity(alloc, 4)?;
    fields.push(error_field(alloc, b'S', b"ERROR")?)?;
    fields.push(error_field(alloc, b'V', b"ERROR")?)?;
    fields.push(error_field(alloc, b'C', code)?)?;
    fields.push(error_field(alloc, b'M', text)?)?;
    Ok(fields)
}

fn error_field(alloc: Global, code: u8, text: &[u8]) -> Result<ErrorField, Memory>
    ensures { IfOk result (λ it. it ≡ field code text.now) }
{
    let text = Text::from_slice(alloc, text)?;
    Ok(ErrorField { code, text })
}
