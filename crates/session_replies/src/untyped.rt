//! The errors of statements that have no type.

ghost use Rattle.std.specs.Prelude.{◌≡◌, ◌++◌, codes, IfOk, OnOk};
ghost use Rattle.session_replies.specs.AnswerMessages.{name_text};
ghost use Rattle.session_replies.specs.Replies.{error_with, fault, ill_fault, shown_variant};

use crate::answer::push_name;
use crate::replies::{numbered, refused};
use feature_expr::{ColName, Config, Features, Memory, push_variant};
use pg_messages::Back;
use query_meaning::{IllCase, IllTyped};
use std::alloc::Global;

/// The case, with the name and the variant that are shown for it.
pub(crate) fn ill_typed(alloc: Global, why: &IllTyped, features: &Features) -> Result<Back, Memory>
    ensures { IfOk result (λ it. it ≡ error_with (codes "ERROR") (ill_fault why.now.case (name_text why.now.name) (shown_variant features.now why.now.config))) }
{
    let name = &why.name;
    let config = why.config;
    match why.case {
        IllCase::NoTable => named(alloc, b"42P01", b"table ", name, b" is not known"),
        IllCase::NoColumn => named(alloc, b"42703", b"column ", name, b" is not known"),
        IllCase::AbsentColumn => {
            named_in(
                alloc,
                b"42P10",
                name,
                b" is absent in variant ",
                config,
                features,
            )
        }
        IllCase::Twice => named_in(
            alloc,
            b"42701",
            name,
            b" is there twice in variant ",
            config,
            features,
        ),
        IllCase::KindsDiffer => found_in(alloc, b"kinds differ in variant ", config, features),
        IllCase::ColumnsDiffer => found_in(alloc, b"columns differ in variant ", config, features),
        IllCase::ValueKind => {
            named(
                alloc,
                b"42804",
                b"value of column ",
                name,
                b" has another kind",
            )
        }
        IllCase::NamedTwice => named(alloc, b"42701", b"column ", name, b" is named twice"),
        IllCase::NoValue => named_in(
            alloc,
            b"23502",
            name,
            b" has no value in variant ",
            config,
            features,
        ),
        IllCase::ParamKind(number) => numbered(
            alloc,
            b"42P18",
            b"kind of parameter $",
            u64::from(number),
            b" is not known",
        ),
    }
}

/// An error in whose text a name stands.
fn named(
    alloc: Global,
    code: &[u8],
    before: &[u8],
    name: &ColName,
    after: &[u8],
) -> Result<Back, Memory>
    ensures { IfOk result (λ it. it ≡ error_with (codes "ERROR") (fault code.now (before.now ++ name_text name.now ++ after.now))) }
{
    let mut text = Vec::from_slice(alloc, before)?;
    push_name(name, &mut text)?;
    text.extend_from_slice(after)?;
    let message = refused(alloc, code, text.as_slice())?;
    Ok(message)
}

/// A column's error in a variant.
fn named_in(
    alloc: Global,
    code: &[u8],
    name: &ColName,
    after: &[u8],
    config: Option<Config>,
    features: &Features,
) -> Result<Back, Memory>
    ensures { IfOk result (λ it. it ≡ error_with (codes "ERROR") (fault code.now (codes "column " ++ name_text name.now ++ after.now ++ shown_variant features.now config))) }
{
    let mut text = Vec::from_slice(alloc, b"column ")?;
    push_name(name, &mut text)?;
    text.extend_from_slice(after)?;
    push_shown(&mut text, config, features)?;
    let message = refused(alloc, code, text.as_slice())?;
    Ok(message)
}

/// An error of kinds or of columns in a variant.
fn found_in(
    alloc: Global,
    before: &[u8],
    config: Option<Config>,
    features: &Features,
) -> Result<Back, Memory>
    ensures { IfOk result (λ it. it ≡ error_with (codes "ERROR") (fault (codes "42804") (before.now ++ shown_variant features.now config))) }
{
    let mut text = Vec::from_slice(alloc, before)?;
    push_shown(&mut text, config, features)?;
    let message = refused(alloc, b"42804", text.as_slice())?;
    Ok(message)
}

fn push_shown(text: &mut Vec<u8>, config: Option<Config>, features: &Features) -> Result<(), Memory>
    ensures { OnOk result (text.new.items ≡ text.old.items ++ shown_variant features.now config) }
{
    match &config {
        Some(config) => push_variant(text, features, config),
        None => Ok(()),
    }
}
