//! What is told of the refusals whose text holds no name: such an error can be put without memory.

ghost use Rattle.std.specs.Prelude.{◌≡◌, length, true, MatchOption, codes, Some, None};
ghost use Rattle.session_replies.specs.Errors.{has_name, names_type};
ghost use Rattle.session_replies.specs.Pieces.{IsNumbered, IsPlain, IsPlaced, IsPlainly};
ghost use Rattle.session_replies.specs.declared.refusal.Refusal.TheVariants as refusal;

use crate::refusal::Refusal;
use query_meaning::{IllCase, TypeRefused};
use query_parser::ParseRefused;

/// An error whose text has at most a number in it.
#[derive(Clone, Copy)]
pub(crate) struct Plain {
    pub(crate) severity: &'static [u8],
    /// The SQLSTATE.
    pub(crate) code: &'static [u8],
    pub(crate) before: &'static [u8],
    pub(crate) number: Option<u64>,
    pub(crate) after: &'static [u8],
    /// The place in a text, the number of a character counted from 1.
    pub(crate) place: Option<u64>,
}

/// What is told of a refusal, where its text holds no name. The codes are of the PostgreSQL manual's appendix on error
/// codes.
pub(crate) fn plain_of(why: &Refusal) -> Option<Plain>
    ensures { MatchOption result (has_name why.now ≡ true) (IsPlain why.now) }
{
    match why {
        Refusal::NotBuilt => Some(fatal(b"0A000", b"not built yet")),
        Refusal::NotUtf8 => Some(simple(b"22021", b"text is not UTF-8")),
        Refusal::Unparsed(why) => Some(unparsed(*why)),
        Refusal::Untyped(why) => untyped(why),
        Refusal::TooLong(length) => Some(numbered(
            b"54000",
            b"reply of ",
            *length,
            b" bytes is too long",
        )),
        Refusal::OutOfMemory => Some(out_of_memory()),
        Refusal::TransactionFailed => Some(simple(b"25P02", b"transaction has failed")),
        Refusal::KeeperFault => Some(simple(b"58030", b"keeper failed")),
        Refusal::Conflict(_, _) => None,
        Refusal::CameFirst(place) => {
            Some(numbered(b"40001", b"commit ", *place, b" came first"))
        }
        Refusal::LogFull(number) => {
            Some(numbered(b"54000", b"the log holds ", *number, b" commits"))
        }
    }
}

fn unparsed(why: ParseRefused) -> Plain
    ensures { IsPlain (refusal.Unparsed why) result }
{
    match why {
        ParseRefused::Syntax(place) => placed(b"42601", b"syntax error", place),
        ParseRefused::UnknownFeature(place) => placed(b"42704", b"feature is not known", place),
        ParseRefused::IntTooLarge(place) => placed(b"22003", b"integer is out of range", place),
        ParseRefused::TooDeep(place) => placed(b"54001", b"nesting is deeper than 64", place),
        ParseRefused::TooManyParams(place) => {
            placed(b"54000", b"parameter number is above 1024", place)
        }
        ParseRefused::NoParam(place) => {
            placed(b"42P02", b"parameters need a prepared statement", place)
        }
        ParseRefused::Memory => out_of_memory(),
    }
}

fn untyped(why: &TypeRefused) -> Option<Plain>
    ensures { MatchOption result (names_type why.now ≡ true) (IsPlain (refusal.Untyped why.now)) }
{
    match why {
        TypeRefused::Ill(why) => match why.case {
            IllCase::ParamKind(number) => Some(numbered(
                b"42P18",
                b"kind of parameter $",
                u64::from(number),
                b" is not known",
            )),
            _ => None,
        },
        TypeRefused::TooWide(count) => {
            Some(numbered(b"54000", b"query has ", *count, b" columns"))
        }
        TypeRefused::Memory => Some(out_of_memory()),
    }
}

fn out_of_memory() -> Plain
    ensures { IsPlainly (codes "ERROR") (codes "53200") (codes "out of memory") result }
{
    simple(b"53200", b"out of memory")
}

fn simple(code: &'static [u8], text: &'static [u8]) -> Plain
    ensures { IsPlainly (codes "ERROR") code.now text.now result }
{
    Plain {
        severity: b"ERROR",
        code,
        before: text,
        number: None,
        after: b"",
        place: None,
    }
}

fn fatal(code: &'static [u8], text: &'static [u8]) -> Plain
    ensures { IsPlainly (codes "FATAL") code.now text.now result }
{
    Plain {
        severity: b"FATAL",
        code,
        before: text,
        number: None,
        after: b"",
        place: None,
    }
}

/// An error in whose text a number stands.
fn numbered(code: &'static [u8], before: &'static [u8], number: u64, after: &'static [u8]) -> Plain
    ensures { IsNumbered code.now before.now number after.now result }
{
    Plain {
        severity: b"ERROR",
        code,
        before,
        number: Some(number),
        after,
        place: None,
    }
}

/// An error at a place in a text.
fn placed(code: &'static [u8], text: &'static [u8], place: u64) -> Plain
    ensures { IsPlaced code.now text.now place result }
{
    Plain {
        severity: b"ERROR",
        code,
        before: text,
        number: None,
        after: b"",
        place: Some(place),
    }
}
