ghost use Rattle.std.specs.Prelude.{◌≡◌, IfOk};
ghost use Rattle.top_calls.specs.Exits.{status_of, line_of, plain_line_of, catalogue_line, place_line};

use crate::check_line::line_of_unpassed;
use feature_expr::{Memory, Text};
use itoa::Buffer;
use std::alloc::Global;
use vra_types::CheckRefused;
use vschema::{Catalog, CatalogRefused};

/// Why a catalogue isn't taken. Neither refusal is want of memory.
#[derive(Drop)]
pub enum CatalogueFault {
    Parse(CatalogRefused),
    /// With the catalogue, whose features have the names that are told.
    Check(CheckRefused, Catalog),
}

/// How the program ends.
#[derive(Drop)]
pub enum Exit {
    Done,
    Usage,
    Catalogue(CatalogueFault),
    ReadFault,
    WriteFault,
    LinksFault,
    TurnsOut,
    Memory,
    TooLong,
    KeeperFault,
}

/// The exit status of the process.
pub fn status(exit: &Exit) -> u8
    ensures { result ≡ status_of exit.now }
{
    match exit {
        Exit::Done => 0,
        Exit::Usage => 1,
        Exit::Catalogue(_) => 2,
        Exit::ReadFault => 3,
        Exit::WriteFault => 4,
        Exit::LinksFault => 5,
        Exit::TurnsOut => 6,
        Exit::Memory => 7,
        Exit::TooLong => 8,
        Exit::KeeperFault => 9,
    }
}

/// The line for standard error, without its line feed. It is empty where all went well.
pub fn fault_line(alloc: Global, exit: &Exit) -> Result<Text, Memory>
    ensures { IfOk result (λ line. line ≡ line_of exit.now) }
{
    match exit {
        Exit::Catalogue(CatalogueFault::Parse(why)) => catalogue_line(alloc, why),
        Exit::Catalogue(CatalogueFault::Check(why, catalog)) => {
            line_of_unpassed(alloc, why, &catalog.features)
        }
        other => Text::from_slice(alloc, plain_line(other)),
    }
}

/// The line for a catalogue that was refused.
fn catalogue_line(alloc: Global, why: &CatalogRefused) -> Result<Text, Memory>
    ensures { IfOk result (λ line. line ≡ catalogue_line why.now) }
{
    match why {
        CatalogRefused::Utf8(place) => place_line(alloc, b"byte ", *place, b": not UTF-8"),
        CatalogRefused::Syntax(line) => place_line(alloc, b"line ", *line, b": syntax"),
        CatalogRefused::Duplicate(line) => place_line(alloc, b"line ", *line, b": duplicate"),
        CatalogRefused::UnknownFeature(line) => {
            place_line(alloc, b"line ", *line, b": unknown feature")
        }
        CatalogRefused::UnknownName(line) => place_line(alloc, b"line ", *line, b": unknown name"),
        CatalogRefused::WrongKind(line) => place_line(alloc, b"line ", *line, b": wrong kind"),
        CatalogRefused::Limit(line, _which) => place_line(alloc, b"line ", *line, b": limit"),
        CatalogRefused::Memory => Text::from_slice(alloc, b"out of memory"),
    }
}

/// The line for a fault of the catalogue at a place.
fn place_line(alloc: Global, what: &[u8], place: u64, fault: &[u8]) -> Result<Text, Memory>
    ensures { IfOk result (λ line. line ≡ place_line what.now place fault.now) }
{
    let mut buffer = Buffer::new();
    let mut line = Vec::from_slice(alloc, b"catalogue: ")?;
    line.extend_from_slice(what)?;
    line.extend_from_slice(buffer.format(place).as_bytes())?;
    line.extend_from_slice(fault)?;
    Ok(Text::from_vec(line))
}

/// The line of an exit that names no place.
fn plain_line(exit: &Exit) -> &'static [u8]
    ensures { result.now ≡ plain_line_of exit.now }
{
    match exit {
        Exit::Done => b"",
        Exit::Usage => b"usage",
        Exit::Catalogue(_) => b"catalogue",
        Exit::ReadFault => b"read fault",
        Exit::WriteFault => b"write fault",
        Exit::LinksFault => b"links fault",
        Exit::TurnsOut => b"turns out",
        Exit::Memory => b"out of memory",
        Exit::TooLong => b"file too long",
        Exit::KeeperFault => b"keeper fault",
    }
}
