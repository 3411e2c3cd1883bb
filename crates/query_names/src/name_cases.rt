ghost use Rattle.std.specs.Prelude.{◌≡◌, [], None, slice_get, OnOk, IfOk, IfErr};
ghost use Rattle.std.specs.List.{find};
ghost use Rattle.std.specs.Option.{option_map, option_or};
ghost use Rattle.query_meaning.specs.Cases.{case_of, no_kind};
ghost use Rattle.query_meaning.specs.Names.{name_cases, too_wide};
ghost use Rattle.query_meaning.specs.Parameters.{kind_at, without_kind};
ghost use Rattle.query_names.specs.Findings.{case_for, cases, places};
ghost use Rattle.query_names.specs.NameCases.{RefusesNames, Shows, ShowsFirst, fault_case, names_table, shown};

use crate::found::{Findings, ParamPlace, UnknownName};
use crate::query_walk::names_of;
use crate::refused::NamesRefused;
use crate::table_names::TableNames;
use query_meaning::{IllCase, IllTyped, TypeRefused};
use std::alloc::Global;
use values::{ColName, Kind, Memory, Name, TryCopy};
use vra_syntax::Query;

/// What is wrong with the names of a statement.
#[derive(Clone, Copy)]
pub enum NameFault<'a> {
    Unknown(UnknownName<'a>),
    /// The parameter with this number has no kind.
    Param(u16),
}

/// Tells whether all names of a query are known and its parameters have kinds, in branches that no variant takes too.
#[tactic(auto, using(crate::proofs::CaseLaws::no_case, crate::proofs::CaseLaws::case_holds, crate::proofs::CaseLaws::first_shown))]
pub fn check_names(
    alloc: Global,
    tables: &TableNames<'_>,
    query: &Query,
    kinds: &[Kind],
) -> Result<(), TypeRefused>
    ensures narrow { OnOk result (too_wide tables.now.tables.now query.now ≡ None) }
    ensures named { OnOk result (name_cases kinds.now tables.now.tables.now query.now ≡ []) }
    ensures refused { IfErr result (λ why. RefusesNames kinds.now tables.now.tables.now query.now why) }
    ensures shown { IfErr result (λ why. ShowsFirst kinds.now tables.now.tables.now query.now why) }
{
    let names = match names_of(alloc, tables, query) {
        Ok(names) => names,
        Err(NamesRefused::TooWide(count)) => return Err(TypeRefused::TooWide(count)),
        Err(NamesRefused::Memory) => return Err(TypeRefused::Memory),
    };
    match first_fault(&names.findings, kinds) {
        None => Ok(()),
        Some(fault) => Err(refusal_of(alloc, fault)),
    }
}

/// The fault that is shown, if there is one.
pub fn first_fault<'a>(findings: &Findings<'a>, kinds: &[Kind]) -> Option<NameFault<'a>>
    ensures { option_map fault_case result ≡ option_or (shown (cases findings.now.unknown.items)) (slice_get (without_kind kinds.now (places findings.now.parameters.items)) 0) }
{
    match shown_name(findings.unknown.as_slice()) {
        Some(name) => Some(NameFault::Unknown(name)),
        None => match without_kind(findings.parameters.as_slice(), kinds) {
            Some(number) => Some(NameFault::Param(number)),
            None => None,
        },
    }
}

/// The unknown name that is shown, if there is one: the first table's, else the first.
pub fn shown_name<'a>(unknown: &[UnknownName<'a>]) -> Option<UnknownName<'a>>
    ensures { option_map case_for result ≡ shown (cases unknown.now) }
{
    match first_table(unknown) {
        Some(name) => Some(name),
        None => unknown.first().copied(),
    }
}

fn first_table<'a>(unknown: &[UnknownName<'a>]) -> Option<UnknownName<'a>>
    ensures { option_map case_for result ≡ find names_table (cases unknown.now) }
{
    for name in unknown {
        if is_table(name) {
            return Some(*name);
        }
    }
    None
}

fn is_table(name: &UnknownName<'_>) -> bool
    ensures { result ≡ names_table (case_for name.now) }
{
    match name {
        UnknownName::Table(_) => true,
        UnknownName::Column(_) => false,
        UnknownName::Bare(_) => false,
    }
}

/// The first parameter that has no kind among these.
fn without_kind(parameters: &[ParamPlace], kinds: &[Kind]) -> Option<u16>
    ensures { option_map no_kind result ≡ slice_get (without_kind kinds.now (places parameters.now)) 0 }
{
    for one in parameters {
        if kind_at(kinds, one.number).is_none() {
            return Some(one.number);
        }
    }
    None
}

/// The kind of a parameter, by its number from 1.
fn kind_at(kinds: &[Kind], number: u16) -> Option<Kind>
    ensures { result ≡ kind_at kinds.now number }
{
    if number == 0 {
        None
    } else {
        kinds.get(usize::from(number) - 1).copied()
    }
}

/// The refusal that shows a fault.
pub fn refusal_of(alloc: Global, fault: NameFault<'_>) -> TypeRefused
    ensures { Shows (fault_case fault.entry) result }
{
    match ill_typed(alloc, fault) {
        Ok(why) => TypeRefused::Ill(why),
        Err(Memory) => TypeRefused::Memory,
    }
}

fn ill_typed(alloc: Global, fault: NameFault<'_>) -> Result<IllTyped, Memory>
    ensures { IfOk result (λ why. (why.config ≡ None) × (case_of why ≡ fault_case fault.entry)) }
{
    match fault {
        NameFault::Unknown(UnknownName::Table(name)) => {
            let name = name.copy(alloc)?;
            Ok(ill(
                IllCase::NoTable,
                ColName {
                    prefix: None,
                    base: name,
                },
            ))
        }
        NameFault::Unknown(UnknownName::Column(name)) => {
            let name = name.copy(alloc)?;
            Ok(ill(IllCase::NoColumn, name))
        }
        NameFault::Unknown(UnknownName::Bare(name)) => {
            let name = name.copy(alloc)?;
            Ok(ill(
                IllCase::NoColumn,
                ColName {
                    prefix: None,
                    base: name,
                },
            ))
        }
        NameFault::Param(number) => Ok(ill(
            IllCase::ParamKind(number),
            ColName {
                prefix: None,
                base: Name::new(alloc),
            },
        )),
    }
}

/// A case that holds whatever the variant.
fn ill(why: IllCase, name: ColName) -> IllTyped
    ensures config { result.config ≡ None }
    ensures shown { case_of result ≡ record { why = why; name = name } }
{
    IllTyped {
        case: why,
        name,
        config: None,
    }
}
