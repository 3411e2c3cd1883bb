ghost use Rattle.std.specs.Prelude.{◌≡◌, ◌+◌, ◌<◌, ◌≤◌, ◌++◌, ◌∷◌, ℕ, [], true, None, Some, length, map, max, slice_get, slice_index_or, OnOk, IfOk, IfErr};
ghost use Rattle.std.specs.List.{list_any, range_with_len};
ghost use Rattle.query_meaning.specs.Cases.{IsOneOf};
ghost use Rattle.query_meaning.specs.ParameterKinds.{AreKinds, RefusesKinds, cases_without, given_or, kind_of_param, lacks_partner, parameters_in, too_wide_in, unknown_names};
ghost use Rattle.query_names.specs.Covered.{covered};
ghost use Rattle.query_names.specs.Findings.{cases, place_of, places};
ghost use Rattle.query_names.specs.NameCases.{fault_case};
ghost use Rattle.query_names.specs.Parts.{IsTooWide};
ghost use Rattle.query_names.specs.Settling.{AreSettled, IsLacking, settled_more};

use crate::found::{Facing, Findings, ParamPlace};
use crate::name_cases::{NameFault, refusal_of, shown_name};
use crate::part::QueryNames;
use crate::query_walk::names_of;
use crate::refused::NamesRefused;
use crate::table_names::TableNames;
use crate::write_names::write_findings;
use query_meaning::TypeRefused;
use std::alloc::Global;
use values::{Kind, List, Memory};
use vra_syntax::{Statement, param_count};

/// Why the parameters of a statement have no kinds.
pub enum KindsRefused {
    /// The parameter at this place, from 0, has none.
    Lacks(usize),
    Memory,
}

/// The kinds of a statement's parameters: those that are given, and for the others what the first occurrence settles that
/// settles a kind. There are as many as the greatest number of a parameter says, or as there are given ones.
pub fn param_kinds(
    alloc: Global,
    tables: &TableNames<'_>,
    statement: &Statement,
    given: &[Option<Kind>],
) -> Result<List<Kind>, TypeRefused>
    requires { length given.now ≤ 65535 }
    ensures ok { IfOk result (λ kinds. AreKinds tables.now.tables.now given.now statement.now kinds) }
    ensures refused { IfErr result (λ why. RefusesKinds tables.now.tables.now given.now statement.now why) }
{
    let findings = match statement_findings(alloc, tables, statement) {
        Ok(findings) => findings,
        Err(NamesRefused::TooWide(count)) => return Err(TypeRefused::TooWide(count)),
        Err(NamesRefused::Memory) => return Err(TypeRefused::Memory),
    };
    let count = greater(usize::from(param_count(statement)), given.len());
    match kinds_found(alloc, findings.parameters.as_slice(), given, count) {
        Ok(kinds) => Ok(List::from_vec(kinds)),
        Err(KindsRefused::Lacks(place)) => {
            Err(refusal_of(alloc, lacking_fault(&findings, place + 1)))
        }
        Err(KindsRefused::Memory) => Err(TypeRefused::Memory),
    }
}

fn greater(one: usize, other: usize) -> usize
    ensures { result ≡ max one other }
{
    if one < other { other } else { one }
}

/// What the names of a statement say.
fn statement_findings<'a>(
    alloc: Global,
    tables: &TableNames<'a>,
    statement: &'a Statement,
) -> Result<Findings<'a>, NamesRefused>
    ensures unknown { IfOk result (λ it. cases it.unknown.items ≡ unknown_names tables.now.tables.now statement.now) }
    ensures parameters { IfOk result (λ it. places it.parameters.items ≡ parameters_in tables.now.tables.now statement.now) }
    ensures narrow { OnOk result (too_wide_in tables.now.tables.now statement.now ≡ None) }
    ensures refused { IfErr result (λ why. IsTooWide (too_wide_in tables.now.tables.now statement.now) why) }
{
    match statement {
        Statement::Query(query) => {
            let names = names_of(alloc, tables, query)?;
            let QueryNames {
                possible: _possible,
                findings,
            } = names;
            Ok(findings)
        }
        Statement::Write(write) => {
            let findings = write_findings(alloc, tables, write)?;
            Ok(findings)
        }
        Statement::Begin => Ok(Findings::new(alloc)),
        Statement::Commit => Ok(Findings::new(alloc)),
        Statement::Rollback => Ok(Findings::new(alloc)),
        Statement::Set => Ok(Findings::new(alloc)),
    }
}

/// The kinds of that many parameters, or the first place without one.
fn kinds_found(
    alloc: Global,
    parameters: &[ParamPlace],
    given: &[Option<Kind>],
    count: usize,
) -> Result<Vec<Kind>, KindsRefused>
    ensures ok { IfOk result (λ kinds. map (kind_of_param given.now (places parameters.now)) (range_with_len 0 count) ≡ map Some kinds.items) }
    ensures lacking { IfErr result (λ why. IsLacking given.now (places parameters.now) count why) }
{
    let settled = settled_kinds(alloc, parameters, count)?;
    let mut kinds = Vec::new(alloc);
    for place in 0..count {
        match kind_at(given, settled.as_slice(), place) {
            Some(kind) => put_kind(&mut kinds, kind)?,
            None => return Err(KindsRefused::Lacks(place)),
        }
    }
    Ok(kinds)
}

fn put_kind(kinds: &mut Vec<Kind>, kind: Kind) -> Result<(), Memory>
    ensures { OnOk result (kinds.new.items ≡ kinds.old.items ++ kind ∷ []) }
{
    kinds.push(kind)?;
    Ok(())
}

/// The kind that is given at a place, else the one that is settled.
fn kind_at(given: &[Option<Kind>], settled: &[Option<Kind>], place: usize) -> Option<Kind>
    requires { place < length settled.now }
    ensures { result ≡ given_or (slice_get given.now place) (slice_index_or settled.now place None) }
{
    match given.get(place) {
        Some(Some(kind)) => Some(*kind),
        _ => settled[place],
    }
}

/// What the parameters settle, by their places.
fn settled_kinds(
    alloc: Global,
    parameters: &[ParamPlace],
    count: usize,
) -> Result<Vec<Option<Kind>>, Memory>
    ensures { IfOk result (λ settled. AreSettled count (places parameters.now) settled.items) }
{
    let mut settled = none_settled(alloc, count)?;
    for one in parameters {
        settle(&mut settled, one);
    }
    Ok(settled)
}

fn none_settled(alloc: Global, count: usize) -> Result<Vec<Option<Kind>>, Memory>
    ensures { IfOk result (λ settled. AreSettled count [] settled.items) }
{
    let mut settled = Vec::with_capacity(alloc, count)?;
    for _place in 0..count {
        settled.push(None)?;
    }
    Ok(settled)
}

/// Settles a kind by one more occurrence, where none is settled.
fn settle(settled: &mut Vec<Option<Kind>>, one: &ParamPlace)
    ensures length { length settled.new.items ≡ length settled.old.items }
    ensures each { (place : ℕ) → place < length settled.old.items → slice_index_or settled.new.items place None ≡ settled_more (place + 1) (place_of one.now) (slice_index_or settled.old.items place None) }
{
    let number = usize::from(one.number);
    if number == 0 || settled.len() < number {
        return;
    }
    if let Facing::OfKind(kind) = one.facing {
        if settled[number - 1].is_none() {
            settled[number - 1] = Some(kind);
        }
    }
}

/// What is wrong with a parameter that has no kind: it, unless it stands opposite a name that isn't known.
fn lacking_fault<'a>(findings: &Findings<'a>, number: usize) -> NameFault<'a>
    requires covered { covered (cases findings.now.unknown.items) (places findings.now.parameters.items) ≡ true }
    requires fits { number ≤ 65535 }
    ensures { IsOneOf (cases_without (cases findings.now.unknown.items) (places findings.now.parameters.items) number None) (fault_case result) }
{
    if faces_unknown(findings.parameters.as_slice(), number) {
        match shown_name(findings.unknown.as_slice()) {
            Some(name) => NameFault::Unknown(name),
            None => unreachable!(),
        }
    } else {
        NameFault::Param(number as u16)
    }
}

/// Whether the parameter with this number stands opposite a name that isn't known.
fn faces_unknown(parameters: &[ParamPlace], number: usize) -> bool
    ensures { result ≡ list_any (lacks_partner number) (places parameters.now) }
{
    for one in parameters {
        if lacks_partner(one, number) {
            return true;
        }
    }
    false
}

fn lacks_partner(one: &ParamPlace, number: usize) -> bool
    ensures { result ≡ lacks_partner number (place_of one.now) }
{
    if usize::from(one.number) != number {
        return false;
    }
    match one.facing {
        Facing::Unknown => true,
        Facing::OfKind(_kind) => false,
        Facing::Open => false,
    }
}

impl From<Memory> for KindsRefused {
    ghost use Rattle.std.specs.Prelude.{◌≡◌};
    ghost use Rattle.query_names.specs.declared.kinds.KindsRefused.TheVariants as refused;

    ghost from_gives = { λ _ given. given ≡ refused.Memory };

    fn from(_memory: Memory) -> KindsRefused {
        KindsRefused::Memory
    }
}
