ghost use Rattle.std.specs.Prelude.{◌≡◌, map, Some, IfOk};
ghost use Rattle.std.specs.Option.{option_map};
ghost use Rattle.query_meaning.specs.WriteTyping.{write_cond};
ghost use Rattle.write_typing.specs.Acting.{known_cases, table_cases, unknown_among};
ghost use Rattle.write_typing.specs.Faults.{fault_case, first, names_of, possible};
ghost use Rattle.write_typing.specs.Operands.{lent, operands_in};
ghost use Rattle.write_typing.specs.Values.{seat_of};

use crate::fault::NameFault;
use crate::names::{named_twice, unknown_name};
use crate::operands::{lacking_operand, operands_of, unknown_operand};
use crate::row_values::{Check, places_of, value_fault};
use std::alloc::Global;
use values::{ColName, Kind, Memory};
use vra_syntax::{Operand, Write};
use vschema::{Column, Table};

/// What is wrong with a write over its table whatever the variant, if anything is.
///
/// Names that aren't known come first: among known ones a name that stands again is found after no more names than the
/// table has columns.
pub fn name_fault<'a>(
    alloc: Global,
    table: &Table,
    names: &'a [ColName],
    write: &'a Write,
    kinds: &[Kind],
) -> Result<Option<NameFault<'a>>, Memory>
    requires { names.now ≡ names_of write.now }
    ensures { IfOk result (λ it. option_map fault_case it ≡ first (table_cases kinds.now (Some table.now) write.now)) }
{
    let columns = table.columns.as_slice();
    let operands = write_operands(alloc, write)?;
    match unknown_fault(columns, names, operands.as_slice()) {
        Some(fault) => Ok(Some(fault)),
        None => {
            let fault = known_fault(alloc, columns, names, write, operands.as_slice(), kinds)?;
            Ok(fault)
        }
    }
}

/// The operands of the condition of a write.
fn write_operands(alloc: Global, write: &Write) -> Result<Vec<&Operand>, Memory>
    ensures { IfOk result (λ it. lent it.items ≡ operands_in (write_cond write.now)) }
{
    match write {
        Write::Insert(_table, _names, _rows, _expr) => Ok(Vec::new(alloc)),
        Write::Delete(_table, cond, _expr) => operands_of(alloc, cond),
        Write::Update(_table, _items, cond, _expr) => operands_of(alloc, cond),
    }
}

#[tactic(auto, using(crate::proofs::FaultLaws::first_of_both))]
fn unknown_fault<'a>(
    columns: &[Column],
    names: &'a [ColName],
    operands: &[&'a Operand],
) -> Option<NameFault<'a>>
    ensures { option_map fault_case result ≡ first (unknown_among (possible columns.now) names.now (lent operands.now)) }
{
    unknown_name(columns, names).or(unknown_operand(columns, operands))
}

#[tactic(auto, using(crate::proofs::FaultLaws::first_of_four))]
fn known_fault<'a>(
    alloc: Global,
    columns: &[Column],
    names: &'a [ColName],
    write: &'a Write,
    operands: &[&'a Operand],
    kinds: &[Kind],
) -> Result<Option<NameFault<'a>>, Memory>
    ensures { IfOk result (λ it. option_map fault_case it ≡ first (known_cases kinds.now (map (seat_of (possible columns.now)) names.now) names.now write.now (lent operands.now))) }
{
    let places = places_of(alloc, columns, names)?;
    let places = places.as_slice();
    let fault = named_twice(names)
        .or(value_fault(Check::OfKind, kinds, places, write))
        .or(value_fault(Check::HasKind, kinds, places, write))
        .or(lacking_operand(kinds, operands));
    Ok(fault)
}
