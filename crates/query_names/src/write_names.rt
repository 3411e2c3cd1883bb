ghost use Rattle.std.specs.Prelude.{◌≡◌, ◌++◌, map, slice_get, OnOk, IfOk};
ghost use Rattle.std.specs.List.{flat_map};
ghost use Rattle.std.specs.Option.{option_map};
ghost use Rattle.query_meaning.specs.Names.{unknown_name};
ghost use Rattle.query_meaning.specs.Parameters.{partner_named};
ghost use Rattle.query_meaning.specs.WriteTyping.{assignment_of, listed_names, parameters_over, table_name_of, unknown_in, value_occurrence, write_cond, write_parameters, write_unknown};
ghost use Rattle.query_names.specs.Findings.{cases, facing, places};
ghost use Rattle.query_names.specs.Headings.{headings};
ghost use Rattle.query_names.specs.Writes.{columns_named, met, row_occurrences, unknown_bare};
ghost use Rattle.vra_syntax.specs.declared.write.SetItem.{SetItem};
ghost use Rattle.vschema.specs.Variants.{bare_name};

use crate::columns::{PossibleColumn, kinds_named, table_columns};
use crate::cond_names::read_cond;
use crate::found::{Facing, Findings, facing_by};
use crate::table_names::TableNames;
use std::alloc::Global;
use values::{List, Memory, Name};
use vra_syntax::{Operand, SetItem, Write};

/// What the names of a write say. Over a table that isn't known nothing but its name is unknown.
#[tactic(auto, using(crate::proofs::PartLaws::source_by_table))]
pub fn write_findings<'a>(
    alloc: Global,
    tables: &TableNames<'a>,
    write: &'a Write,
) -> Result<Findings<'a>, Memory>
    ensures unknown { IfOk result (λ it. cases it.unknown.items ≡ write_unknown tables.now.tables.now write.now) }
    ensures parameters { IfOk result (λ it. places it.parameters.items ≡ write_parameters tables.now.tables.now write.now) }
{
    let name = table_name(write);
    match tables.named(name) {
        Some(table) => {
            let columns = table_columns(alloc, table)?;
            let findings = findings_over(alloc, columns.as_slice(), write)?;
            Ok(findings)
        }
        None => {
            let findings = findings_over(alloc, &[], write)?;
            let findings = findings.with_table_alone(alloc, name)?;
            Ok(findings)
        }
    }
}

fn table_name(write: &Write) -> &Name
    ensures { result.now ≡ table_name_of write.now }
{
    match write {
        Write::Insert(table, _names, _rows, _expr) => table,
        Write::Delete(table, _cond, _expr) => table,
        Write::Update(table, _items, _cond, _expr) => table,
    }
}

/// What the names of a write say over the columns of its table.
fn findings_over<'a>(
    alloc: Global,
    columns: &[PossibleColumn<'_>],
    write: &'a Write,
) -> Result<Findings<'a>, Memory>
    ensures unknown { IfOk result (λ it. cases it.unknown.items ≡ unknown_bare (headings columns.now) (listed_names write.now) ++ unknown_in (headings columns.now) (write_cond write.now)) }
    ensures parameters { IfOk result (λ it. places it.parameters.items ≡ parameters_over (headings columns.now) write.now) }
{
    let mut findings = Findings::new(alloc);
    match write {
        Write::Insert(_table, names, rows, _expr) => {
            let facings = read_names(alloc, columns, names.as_slice(), &mut findings)?;
            read_rows(facings.as_slice(), rows.as_slice(), &mut findings)?;
            Ok(findings)
        }
        Write::Delete(_table, cond, _expr) => {
            read_cond(alloc, columns, cond, &mut findings)?;
            Ok(findings)
        }
        Write::Update(_table, items, cond, _expr) => {
            read_items(alloc, columns, items.as_slice(), &mut findings)?;
            read_cond(alloc, columns, cond, &mut findings)?;
            Ok(findings)
        }
    }
}

/// Adds the names that aren't those of columns, and answers for each name what it is to its value.
fn read_names<'a>(
    alloc: Global,
    columns: &[PossibleColumn<'_>],
    names: &'a [Name],
    findings: &mut Findings<'a>,
) -> Result<Vec<Facing>, Memory>
    ensures facings { IfOk result (λ facings. map facing facings.items ≡ columns_named (headings columns.now) names.now) }
    ensures unknown { OnOk result (cases findings.new.unknown.items ≡ cases findings.old.unknown.items ++ unknown_bare (headings columns.now) names.now) }
    ensures parameters { OnOk result (findings.new.parameters ≡ findings.old.parameters) }
{
    let mut facings = Vec::with_capacity(alloc, names.len())?;
    for name in names {
        let facing = read_name(alloc, columns, name, findings)?;
        facings.push(facing)?;
    }
    Ok(facings)
}

/// What a column's name is to its value. It is added where no column has it.
#[tactic(auto, using(crate::proofs::OperandLaws::unknown_by_name))]
fn read_name<'a>(
    alloc: Global,
    columns: &[PossibleColumn<'_>],
    name: &'a Name,
    findings: &mut Findings<'a>,
) -> Result<Facing, Memory>
    ensures facing { IfOk result (λ it. facing it ≡ partner_named (headings columns.now) (bare_name name.now)) }
    ensures unknown { OnOk result (cases findings.new.unknown.items ≡ cases findings.old.unknown.items ++ unknown_name (headings columns.now) (bare_name name.now)) }
    ensures parameters { OnOk result (findings.new.parameters ≡ findings.old.parameters) }
{
    let kinds = kinds_named(alloc, columns, None, name)?;
    let facing = facing_by(kinds.as_slice());
    findings.add_bare(name, facing)?;
    Ok(facing)
}

/// Adds the parameters of the rows of an insert.
fn read_rows<'a>(
    facings: &[Facing],
    rows: &'a [List<Operand>],
    findings: &mut Findings<'a>,
) -> Result<(), Memory>
    ensures unknown { OnOk result (findings.new.unknown ≡ findings.old.unknown) }
    ensures parameters { OnOk result (places findings.new.parameters.items ≡ places findings.old.parameters.items ++ flat_map (row_occurrences (map facing facings.now)) rows.now) }
{
    for row in rows {
        read_row(facings, row.as_slice(), findings)?;
    }
    Ok(())
}

/// Adds the parameters of a row. Values behind the last name are for no column.
fn read_row<'a>(
    facings: &[Facing],
    row: &'a [Operand],
    findings: &mut Findings<'a>,
) -> Result<(), Memory>
    ensures unknown { OnOk result (findings.new.unknown ≡ findings.old.unknown) }
    ensures parameters { OnOk result (places findings.new.parameters.items ≡ places findings.old.parameters.items ++ row_occurrences (map facing facings.now) row.now) }
{
    for (place, value) in row.iter().enumerate() {
        read_value(facings, place, value, findings)?;
    }
    Ok(())
}

/// Adds the value at a place, if it is a parameter.
fn read_value(
    facings: &[Facing],
    place: usize,
    value: &Operand,
    findings: &mut Findings<'_>,
) -> Result<(), Memory>
    ensures unknown { OnOk result (findings.new.unknown ≡ findings.old.unknown) }
    ensures parameters { OnOk result (places findings.new.parameters.items ≡ places findings.old.parameters.items ++ met (option_map facing (slice_get facings.now place)) value.now) }
{
    match facing_at(facings, place) {
        Some(faces) => {
            findings.add_value(value, faces)?;
            Ok(())
        }
        None => Ok(()),
    }
}

fn facing_at(facings: &[Facing], place: usize) -> Option<Facing>
    ensures { result ≡ slice_get facings.now place }
{
    facings.get(place).copied()
}

/// Adds the names of an update that aren't those of columns, and the parameters among its new values.
fn read_items<'a>(
    alloc: Global,
    columns: &[PossibleColumn<'_>],
    items: &'a [SetItem],
    findings: &mut Findings<'a>,
) -> Result<(), Memory>
    ensures unknown { OnOk result (cases findings.new.unknown.items ≡ cases findings.old.unknown.items ++ unknown_bare (headings columns.now) (map (λ (item : SetItem). item.column) items.now)) }
    ensures parameters { OnOk result (places findings.new.parameters.items ≡ places findings.old.parameters.items ++ flat_map (value_occurrence (headings columns.now)) (map assignment_of items.now)) }
{
    for item in items {
        let faces = read_name(alloc, columns, &item.column, findings)?;
        findings.add_value(&item.value, faces)?;
    }
    Ok(())
}
