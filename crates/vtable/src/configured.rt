ghost use Rattle.std.specs.Prelude.{◌≡◌, ◌++◌, map, IfOk, OnOk};
ghost use Rattle.std.specs.List.{filter_map};
ghost use Rattle.std.specs.Option.{option_to_list};
ghost use Rattle.plain_relation.specs.Relations.{columns_of};
ghost use Rattle.vtable.specs.Answers.{IsAnswerAt, column_at};
ghost use Rattle.vtable.specs.Configured.{IsConfigured, plain_column, fate_at, row_there, some_values, group_values};
ghost use Rattle.vtable.specs.Passes.{table_row};

use crate::decision::{Fate, cut_cells};
use crate::group::{CutRow, Group, grouped, in_order};
use crate::plain::{Plain, PlainColumn};
use crate::table::{VColumn, VRow, VTable};
use feature_expr::{Config, Expr, List, Memory, TryCopy, Value, eval};
use std::alloc::Global;

/// What the table is in one variant.
pub fn configure(alloc: Global, table: &VTable, config: &Config) -> Result<Plain, Memory>
    requires { IsAnswerAt config.now table.now }
    ensures { IfOk result (λ plain. IsConfigured config.now table.now plain) }
{
    let plain = made_plain(alloc, table, config)?;
    Ok(plain)
}

/// The same. Of a table that isn't a well-formed answer nothing is said.
pub fn made_plain(alloc: Global, table: &VTable, config: &Config) -> Result<Plain, Memory>
    ensures { IfOk result (λ plain. IsAnswerAt config.now table.now → IsConfigured config.now table.now plain) }
{
    let columns = columns_there(alloc, table.columns.as_slice(), config)?;
    if columns.is_empty() {
        return Ok(Plain::Absent);
    }
    let fates = fates_at(alloc, table.columns.as_slice(), config)?;
    let rows = rows_there(alloc, &fates, table.rows.as_slice(), config)?;
    let rows = in_order(rows)?;
    let groups = grouped(alloc, rows)?;
    let rows = values_of_groups(alloc, groups)?;
    Ok(Plain::Rel(columns, rows))
}

fn columns_there(
    alloc: Global,
    columns: &[VColumn],
    config: &Config,
) -> Result<List<PlainColumn>, Memory>
    ensures { IfOk result (λ there. map plain_column there ≡ columns_of (map (column_at config.now) columns.now)) }
{
    let mut there = Vec::new(alloc);
    for column in columns {
        put_column(alloc, &mut there, column, config)?;
    }
    Ok(List::from_vec(there))
}

fn put_column(
    alloc: Global,
    there: &mut Vec<PlainColumn>,
    column: &VColumn,
    config: &Config,
) -> Result<(), Memory>
    ensures { OnOk result (map plain_column there.new.items ≡ map plain_column there.old.items ++ option_to_list (column_at config.now column.now)) }
{
    if !eval(&column.cond, config) {
        return Ok(());
    }
    let name = column.name.copy(alloc)?;
    let kind = column.kind;
    there.push(PlainColumn { name, kind })?;
    Ok(())
}

fn fates_at(alloc: Global, columns: &[VColumn], config: &Config) -> Result<Vec<Fate>, Memory>
    ensures { IfOk result (λ fates. fates.items ≡ map (fate_at config.now) columns.now) }
{
    let mut fates = Vec::with_capacity(alloc, columns.len())?;
    for column in columns {
        let fate = fate_of_column(column, config);
        fates.push(fate)?;
    }
    Ok(fates)
}

fn fate_of_column(column: &VColumn, config: &Config) -> Fate
    ensures { result ≡ fate_at config.now column.now }
{
    if eval(&column.cond, config) {
        Fate::Kept
    } else {
        Fate::Dropped
    }
}

fn rows_there(
    alloc: Global,
    fates: &[Fate],
    rows: &[VRow],
    config: &Config,
) -> Result<Vec<CutRow>, Memory>
    ensures { IfOk result (λ there. map table_row there.items ≡ filter_map (row_there config.now fates.now) rows.now) }
{
    let mut there = Vec::new(alloc);
    for row in rows {
        add_row(alloc, fates, row, config, &mut there)?;
    }
    Ok(there)
}

fn add_row(
    alloc: Global,
    fates: &[Fate],
    row: &VRow,
    config: &Config,
    there: &mut Vec<CutRow>,
) -> Result<(), Memory>
    ensures { OnOk result (map table_row there.new.items ≡ map table_row there.old.items ++ option_to_list (row_there config.now fates.now row.now)) }
{
    if !eval(&row.cond, config) {
        return Ok(());
    }
    let cells = row.cells.copy(alloc)?;
    let cells = cut_cells(alloc, fates, cells)?.into_vec();
    let cond = Expr::True;
    there.push(CutRow { cells, cond })?;
    Ok(())
}

fn values_of_groups(alloc: Global, groups: Vec<Group>) -> Result<List<List<Value>>, Memory>
    ensures { IfOk result (λ rows. rows ≡ map group_values groups.items) }
{
    let mut rows = Vec::with_capacity(alloc, groups.len())?;
    for group in groups {
        let values = values_among(alloc, group.cells)?;
        rows.push(values)?;
    }
    Ok(List::from_vec(rows))
}

#[tactic(auto, using(crate::proofs::PassLaws::kept_push))]
fn values_among(alloc: Global, cells: List<Option<Value>>) -> Result<List<Value>, Memory>
    ensures { IfOk result (λ values. values ≡ some_values cells) }
{
    let mut values = Vec::with_capacity(alloc, cells.len())?;
    for cell in cells.into_vec() {
        put_value(&mut values, cell)?;
    }
    Ok(List::from_vec(values))
}

fn put_value(values: &mut Vec<Value>, cell: Option<Value>) -> Result<(), Memory>
    ensures { OnOk result (values.new.items ≡ values.old.items ++ option_to_list cell) }
{
    match cell {
        Some(value) => values.push(value)?,
        None => {}
    }
    Ok(())
}
