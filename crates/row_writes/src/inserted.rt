ghost use Rattle.std.specs.Prelude.{◌≡◌, [], map, if◌then◌else◌, IfOk};
ghost use Rattle.query_meaning.specs.WriteTyping.{assignments_of};
ghost use Rattle.vschema.specs.Variants.{bare_name};
ghost use Rattle.write_meaning.specs.PlainWrites.{assigned};
ghost use Rattle.write_meaning.specs.RowWrites.{holding, inserted, inserted_row};

use crate::given::listed_value;
use crate::there::can_be_there;
use asked_conditions::Questions;
use feature_expr::Expr;
use std::alloc::Global;
use values::{List, Memory, Name, TryCopy, Value};
use vra_syntax::{Operand, Write};
use vschema::{Column, Table};
use vtable::VRow;

/// The rows that an INSERT adds to its table, if they can be there. Another write adds none of its own.
pub fn inserted_rows(
    alloc: Global,
    questions: &mut Questions<'_>,
    table: &Table,
    write: &Write,
) -> Result<Vec<VRow>, Memory>
    ensures same { questions.new ≡ questions.old }
    ensures rows { IfOk result (λ rows. rows.items ≡ holding questions.old table.now (inserted table.now write.now)) }
{
    match write {
        Write::Insert(_name, names, rows, expr) => {
            held_rows(alloc, questions, table, names, expr, rows)
        }
        Write::Delete(_name, _cond, _expr) => Ok(Vec::new(alloc)),
        Write::Update(_name, _items, _cond, _expr) => Ok(Vec::new(alloc)),
    }
}

/// All rows of an INSERT have its condition, so one question serves them.
fn held_rows(
    alloc: Global,
    questions: &mut Questions<'_>,
    table: &Table,
    names: &List<Name>,
    expr: &Expr,
    rows: &List<List<Operand>>,
) -> Result<Vec<VRow>, Memory>
    ensures same { questions.new ≡ questions.old }
    ensures rows { IfOk result (λ it. it.items ≡ holding questions.old table.now (map (inserted_row table.now names.now expr.now) rows.now)) }
{
    let held = can_be_there(alloc, questions, table, expr)?;
    let out = rows_if(alloc, held, table, names, expr, rows)?;
    Ok(out)
}

fn rows_if(
    alloc: Global,
    held: bool,
    table: &Table,
    names: &List<Name>,
    expr: &Expr,
    rows: &List<List<Operand>>,
) -> Result<Vec<VRow>, Memory>
    ensures { IfOk result (λ it. it.items ≡ (if held then map (inserted_row table.now names.now expr.now) rows.now else [])) }
{
    if held {
        listed_rows(alloc, table, names.as_slice(), expr, rows.as_slice())
    } else {
        Ok(Vec::new(alloc))
    }
}

fn listed_rows(
    alloc: Global,
    table: &Table,
    names: &[Name],
    expr: &Expr,
    rows: &[List<Operand>],
) -> Result<Vec<VRow>, Memory>
    ensures { IfOk result (λ it. it.items ≡ map (inserted_row table.now names.now expr.now) rows.now) }
{
    let mut out = Vec::with_capacity(alloc, rows.len())?;
    for values in rows {
        out.push(listed_row(alloc, table, names, expr, values)?)?;
    }
    Ok(out)
}

fn listed_row(
    alloc: Global,
    table: &Table,
    names: &[Name],
    expr: &Expr,
    values: &List<Operand>,
) -> Result<VRow, Memory>
    ensures { IfOk result (λ it. it ≡ inserted_row table.now names.now expr.now values.now) }
{
    let cells = listed_cells(alloc, table.columns.as_slice(), names, values.as_slice())?;
    let cond = expr.copy(alloc)?;
    Ok(VRow { cells, cond })
}

fn listed_cells(
    alloc: Global,
    columns: &[Column],
    names: &[Name],
    values: &[Operand],
) -> Result<List<Option<Value>>, Memory>
    ensures { IfOk result (λ it. it ≡ map (λ column. assigned (assignments_of names.now values.now) (bare_name column.name)) columns.now) }
{
    let mut cells = Vec::with_capacity(alloc, columns.len())?;
    for column in columns {
        cells.push(listed_cell(alloc, column, names, values)?)?;
    }
    Ok(List::from_vec(cells))
}

fn listed_cell(
    alloc: Global,
    column: &Column,
    names: &[Name],
    values: &[Operand],
) -> Result<Option<Value>, Memory>
    ensures { IfOk result (λ it. it ≡ assigned (assignments_of names.now values.now) (bare_name column.now.name)) }
{
    match listed_value(names, values, &column.name) {
        Some(value) => Ok(Some(value.copy(alloc)?)),
        None => Ok(None),
    }
}
