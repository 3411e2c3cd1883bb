//! The texts of writes.

ghost use Rattle.std.specs.Prelude.{◌≡◌, ◌++◌, map, codes, OnOk};
ghost use Rattle.query_printer.specs.Printing.{listed, row_text, where_text, when_text, insert_text, update_text, write_text};

use crate::print_cond::print_where;
use crate::print_parts::{Listed, print_listed, print_operand, print_when};
use feature_expr::{Expr, Features, List, Memory, Name};
use std::alloc::Global;
use vra_syntax::{Cond, Operand, SetItem, Write};

impl Listed for List<Operand> {
    ghost use Rattle.query_printer.specs.Printing.{row_text};

    ghost printed = { λ names row. row_text row };

    fn print(&self, alloc: Global, features: &Features, text: &mut Vec<u8>) -> Result<(), Memory> {
        text.push(b'(')?;
        print_listed(alloc, self.as_slice(), features, text)?;
        text.push(b')')?;
        Ok(())
    }
}

impl Listed for SetItem {
    ghost use Rattle.query_printer.specs.Printing.{set_item_text};

    ghost printed = { λ names item. set_item_text item };

    fn print(&self, alloc: Global, features: &Features, text: &mut Vec<u8>) -> Result<(), Memory> {
        text.extend_from_slice(self.column.as_slice())?;
        text.extend_from_slice(b" = ")?;
        print_operand(&self.value, text)
    }
}

pub fn print_write(
    alloc: Global,
    write: &Write,
    features: &Features,
    text: &mut Vec<u8>,
) -> Result<(), Memory>
    ensures { OnOk result (text.new.items ≡ text.old.items ++ write_text features.now write.now) }
{
    match write {
        Write::Insert(table, columns, rows, expr) => {
            print_insert(alloc, table, columns.as_slice(), features, text)?;
            print_rows(alloc, rows.as_slice(), features, text)?;
            print_when(alloc, expr, features, text)
        }
        Write::Delete(table, cond, expr) => {
            print_delete(table, text)?;
            print_conditions(alloc, cond, expr, features, text)
        }
        Write::Update(table, changes, cond, expr) => {
            print_update(alloc, table, changes.as_slice(), features, text)?;
            print_conditions(alloc, cond, expr, features, text)
        }
    }
}

/// An insert up to its rows.
#[tactic(auto, unfolding(crate::specs::Printing::insert_text))]
fn print_insert(
    alloc: Global,
    table: &Name,
    columns: &[Name],
    features: &Features,
    text: &mut Vec<u8>,
) -> Result<(), Memory>
    ensures { OnOk result (text.new.items ≡ text.old.items ++ insert_text table.now columns.now) }
{
    text.extend_from_slice(b"insert into ")?;
    text.extend_from_slice(table.as_slice())?;
    text.extend_from_slice(b" (")?;
    print_names(alloc, columns, features, text)?;
    text.extend_from_slice(b") values ")?;
    Ok(())
}

fn print_names(
    alloc: Global,
    names: &[Name],
    features: &Features,
    text: &mut Vec<u8>,
) -> Result<(), Memory>
    ensures { OnOk result (text.new.items ≡ text.old.items ++ listed names.now) }
{
    print_listed(alloc, names, features, text)
}

fn print_rows(
    alloc: Global,
    rows: &[List<Operand>],
    features: &Features,
    text: &mut Vec<u8>,
) -> Result<(), Memory>
    ensures { OnOk result (text.new.items ≡ text.old.items ++ listed (map row_text rows.now)) }
{
    print_listed(alloc, rows, features, text)
}

/// A delete up to its conditions.
fn print_delete(table: &Name, text: &mut Vec<u8>) -> Result<(), Memory>
    ensures { OnOk result (text.new.items ≡ text.old.items ++ codes "delete from " ++ table.now) }
{
    text.extend_from_slice(b"delete from ")?;
    text.extend_from_slice(table.as_slice())?;
    Ok(())
}

/// An update up to its conditions.
#[tactic(auto, unfolding(crate::specs::Printing::update_text))]
fn print_update(
    alloc: Global,
    table: &Name,
    changes: &[SetItem],
    features: &Features,
    text: &mut Vec<u8>,
) -> Result<(), Memory>
    ensures { OnOk result (text.new.items ≡ text.old.items ++ update_text table.now changes.now) }
{
    text.extend_from_slice(b"update ")?;
    text.extend_from_slice(table.as_slice())?;
    text.extend_from_slice(b" set ")?;
    print_listed(alloc, changes, features, text)
}

fn print_conditions(
    alloc: Global,
    cond: &Cond,
    expr: &Expr,
    features: &Features,
    text: &mut Vec<u8>,
) -> Result<(), Memory>
    ensures { OnOk result (text.new.items ≡ text.old.items ++ where_text features.now cond.now ++ when_text features.now expr.now) }
{
    print_where(alloc, cond, features, text)?;
    print_when(alloc, expr, features, text)
}
