ghost use Rattle.std.specs.Prelude.{◌≡◌, true};
ghost use Rattle.vschema.specs.Formed.{IsFormed, has_distinct_columns};

use crate::given::{first_table, model_of, rows, write};
use asked_conditions::Questions;
use condition_sat::Model;
use feature_expr::Features;
use row_writes::{stored_columns, write_rows};
use std::alloc::Global;
use values::List;
use vschema::{Catalog, OpeningRow, Table, parse_catalog};
use vtable::VRow;

/// Its variants are {A}, {B} and {A,B}.
const CATALOGUE: &str =
    "features A, B; model A or B; table stock (sku int8, label text, price int8 when A);";

const STORED: &str = "5 nut 70 true | 6 nail - not A | 7 bolt 9 A and B";

/// A write, and the rows after it: those that stay, and behind them those that begin.
const WRITES: &str = "\
delete from stock where sku = 5 => 6 nail - not A | 7 bolt 9 A and B
delete from stock where sku = 5 when A => 6 nail - not A | 7 bolt 9 A and B | 5 nut 70 not A
delete from stock where price > 50 => 6 nail - not A | 7 bolt 9 A and B | 5 nut 70 not A
delete from stock where true when not A and not B => 5 nut 70 true | 6 nail - not A | 7 bolt 9 A and B
delete from stock where sku = 6 when A => 5 nut 70 true | 6 nail - not A | 7 bolt 9 A and B
delete from stock where choice [A] (sku = 7, label = 'nail') => 5 nut 70 true
update stock set label = 'x' where sku = 5 when A => 6 nail - not A | 7 bolt 9 A and B | 5 nut 70 not A | 5 x 70 A
update stock set label = 'x' where sku = 7 when B => 5 nut 70 true | 6 nail - not A | 7 x 9 A and B
update stock set label = 'x' where sku = 5 => 6 nail - not A | 7 bolt 9 A and B | 5 x 70 true
update stock set price = 1 where sku < 7 when A => 6 nail - not A | 7 bolt 9 A and B | 5 nut 70 not A | 5 nut 1 A
update stock set sku = 1, label = 'one' where price = 9 => 5 nut 70 true | 6 nail - not A | 1 one 9 A and B
insert into stock (sku, label, price) values (8, 'rod', 3), (9, 'cap', 4) when A => 5 nut 70 true | 6 nail - not A | 7 bolt 9 A and B | 8 rod 3 A | 9 cap 4 A
insert into stock (label, sku) values ('rod', 8) when not A => 5 nut 70 true | 6 nail - not A | 7 bolt 9 A and B | 8 rod - not A
insert into stock (label, sku) values ('rod', 8) when A and not A => 5 nut 70 true | 6 nail - not A | 7 bolt 9 A and B
";

#[test]
fn rows_are_written_as_worked_out(rt: HostRuntime) {
    assert_eq!(rt; miswritten(rt.alloc()), Some(""));
}

/// The first line whose write gives other rows, or an empty one.
fn miswritten(alloc: Global) -> Option<&'static str> {
    let (catalog, opening) = parse_catalog(alloc, CATALOGUE.as_bytes()).ok()?;
    miswritten_over(alloc, &catalog, &opening)
}

fn miswritten_over(
    alloc: Global,
    catalog: &Catalog,
    opening: &List<OpeningRow>,
) -> Option<&'static str>
    requires { IsFormed catalog.now opening.now }
{
    let table = first_table(catalog, opening)?;
    let model = model_of(alloc, catalog).ok()?;
    first_miswritten(alloc, &model, &catalog.features, table)
}

fn first_miswritten(
    alloc: Global,
    model: &Model,
    features: &Features,
    table: &Table,
) -> Option<&'static str>
    requires { has_distinct_columns table.now ≡ true }
{
    let mut questions = Questions::new(alloc, model);
    for line in WRITES.lines() {
        let (text, wanted) = line.split_once(" => ")?;
        let written = written(alloc, &mut questions, features, table, text)?;
        if !are_wanted(alloc, model, features, written.as_slice(), wanted)? {
            return Some(line);
        }
    }
    Some("")
}

/// The rows after the write.
fn written(
    alloc: Global,
    questions: &mut Questions<'_>,
    features: &Features,
    table: &Table,
    text: &str,
) -> Option<List<VRow>>
    requires { has_distinct_columns table.now ≡ true }
{
    let write = write(alloc, text, features)?;
    let columns = stored_columns(alloc, table).ok()?;
    let stored = rows(alloc, STORED, features)?;
    write_rows(alloc, questions, table, &columns, &write, stored).ok()
}

/// Whether the rows have the wanted cells, under conditions that hold in the same variants.
fn are_wanted(
    alloc: Global,
    model: &Model,
    features: &Features,
    found: &[VRow],
    wanted: &str,
) -> Option<bool> {
    let wanted = rows(alloc, wanted, features)?;
    if found.len() != wanted.len() {
        return Some(false);
    }
    for (row, wanted) in found.iter().zip(wanted.as_slice()) {
        if !is_wanted(model, row, wanted)? {
            return Some(false);
        }
    }
    Some(true)
}

fn is_wanted(model: &Model, row: &VRow, wanted: &VRow) -> Option<bool> {
    if row.cells.as_slice() != wanted.cells.as_slice() {
        return Some(false);
    }
    model.equivalent(&row.cond, &wanted.cond).ok()
}
