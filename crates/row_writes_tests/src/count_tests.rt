ghost use Rattle.std.specs.Prelude.{◌≡◌, true};
ghost use Rattle.vschema.specs.Formed.{IsFormed, has_distinct_columns};

use crate::given::{first_table, model_of, rows, write};
use asked_conditions::Questions;
use condition_sat::Model;
use feature_expr::Features;
use row_writes::stored_columns;
use std::alloc::Global;
use values::List;
use vschema::{Catalog, OpeningRow, Table, parse_catalog};
use vtable::VRow;
use write_counts::count_write;

/// A table with two columns in every variant, under the variants {A}, {B} and {A,B}.
const STOCK: &str =
    "features A, B; model A or B; table stock (sku int8, label text, price int8 when A);";

const STOCK_ROWS: &str = "5 nut 70 true | 5 nut 80 A and B | 6 nail - not A | 7 bolt 9 A and B";

/// A write, and the number in its tag.
const STOCK_WRITES: &str = "\
delete from stock where true => 3
delete from stock where sku = 5 => 1
delete from stock where price > 50 => 1
delete from stock where price = 9 when not A => 0
delete from stock where true when not A => 2
delete from stock where true when not A and not B => 0
delete from stock where sku = 6 when A => 0
update stock set label = 'x' where sku < 7 when A => 1
update stock set label = 'x' where sku > 5 => 2
update stock set label = 'x' where choice [A] (sku = 7, label = 'nail') => 2
insert into stock (sku, label, price) values (8, 'rod', 3), (8, 'rod', 3) when A => 2
insert into stock (label, sku) values ('rod', 8) when not A => 1
insert into stock (label, sku) values ('rod', 8) when A and not A => 0
";

/// A table that some variants lack. In those that have it, its first two columns are there.
const GEAR: &str =
    "features A, B; table gear (id int8, size int8 when A, note text when B) when A;";

const GEAR_ROWS: &str = "1 4 - true | 1 4 x B | 1 5 - A | 2 6 - not A";

const GEAR_WRITES: &str = "\
delete from gear where true => 2
delete from gear where id = 2 => 0
update gear set id = 3 where note = 'x' => 1
delete from gear where true when not A => 0
insert into gear (id, size) values (3, 7) when B => 1
insert into gear (id) values (3) when not A => 0
";

/// A table of which no column is there in every variant, and that has none in the variant without features.
const PART: &str =
    "features A, B; table part (code int8 when A, name text when B, size int8 when A and B);";

const PART_ROWS: &str = "1 - - A and not B | 2 nut 4 A and B | 3 bolt 5 not A and not B";

const PART_WRITES: &str = "\
delete from part where true => 1
delete from part where code = 9 => 0
update part set code = 8 where code < 3 => 1
delete from part where true when not A and not B => 0
delete from part where true when B => 1
insert into part (code) values (4), (5) when A and not B => 2
";

#[test]
fn writes_are_counted_as_worked_out(rt: HostRuntime) {
    for (catalogue, stored, writes) in [
        (STOCK, STOCK_ROWS, STOCK_WRITES),
        (GEAR, GEAR_ROWS, GEAR_WRITES),
        (PART, PART_ROWS, PART_WRITES),
    ] {
        let wrong = miscounted(rt.alloc(), catalogue, stored, writes);
        assert_eq!(rt; wrong, Some(""));
    }
}

/// The first line whose write has another number, or an empty one.
fn miscounted(
    alloc: Global,
    catalogue: &str,
    stored: &str,
    writes: &'static str,
) -> Option<&'static str> {
    let (catalog, opening) = parse_catalog(alloc, catalogue.as_bytes()).ok()?;
    let stored = rows(alloc, stored, &catalog.features)?;
    miscounted_over(alloc, &catalog, &opening, stored.as_slice(), writes)
}

fn miscounted_over(
    alloc: Global,
    catalog: &Catalog,
    opening: &List<OpeningRow>,
    stored: &[VRow],
    writes: &'static str,
) -> Option<&'static str>
    requires { IsFormed catalog.now opening.now }
{
    let table = first_table(catalog, opening)?;
    let model = model_of(alloc, catalog).ok()?;
    first_miscounted(alloc, &model, &catalog.features, table, stored, writes)
}

fn first_miscounted(
    alloc: Global,
    model: &Model,
    features: &Features,
    table: &Table,
    stored: &[VRow],
    writes: &'static str,
) -> Option<&'static str>
    requires { has_distinct_columns table.now ≡ true }
{
    let mut questions = Questions::new(alloc, model);
    for line in writes.lines() {
        if !is_counted(alloc, &mut questions, features, table, stored, line)? {
            return Some(line);
        }
    }
    Some("")
}

fn is_counted(
    alloc: Global,
    questions: &mut Questions<'_>,
    features: &Features,
    table: &Table,
    stored: &[VRow],
    line: &str,
) -> Option<bool>
    requires { has_distinct_columns table.now ≡ true }
{
    let (text, wanted) = line.split_once(" => ")?;
    let write = write(alloc, text, features)?;
    let columns = stored_columns(alloc, table).ok()?;
    let count = count_write(alloc, questions, table, &columns, &write, stored).ok()?;
    Some(wanted.parse::<u64>().ok()? == count)
}
