use crate::given::{model_of, table_names, write};
use asked_conditions::Questions;
use feature_expr::{Features, eval, parse_expr};
use generated_queries::PARAMETER_KINDS;
use query_meaning::{IllCase, IllTyped, TypeRefused};
use std::alloc::Global;
use std::process::Abort;
use std::str;
use std::test::Fail;
use vschema::parse_catalog;
use write_typing::type_write;

/// Its variants are {A}, {B} and {A,B}.
const CATALOGUE: &str =
    "features A, B; model A or B; table stock (sku int8, label text, price int8 when A); table shelf (place int8, note text) when B; table half (x int8 when A, y text when not A);";

/// A write, and the case that is shown of it: its name, and of a case of variants an expression that the shown variant
/// satisfies.
const WRITES: &str = "\
update stock set price = 70 where sku = 5 => absent price where not A
update stock set price = 70 where sku = 5 when A => ok
insert into stock (sku, label) values (9, 'nut') => no value price where A
insert into stock (sku, label) values (9, 'nut') when not A => ok
insert into stock (sku, label) values (9, 'nut') when B => no value price where A and B
insert into stock (price, label, sku) values (70, 'nut', 9), ($1, $2, 8) when A => ok
insert into stock (label, price) values ('nut', 7) when A => no value sku where A
insert into stock (sku, label, price) values (9, 'nut', 70) => ok
insert into stock (sku, label, price) values (9, 'nut', 70), (9, 'nut', 'x') => value price
insert into stock (sku, label, price) values (9, $1, 70) => value label
insert into stock (sku, label, price) values (9, 'nut', $4) => no kind 4
insert into stock (sku, label, sku) values (9, 'nut', 9) => twice sku
insert into stock (sku, weight) values (9, 9) => no column weight
insert into store (sku) values (true) => no table store
insert into shelf (place) values (1) => no value note where B
insert into shelf (place) values (1) when not B => ok
insert into half (x) values (1) => no value y where B and not A
insert into half (y) values ('a') => no value x where A
insert into half (x) values (1) when A => ok
insert into half (x, y) values (1, 'a') => ok
update half set x = 1, y = 'a' where true => absent x where not A
update half set y = 'a' where true when A => absent y where A
update half set y = $2 where choice [A] (false, y <> $2) when not A => ok
update stock set sku = 1, sku = 2 where true => twice sku
update stock set sku = 'a' where true => value sku
update stock set sku = $3 where true => value sku
update stock set sku = 1 where shade = 2 => no column shade
update stock set sku = 1 where stock.sku = 2 => no column stock.sku
update stock set label = 'nut' where price > 1 => absent price where not A
update shelf set note = 'top' where place = 1 => ok
update shelf set note = 'top' where note = 1 => kinds note where B
update shelf set note = 'top' where note = 1 when A and not B => ok
delete from stock where price > 1 when B => absent price where B and not A
delete from stock where price > 1 when A => ok
delete from stock where choice [A] (price > 1, true) => ok
delete from stock where choice [A] (true, label = 1) => kinds label where not A
delete from stock where choice [A and not A] (label = 1, true) => ok
delete from stock where choice [A and not A] (shade = 1, true) => no column shade
delete from stock where sku = $9 => no kind 9
delete from half where x = 1 or y = 'a' when A and not A => ok
";

#[test]
fn writes_are_typed_as_worked_out(rt: HostRuntime) -> Result<(), Fail> {
    let alloc = rt.alloc();
    let (catalog, rows) = parse_catalog(alloc, CATALOGUE.as_bytes())?;
    let model = model_of(alloc, &catalog)?;
    let tables = table_names(alloc, &catalog, &rows)?;
    let mut questions = Questions::new(alloc, &model);
    for line in WRITES.lines() {
        let (text, wanted) = line.split_once(" => ").ok_or("no arrow")?;
        let write = write(alloc, text, &catalog.features)?;
        match type_write(alloc, &mut questions, &tables, write, &PARAMETER_KINDS) {
            Ok(_typed) => assert_eq!(&rt; wanted, "ok", "{text}"),
            Err(TypeRefused::Ill(why)) => {
                is_shown(&rt, alloc, &catalog.features, &why, wanted, text)?;
            }
            Err(_) => return Err("too wide, or no memory".into()),
        }
    }
    Ok(())
}

fn is_shown(
    rt: &impl Abort,
    alloc: Global,
    features: &Features,
    why: &IllTyped,
    wanted: &str,
    text: &str,
) -> Result<(), Fail> {
    let (case, expr) = wanted.split_once(" where ").unwrap_or((wanted, ""));
    let mut shown = String::new(alloc);
    put_case(&mut shown, why)?;
    assert_eq!(rt; shown.as_str(), case, "{text}");
    match &why.config {
        Some(config) => {
            let expr = parse_expr(alloc, expr, features, 64)?;
            assert!(rt; eval(&expr, config), "{text}");
        }
        None => assert_eq!(rt; expr, "", "{text}"),
    }
    Ok(())
}

fn put_case(shown: &mut String, why: &IllTyped) -> Result<(), Fail> {
    match why.case {
        IllCase::NoTable => shown.push_str("no table ")?,
        IllCase::NoColumn => shown.push_str("no column ")?,
        IllCase::AbsentColumn => shown.push_str("absent ")?,
        IllCase::KindsDiffer => shown.push_str("kinds ")?,
        IllCase::ValueKind => shown.push_str("value ")?,
        IllCase::NamedTwice => shown.push_str("twice ")?,
        IllCase::NoValue => shown.push_str("no value ")?,
        IllCase::ParamKind(number) => write!(shown, "no kind {number}")?,
        IllCase::Twice => shown.push_str("columns twice ")?,
        IllCase::ColumnsDiffer => shown.push_str("columns differ ")?,
    }
    if let Some(prefix) = &why.name.prefix {
        shown.push_str(str::from_utf8(prefix.as_slice())?)?;
        shown.push_str(".")?;
    }
    shown.push_str(str::from_utf8(why.name.base.as_slice())?)?;
    Ok(())
}
