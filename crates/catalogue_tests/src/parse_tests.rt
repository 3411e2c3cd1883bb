//! Files that are catalogues, and what they are refused for. In a table `/` stands for the end of a line.

use feature_expr::{Expr, List, Name, TryCopy, Value, print_expr};
use std::alloc::Global;
use std::fmt::Write;
use std::process::Abort;
use std::str;
use std::test::Fail;
use vschema::{Catalog, CatalogRefused, OpeningRow, parse_catalog};

/// Catalogues, and what they spell.
const READ: &str = "\
features; => true
FEATURES ; => true
features true_, _a1; => true
-- a comment/features A, b; -- another => true
features A, a;/MODEL A or not a and A; => A or not a and A
features A; table t (a int8); table U2 (B text, c bool); => true | t true a Int true | u2 true b Text true c Bool true
features A; table t (a int8 when A, b text) when not A; => true | t not A a Int A b Text true
features A; table t (a int8 when (A or not (A))); => true | t true a Int A or not A
features A; table Emp (Id int8);//row EMP (ID -1); => true | emp true id Int true | 0@3 -1 true
features A; table t (a bool, b text); row/t (b 'it''s', a TRUE) when A; => true | t true a Bool true b Text true | 0@1 true 'it's' A
features; table t (a int8, b text, c bool); row t (c false);/row t (b ''); row t (b 'x', a 1); => true | t true a Int true b Text true c Bool true | 0@1 - - false true | 0@2 - '' - true | 0@2 1 'x' - true
features; table t (a int8); row t (a 9223372036854775807); row t (a -9223372036854775808); => true | t true a Int true | 0@1 9223372036854775807 true | 0@1 -9223372036854775808 true
features A, a; table t (a int8); row t (a 1) when A and not (a or A); => true | t true a Int true | 0@1 1 A and not (a or A)
features; table row (row int8); row row (row 1); table table (table bool, model text); => true | row true row Int true | table true table Bool true model Text true | 0@1 1 true
features when_; model when_; table t (a text); row t (a 'two/lines'); row t (a '--'); => when_ | t true a Text true | 0@1 'two/lines' true | 0@2 '--' true
features A; model true; table t (a int8); table u (a int8); row u (a 2); row t (a 1); => true | t true a Int true | u true a Int true | 1@1 2 true | 0@1 1 true
";

#[test]
fn reads_what_the_file_spells(rt: HostRuntime) -> Result<(), Fail> {
    for case in READ.lines() {
        let (text, wanted) = case.split_once(" => ").ok_or("no arrow")?;
        is_spelled(&rt, rt.alloc(), text, wanted)?;
    }
    Ok(())
}

fn is_spelled(rt: &impl Abort, alloc: Global, text: &str, wanted: &str) -> Result<(), Fail> {
    let text = with_lines(alloc, text)?;
    let wanted = with_lines(alloc, wanted)?;
    let spelled = copied(alloc, text.as_str())?;
    assert_eq!(rt; spelled.as_str().trim_end(), wanted.as_str(), "{text}");
    Ok(())
}

/// The text of a table's line.
fn with_lines(alloc: Global, line: &str) -> Result<String, Fail> {
    let mut text = String::new(alloc);
    for letter in line.chars() {
        text.push(if letter == '/' { '\n' } else { letter })?;
    }
    Ok(text)
}

/// What a copy of the catalogue and its rows spells.
fn copied(alloc: Global, text: &str) -> Result<String, Fail> {
    let (catalog, rows) = parse_catalog(alloc, text.as_bytes())?;
    let (catalog, rows) = (catalog.copy(alloc)?, rows.copy(alloc)?);
    shown(alloc, &catalog, &rows)
}

/// The features and the model, the tables with their columns and conditions, and the rows with their tables, lines,
/// cells and conditions.
fn shown(alloc: Global, catalog: &Catalog, rows: &List<OpeningRow>) -> Result<String, Fail> {
    let mut text = String::new(alloc);
    push_cond(alloc, &mut text, &catalog.model, catalog)?;
    push_tables(alloc, &mut text, catalog)?;
    for row in rows.as_slice() {
        write!(text, "| {}@{} ", row.table, row.line)?;
        for cell in row.cells.as_slice() {
            push_cell(&mut text, cell)?;
        }
        push_cond(alloc, &mut text, &row.cond, catalog)?;
    }
    Ok(text)
}

fn push_tables(alloc: Global, text: &mut String, catalog: &Catalog) -> Result<(), Fail> {
    for table in catalog.tables.as_slice() {
        text.push_str("| ")?;
        push_name(text, &table.name)?;
        push_cond(alloc, text, &table.cond, catalog)?;
        for column in table.columns.as_slice() {
            push_name(text, &column.name)?;
            write!(text, "{:?} ", column.kind)?;
            push_cond(alloc, text, &column.cond, catalog)?;
        }
    }
    Ok(())
}

fn push_cond(alloc: Global, text: &mut String, cond: &Expr, catalog: &Catalog) -> Result<(), Fail> {
    let printed = print_expr(alloc, cond, &catalog.features)?;
    text.push_str(str::from_utf8(printed.as_slice())?)?;
    text.push_str(" ")?;
    Ok(())
}

fn push_name(text: &mut String, name: &Name) -> Result<(), Fail> {
    text.push_str(str::from_utf8(name.as_slice())?)?;
    text.push_str(" ")?;
    Ok(())
}

fn push_cell(text: &mut String, cell: &Option<Value>) -> Result<(), Fail> {
    match cell {
        Some(Value::Int(number)) => write!(text, "{number} ")?,
        Some(Value::Bool(truth)) => write!(text, "{truth} ")?,
        Some(Value::Text(bytes)) => write!(text, "'{}' ", str::from_utf8(bytes.as_slice())?)?,
        None => text.push_str("- ")?,
    }
    Ok(())
}

#[test]
fn finds_a_table_by_its_name(rt: HostRuntime) -> Result<(), Fail> {
    for (name, wanted) in [("t", Some(0)), ("u", Some(1)), ("U", None), ("v", None)] {
        assert_eq!(rt; table_found(rt.alloc(), name)?, wanted);
    }
    Ok(())
}

fn table_found(alloc: Global, name: &str) -> Result<Option<u32>, Fail> {
    let (catalog, _rows) = parse_catalog(alloc, b"features; table t (a int8); table U (a int8);")?;
    let name = Name::from_slice(alloc, name.as_bytes())?;
    Ok(catalog.find_table(&name))
}

/// Texts with one fault each.
const ONE_FAULT: &str = "\
Syntax(1): 
Syntax(3): //
Syntax(1): ;
Syntax(1): features
Syntax(2): features/
Syntax(1): features A
Syntax(1): features A B;
Syntax(2): features A,/;
Syntax(1): features ,A;
Duplicate(2): features A,/A;
Syntax(3): features A,/-- a comment/not;
Syntax(1): features 'A';
Syntax(1): features 1;
Syntax(2): features/Aaaaaaaaaaaaaaaaaaaaaaaaaaaaaaaaaaaaaaaaaaaaaaaaaaaaaaaaaaaaaaaa;
Syntax(2): features A;/features B;
Syntax(2): features A;/model A
Syntax(2): features A;/model;
UnknownFeature(2): features A;/model B;
UnknownFeature(2): features A;/model a;
Syntax(3): features A;/model A;/model A;
Syntax(3): features A;/table t (a int8);/model A;
Syntax(2): features;/table
Syntax(2): features;/table t;
Syntax(2): features;/table t ();
Syntax(2): features;/table t (a);
Syntax(3): features;/table t (a int8,/);
Syntax(2): features;/table t (a tex);
Duplicate(3): features;/table t (a int8,/A text);
Syntax(3): features;/table t (a int8)/
Duplicate(4): features;/table t (a int8);//table T (b int8);
Syntax(2): features;/table select (a int8);
Syntax(2): features;/table t (values int8);
Syntax(2): features;/table t (a int8) when;
UnknownFeature(3): features A;/table t (a int8 when/B);
Syntax(3): features A;/table t (a int8)/when A or;
UnknownName(2): features;/row t (a 1);/table t (a int8);
UnknownName(3): features;/table t (a int8);/row u (a 1);
UnknownName(4): features;/table t (a int8);/row t (/b 1);
Duplicate(3): features;/table t (a int8);/row t (a 1, a 2);
Duplicate(4): features;/table t (a int8);/row t (a 1,/A 1);
WrongKind(3): features;/table t (a int8);/row t (a 'x');
WrongKind(4): features;/table t (a int8);/row t (a/true);
Syntax(3): features;/table t (a int8);/row t (a 9223372036854775808);
Syntax(3): features;/table t (a int8);/row t (a $1);
Syntax(3): features;/table t (a int8);/row t (a);
Syntax(3): features;/table t (a int8);/row t ();
Syntax(4): features;/table t (a int8);/row t (a 1/
UnknownFeature(4): features;/table t (a int8);/row t (a 1) when/a;
Syntax(3): features;/table t (a int8);/row t (a 1) when;
Syntax(3): features;/table t (a int8);/row t (a 1) when true
Syntax(3): features;/table t (a text);/row t (a 'open/);
Syntax(3): features;/table t (a int8);/row t (a 1); x
Syntax(2): features;/-- \0
Syntax(2): features;/\0
";

/// Texts with several faults, of which the first counts.
const FIRST_FAULT: &str = "\
Duplicate(1): features A, A,/not;
Syntax(2): features A,/not, A,/A;
UnknownFeature(2): features A;/table t (a int8 when B,/a int8);
Duplicate(3): features A;/table t (a int8,/a int8 when B);
UnknownName(2): features;/row t (a 1);/;
WrongKind(3): features;/table t (a int8);/row t (a 'x', b 1,/a 2);
UnknownName(3): features;/table t (a int8);/row t (b 'x',/a 'x');
Syntax(3): features;/table t (a text);/row t (a 9223372036854775808);
UnknownFeature(2): features A;/model A and (B or/A
Duplicate(3): features;/table t (a int8);/row t (a 1, a/'x');
Duplicate(3): features;/table t (a int8);/table t (a tex);
Syntax(2): features A/A;/table
";

#[test]
fn refuses_for_the_first_fault(rt: HostRuntime) -> Result<(), Fail> {
    are_refused(&rt, rt.alloc(), ONE_FAULT)?;
    are_refused(&rt, rt.alloc(), FIRST_FAULT)
}

fn are_refused(rt: &impl Abort, alloc: Global, table: &str) -> Result<(), Fail> {
    for case in table.lines() {
        let (wanted, text) = case.split_once(": ").ok_or("no colon")?;
        let text = with_lines(alloc, text)?;
        let said = refusal_of(alloc, text.as_str())?;
        assert_eq!(rt; said.as_str(), wanted, "{text}");
    }
    Ok(())
}

/// What a text is refused for.
pub fn refusal_of(alloc: Global, text: &str) -> Result<String, Fail> {
    match parse_catalog(alloc, text.as_bytes()) {
        Ok(_found) => Ok(format!(in alloc; "nothing")?),
        Err(why) => Ok(format!(in alloc; "{why:?}")?),
    }
}

/// Bytes that aren't text, and the first of them that isn't.
const NOT_TEXT: [(&[u8], u64); 4] = [
    (b"\xff", 0),
    (b"features;\xff", 9),
    (b"features A; \xe2\x82", 12),
    (b"; not ;\xc3\x28", 7),
];

#[test]
fn refuses_what_is_not_text(rt: HostRuntime) {
    for (bytes, place) in NOT_TEXT {
        let told = parse_catalog(rt.alloc(), bytes).err();
        assert_eq!(rt; told, Some(CatalogRefused::Utf8(place)));
    }
}
