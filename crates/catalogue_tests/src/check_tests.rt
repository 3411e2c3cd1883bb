//! What the check of a catalogue finds.

use condition_sat::Model;
use feature_expr::{Config, Expr, Features, Kind, List, Name, Value, eval, or, parse_expr};
use std::alloc::Global;
use std::process::Abort;
use std::str;
use std::test::Fail;
use vra_types::{CheckRefused, check_catalog};
use vschema::{Catalog, Column, OpeningRow, Table};

fn name(alloc: Global, text: &str) -> Result<Name, Fail> {
    Ok(Name::from_slice(alloc, text.as_bytes())?)
}

fn features(alloc: Global) -> Result<Features, Fail> {
    let mut names = Vec::new(alloc);
    for text in ["A", "B", "C"] {
        names.push(name(alloc, text)?)?;
    }
    Ok(Features::new(List::from_vec(names))?)
}

fn cond(alloc: Global, text: &str) -> Result<Expr, Fail> {
    Ok(parse_expr(alloc, text, &features(alloc)?, 64)?)
}

/// A table whose columns go by their conditions.
fn table(alloc: Global, text: &str, there: &str, columns: [&str; 2]) -> Result<Table, Fail> {
    let mut list = Vec::new(alloc);
    for column in columns {
        list.push(Column {
            name: name(alloc, column)?,
            kind: Kind::Int,
            cond: cond(alloc, column)?,
        })?;
    }
    Ok(Table {
        name: name(alloc, text)?,
        columns: List::from_vec(list),
        cond: cond(alloc, there)?,
    })
}

/// A row with a value where the text has an `x`.
fn row(alloc: Global, table: u32, line: u64, cells: &str, there: &str) -> Result<OpeningRow, Fail> {
    let mut list = Vec::new(alloc);
    for cell in cells.bytes() {
        list.push(if cell == b'x' {
            Some(Value::Int(1))
        } else {
            None
        })?;
    }
    Ok(OpeningRow {
        table,
        cells: List::from_vec(list),
        cond: cond(alloc, there)?,
        line,
    })
}

/// What the check says, without the configuration, which has to satisfy the condition.
fn shown(alloc: Global, answer: Result<Model, CheckRefused>, there: &Expr) -> Result<String, Fail> {
    match answer {
        Ok(_model) => Ok(format!(in alloc; "ok")?),
        Err(CheckRefused::NoVariant) => Ok(format!(in alloc; "no variant")?),
        Err(CheckRefused::NoColumn(name, config)) => {
            told(alloc, "no column", 0, &name, eval(there, &config))
        }
        Err(CheckRefused::MissingValue(line, name, config)) => {
            told(alloc, "no value", line, &name, eval(there, &config))
        }
        Err(CheckRefused::Memory) => Ok(format!(in alloc; "memory")?),
    }
}

fn told(alloc: Global, case: &str, line: u64, name: &Name, there: bool) -> Result<String, Fail> {
    let name = str::from_utf8(name.as_slice())?;
    Ok(format!(in alloc; "{case} {line} {name} {there}")?)
}

/// A model; the condition of a table, those of its two columns, which are their names too; the cells and the condition
/// of a row on line 7; then what the check says, and a condition that the configuration shown has to satisfy.
const CASES: &str = "\
-- the column isn't there together with the row
A or B | true | true | A | x- | not A | ok | true
not (A and B) | true | true | A | x- | B | ok | true
not (A and C) | C | true | A | x- | A | ok | true
true | not A | true | A | x- | true | ok | true
-- it is, if only in one variant of eight
A or B | true | true | A | x- | true | no value 7 A true | A
true | C | true | A | x- | B | no value 7 A true | A and B and C
true | true | true | A and not C | x- | B | no value 7 A and not C true | A and B and not C
A or B | true | not A | true | -- | true | no value 7 not A true | B and not A
-- a value too many has no effect, and a row that ends early has no value behind
true | true | not A | true | xx | A | ok | true
true | true | true | C | x | true | no value 7 C true | C
-- a table without columns in one variant, which comes before its rows
true | true | A | B or C | -- | true | no column 0 t true | not A and not B and not C
A or B | true | A | B | xx | true | ok | true
true | A or B | A | B | xx | true | ok | true
-- no variant at all
A and not A | true | A | B | -- | true | no variant | true
";

#[test]
fn each_case_is_found_in_its_variant(rt: HostRuntime) -> Result<(), Fail> {
    for line in CASES.lines() {
        if !line.starts_with("-- ") {
            is_found(&rt, rt.alloc(), line)?;
        }
    }
    Ok(())
}

fn is_found(rt: &impl Abort, alloc: Global, line: &str) -> Result<(), Fail> {
    let (wanted, found) = found_in(alloc, line)?;
    assert_eq!(rt; found.as_str(), wanted, "{line}");
    Ok(())
}

/// What is to be found, and what is found.
fn found_in(alloc: Global, line: &str) -> Result<(&str, String), Fail> {
    let (model, line) = line.split_once(" | ").ok_or("no table")?;
    let (cond, line) = line.split_once(" | ").ok_or("no column")?;
    let (first, line) = line.split_once(" | ").ok_or("no other column")?;
    let (second, line) = line.split_once(" | ").ok_or("no cells")?;
    let (cells, line) = line.split_once(" | ").ok_or("no row")?;
    let (row_cond, line) = line.split_once(" | ").ok_or("nothing wanted")?;
    let (wanted, there) = line.split_once(" | ").ok_or("no variant")?;
    let mut tables = Vec::new(alloc);
    tables.push(table(alloc, "t", cond, [first, second])?)?;
    let mut rows = Vec::new(alloc);
    rows.push(row(alloc, 0, 7, cells, row_cond)?)?;
    Ok((wanted, checked(alloc, model, tables, rows, there)?))
}

fn checked(
    alloc: Global,
    model: &str,
    tables: Vec<Table>,
    rows: Vec<OpeningRow>,
    there: &str,
) -> Result<String, Fail> {
    let catalog = Catalog {
        features: features(alloc)?,
        model: cond(alloc, model)?,
        tables: List::from_vec(tables),
    };
    let answer = check_catalog(alloc, &catalog, &List::from_vec(rows));
    shown(alloc, answer, &cond(alloc, there)?)
}

/// Rows of two tables: the number of a row's table, its cells, its condition, and what the check says of the rows up to
/// this one. Rows that are alike but for one thing stand behind one another.
const ROWS: [(u32, &str, &str); 8] = [
    (0, "x-", "B"),
    (0, "x-", "B"),
    (0, "xx", "A"),
    (0, "x-", "not A or B"),
    (1, "x-", "A"),
    (1, "-x", "false"),
    (0, "x-", "not A or B"),
    (1, "x-", "B"),
];

#[test]
fn the_first_row_counts(rt: HostRuntime) -> Result<(), Fail> {
    for count in 0..9 {
        let found = found_in_first(rt.alloc(), count)?;
        let wanted = if count < 8 { "ok" } else { "no value 8 B true" };
        assert_eq!(rt; found.as_str(), wanted);
    }
    Ok(())
}

fn found_in_first(alloc: Global, count: usize) -> Result<String, Fail> {
    let mut tables = Vec::new(alloc);
    tables.push(table(alloc, "t", "true", ["true", "A"])?)?;
    tables.push(table(alloc, "u", "true", ["true", "B"])?)?;
    let rows = first_rows(alloc, count)?;
    checked(alloc, "not (A and B)", tables, rows, "B and not A")
}

fn first_rows(alloc: Global, count: usize) -> Result<Vec<OpeningRow>, Fail> {
    let mut rows = Vec::new(alloc);
    for (place, (table, cells, there)) in ROWS.iter().take(count).enumerate() {
        rows.push(row(alloc, *table, place as u64 + 1, cells, there)?)?;
    }
    Ok(rows)
}

/// Two rows under a condition of a million links.
#[test]
fn long_conditions_take_no_stack(rt: HostRuntime) -> Result<(), Fail> {
    let found = found_under_chain(rt.alloc())?;
    assert_eq!(rt; found.as_str(), "ok");
    Ok(())
}

fn found_under_chain(alloc: Global) -> Result<String, Fail> {
    let mut tables = Vec::new(alloc);
    tables.push(table(alloc, "t", "true", ["true", "A"])?)?;
    let mut rows = Vec::new(alloc);
    for line in [1, 2] {
        let mut chained = row(alloc, 0, line, "x-", "true")?;
        chained.cond = chain(alloc)?;
        rows.push(chained)?;
    }
    checked(alloc, "not (A and B)", tables, rows, "true")
}

fn chain(alloc: Global) -> Result<Expr, Fail> {
    let mut expr = Expr::Feature(1);
    for _link in 0..1_000_000 {
        expr = or(alloc, expr, Expr::Feature(1))?;
    }
    Ok(expr)
}
