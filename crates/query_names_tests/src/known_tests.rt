ghost use Rattle.vschema.specs.Formed.{IsFormed};

use crate::named::{kind_word, listed, statement, table_names};
use feature_expr::Features;
use query_meaning::{IllCase, TypeRefused};
use query_names::{NamesRefused, TableNames, names_of, param_kinds};
use std::alloc::Global;
use values::{Kind, List};
use vra_syntax::Statement;
use vschema::{Catalog, OpeningRow, parse_catalog};

const CATALOGUE: &str =
    "features A, B; table emp (id int8, name text, pay int8) when A; table dept (id int8, boss text); table odd (id text, x bool);";

/// A query and its possible columns, a line each.
const COLUMNS: &str = "\
emp => id int8, name text, pay int8
gone => 
empty => 
select * from emp join dept on true => id int8, name text, pay int8, boss text
select * from dept join emp on true => id int8, boss text, name text, pay int8
emp union odd => id int8, name text, pay int8, id text, x bool
emp except odd => id int8, name text, pay int8
choice [A] (dept, odd) => id int8, boss text, id text, x bool
select * from emp as e => e.id int8, e.name text, e.pay int8
select * from (select * from emp as e) as f => f.id int8, f.name text, f.pay int8
select * from (select * from emp as a join emp as b on true) as c => c.id int8, c.name text, c.pay int8
select * from (dept union select * from odd as o) as e => e.id int8, e.boss text, e.id text, e.x bool
select id, name as who, id as a.id from emp => id int8, who text, a.id int8
select id as x from (dept union odd) => x int8, x text
select id as x, boss as x, id as x from dept => x int8, x text
select nothing, pay from emp => pay int8
";

#[test]
fn possible_columns_are_known(rt: HostRuntime) {
    assert_eq!(rt; wrong_line(rt.alloc(), COLUMNS, Asked::Columns), "");
}

/// A statement, and the kinds of its parameters or why they have none, a line each.
const KINDS: &str = "\
select * from emp where id = $1 =>  int8
select * from emp where $1 = $2 and $2 = id and name = $1 =>  text int8
select * from emp where $1 = name or $1 = id =>  text
select * from (dept union odd) where id = $1 and $1 = true =>  bool
select * from (dept union odd) where id = $1 => no kind of 1
select * from emp where id = $2 => no kind of 1
select * from emp where $1 = $1 => no kind of 1
select * from emp where nothing = $1 => no column
select * from gone where id = $1 => no table
choice [A] (emp, select * from emp where id = 1 and 2 = $1) =>  int8
insert into emp (id, name) values ($2, $1), (1, $3) =>  text int8 text
insert into emp (id, nothing) values (1, $1) => no column
insert into gone (id) values ($1) => no table
update emp set name = $1, pay = $2 where id = $1 =>  text int8
delete from emp where name < $1 =>  text
begin => 
";

#[test]
fn kinds_are_known(rt: HostRuntime) {
    assert_eq!(rt; wrong_line(rt.alloc(), KINDS, Asked::Kinds), "");
}

/// What is asked of each line's statement.
#[derive(Clone, Copy)]
enum Asked {
    Columns,
    Kinds,
}

/// The first line whose statement isn't answered as it says, or an empty one.
fn wrong_line(alloc: Global, lines: &'static str, asked: Asked) -> &'static str {
    match parse_catalog(alloc, CATALOGUE.as_bytes()) {
        Ok((catalog, rows)) => wrong_over(alloc, &catalog, &rows, lines, asked),
        Err(_refused) => "no catalogue",
    }
}

fn wrong_over(
    alloc: Global,
    catalog: &Catalog,
    rows: &List<OpeningRow>,
    lines: &'static str,
    asked: Asked,
) -> &'static str
    requires { IsFormed catalog.now rows.now }
{
    match table_names(alloc, catalog, rows) {
        Ok(tables) => first_wrong(alloc, &tables, &catalog.features, lines, asked),
        Err(_memory) => "no memory",
    }
}

fn first_wrong(
    alloc: Global,
    tables: &TableNames<'_>,
    features: &Features,
    lines: &'static str,
    asked: Asked,
) -> &'static str {
    for line in lines.lines() {
        if is_answered(alloc, tables, features, line, asked) != Some(true) {
            return line;
        }
    }
    ""
}

fn is_answered(
    alloc: Global,
    tables: &TableNames<'_>,
    features: &Features,
    line: &str,
    asked: Asked,
) -> Option<bool> {
    let (text, wanted) = line.split_once(" => ")?;
    let statement = statement(alloc, text, features)?;
    let answer = match asked {
        Asked::Columns => columns_of(alloc, tables, &statement)?,
        Asked::Kinds => kinds_of(alloc, tables, &statement)?,
    };
    Some(answer.as_slice() == wanted.as_bytes())
}

fn columns_of(alloc: Global, tables: &TableNames<'_>, statement: &Statement) -> Option<Vec<u8>> {
    let Statement::Query(query) = statement else {
        return None;
    };
    match names_of(alloc, tables, query) {
        Ok(names) => listed(alloc, names.possible.as_slice()),
        Err(_refused) => None,
    }
}

fn kinds_of(alloc: Global, tables: &TableNames<'_>, statement: &Statement) -> Option<Vec<u8>> {
    match param_kinds(alloc, tables, statement, &[]) {
        Ok(kinds) => kind_words(alloc, kinds.as_slice()),
        Err(TypeRefused::Ill(why)) => Some(refusal(alloc, why.case)?.into_bytes()),
        Err(_) => None,
    }
}

fn kind_words(alloc: Global, kinds: &[Kind]) -> Option<Vec<u8>> {
    let mut words = Vec::new(alloc);
    for kind in kinds {
        words.extend_from_slice(kind_word(*kind)).ok()?;
    }
    Some(words)
}

fn refusal(alloc: Global, case: IllCase) -> Option<String> {
    match case {
        IllCase::NoTable => format!(in alloc; "no table").ok(),
        IllCase::NoColumn => format!(in alloc; "no column").ok(),
        IllCase::ParamKind(number) => format!(in alloc; "no kind of {number}").ok(),
        _ => None,
    }
}

/// How many tables of 64 columns, no two of one name, are joined on the left and on the right of a union, and the count
/// that is shown.
const WIDTHS: [(usize, usize, u64); 5] = [
    (25, 25, 0),
    (26, 25, 1_664),
    (25, 26, 1_664),
    (27, 26, 1_664),
    (3, 1, 0),
];

#[test]
fn the_first_part_that_is_too_wide_is_shown(rt: HostRuntime) {
    for (left, right, wanted) in WIDTHS {
        let shown = shown_width(rt.alloc(), left, right);
        assert_eq!(rt; shown, Some(wanted), "{left} and {right}");
    }
}

fn shown_width(alloc: Global, left: usize, right: usize) -> Option<u64> {
    let spelled = wide_tables(alloc)?;
    let text = joins(alloc, left, right)?;
    width_in(alloc, spelled.as_bytes(), text.as_str())
}

fn width_in(alloc: Global, spelled: &[u8], text: &str) -> Option<u64> {
    match parse_catalog(alloc, spelled) {
        Ok((catalog, rows)) => width_over(alloc, &catalog, &rows, text),
        Err(_refused) => None,
    }
}

fn width_over(alloc: Global, catalog: &Catalog, rows: &List<OpeningRow>, text: &str) -> Option<u64>
    requires { IsFormed catalog.now rows.now }
{
    match table_names(alloc, catalog, rows) {
        Ok(tables) => width_of(alloc, &tables, &statement(alloc, text, &catalog.features)?),
        Err(_memory) => None,
    }
}

fn width_of(alloc: Global, tables: &TableNames<'_>, statement: &Statement) -> Option<u64> {
    let Statement::Query(query) = statement else {
        return None;
    };
    match names_of(alloc, tables, query) {
        Ok(_names) => Some(0),
        Err(NamesRefused::TooWide(count)) => Some(count),
        Err(NamesRefused::Memory) => None,
    }
}

fn wide_tables(alloc: Global) -> Option<String> {
    let mut text = String::new(alloc);
    text.push_str("features A;").ok()?;
    for table in 0..27_u64 {
        put_table(&mut text, table)?;
    }
    Some(text)
}

fn put_table(text: &mut String, table: u64) -> Option<()> {
    write!(text, " table t{table} (").ok()?;
    for column in 0..64_u64 {
        let between = if column == 0 { "" } else { ", " };
        write!(text, "{between}c{table}x{column} int8").ok()?;
    }
    text.push_str(");").ok()
}

fn joins(alloc: Global, left: usize, right: usize) -> Option<String> {
    let mut text = String::new(alloc);
    put_join(&mut text, left)?;
    text.push_str(" union ").ok()?;
    put_join(&mut text, right)?;
    Some(text)
}

fn put_join(text: &mut String, count: usize) -> Option<()> {
    text.push_str("(select * from t0").ok()?;
    for table in 1..count {
        write!(text, " join t{table} on true").ok()?;
    }
    text.push_str(")").ok()
}
