//! Tables worked out by hand, as the lists of their columns and rows.
use condition_sat::Model;
use feature_expr::{
    ColName, Config, Expr, Features, Kind, List, Memory, Name, Text, TryCopy, Value, or, parse_expr,
};
use std::alloc::Global;
use std::fmt::Write;
use std::str;
use std::test::Fail;
use vtable::{Plain, VColumn, VRow, VTable, configure, made_normal, made_plain, normal};

/// The features A and B, with the numbers 0 and 1.
fn letters(alloc: Global) -> Result<Features, Fail> {
    let mut names = List::new(alloc);
    for letter in b"AB" {
        let name = Name::from_slice(alloc, &[*letter])?;
        names.push(name).ok().ok_or("memory")?;
    }
    Ok(Features::new(names)?)
}

fn parsed(alloc: Global, text: &str) -> Result<Expr, Fail> {
    let features = letters(alloc)?;
    Ok(parse_expr(alloc, text, &features, 64)?)
}

/// A column of `x int when A` is spelled `("x", Kind::Int, "A")`.
fn column(alloc: Global, spelled: &(&str, Kind, &str)) -> Result<VColumn, Fail> {
    let (name, kind, cond) = spelled;
    let base = Name::from_slice(alloc, name.as_bytes())?;
    let cond = parsed(alloc, cond)?;
    Ok(VColumn {
        name: ColName { prefix: None, base },
        kind: *kind,
        cond,
    })
}

/// A cell that is spelled by digits is an integer, any other word a text, and `-` no cell.
fn cell(alloc: Global, word: &str) -> Result<Option<Value>, Fail> {
    if word == "-" {
        return Ok(None);
    }
    match word.parse::<i64>() {
        Ok(number) => Ok(Some(Value::Int(number))),
        Err(_text) => Ok(Some(Value::Text(Text::from_slice(alloc, word.as_bytes())?))),
    }
}

fn row(alloc: Global, spelled: &(&str, &str)) -> Result<VRow, Fail> {
    let (words, cond) = spelled;
    let mut cells = List::new(alloc);
    for word in words.split(' ') {
        let cell = cell(alloc, word)?;
        cells.push(cell).ok().ok_or("memory")?;
    }
    let cond = parsed(alloc, cond)?;
    Ok(VRow { cells, cond })
}

fn table(
    alloc: Global,
    columns: &[(&str, Kind, &str)],
    rows: &[(&str, &str)],
) -> Result<VTable, Fail> {
    let mut made = VTable {
        columns: List::new(alloc),
        rows: List::new(alloc),
    };
    for spelled in columns {
        let column = column(alloc, spelled)?;
        made.columns.push(column).ok().ok_or("memory")?;
    }
    for spelled in rows {
        let row = row(alloc, spelled)?;
        made.rows.push(row).ok().ok_or("memory")?;
    }
    Ok(made)
}

type Columns<'a> = &'a [(&'a str, Kind, &'a str)];

type Rows<'a> = &'a [(&'a str, &'a str)];

/// Whether the condition is the wanted one under the model; `true` is wanted as it is spelled.
fn is_wanted(model: &Model, cond: &Expr, wanted: &Expr) -> Result<bool, Memory> {
    match wanted {
        Expr::True => match cond {
            Expr::True => Ok(true),
            _ => Ok(false),
        },
        _ => model.equivalent(cond, wanted),
    }
}

fn are_columns_wanted(
    model: &Model,
    columns: &[VColumn],
    wanted: &[VColumn],
) -> Result<bool, Memory> {
    if columns.len() != wanted.len() {
        return Ok(false);
    }
    for (column, wanted) in columns.iter().zip(wanted) {
        if column.name != wanted.name || column.kind != wanted.kind {
            return Ok(false);
        }
        if !is_wanted(model, &column.cond, &wanted.cond)? {
            return Ok(false);
        }
    }
    Ok(true)
}

fn are_rows_wanted(model: &Model, rows: &[VRow], wanted: &[VRow]) -> Result<bool, Memory> {
    if rows.len() != wanted.len() {
        return Ok(false);
    }
    for (row, wanted) in rows.iter().zip(wanted) {
        if row.cells.as_slice() != wanted.cells.as_slice() {
            return Ok(false);
        }
        if !is_wanted(model, &row.cond, &wanted.cond)? {
            return Ok(false);
        }
    }
    Ok(true)
}

/// Whether the table in table form, under the model `A or B`, is the wanted one.
fn gives(alloc: Global, before: &VTable, wanted: &VTable) -> Result<bool, Fail> {
    let expr = parsed(alloc, "A or B")?;
    let model = Model::new(alloc, expr)?;
    let after = made_normal(alloc, &model, before.copy(alloc)?)?;
    let columns = are_columns_wanted(&model, after.columns.as_slice(), wanted.columns.as_slice())?;
    let rows = are_rows_wanted(&model, after.rows.as_slice(), wanted.rows.as_slice())?;
    Ok(columns && rows)
}

const NUMBER: Columns<'static> = &[("x", Kind::Int, "true")];

const PAIR: Columns<'static> = &[("x", Kind::Int, "true"), ("y", Kind::Int, "A")];

const NAMED: Columns<'static> = &[("id", Kind::Int, "true"), ("name", Kind::Text, "true")];

const STAFF: Columns<'static> = &[
    ("id", Kind::Int, "true"),
    ("name", Kind::Text, "true"),
    ("pay", Kind::Int, "A"),
];

const ROOMS: Columns<'static> = &[("id", Kind::Int, "B"), ("title", Kind::Text, "B")];

const CHOSEN: Columns<'static> = &[("x", Kind::Int, "A"), ("x", Kind::Text, "not A")];

/// Tables with one list of columns: their rows, and those in table form.
const SAME_COLUMNS: &[(Columns<'static>, Rows<'static>, Rows<'static>)] = &[
    // a row that can't have its cell when it is there
    (
        STAFF,
        &[
            ("3 cy 30", "not A"),
            ("2 bob 20", "A"),
            ("1 ann 10", "true"),
        ],
        &[("1 ann 10", "true"), ("2 bob 20", "A"), ("3 cy -", "not A")],
    ),
    (ROOMS, &[("7 ops", "B")], &[("7 ops", "B")]),
    // columns of one name and two kinds
    (
        CHOSEN,
        &[
            ("1 bob", "A"),
            ("2 ann", "A"),
            ("4 cy", "not A"),
            ("5 ann", "not A"),
        ],
        &[
            ("- ann", "not A"),
            ("- cy", "not A"),
            ("1 -", "A"),
            ("2 -", "A"),
        ],
    ),
    (NUMBER, &[("5", "A and not B")], &[("5", "A and not B")]),
    // doubled rows
    (
        NAMED,
        &[("1 ann", "A"), ("1 ann", "true")],
        &[("1 ann", "true")],
    ),
    (NUMBER, &[("1", "A"), ("1", "B")], &[("1", "true")]),
    (
        NUMBER,
        &[("2", "A and B"), ("1", "B"), ("2", "A and not B")],
        &[("1", "B"), ("2", "A")],
    ),
    (
        NUMBER,
        &[("1", "A and B"), ("1", "A and not B"), ("1", "not A")],
        &[("1", "true")],
    ),
    // a row that no variant has, and one that always is there
    (
        NUMBER,
        &[("1", "not A and not B"), ("2", "A or not A")],
        &[("2", "true")],
    ),
    // an absent cell is before every value, and lists of cells that are cut alike are one row
    (
        PAIR,
        &[("1 -5", "A"), ("1 7", "not A"), ("1 8", "not A and B")],
        &[("1 -", "not A"), ("1 -5", "A")],
    ),
];

#[test]
fn has_each_row_once(rt: HostRuntime) -> Result<(), Fail> {
    for (columns, before, after) in SAME_COLUMNS {
        let before = table(rt.alloc(), columns, before)?;
        let after = table(rt.alloc(), columns, after)?;
        assert!(rt; gives(rt.alloc(), &before, &after)?);
    }
    Ok(())
}

/// Tables, and their columns and rows in table form.
const OTHER_COLUMNS: &[(
    Columns<'static>,
    Rows<'static>,
    Columns<'static>,
    Rows<'static>,
)] = &[
    // a column that no variant has
    (
        &[
            ("x", Kind::Int, "not A and not B"),
            ("y", Kind::Int, "true"),
        ],
        &[("1 3", "A"), ("2 3", "B")],
        &[("y", Kind::Int, "true")],
        &[("3", "true")],
    ),
    // a column that all variants have
    (
        &[("x", Kind::Int, "A or B or not A")],
        &[("1", "A")],
        NUMBER,
        &[("1", "A")],
    ),
    // a row that is there in no variant that has a column
    (
        &[("x", Kind::Int, "A")],
        &[("1", "not A"), ("2", "B")],
        &[("x", Kind::Int, "A")],
        &[("2", "B")],
    ),
];

#[test]
fn has_the_columns_that_can_be_there(rt: HostRuntime) -> Result<(), Fail> {
    for (columns, before, left, after) in OTHER_COLUMNS {
        let before = table(rt.alloc(), columns, before)?;
        let after = table(rt.alloc(), left, after)?;
        assert!(rt; gives(rt.alloc(), &before, &after)?);
    }
    Ok(())
}

/// The names of the columns and the values of the rows, or `absent`.
fn shown(alloc: Global, plain: &Plain) -> Result<String, Fail> {
    let mut text = String::new(alloc);
    match plain {
        Plain::Absent => text.push_str("absent")?,
        Plain::Rel(columns, rows) => {
            for column in columns.as_slice() {
                write!(text, "{} ", str::from_utf8(column.name.base.as_slice())?)?;
            }
            for row in rows.as_slice() {
                push_row(&mut text, row)?;
            }
        }
    }
    Ok(text)
}

fn push_row(text: &mut String, row: &List<Value>) -> Result<(), Fail> {
    text.push_str("| ")?;
    for value in row.as_slice() {
        match value {
            Value::Int(number) => write!(text, "{number} ")?,
            Value::Bool(truth) => write!(text, "{truth} ")?,
            Value::Text(bytes) => write!(text, "{} ", str::from_utf8(bytes.as_slice())?)?,
        }
    }
    Ok(())
}

const STAFF_ROWS: Rows<'static> = &[
    ("3 cy 0", "not A"),
    ("2 bob 20", "A"),
    ("1 ann 10", "true"),
    ("1 ann 11", "B"),
];

/// Tables in the variants with A alone, with B alone, and with both.
const VARIANTS: &[(Columns<'static>, Rows<'static>, [&str; 3])] = &[
    (
        STAFF,
        STAFF_ROWS,
        [
            "id name pay | 1 ann 10 | 2 bob 20 ",
            "id name | 1 ann | 3 cy ",
            "id name pay | 1 ann 10 | 1 ann 11 | 2 bob 20 ",
        ],
    ),
    (
        ROOMS,
        &[("7 ops", "true")],
        ["absent", "id title | 7 ops ", "id title | 7 ops "],
    ),
    (
        CHOSEN,
        &[("2 ann", "true"), ("1 bob", "true"), ("2 cy", "B")],
        ["x | 1 | 2 ", "x | ann | bob | cy ", "x | 1 | 2 "],
    ),
];

#[test]
fn is_what_the_variant_has(rt: HostRuntime) -> Result<(), Fail> {
    let variants = [
        Config::none().with(0),
        Config::none().with(1),
        Config::none().with(0).with(1),
    ];
    for (columns, rows, wanted) in VARIANTS {
        let table = table(rt.alloc(), columns, rows)?;
        for (config, wanted) in variants.iter().zip(wanted) {
            let plain = made_plain(rt.alloc(), &table, config)?;
            let text = shown(rt.alloc(), &plain.copy(rt.alloc())?)?;
            assert_eq!(rt; text.as_str(), *wanted);
        }
    }
    Ok(())
}

#[test]
fn nothing_stays_nothing(rt: HostRuntime) -> Result<(), Fail> {
    let model = Model::new(rt.alloc(), Expr::True)?;
    let out = normal(rt.alloc(), &model, VTable::empty(rt.alloc()))?;
    assert!(rt; out.table().columns.is_empty() && out.table().rows.is_empty());
    let plain = configure(rt.alloc(), &VTable::empty(rt.alloc()), &Config::none())?;
    let text = shown(rt.alloc(), &plain)?;
    assert_eq!(rt; text.as_str(), "absent");
    Ok(())
}

/// How many links a chain has: a recursion down one would exhaust the stack.
const LINKS: u32 = 1_000_000;

/// A disjunction of so many links over 40 features.
fn chain(alloc: Global) -> Result<Expr, Memory> {
    let mut chain = Expr::Feature(0);
    for link in 1..LINKS {
        chain = or(alloc, chain, Expr::Feature((link % 40) as u8))?;
    }
    Ok(chain)
}

/// A row of one number under such a chain.
fn chained_row(alloc: Global, number: i64) -> Result<VRow, Fail> {
    let mut cells = List::new(alloc);
    let cell = Some(Value::Int(number));
    cells.push(cell).ok().ok_or("memory")?;
    let cond = chain(alloc)?;
    Ok(VRow { cells, cond })
}

#[test]
fn long_chains_are_no_deep_ones(rt: HostRuntime) -> Result<(), Fail> {
    let mut before = table(rt.alloc(), NUMBER, &[])?;
    for number in [2, 1, 2] {
        let row = chained_row(rt.alloc(), number)?;
        before.rows.push(row).ok().ok_or("memory")?;
    }
    let model = Model::new(rt.alloc(), Expr::True)?;
    let after = made_normal(rt.alloc(), &model, before)?;
    assert_eq!(rt; after.rows.len(), 2);
    Ok(())
}
