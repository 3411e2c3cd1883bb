use crate::client::{open, polls, reply, store_of};
use crate::texts::{behind_start, texts_told};
use feature_expr::Text;
use pg_messages::{Back, Decoded, decode_back};
use session_poll::Polled;
use std::alloc::Global;
use std::fmt::Write;
use std::str;
use std::test::Fail;

const CATALOGUE: &[u8] =
    b"features A;\ntable t (id int8, name text);\nrow t (id 1, name 'ann');\nrow t (id 2, name 'bob') when A;\n";

/// A start-up, the table twice, a table that isn't there, and a Terminate.
const STREAM: &[u8] =
    b"\x00\x00\x00\x10\x00\x03\x00\x00user\x00u\x00\x00Q\x00\x00\x00\x07t;\x00Q\x00\x00\x00\x0e \t T -- x\x00Q\x00\x00\x00\x06u\x00X\x00\x00\x00\x04";

#[test]
fn pieces_of_any_size_have_one_reply(rt: HostRuntime) -> Result<(), Fail> {
    let whole = reply(rt.alloc(), CATALOGUE, STREAM, STREAM.len())?;
    // The start-up's reply has 231 bytes; a table's 20, 74, 27, 24, 14 and 6; the error and its end 20, 49 and 6.
    assert_eq!(rt; whole.len(), 231 + 165 + 165 + 75);
    for cut in [1, 7, 4_096] {
        let pieces = reply(rt.alloc(), CATALOGUE, STREAM, cut)?;
        assert_eq!(rt; pieces.as_slice(), whole.as_slice(), "{cut}");
    }
    Ok(())
}

#[test]
fn a_poll_says_how_the_session_stands(rt: HostRuntime) -> Result<(), Fail> {
    let mut store = store_of(rt.alloc(), CATALOGUE, 10)?;
    let mut session = open(rt.alloc())?;
    let (front, back) = STREAM.split_at(15);
    let waits = [Polled::NeedInput];
    let wanted = [
        Polled::Again, // the start-up
        Polled::Again, // the first Query
        Polled::Again, // its table
        Polled::Again, // its end
        Polled::Again, // the second Query
        Polled::Again, // its table
        Polled::Again, // its end
        Polled::Again, // the third Query
        Polled::Again, // its table, which isn't there
        Polled::NeedOutput, // the Terminate
    ];
    assert!(rt; polls(&mut session, &mut store, &[], &waits));
    assert!(rt; polls(&mut session, &mut store, front, &waits));
    assert!(rt; polls(&mut session, &mut store, back, &wanted));
    session.take(session.waiting());
    let ends = [Polled::Closed];
    assert!(rt; polls(&mut session, &mut store, &[], &ends));
    Ok(())
}

/// A catalogue, a Query over it, and what it is answered: the fields, each row, and the tag or the error, a line each.
const ANSWERS: [(&str, &str, &str); 15] = [
    (
        SMALL,
        "emp;",
        "id | name | pay when A | when\n1 | ann | 10 | true\n2 | bob | 20 | A\n3 | cy | - | not A\nSELECT 3\n",
    ),
    (
        SMALL,
        "dept",
        "id when B | title when B | when\n7 | ops | true\nSELECT 1\n",
    ),
    // Equal rows are one, under either's condition.
    (
        "features A; table t (id int8, name text); row t (id 1, name 'ann'); row t (id 2, name 'bob') when A; row t (id 1, name 'ann') when A;",
        "t",
        "id | name | when\n1 | ann | true\n2 | bob | A\nSELECT 2\n",
    ),
    (
        "features A; table t (id int8); row t (id 1) when A; row t (id 1) when not A;",
        "t",
        "id | when\n1 | true\nSELECT 1\n",
    ),
    // The rows are sorted by their cells, in the order of the columns.
    (
        "features A; table t (n int8, s text); row t (n 2, s 'b'); row t (n -1, s 'z'); row t (n 2, s 'a');",
        "t",
        "n | s | when\n-1 | z | true\n2 | a | true\n2 | b | true\nSELECT 3\n",
    ),
    (
        "features A; table t (b bool, s text); row t (b true, s 'a'); row t (b false, s 'B'); row t (b false, s 'A');",
        "t",
        "b | s | when\nf | A | true\nf | B | true\nt | a | true\nSELECT 3\n",
    ),
    // An absent cell is before every value.
    (
        "features A; table t (id int8, x int8 when A); row t (id 1, x 5) when A; row t (id 1) when not A;",
        "t",
        "id | x when A | when\n1 | - | not A\n1 | 5 | A\nSELECT 2\n",
    ),
    // What no variant has isn't told: a row, a column, a cell.
    (
        "features A; table t (id int8); row t (id 1) when A and not A; row t (id 2);",
        "t",
        "id | when\n2 | true\nSELECT 1\n",
    ),
    (
        "features A, B; model not (A and B); table t (id int8, both text when A and B); row t (id 1);",
        "t",
        "id | when\n1 | true\nSELECT 1\n",
    ),
    (
        "features A; table t (id int8, x int8 when A); row t (id 1, x 9) when not A;",
        "t",
        "id | x when A | when\n1 | - | not A\nSELECT 1\n",
    ),
    // What always holds under the model is `true`, and isn't told of a field.
    (
        "features A, B; model A; table t (id int8 when A, x int8 when B); row t (id 1, x 2) when A or B;",
        "t",
        "id | x when B | when\n1 | 2 | true\nSELECT 1\n",
    ),
    // A column is there with its table alone.
    (
        "features A, B; table t (id int8, x text when B) when A; row t (id 1, x 'p');",
        "t",
        "id when A | x when A and B | when\n1 | p | true\nSELECT 1\n",
    ),
    ("features; table t (id int8);", "t", "id | when\nSELECT 0\n"),
    (
        "features; table t (id int8);",
        " T ; -- all",
        "id | when\nSELECT 0\n",
    ),
    (
        "features; table t (id int8);",
        "u",
        "table u is not known\n",
    ),
];

const SMALL: &str =
    "features A, B;\nmodel A or B;\ntable emp (id int8, name text, pay int8 when A);\ntable dept (id int8, title text) when B;\nrow emp (id 1, name 'ann', pay 10);\nrow emp (id 2, name 'bob', pay 20) when A;\nrow emp (id 3, name 'cy') when not A;\nrow dept (id 7, title 'ops');\n";

#[test]
fn tables_are_answered_in_table_form(rt: HostRuntime) -> Result<(), Fail> {
    for (catalogue, query, wanted) in ANSWERS {
        let told = answer_to(rt.alloc(), catalogue, query)?;
        assert_eq!(rt; told.as_str(), wanted, "{query} over {catalogue}");
    }
    Ok(())
}

/// The names of columns that hang on a feature each, and of the features: `c0 int8 when F0, ..`, from one number up to
/// another.
fn push_columns(text: &mut String, from: u8, to: u8) -> Result<(), Fail> {
    for number in from..to {
        write!(text, ", c{number} int8 when F{number}")?;
    }
    Ok(())
}

fn push_ones(text: &mut String, from: u8, to: u8) -> Result<(), Fail> {
    for number in from..to {
        write!(text, ", c{number} 1")?;
    }
    Ok(())
}

fn push_fields(text: &mut String, from: u8, to: u8) -> Result<(), Fail> {
    for number in from..to {
        write!(text, " | c{number} when F{number}")?;
    }
    Ok(())
}

/// Two tables of 21 columns, all but one of each under a feature of its own, with a row each.
fn wide_catalogue(alloc: Global) -> Result<String, Fail> {
    let mut text = String::new(alloc);
    text.push_str("features F0")?;
    for number in 1..40u8 {
        write!(text, ", F{number}")?;
    }
    text.push_str("; table t0 (id int8")?;
    push_columns(&mut text, 0, 20)?;
    text.push_str("); table t1 (no int8")?;
    push_columns(&mut text, 20, 40)?;
    text.push_str("); row t0 (id 1")?;
    push_ones(&mut text, 0, 20)?;
    text.push_str("); row t1 (no 1")?;
    push_ones(&mut text, 20, 40)?;
    text.push_str(");")?;
    Ok(text)
}

fn wide_answer(alloc: Global) -> Result<String, Fail> {
    let mut text = String::new(alloc);
    text.push_str("id")?;
    push_fields(&mut text, 0, 20)?;
    text.push_str(" | no")?;
    push_fields(&mut text, 20, 40)?;
    text.push_str(" | when\n1")?;
    for _ in 1..42 {
        text.push_str(" | 1")?;
    }
    text.push_str(" | true\nSELECT 1\n")?;
    Ok(text)
}

/// A program that goes variant by variant, of which there are 2 ^ 40, wouldn't end.
#[test]
fn a_join_over_forty_free_features_is_answered_at_once(rt: HostRuntime) -> Result<(), Fail> {
    let catalogue = wide_catalogue(rt.alloc())?;
    let wanted = wide_answer(rt.alloc())?;
    let told = answer_to(
        rt.alloc(),
        catalogue.as_str(),
        "select * from t0 join t1 on id = no;",
    )?;
    assert_eq!(rt; told.as_str(), wanted.as_str());
    Ok(())
}

/// What a session tells of a Query over a catalogue.
fn answer_to(alloc: Global, catalogue: &str, query: &str) -> Result<String, Fail> {
    let bytes = query_reply(alloc, catalogue, query.as_bytes())?;
    told(alloc, bytes.as_slice())
}

/// What a session over a catalogue answers to a start-up and a Query.
fn query_reply(alloc: Global, catalogue: &str, query: &[u8]) -> Result<Vec<u8>, Fail> {
    let stream = query_stream(alloc, query)?;
    reply(alloc, catalogue.as_bytes(), stream.as_slice(), 4_096)
}

/// A start-up, a Query and a Terminate.
fn query_stream(alloc: Global, query: &[u8]) -> Result<Vec<u8>, Fail> {
    let mut stream = Vec::from_slice(alloc, b"\x00\x00\x00\x10\x00\x03\x00\x00user\x00u\x00\x00Q")?;
    let length = u32::try_from(query.len().saturating_add(5)).map_err(|_| "a short text")?;
    stream.extend_from_slice(&length.to_be_bytes())?;
    stream.extend_from_slice(query)?;
    stream.extend_from_slice(b"\x00X\x00\x00\x00\x04")?;
    Ok(stream)
}

fn told(alloc: Global, reply: &[u8]) -> Result<String, Fail> {
    let mut text = String::new(alloc);
    let mut rest = reply;
    for _ in 0..100 {
        let Decoded::Whole(back, count) = decode_back(alloc, rest) else {
            return Ok(text);
        };
        push_back(&mut text, &back)?;
        rest = rest.get(count..).ok_or("a message")?;
    }
    Ok(text)
}

fn push_back(text: &mut String, back: &Back) -> Result<(), Fail> {
    match back {
        Back::RowDescription(fields) => {
            for field in fields.as_slice() {
                push_cell(text, Some(&field.name))?;
            }
            end_line(text)
        }
        Back::DataRow(cells) => {
            for cell in cells.as_slice() {
                push_cell(text, cell.as_ref())?;
            }
            end_line(text)
        }
        Back::CommandComplete(tag) => {
            push_cell(text, Some(tag))?;
            end_line(text)
        }
        Back::ErrorResponse(fields) => {
            let last = fields.as_slice().last().ok_or("a text")?;
            push_cell(text, Some(&last.text))?;
            end_line(text)
        }
        _ => Ok(()),
    }
}

fn push_cell(text: &mut String, cell: Option<&Text>) -> Result<(), Fail> {
    match cell {
        Some(cell) => text.push_str(str::from_utf8(cell.as_slice())?)?,
        None => text.push_str("-")?,
    }
    text.push_str(" | ")?;
    Ok(())
}

/// Ends a line in place of the bar behind its last cell.
fn end_line(text: &mut String) -> Result<(), Fail> {
    let end = text.len().saturating_sub(3);
    if text.is_char_boundary(end) {
        text.truncate(end);
    }
    text.push_str("\n")?;
    Ok(())
}

/// The description of `emp`, its rows and its tag.
const EMP: &[u8] =
    b"T\x00\x00\x00\x66\x00\x04id\x00\x00\x00\x00\x00\x00\x00\x00\x00\x00\x14\x00\x08\xff\xff\xff\xff\x00\x00name\x00\x00\x00\x00\x00\x00\x00\x00\x00\x00\x19\xff\xff\xff\xff\xff\xff\x00\x00pay when A\x00\x00\x00\x00\x00\x00\x00\x00\x00\x00\x14\x00\x08\xff\xff\xff\xff\x00\x00when\x00\x00\x00\x00\x00\x00\x00\x00\x00\x00\x19\xff\xff\xff\xff\xff\xff\x00\x00D\x00\x00\x00\x20\x00\x04\x00\x00\x00\x011\x00\x00\x00\x03ann\x00\x00\x00\x0210\x00\x00\x00\x04trueD\x00\x00\x00\x1d\x00\x04\x00\x00\x00\x012\x00\x00\x00\x03bob\x00\x00\x00\x0220\x00\x00\x00\x01AD\x00\x00\x00\x1e\x00\x04\x00\x00\x00\x013\x00\x00\x00\x02cy\xff\xff\xff\xff\x00\x00\x00\x05not AC\x00\x00\x00\x0dSELECT 3\x00";

const SNAPSHOT: &[u8] = b"S\x00\x00\x00\x13vdb_snapshot\x000\x00";

const READY: &[u8] = b"Z\x00\x00\x00\x05I";

const EMPTY: &[u8] = b"I\x00\x00\x00\x04";

/// Queries over the small catalogue, and the messages that they are answered.
const REPLIES: [(&[u8], [&[u8]; 4]); 8] = [
    (b"", [EMPTY, READY, b"", b""]),
    (b";", [EMPTY, READY, b"", b""]),
    (b"emp;", [SNAPSHOT, EMP, READY, b""]),
    (b"(EMP)", [SNAPSHOT, EMP, READY, b""]),
    (b"emp; emp", [SNAPSHOT, EMP, EMP, READY]),
    (
        b"select from;",
        [
            b"E\x00\x00\x00\x2bSERROR\x00VERROR\x00C42601\x00Msyntax error\x00P8\x00\x00",
            READY,
            b"",
            b"",
        ],
    ),
    (
        b"emp where $1 = 1",
        [
            b"E\x00\x00\x00\x2bSERROR\x00VERROR\x00C42601\x00Msyntax error\x00P5\x00\x00",
            READY,
            b"",
            b"",
        ],
    ),
    (
        b"delete from emp where id = $1",
        [
            b"E\x00\x00\x00\x44SERROR\x00VERROR\x00C42P02\x00Mparameters need a prepared statement\x00P28\x00\x00",
            READY,
            b"",
            b"",
        ],
    ),
];

#[test]
fn queries_are_answered_byte_for_byte(rt: HostRuntime) -> Result<(), Fail> {
    for (query, messages) in REPLIES {
        let reply = query_reply(rt.alloc(), SMALL, query)?;
        let mut wanted = Vec::new(rt.alloc());
        for message in messages {
            wanted.extend_from_slice(message)?;
        }
        let told = behind_start(rt.alloc(), reply.as_slice())?;
        assert_eq!(rt; told, wanted.as_slice(), "{query:?}");
    }
    Ok(())
}

const TWO: &str = "features A, B; table t (id int8); table u (id int8) when B; row t (id 1);";

/// Queries over the catalogue of the tables `t` and `u`, and each message of their replies: its texts, with a comma
/// between two, and a semicolon.
const TOLD: [(&[u8], &str); 27] = [
    // No statement.
    (b"-- nothing", "empty; ready; "),
    (b" ;; -- one\n;\t", "empty; ready; "),
    // A table, and one in brackets.
    (
        b"t; -- the end",
        "vdb_snapshot, 0; id, when; 1, true; SELECT 1; ready; ",
    ),
    (
        b"(t)",
        "vdb_snapshot, 0; id, when; 1, true; SELECT 1; ready; ",
    ),
    (
        b"((((((((((((((((((((((((((((((((((((((((((((((((((((((((((((((((t))))))))))))))))))))))))))))))))))))))))))))))))))))))))))))))))",
        "vdb_snapshot, 0; id, when; 1, true; SELECT 1; ready; ",
    ),
    // Several statements, and one snapshot.
    (
        b"((t)); T",
        "vdb_snapshot, 0; id, when; 1, true; SELECT 1; id, when; 1, true; SELECT 1; ready; ",
    ),
    (
        b"t;;u;",
        "vdb_snapshot, 0; id, when; 1, true; SELECT 1; id when B, when; SELECT 0; ready; ",
    ),
    (
        b"t;t;t",
        "vdb_snapshot, 0; id, when; 1, true; SELECT 1; id, when; 1, true; SELECT 1; id, when; 1, true; SELECT 1; ready; ",
    ),
    // What is behind an error isn't run.
    (
        b"v; t",
        "vdb_snapshot, 0; ERROR, ERROR, 42P01, table v is not known; ready; ",
    ),
    (
        b"t; v; t",
        "vdb_snapshot, 0; id, when; 1, true; SELECT 1; ERROR, ERROR, 42P01, table v is not known; ready; ",
    ),
    // A fault anywhere, before anything is run.
    (
        b"t; select from",
        "ERROR, ERROR, 42601, syntax error, 11; ready; ",
    ),
    (b"v; t, t", "ERROR, ERROR, 42601, syntax error, 5; ready; "),
    (b"select", "ERROR, ERROR, 42601, syntax error, 7; ready; "),
    (
        b"t where true",
        "ERROR, ERROR, 42601, syntax error, 3; ready; ",
    ),
    (
        b"(((((((((((((((((((((((((((((((((((((((((((((((((((((((((((((((((t)))))))))))))))))))))))))))))))))))))))))))))))))))))))))))))))))",
        "ERROR, ERROR, 54001, nesting is deeper than 64, 65; ready; ",
    ),
    (
        b"select * from t where id = 9223372036854775808",
        "ERROR, ERROR, 22003, integer is out of range, 28; ready; ",
    ),
    (
        b"choice[C](t, t)",
        "ERROR, ERROR, 42704, feature is not known, 8; ready; ",
    ),
    (
        b"select * from t where id = $1",
        "ERROR, ERROR, 42P02, parameters need a prepared statement, 28; ready; ",
    ),
    (
        b"t; delete from t where id = $1025",
        "ERROR, ERROR, 54000, parameter number is above 1024, 29; ready; ",
    ),
    // A place counts characters.
    (
        b"t -- \xc3\xa9\n, t",
        "ERROR, ERROR, 42601, syntax error, 8; ready; ",
    ),
    (
        b"select * from t where id = '\xc3\xa9' x",
        "ERROR, ERROR, 42601, syntax error, 32; ready; ",
    ),
    // Not UTF-8.
    (b"t \xff", "ERROR, ERROR, 22021, text is not UTF-8; ready; "),
    (
        b"t; \xc3(",
        "ERROR, ERROR, 22021, text is not UTF-8; ready; ",
    ),
    // A query of another form.
    (
        b"t union u",
        "vdb_snapshot, 0; id, when; 1, true; SELECT 1; ready; ",
    ),
    (b"empty", "vdb_snapshot, 0; when; SELECT 0; ready; "),
    // Statements without rows.
    (
        b"begin; t",
        "vdb_snapshot, 0; BEGIN; id, when; 1, true; SELECT 1; ready T; ",
    ),
    (
        b"t; set a to b; t",
        "vdb_snapshot, 0; id, when; 1, true; SELECT 1; SET; id, when; 1, true; SELECT 1; ready; ",
    ),
];

#[test]
fn each_query_has_its_reply(rt: HostRuntime) -> Result<(), Fail> {
    for (query, wanted) in TOLD {
        let reply = query_reply(rt.alloc(), TWO, query)?;
        let messages = behind_start(rt.alloc(), reply.as_slice())?;
        let told = texts_told(rt.alloc(), messages)?;
        assert_eq!(rt; told.as_str(), wanted, "{query:?}");
    }
    Ok(())
}

/// Queries over the small catalogue, and what they are answered between the snapshot and the end. The condition of a row
/// says nothing of the variants in which no column is there, so the row of `dept` may stand under `true` or under `B`.
const ASKED: [(&str, &str); 40] = [
    // Rows by a condition, and columns by their names.
    (
        "select * from emp where id < 3",
        "id, name, pay when A, when; 1, ann, 10, true; 2, bob, 20, A; SELECT 2; ",
    ),
    (
        "select id from emp where name = 'cy'",
        "id, when; 3, not A; SELECT 1; ",
    ),
    (
        "select id from emp where name = 'dan'",
        "id, when; SELECT 0; ",
    ),
    (
        "select id from emp where true",
        "id, when; 1, true; 2, A; 3, not A; SELECT 3; ",
    ),
    ("select id from emp where false", "id, when; SELECT 0; "),
    (
        "select name, id from emp where id = 1",
        "name, id, when; ann, 1, true; SELECT 1; ",
    ),
    (
        "select id as number from emp where not id = 1",
        "number, when; 2, A; 3, not A; SELECT 2; ",
    ),
    (
        "select id, title from dept where id = 7 and title = 'ops'",
        "id when B, title when B, when; 7, ops, B; SELECT 1; ",
    ),
    (
        "select id from emp where choice [A] (pay > 10, id = 1)",
        "id, when; 1, not A; 2, A; SELECT 2; ",
    ),
    // Items under a condition; a name that stands for two columns.
    (
        "select id, pay from emp where id = 1",
        "id, pay when A, when; 1, 10, true; SELECT 1; ",
    ),
    (
        "select pay from emp",
        "pay when A, when; 10, true; 20, A; SELECT 2; ",
    ),
    (
        "select pay when A from emp where id = 2",
        "pay when A, when; 20, A; SELECT 1; ",
    ),
    (
        "select id as x when A, name as x when not A from emp",
        "x when A, x when not A, when; -, cy, not A; 1, ann, true; 2, -, A; SELECT 3; ",
    ),
    // Joins and aliases.
    (
        "select * from emp as e where e.id = 3",
        "e.id, e.name, e.pay when A, when; 3, cy, -, not A; SELECT 1; ",
    ),
    (
        "select e.name, d.title from emp as e join dept as d on e.id < d.id",
        "e.name when B, d.title when B, when; ann, ops, B; bob, ops, A and B; cy, ops, not A and B; SELECT 3; ",
    ),
    (
        "select e.name from emp as e join emp as f on e.id = f.id where f.name = 'ann'",
        "e.name, when; ann, true; SELECT 1; ",
    ),
    (
        "select * from (select e.id, e.name from emp as e) as p where p.id = 2",
        "p.id, p.name, when; 2, bob, A; SELECT 1; ",
    ),
    (
        "select s.id from (select id, name from emp where id > 1) as s where s.name = 'bob'",
        "s.id, when; 2, A; SELECT 1; ",
    ),
    // Unions and excepts.
    (
        "select id from emp union select id from dept",
        "id, when; 1, true; 2, A; 3, not A; 7, B; SELECT 4; ",
    ),
    (
        "select id from emp except select id from emp where name = 'ann'",
        "id, when; 2, A; 3, not A; SELECT 2; ",
    ),
    ("emp except emp", "id, name, pay when A, when; SELECT 0; "),
    (
        "empty union dept",
        "id when B, title when B, when; 7, ops, B; SELECT 1; ",
    ),
    (
        "dept except empty",
        "id when B, title when B, when; 7, ops, true; SELECT 1; ",
    ),
    // Choices, and queries without columns.
    (
        "choice [A] (select id from emp, select id from dept)",
        "id, when; 1, A; 2, A; 7, not A; SELECT 3; ",
    ),
    (
        "choice [A or B] (select id from emp where id = 1, select id, id from emp where pay > 'x')",
        "id, when; 1, true; SELECT 1; ",
    ),
    ("empty", "when; SELECT 0; "),
    ("select * from empty", "when; SELECT 0; "),
    ("select * from empty join emp on id = 1", "when; SELECT 0; "),
    // A query without a type.
    (
        "customer",
        "ERROR, ERROR, 42P01, table customer is not known; ",
    ),
    (
        "empty union customer",
        "ERROR, ERROR, 42P01, table customer is not known; ",
    ),
    (
        "select * from emp where choice [A] (true, salary = 1)",
        "ERROR, ERROR, 42703, column salary is not known; ",
    ),
    (
        "select e.id from emp",
        "ERROR, ERROR, 42703, column e.id is not known; ",
    ),
    (
        "select * from emp where pay > 0",
        "ERROR, ERROR, 42P10, column pay is absent in variant {B}; ",
    ),
    (
        "select pay when B from emp",
        "ERROR, ERROR, 42P10, column pay is absent in variant {B}; ",
    ),
    (
        "select id as x when A, id as x when B from emp",
        "ERROR, ERROR, 42701, column x is there twice in variant {A,B}; ",
    ),
    (
        "select * from emp where choice [A] (true, id <> name)",
        "ERROR, ERROR, 42804, kinds differ in variant {B}; ",
    ),
    (
        "select id, pay from emp union select id, pay when A and not B from emp",
        "ERROR, ERROR, 42804, columns differ in variant {A,B}; ",
    ),
    // Several statements, of which one fails.
    (
        "dept; select id from emp where id = 1",
        "id when B, title when B, when; 7, ops, true; SELECT 1; id, when; 1, true; SELECT 1; ",
    ),
    (
        "dept; select salary from emp; dept",
        "id when B, title when B, when; 7, ops, true; SELECT 1; ERROR, ERROR, 42703, column salary is not known; ",
    ),
    (
        "select id from emp where false; select * from emp where pay > 0",
        "id, when; SELECT 0; ERROR, ERROR, 42P10, column pay is absent in variant {B}; ",
    ),
];

#[test]
fn queries_are_answered_in_every_variant(rt: HostRuntime) -> Result<(), Fail> {
    for (query, answer) in ASKED {
        let reply = query_reply(rt.alloc(), SMALL, query.as_bytes())?;
        let messages = behind_start(rt.alloc(), reply.as_slice())?;
        let told = texts_told(rt.alloc(), messages)?;
        let mut wanted = String::new(rt.alloc());
        wanted.push_str("vdb_snapshot, 0; ")?;
        wanted.push_str(answer)?;
        wanted.push_str("ready; ")?;
        assert_eq!(rt; told.as_str(), wanted.as_str(), "{query}");
    }
    Ok(())
}
