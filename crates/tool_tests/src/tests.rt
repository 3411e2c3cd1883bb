use crate::mem_files::{MemFile, MemFiles};
use crate::mem_sink::MemSink;
use feature_expr::{List, Memory, Text};
use std::alloc::{AllocError, Global};
use std::io;
use std::io::{ErrorKind, Read};
use std::test::Fail;
use top_calls::{CatalogueFault, Exit, FileGot, fault_line, fill, run_tool, status};
use vschema::{CatalogRefused, Which};

const CATALOGUE: &[u8] =
    b"features A;\ntable t (id int8, name text);\nrow t (id 1, name 'ann');\nrow t (id 2, name 'bob') when A;\n";

const START_UP: &[u8] = b"\x00\x00\x00\x10\x00\x03\x00\x00user\x00u\x00\x00";

/// The part of every start-up reply behind the parameters.
const READY: &[u8] = b"K\x00\x00\x00\x0c\x00\x00\x00\x01\x00\x00\x00\x00Z\x00\x00\x00\x05I";

/// What a client sends behind the start-up, and what it gets behind that one's reply.
const REPLIES: [(&[u8], &[u8]); 11] = [
    // An unknown table.
    (
        b"Q\x00\x00\x00\x06u\x00X\x00\x00\x00\x04",
        b"S\x00\x00\x00\x13vdb_snapshot\x000\x00E\x00\x00\x00\x30SERROR\x00VERROR\x00C42P01\x00Mtable u is not known\x00\x00Z\x00\x00\x00\x05I",
    ),
    // Texts that are no statements, and one without a statement.
    (
        b"Q\x00\x00\x00\x09t, t\x00X\x00\x00\x00\x04",
        b"E\x00\x00\x00\x2bSERROR\x00VERROR\x00C42601\x00Msyntax error\x00P2\x00\x00Z\x00\x00\x00\x05I",
    ),
    (
        b"Q\x00\x00\x00\x0bselect\x00",
        b"E\x00\x00\x00\x2bSERROR\x00VERROR\x00C42601\x00Msyntax error\x00P7\x00\x00Z\x00\x00\x00\x05I",
    ),
    (
        b"Q\x00\x00\x00\x07\xc3\x28\x00",
        b"E\x00\x00\x00\x2dSERROR\x00VERROR\x00C22021\x00Mtext is not UTF-8\x00\x00Z\x00\x00\x00\x05I",
    ),
    (
        b"Q\x00\x00\x00\x05\x00X\x00\x00\x00\x04",
        b"I\x00\x00\x00\x04Z\x00\x00\x00\x05I",
    ),
    // Behind an error nothing is run.
    (
        b"Q\x00\x00\x00\x0eu;begin;t\x00",
        b"S\x00\x00\x00\x13vdb_snapshot\x000\x00E\x00\x00\x00\x30SERROR\x00VERROR\x00C42P01\x00Mtable u is not known\x00\x00Z\x00\x00\x00\x05I",
    ),
    // A write, of which the place is told, and a block.
    (
        b"Q\x00\x00\x00\x12delete from t\x00X\x00\x00\x00\x04",
        b"S\x00\x00\x00\x13vdb_snapshot\x000\x00S\x00\x00\x00\x11vdb_commit\x001\x00C\x00\x00\x00\x0dDELETE 2\x00Z\x00\x00\x00\x05I",
    ),
    (
        b"Q\x00\x00\x00\x0abegin\x00",
        b"S\x00\x00\x00\x13vdb_snapshot\x000\x00C\x00\x00\x00\x0aBEGIN\x00Z\x00\x00\x00\x05T",
    ),
    // A message that isn't known yet, and a length that none has.
    (
        b"S\x00\x00\x00\x04",
        b"E\x00\x00\x00\x29SFATAL\x00VFATAL\x00C0A000\x00Mnot built yet\x00\x00",
    ),
    (
        b"Q\x00\x00\x00\x03",
        b"E\x00\x00\x00\x29SFATAL\x00VFATAL\x00C0A000\x00Mnot built yet\x00\x00",
    ),
    // A message that the end of the file cuts.
    (b"Q\x00\x10\x00\x04", b""),
];

/// Runs `replay` over a catalogue and a stream in memory, where some calls of the files and of the sink fail, and answers
/// the status and what was put.
fn replayed(
    alloc: Global,
    catalogue: &[u8],
    stream: &[u8],
    failing_reads: &[u64],
    failing_puts: &[u64],
) -> Result<(u8, Vec<u8>), Fail> {
    let mut files = Vec::new(alloc);
    files.push(file(alloc, b"c", catalogue)?)?;
    files.push(file(alloc, b"s", stream)?)?;
    let failing = List::from_slice(alloc, failing_reads)?;
    let mut files = MemFiles::new(List::from_vec(files), failing);
    let mut out = MemSink::new(alloc, List::from_slice(alloc, failing_puts)?);
    let words = words_of(alloc, &["replay", "c", "s"])?;
    let exit = run_tool(alloc, words.as_slice(), &mut files, &mut out);
    let bytes = Vec::from_slice(alloc, out.bytes().as_slice())?;
    Ok((status(&exit), bytes))
}

fn file(alloc: Global, name: &[u8], bytes: &[u8]) -> Result<MemFile, Memory> {
    let name = Text::from_slice(alloc, name)?;
    let bytes = Text::from_slice(alloc, bytes)?;
    Ok(MemFile { name, bytes })
}

fn words_of(alloc: Global, words: &[&str]) -> Result<Vec<String>, AllocError> {
    let mut owned = Vec::new(alloc);
    for word in words {
        owned.push(String::from_str(alloc, word)?)?;
    }
    Ok(owned)
}

fn joined(alloc: Global, first: &[u8], second: &[u8]) -> Result<Vec<u8>, AllocError> {
    let mut all = Vec::from_slice(alloc, first)?;
    all.extend_from_slice(second)?;
    Ok(all)
}

#[test]
fn each_message_has_its_reply(rt: HostRuntime) -> Result<(), Fail> {
    for (sent, reply) in REPLIES {
        let stream = joined(rt.alloc(), START_UP, sent)?;
        let (exit, out) = replayed(rt.alloc(), CATALOGUE, stream.as_slice(), &[], &[])?;
        let tail = joined(rt.alloc(), READY, reply)?;
        assert_eq!(rt; exit, 0);
        assert!(rt;
            out.as_slice().ends_with(tail.as_slice()),
            "{sent:?} {out:?}"
        );
    }
    Ok(())
}

/// Start-up packets that aren't taken.
const NO_START: [&[u8]; 6] = [
    b"\x00\x00\x00\x09\x00\x03\x00\x00\x00",
    b"\x00\x00\x00\x08\x04\xd2\x16\x2f",
    b"\x00\x00\x00\x0f\x00\x03\x00\x00user\x00\x00\x00",
    b"\x00\x00\x00\x1e\x00\x03\x00\x00user\x00u\x00replication\x001\x00\x00",
    b"\x00\x00\x00\x19\x00\x03\x00\x00user\x00u\x00_pq_.x\x001\x00\x00",
    b"\x00\x00\x00\x07",
];

#[test]
fn another_start_up_is_not_built_yet(rt: HostRuntime) -> Result<(), Fail> {
    let refused: &[u8] = b"E\x00\x00\x00\x29SFATAL\x00VFATAL\x00C0A000\x00Mnot built yet\x00\x00";
    for packet in NO_START {
        let (exit, out) = replayed(rt.alloc(), CATALOGUE, packet, &[], &[])?;
        assert_eq!(rt; exit, 0);
        assert_eq!(rt; out.as_slice(), refused, "{packet:?}");
    }
    Ok(())
}

#[test]
fn a_fault_ends_the_program_with_its_exit(rt: HostRuntime) -> Result<(), Fail> {
    let run = |catalogue: &[u8], reads: &[u64], puts: &[u64]| {
        replayed(rt.alloc(), catalogue, START_UP, reads, puts)
    };
    assert_eq!(rt; run(b"features\n", &[], &[])?.0, 2);
    // The catalogue is checked before the stream is read.
    assert_eq!(rt; run(b"features A; model A and not A;", &[1], &[])?.0, 2);
    assert_eq!(rt; run(CATALOGUE, &[0], &[])?.0, 3);
    assert_eq!(rt; run(CATALOGUE, &[1], &[])?.0, 3);
    let (exit, out) = run(CATALOGUE, &[], &[0])?;
    assert_eq!(rt; exit, 4);
    assert_eq!(rt; out.as_slice(), b"".as_slice());
    Ok(())
}

/// A reader that gives its bytes and then fails.
#[derive(Drop)]
struct FailsBehind<'a> {
    bytes: &'a [u8],
}

impl Read for FailsBehind<'_> {
    fn read(&mut self, into: &mut [u8]) -> io::Result<usize> {
        match self.bytes.read(into)? {
            0 => Err(io::Error::from(ErrorKind::Other)),
            count => Ok(count),
        }
    }
}

#[test]
fn a_file_is_read_to_its_end_or_past_its_limit(rt: HostRuntime) -> Result<(), Fail> {
    let limits = [
        (4, FileGot::TooLong),
        (5, FileGot::Whole),
        (6, FileGot::Whole),
    ];
    let mut faults = 0;
    for (limit, wanted) in limits {
        let mut into = Vec::from_slice(rt.alloc(), b"-")?;
        let mut bytes: &[u8] = b"abcde";
        assert_eq!(rt; fill(&mut bytes, limit, &mut into, &mut faults), wanted);
        assert_eq!(rt; faults, 0);
    }
    let mut into = Vec::new(rt.alloc());
    let mut failing = FailsBehind { bytes: b"abc" };
    assert_eq!(rt;
        fill(&mut failing, 5, &mut into, &mut faults),
        FileGot::Failed
    );
    assert_eq!(rt; faults, 1);
    Ok(())
}

/// A catalogue with a model, with a table and with a row, and what `check` says of it.
const CHECKS: [[&str; 4]; 6] = [
    [
        "A or B",
        "dept (id int8, title text) when B",
        "emp (id 3, name 'cy') when not A",
        "ok: 2 features, 2 tables, 4 rows\n",
    ],
    [
        "A and not A",
        "dept (id int8, title text) when B",
        "emp (id 3, name 'cy') when not A",
        "catalogue: no variant",
    ],
    [
        "A or B",
        "dept (id int8, title tex) when B",
        "emp (id 3, name 'cy') when not A",
        "catalogue: line 4: syntax",
    ],
    [
        "A or B",
        "dept (id int8 when A, title text when A)",
        "emp (id 3, name 'cy')",
        "catalogue: table dept has no column in variant {B}",
    ],
    [
        "A and B",
        "dept (id int8, title text) when B",
        "emp (id 3, name 'cy')",
        "catalogue: line 7: column pay has no value in variant {A,B}",
    ],
    [
        "not B",
        "dept (id int8 when A, title text)",
        "dept (title 'x') when A and not B",
        "catalogue: line 7: column id has no value in variant {A}",
    ],
];

#[test]
fn a_catalogue_is_checked(rt: HostRuntime) -> Result<(), Fail> {
    for [model, table, row, wanted] in &CHECKS {
        let text = format!(in rt.alloc();
            "features A, B;\nmodel {model};\ntable emp (id int8, name text, pay int8 when A);\ntable {table};\nrow emp (id 1, name 'ann', pay 10);\nrow emp (id 2, name 'bob', pay 20) when A;\nrow {row};\nrow dept (id 7, title 'ops');"
        )?;
        let said = said_of(rt.alloc(), text.as_bytes(), &[])?;
        assert_eq!(rt; said.as_slice(), wanted.as_bytes());
    }
    let said = said_of(rt.alloc(), CATALOGUE, &[0])?;
    assert_eq!(rt; said.as_slice(), b"write fault".as_slice());
    Ok(())
}

/// What `check` of a catalogue puts, and behind it its fault line.
fn said_of(alloc: Global, catalogue: &[u8], failing_puts: &[u64]) -> Result<Vec<u8>, Fail> {
    let mut files = Vec::new(alloc);
    files.push(file(alloc, b"c", catalogue)?)?;
    let mut files = MemFiles::new(List::from_vec(files), List::new(alloc));
    let mut out = MemSink::new(alloc, List::from_slice(alloc, failing_puts)?);
    let words = words_of(alloc, &["check", "c"])?;
    let exit = run_tool(alloc, words.as_slice(), &mut files, &mut out);
    let told = fault_line(alloc, &exit).map_err(|_| "memory")?;
    Ok(joined(alloc, out.bytes().as_slice(), told.as_slice())?)
}

#[test]
fn a_refused_catalogue_has_its_line(rt: HostRuntime) -> Result<(), Fail> {
    let refusals: [(CatalogRefused, &[u8]); 7] = [
        (CatalogRefused::Utf8(0), b"catalogue: byte 0: not UTF-8"),
        (CatalogRefused::Syntax(3), b"catalogue: line 3: syntax"),
        (
            CatalogRefused::Duplicate(10),
            b"catalogue: line 10: duplicate",
        ),
        (
            CatalogRefused::UnknownFeature(1),
            b"catalogue: line 1: unknown feature",
        ),
        (
            CatalogRefused::UnknownName(99),
            b"catalogue: line 99: unknown name",
        ),
        (
            CatalogRefused::WrongKind(5),
            b"catalogue: line 5: wrong kind",
        ),
        (
            CatalogRefused::Limit(65, Which::Columns),
            b"catalogue: line 65: limit",
        ),
    ];
    for (why, line) in refusals {
        let exit = Exit::Catalogue(CatalogueFault::Parse(why));
        let told = fault_line(rt.alloc(), &exit).map_err(|_| "memory")?;
        assert_eq!(rt; told.as_slice(), line);
        assert_eq!(rt; status(&exit), 2);
    }
    Ok(())
}

#[test]
fn each_exit_has_its_status_and_line(rt: HostRuntime) -> Result<(), Fail> {
    let exits: [(Exit, u8, &[u8]); 9] = [
        (Exit::Done, 0, b""),
        (Exit::Usage, 1, b"usage"),
        (Exit::ReadFault, 3, b"read fault"),
        (Exit::WriteFault, 4, b"write fault"),
        (Exit::LinksFault, 5, b"links fault"),
        (Exit::TurnsOut, 6, b"turns out"),
        (Exit::Memory, 7, b"out of memory"),
        (Exit::TooLong, 8, b"file too long"),
        (Exit::KeeperFault, 9, b"keeper fault"),
    ];
    for (exit, number, line) in exits {
        assert_eq!(rt; status(&exit), number);
        let told = fault_line(rt.alloc(), &exit).map_err(|_| "memory")?;
        assert_eq!(rt; told.as_slice(), line);
    }
    Ok(())
}
