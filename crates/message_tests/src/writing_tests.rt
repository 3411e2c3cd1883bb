use pg_messages::{
    Back, Decoded, EncodeRefused, Field, Front, Startup, decode_back, decode_startup, encode_back,
    encode_front, encode_startup,
};
use std::alloc::Global;
use std::test::Fail;
use values::{List, Text};

/// Messages of a server, which are read and written again.
const BACKEND_MESSAGES: [&[u8]; 9] = [
    b"I\x00\x00\x00\x04",
    b"R\x00\x00\x00\x08\x00\x00\x00\x00",
    b"K\x00\x00\x00\x0C\x00\x00\x00\x01\x00\x00\x00\x00",
    b"S\x00\x00\x00\x13vdb_snapshot\x000\x00",
    b"Z\x00\x00\x00\x05I",
    b"D\x00\x00\x00\x20\x00\x04\x00\x00\x00\x011\x00\x00\x00\x03ann\x00\x00\x00\x0210\x00\x00\x00\x04true",
    b"D\x00\x00\x00\x0A\x00\x01\xFF\xFF\xFF\xFF",
    b"C\x00\x00\x00\x0DSELECT 2\x00",
    b"E\x00\x00\x00\x13SERROR\x00C42P01\x00\x00",
];

#[test]
fn row_descriptions_tell_no_table(rt: HostRuntime) -> Result<(), Fail> {
    let alloc = rt.alloc();
    let field = Field {
        name: Text::from_slice(alloc, b"id")?,
        kind_number: 20,
        size: -1,
        format: 0,
    };
    let mut fields = List::new(alloc);
    fields.push(field).ok().ok_or("memory")?;
    let mut into = Vec::new(alloc);
    encode_back(&Back::RowDescription(fields), &mut into)?;
    assert_eq!(rt;
        into.as_slice(),
        b"T\x00\x00\x00\x1B\x00\x01id\x00\x00\x00\x00\x00\x00\x00\x00\x00\x00\x14\xFF\xFF\xFF\xFF\xFF\xFF\x00\x00".as_slice()
    );
    Ok(())
}

#[test]
fn backend_messages_are_written(rt: HostRuntime) -> Result<(), Fail> {
    for bytes in BACKEND_MESSAGES {
        let mut into = Vec::new(rt.alloc());
        if let Decoded::Whole(back, _length) = decode_back(rt.alloc(), bytes) {
            encode_back(&back, &mut into)?;
        }
        assert_eq!(rt; into.as_slice(), bytes);
    }
    Ok(())
}

#[test]
fn startup_packets_are_written(rt: HostRuntime) -> Result<(), Fail> {
    let bytes = b"\x00\x00\x00\x10\x00\x03\x00\x00user\x00u\x00\x00";
    let mut into = Vec::new(rt.alloc());
    if let Decoded::Whole(startup, _length) = decode_startup(rt.alloc(), bytes) {
        encode_startup(&startup, &mut into)?;
    }
    assert_eq!(rt; into.as_slice(), bytes.as_slice());
    assert_eq!(rt;
        encode_startup(&Startup::Other(196_608), &mut into),
        Err(EncodeRefused::NotSpelled)
    );
    assert_eq!(rt; into.as_slice(), bytes.as_slice());
    Ok(())
}

/// What becomes of a Query of so many letters.
fn query_of(alloc: Global, letters: usize) -> Result<Result<(), EncodeRefused>, Fail> {
    let mut text = Vec::new(alloc);
    text.resize(letters, b'a')?;
    let mut into = Vec::new(alloc);
    Ok(encode_front(&Front::Query(Text::from_vec(text)), &mut into))
}

#[test]
fn long_queries_are_refused(rt: HostRuntime) -> Result<(), Fail> {
    assert_eq!(rt; query_of(rt.alloc(), 1_048_575)?, Ok(()));
    assert_eq!(rt;
        query_of(rt.alloc(), 1_048_576)?,
        Err(EncodeRefused::TooLong(1_048_581))
    );
    Ok(())
}

#[test]
fn queries_are_written(rt: HostRuntime) -> Result<(), Fail> {
    let mut into = Vec::new(rt.alloc());
    encode_front(
        &Front::Query(Text::from_slice(rt.alloc(), b"emp;")?),
        &mut into,
    )?;
    encode_front(&Front::Terminate, &mut into)?;
    let zero = Front::Query(Text::from_slice(rt.alloc(), b"\x00")?);
    assert_eq!(rt;
        encode_front(&zero, &mut into),
        Err(EncodeRefused::NotSpelled)
    );
    assert_eq!(rt;
        into.as_slice(),
        b"Q\x00\x00\x00\x09emp;\x00X\x00\x00\x00\x04".as_slice()
    );
    Ok(())
}
