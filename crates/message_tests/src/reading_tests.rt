use byteorder::{BigEndian, ByteOrder};
use pg_messages::{Decoded, decode_back, decode_front, decode_startup};
use std::alloc::Global;
use std::fmt::Debug;
use std::test::Fail;

/// Start-up packets, and what is read of them.
const STARTUP_PACKETS: [(&[u8], &str); 19] = [
    (
        b"\x00\x00\x00\x10\x00\x03\x00\x00user\x00u\x00\x00",
        "Whole(Start(List { items: [Pair { name: Text { bytes: List { items: [117, 115, 101, 114] } }, value: Text { bytes: List { items: [117] } } }] }), 16)",
    ),
    (
        b"\x00\x00\x00\x09\x00\x03\x00\x00\x00",
        "Whole(Start(List { items: [] }), 9)",
    ),
    (
        b"\x00\x00\x00\x0C\x00\x03\x00\x00a\x00\x00\x00Q",
        "Whole(Start(List { items: [Pair { name: Text { bytes: List { items: [97] } }, value: Text { bytes: List { items: [] } } }] }), 12)",
    ),
    (
        b"\x00\x00\x00\x0A\x00\x02\x00\x00\xFF\x00\x00",
        "Whole(Other(131072), 10)",
    ),
    (b"", "More"),
    (b"\x00\x00\x00", "More"),
    (b"\x00\x00'\x10", "More"),
    (b"\x00\x00\x00\x08\x00\x03\x00", "More"),
    (b"\x00\x00\x00\x09\x00\x03\x00\x00", "More"),
    (b"\x00\x00\x00\x07", "Bad(0, Length)"),
    (b"\x00\x00'\x11", "Bad(0, Length)"),
    (b"\x00\x00\x00\x08\x00\x03\x00\x00", "Bad(0, Length)"),
    (b"\x00\x00\x00\x0C\x00\x03\x00\x00user", "Bad(8, Body)"),
    (b"\x00\x00\x00\x0D\x00\x03\x00\x00user\x00", "Bad(13, Body)"),
    (
        b"\x00\x00\x00\x0E\x00\x03\x00\x00user\x00u",
        "Bad(13, Body)",
    ),
    (
        b"\x00\x00\x00\x0F\x00\x03\x00\x00user\x00u\x00",
        "Bad(15, Body)",
    ),
    (b"\x00\x00\x00\x0A\x00\x03\x00\x00\x00\x00", "Bad(8, Body)"),
    (
        b"\x00\x00\x00\x11\x00\x03\x00\x00user\x00u\x00\x00x",
        "Bad(15, Body)",
    ),
    (
        b"\x00\x00\x00\x0F\x00\x03\x00\x00a\x00b\x00\x00x\x00",
        "Bad(12, Body)",
    ),
];

/// Messages of a client, and what is read of them.
const FRONTEND_MESSAGES: [(&[u8], &str); 17] = [
    (
        b"Q\x00\x00\x00\x09emp;\x00",
        "Whole(Query(Text { bytes: List { items: [101, 109, 112, 59] } }), 10)",
    ),
    (
        b"Q\x00\x00\x00\x05\x00Q\x00",
        "Whole(Query(Text { bytes: List { items: [] } }), 6)",
    ),
    (b"X\x00\x00\x00\x04", "Whole(Terminate, 5)"),
    (b"", "More"),
    (b"Q\xFF", "More"),
    (b"X\x00\x00\x00", "More"),
    (b"Q\x00\x10\x00\x04", "More"),
    (b"Q\x00\x00\x00\x09emp;", "More"),
    (b"P", "Bad(0, TypeByte)"),
    (b"\x00\x00\x00\x00\x04", "Bad(0, TypeByte)"),
    (b"Q\x00\x00\x00\x03", "Bad(1, Length)"),
    (b"Q\x00\x10\x00\x05", "Bad(1, Length)"),
    (b"Q\x00\x00\x00\x04", "Bad(5, Body)"),
    (b"Q\x00\x00\x00\x07emp\x00", "Bad(5, Body)"),
    (b"Q\x00\x00\x00\x07e\x00p", "Bad(7, Body)"),
    (b"X\x00\x00\x00\x05\x00", "Bad(5, Body)"),
    (b"Q\x00\x00\x00\x08a\x00b\x00", "Bad(7, Body)"),
];

/// Messages of a server, and what is read of them.
const BACKEND_MESSAGES: [(&[u8], &str); 12] = [
    (b"I\x00\x00\x00\x04", "Whole(EmptyQueryResponse, 5)"),
    (
        b"R\x00\x00\x00\x08\x00\x00\x00\x00",
        "Whole(AuthenticationOk, 9)",
    ),
    (
        b"K\x00\x00\x00\x0C\x00\x00\x00\x01\x00\x00\x00\x00",
        "Whole(BackendKeyData(1, 0), 13)",
    ),
    (
        b"S\x00\x00\x00\x13vdb_snapshot\x000\x00",
        "Whole(ParameterStatus(Text { bytes: List { items: [118, 100, 98, 95, 115, 110, 97, 112, 115, 104, 111, 116] } }, Text { bytes: List { items: [48] } }), 20)",
    ),
    (b"Z\x00\x00\x00\x05I", "Whole(ReadyForQuery(Idle), 6)"),
    (b"Z\x00\x00\x00\x05T", "Whole(ReadyForQuery(InBlock), 6)"),
    (b"Z\x00\x00\x00\x05E", "Whole(ReadyForQuery(Failed), 6)"),
    (
        b"D\x00\x00\x00 \x00\x04\x00\x00\x00\x011\x00\x00\x00\x03ann\x00\x00\x00\x0210\x00\x00\x00\x04true",
        "Whole(DataRow(List { items: [Some(Text { bytes: List { items: [49] } }), Some(Text { bytes: List { items: [97, 110, 110] } }), Some(Text { bytes: List { items: [49, 48] } }), Some(Text { bytes: List { items: [116, 114, 117, 101] } })] }), 33)",
    ),
    (
        b"D\x00\x00\x00\x0A\x00\x01\xFF\xFF\xFF\xFF",
        "Whole(DataRow(List { items: [None] }), 11)",
    ),
    (
        b"C\x00\x00\x00\x0DSELECT 2\x00",
        "Whole(CommandComplete(Text { bytes: List { items: [83, 69, 76, 69, 67, 84, 32, 50] } }), 14)",
    ),
    (
        b"E\x00\x00\x00\x13SERROR\x00C42P01\x00\x00",
        "Whole(ErrorResponse(List { items: [ErrorField { code: 83, text: Text { bytes: List { items: [69, 82, 82, 79, 82] } } }, ErrorField { code: 67, text: Text { bytes: List { items: [52, 50, 80, 48, 49] } } }] }), 20)",
    ),
    (
        b"E\x00\x00\x00\x05\x00",
        "Whole(ErrorResponse(List { items: [] }), 6)",
    ),
];

/// What is no message of a server, and the place of its first fault.
const BAD_BACKEND_MESSAGES: [(&[u8], &str); 33] = [
    (b"I\x00\x00\x00\x05I", "Bad(5, Body)"),
    (b"Z", "More"),
    (b"Z\x7F\xFF\xFF\xFF", "More"),
    (b"Q", "Bad(0, TypeByte)"),
    (b"Z\x00\x00\x00\x03", "Bad(1, Length)"),
    (b"Z\x80\x00\x00\x00", "Bad(1, Length)"),
    (b"R\x00\x00\x00\x07\x00\x00\x00", "Bad(5, Body)"),
    (b"R\x00\x00\x00\x08\x00\x00\x00\x03", "Bad(5, Body)"),
    (b"R\x00\x00\x00\x09\x00\x00\x00\x00\x00", "Bad(9, Body)"),
    (
        b"K\x00\x00\x00\x0B\x00\x00\x00\x01\x00\x00\x00",
        "Bad(9, Body)",
    ),
    (b"S\x00\x00\x00\x06a\x00", "Bad(7, Body)"),
    (b"S\x00\x00\x00\x09a\x00b\x00c", "Bad(9, Body)"),
    (b"Z\x00\x00\x00\x04", "Bad(5, Body)"),
    (b"Z\x00\x00\x00\x05i", "Bad(5, Body)"),
    (b"Z\x00\x00\x00\x06II", "Bad(6, Body)"),
    (b"T\x00\x00\x00\x05\x00", "Bad(5, Body)"),
    (b"D\x00\x00\x00\x06\x00\x01", "Bad(7, Body)"),
    (b"D\x00\x00\x00\x0A\x00\x01\xFF\xFF\xFF\xFE", "Bad(7, Body)"),
    (
        b"D\x00\x00\x00\x0B\x00\x01\x00\x00\x00\x02a",
        "Bad(11, Body)",
    ),
    (b"D\x00\x00\x00\x07\x00\x00\x00", "Bad(7, Body)"),
    (b"C\x00\x00\x00\x05a", "Bad(5, Body)"),
    (b"E\x00\x00\x00\x04", "Bad(5, Body)"),
    (b"E\x00\x00\x00\x06SE", "Bad(6, Body)"),
    (b"E\x00\x00\x00\x07SE\x00", "Bad(8, Body)"),
    (b"E\x00\x00\x00\x06\x00\x00", "Bad(6, Body)"),
    (
        b"T\x00\x00\x00\x1A\x00\x01id\x00\x00\x00\x00\x00\x00\x00\x00\x00\x00\x00\x00\x00\x00\x00\x00\x00\x00",
        "Bad(26, Body)",
    ),
    (
        b"T\x00\x00\x00\x18\x00\x01id\x00\x00\x00\x00\x00\x00\x00\x00\x00\x00\x00\x00\x00\x00\x00\x00",
        "Bad(22, Body)",
    ),
    (
        b"T\x00\x00\x00\x14\x00\x01id\x00\x00\x00\x00\x00\x00\x00\x00\x00\x00\x00\x00",
        "Bad(20, Body)",
    ),
    (
        b"T\x00\x00\x00\x12\x00\x01id\x00\x00\x00\x00\x00\x00\x00\x00\x00\x00",
        "Bad(16, Body)",
    ),
    (
        b"T\x00\x00\x00\x0E\x00\x01id\x00\x00\x00\x00\x00\x00",
        "Bad(14, Body)",
    ),
    (
        b"T\x00\x00\x00\x0C\x00\x01id\x00\x00\x00\x00",
        "Bad(10, Body)",
    ),
    (b"T\x00\x00\x00\x08\x00\x01id", "Bad(7, Body)"),
    (b"C\x00\x00\x00\x08a\x00b\x00", "Bad(7, Body)"),
];

/// What was read, as its type is printed.
fn shown<T: Debug + Drop>(alloc: Global, decoded: Decoded<T>) -> Result<String, Fail> {
    Ok(format!(in alloc; "{decoded:?}")?)
}

#[test]
fn startup_packets_are_read(rt: HostRuntime) -> Result<(), Fail> {
    for (bytes, wanted) in STARTUP_PACKETS {
        let read = shown(rt.alloc(), decode_startup(rt.alloc(), bytes))?;
        assert_eq!(rt; read.as_str(), wanted);
    }
    Ok(())
}

#[test]
fn frontend_messages_are_read(rt: HostRuntime) -> Result<(), Fail> {
    for (bytes, wanted) in FRONTEND_MESSAGES {
        let read = shown(rt.alloc(), decode_front(rt.alloc(), bytes))?;
        assert_eq!(rt; read.as_str(), wanted);
    }
    Ok(())
}

#[test]
fn backend_messages_are_read(rt: HostRuntime) -> Result<(), Fail> {
    for (bytes, wanted) in BACKEND_MESSAGES {
        let read = shown(rt.alloc(), decode_back(rt.alloc(), bytes))?;
        assert_eq!(rt; read.as_str(), wanted);
    }
    Ok(())
}

#[test]
fn bad_backend_messages_are_told(rt: HostRuntime) -> Result<(), Fail> {
    for (bytes, wanted) in BAD_BACKEND_MESSAGES {
        let read = shown(rt.alloc(), decode_back(rt.alloc(), bytes))?;
        assert_eq!(rt; read.as_str(), wanted);
    }
    Ok(())
}

/// The description of the column `id`, with a table, an attribute and a modifier that this server never sends.
fn description(format: u16) -> [u8; 28] {
    let mut bytes = *b"T\x00\x00\x00\x1B\x00\x01id\x00..................";
    BigEndian::write_u32(&mut bytes[10..], 7);
    BigEndian::write_u16(&mut bytes[14..], 9);
    BigEndian::write_u32(&mut bytes[16..], 20);
    BigEndian::write_u16(&mut bytes[20..], 8);
    BigEndian::write_u32(&mut bytes[22..], 5);
    BigEndian::write_u16(&mut bytes[26..], format);
    bytes
}

const DESCRIBED: &str =
    "Whole(RowDescription(List { items: [Field { name: Text { bytes: List { items: [105, 100] } }, kind_number: 20, size: 8, format: 1 }] }), 28)";

#[test]
fn row_descriptions_are_read(rt: HostRuntime) -> Result<(), Fail> {
    for (format, wanted) in [(1, DESCRIBED), (2, "Bad(26, Body)")] {
        let read = shown(rt.alloc(), decode_back(rt.alloc(), &description(format)))?;
        assert_eq!(rt; read.as_str(), wanted);
    }
    Ok(())
}
