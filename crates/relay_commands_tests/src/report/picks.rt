//! Extracting operations: the lines of a report, their names, and the lines of an input.
use relay_action::MemStream;
use relay_ndjson::{InputFault, LineKind};
use relay_report::{Named, PickFault, ReportFault, first_missing, pick, read_name, read_names};
use std::process::Abort;

type Name = Option<(u32, u32, u64)>;

// The name in a line of a report, as epoch, producer and number.
fn name_on(rt: &(impl Abort + AllocGlobal), line: &[u8]) -> Name {
    let name = read_name(rt.alloc(), line).expect(rt, "memory")?;
    Some((name.epoch, name.producer, name.number))
}

const LINES: &[(&[u8], Name)] = &[
    (
        b"{\"cause\":\"Refused\",\"id\":\"emma\",\"index\":\"books\",\"kind\":\"k\",\"number\":17,\"producer\":0,\"status\":400}",
        Some((0, 0, 17)),
    ),
    (
        b" {\"producer\" : 15, \"epoch\" : 4194303, \"number\":1, \"index\":\"b\", \"id\":\"\", \"cause\":\"Sp\\u0065nt\"}",
        Some((4_194_303, 15, 1)),
    ),
    (
        b"{\"cause\":\"Request\",\"id\":\"1\",\"index\":\"b\",\"number\":2,\"producer\":0,\"status\":413}",
        Some((0, 0, 2)),
    ),
    (
        b"{\"cause\":\"GaveUp\",\"id\":\"1\",\"index\":\"b\",\"number\":2,\"producer\":0,\"sends\":8}",
        Some((0, 0, 2)),
    ),
    (
        b"{\"cause\":\"GaveUp\",\"id\":\"1\",\"index\":\"b\",\"last\":\"timeout\",\"number\":2,\"producer\":0,\"sends\":8}",
        Some((0, 0, 2)),
    ),
    (
        b"{\"cause\":\"GaveUp\",\"id\":\"1\",\"index\":\"b\",\"last\":7,\"number\":2,\"producer\":0,\"sends\":8}",
        None,
    ),
    (
        b"{\"cause\":\"Request\",\"id\":\"1\",\"index\":\"b\",\"number\":2,\"producer\":0,\"reason\":\"denied\",\"status\":403}",
        Some((0, 0, 2)),
    ),
    (
        b"{\"cause\":\"Request\",\"id\":\"1\",\"index\":\"b\",\"number\":2,\"producer\":0,\"reason\":null,\"status\":403}",
        None,
    ),
    (
        b"{\"cause\":\"Conflict\",\"id\":\"1\",\"index\":\"b\",\"number\":3,\"number\":2,\"producer\":0}",
        Some((0, 0, 2)),
    ),
    (b"", None),
    (b"[]", None),
    (b"\xff", None),
    (
        b"{\"cause\":\"Spent\",\"id\":\"1\",\"index\":\"b\",\"number\":2}",
        None,
    ),
    (
        b"{\"cause\":\"Spent\",\"id\":\"1\",\"index\":\"b\",\"number\":2,\"producer\":0,\"more\":1}",
        None,
    ),
    (
        b"{\"cause\":\"Spent\",\"id\":\"1\",\"index\":\"b\",\"number\":2,\"producer\":0,\"sends\":1}",
        None,
    ),
    (
        b"{\"cause\":\"Refused\",\"id\":\"1\",\"index\":\"b\",\"number\":2,\"producer\":0,\"status\":400}",
        None,
    ),
    (
        b"{\"cause\":\"Lost\",\"id\":\"1\",\"index\":\"b\",\"number\":2,\"producer\":0}",
        None,
    ),
    (
        b"{\"cause\":\"Spent\",\"id\":\"1\",\"index\":\"b\",\"number\":2.0,\"producer\":0}",
        None,
    ),
    (
        b"{\"cause\":\"Spent\",\"id\":\"1\",\"index\":\"b\",\"number\":2,\"producer\":4294967296}",
        None,
    ),
];

#[test]
fn lines_of_a_report(rt: HostRuntime) {
    for (line, name) in LINES {
        assert!(rt; name_on(&rt, *line) == *name);
    }
}

const REPORT: &[u8] =
    b"{\"cause\":\"Spent\",\"id\":\"1\",\"index\":\"b\",\"number\":2,\"producer\":3}\r\n{\"cause\":\"Spent\",\"id\":\"1\",\"index\":\"b\",\"number\":1,\"producer\":0}\nx\n";

const TWO_NAMES: &[Named] = &[
    Named {
        producer: 3,
        number: 2,
        line: 1,
    },
    Named {
        producer: 0,
        number: 1,
        line: 2,
    },
];

// A stream of these bytes in pieces, with room for this many more, one call of which fails (0: none).
fn stream_of(
    rt: &(impl Abort + AllocGlobal),
    bytes: &[u8],
    room: usize,
    piece: usize,
    fails: u64,
) -> MemStream {
    let bytes = bytes.to_vec(rt.alloc()).expect(rt, "memory");
    MemStream::new(rt.alloc(), bytes, room, piece.max(1), fails).expect(rt, "memory")
}

// The result of `read_names` for a report in pieces, if one of the reads fails (0: none). The names
// that it adds are the first of those two.
fn reads(rt: &(impl Abort + AllocGlobal), piece: usize, fails: u64) -> Result<(), ReportFault> {
    let mut report = stream_of(rt, REPORT, 0, piece, fails);
    let mut names = Vec::new(rt.alloc());
    let result = read_names(rt.alloc(), &mut report, &mut names);
    assert!(rt; TWO_NAMES.starts_with(names.as_slice()));
    result
}

#[test]
fn names_of_a_report(rt: HostRuntime) {
    for piece in [1usize, 10, 1000] {
        assert!(rt; reads(&rt, piece, 0) == Err(ReportFault::BadLine { line: 3 }));
    }
    for fails in [1u64, 2, 3] {
        assert!(rt; reads(&rt, 50, fails) == Err(ReportFault::Read));
    }
}

const INPUT: &[u8] =
    b"\r\n{\"delete\":{\"_id\":\"1\",\"_index\":\"b\"}}\r\n\n{\"index\":{\"_id\":\"2\"}}\n{\"a\":1}\r\n{\"index\":{\"_id\":\"3\"}}\n{}";

const FIRST: &[u8] = b"{\"delete\":{\"_id\":\"1\",\"_index\":\"b\"}}\r\n";

const SECOND: &[u8] = b"{\"index\":{\"_id\":\"2\"}}\n{\"a\":1}\r\n";

const THIRD: &[u8] = b"{\"index\":{\"_id\":\"3\"}}\n{}\n";

const LAST_TWO: &[u8] =
    b"{\"index\":{\"_id\":\"2\"}}\n{\"a\":1}\r\n{\"index\":{\"_id\":\"3\"}}\n{}\n";

// The names of these numbers of producer 3, after a number of another one.
fn names_of(rt: &(impl Abort + AllocGlobal), numbers: &[u64]) -> Vec<Named> {
    let mut names = Vec::new(rt.alloc());
    let other = Named {
        producer: 2,
        number: 1,
        line: 1,
    };
    names.push(other).expect(rt, "memory");
    for number in numbers {
        let name = Named {
            producer: 3,
            number: *number,
            line: 2,
        };
        names.push(name).expect(rt, "memory");
    }
    names
}

// The result of `pick` for these numbers with the input in pieces, and what it writes to. One read
// and one write fail (0: none).
fn picked(
    rt: &(impl Abort + AllocGlobal),
    numbers: &[u64],
    index: Option<&str>,
    piece: usize,
    fails: (u64, u64),
) -> (Result<u64, PickFault>, MemStream) {
    let names = names_of(rt, numbers);
    let mut input = stream_of(rt, INPUT, 0, piece, fails.0);
    let mut writer = stream_of(rt, b"", 1000, piece, fails.1);
    let found = pick(rt.alloc(), &names, 3, &mut input, index, &mut writer);
    (found, writer)
}

// Whether `pick` has this result for these numbers, and writes this.
fn picks(rt: &(impl Abort + AllocGlobal), piece: usize, row: &Row) -> bool {
    let (numbers, index, result, written) = *row;
    let (found, writer) = picked(rt, numbers, index, piece, (0, 0));
    found == result && writer.written() == written
}

type Row = (
    &'static [u64],
    Option<&'static str>,
    Result<u64, PickFault>,
    &'static [u8],
);

const ROWS: &[Row] = &[
    (&[], Some("b"), Ok(0), b""),
    (&[0], Some("b"), Ok(0), b""),
    (&[1], None, Ok(1), FIRST),
    (&[2], Some("b"), Ok(2), SECOND),
    (&[3, 3], Some("b"), Ok(3), THIRD),
    (&[3, 2], Some("b"), Ok(3), LAST_TWO),
    (&[1, 7], Some("b"), Ok(3), FIRST),
    (
        &[1, 2],
        None,
        Err(PickFault::Input(InputFault {
            line: 4,
            kind: LineKind::MissingIndex,
        })),
        FIRST,
    ),
];

#[test]
fn operations_of_an_input(rt: HostRuntime) {
    for row in ROWS {
        for piece in [1usize, 9, 1000] {
            assert!(rt; picks(&rt, piece, row));
        }
    }
}

// Whether a call failed: the read or the write with these numbers, of which one is 0.
fn is_failed(found: Result<u64, PickFault>, fails: (u64, u64)) -> bool {
    match found {
        Err(PickFault::Input(fault)) => fails.0 > 0 && fault.kind == LineKind::Read,
        Err(PickFault::Write) => fails.1 > 0,
        _ => false,
    }
}

// Whether `pick` ends with a failed call, and what it wrote is a prefix of what it would write.
fn fails(rt: &(impl Abort + AllocGlobal), fails: (u64, u64)) -> bool {
    let (found, writer) = picked(rt, &[2, 3], Some("b"), 20, fails);
    is_failed(found, fails) && LAST_TWO.starts_with(writer.written())
}

#[test]
fn each_call_fails_in_turn(rt: HostRuntime) {
    for call in [1u64, 2, 3, 4, 5] {
        assert!(rt; fails(&rt, (call, 0)));
    }
    for call in [1u64, 2, 3] {
        assert!(rt; fails(&rt, (0, call)));
    }
}

const MISSING: &[(&[u64], Option<u64>)] = &[
    (&[1, 0, 0, 2], None),
    (&[1, 0, 0, 1], Some(1)),
    (&[0, 0, 0, 2], Some(2)),
    (&[1], Some(1)),
];

#[test]
fn names_that_no_input_has(rt: HostRuntime) {
    for (counts, line) in MISSING {
        assert!(rt; first_missing(TWO_NAMES, *counts) == *line);
    }
}
