//! `apply` over streams in memory: the worked rows, bodies around their limit, and each failing
//! call.
use relay_action::MemStream;
use relay_commands::apply::{ApplyFault, BODY_LIMIT, apply};
use relay_commands::refuse_list::refuse_list;
use relay_index::{Index, Script};
use std::process::Abort;

pub const TWO: &[u8] =
    b"{\"delete\":{\"_id\":\"1\",\"_index\":\"b\",\"version\":1,\"version_type\":\"external\"}}\n{\"delete\":{\"_id\":\"2\",\"_index\":\"b\",\"version\":2,\"version_type\":\"external\"}}\n";

const TWO_ANSWER: &[u8] =
    b"200\n{\"errors\":false,\"items\":[{\"delete\":{\"_id\":\"1\",\"_index\":\"b\",\"_seq_no\":0,\"_version\":1,\"result\":\"not_found\",\"status\":404}},{\"delete\":{\"_id\":\"2\",\"_index\":\"b\",\"_seq_no\":1,\"_version\":2,\"result\":\"not_found\",\"status\":404}}],\"took\":0}\n";

const NO_LAST_LINE_END: &[u8] =
    b"400\n{\"error\":{\"line\":2,\"type\":\"NoFinalNewline\"},\"status\":400}\n";

pub const SECOND_REFUSED: &[u8] =
    b"200\n{\"errors\":true,\"items\":[{\"delete\":{\"_id\":\"1\",\"_index\":\"b\",\"_seq_no\":0,\"_version\":1,\"result\":\"not_found\",\"status\":404}},{\"delete\":{\"_id\":\"2\",\"_index\":\"b\",\"error\":{\"type\":\"scripted_refusal\"},\"status\":429}}],\"took\":0}\n";

// A stream of these bytes in pieces, with room for this many more, one call of which fails (0: none).
pub fn stream_of(
    rt: &(impl Abort + AllocGlobal),
    bytes: &[u8],
    room: usize,
    piece: usize,
    fails: u64,
) -> MemStream {
    let bytes = bytes.to_vec(rt.alloc()).expect(rt, "memory");
    MemStream::new(rt.alloc(), bytes, room, piece.max(1), fails).expect(rt, "memory")
}

// Whether `apply` has this result for a body in pieces under a script, with one failing call of the
// reader and one of the writer (0: none), and writes this.
fn gives_under(
    rt: &(impl Abort + AllocGlobal),
    script: Script,
    body: &[u8],
    calls: (usize, u64, u64),
    answer: Result<(), ApplyFault>,
    written: &[u8],
) -> bool {
    let (piece, read_fails, write_fails) = calls;
    let mut reader = stream_of(rt, body, 0, piece, read_fails);
    let mut writer = stream_of(rt, b"", 1000, piece, write_fails);
    let index = Index::new(rt.alloc());
    let found = apply(rt.alloc(), &mut reader, &mut writer, index, script);
    found == answer && writer.written() == written
}

// Whether `apply` has this result for a body in pieces, with these failing calls, and writes this.
fn gives(
    rt: &(impl Abort + AllocGlobal),
    body: &[u8],
    calls: (usize, u64, u64),
    answer: Result<(), ApplyFault>,
    written: &[u8],
) -> bool {
    gives_under(rt, Script::new(rt.alloc()), body, calls, answer, written)
}

#[test]
fn a_request_of_two(rt: HostRuntime) {
    for piece in [1usize, 7, 100_000] {
        assert!(rt; gives(&rt, TWO, (piece, 0, 0), Ok(()), TWO_ANSWER));
    }
}

#[test]
fn a_scripted_refusal(rt: HostRuntime) {
    let script = refuse_list(rt.alloc(), "2:429").expect(&rt, "a list");
    assert!(rt; gives_under(&rt, script, TWO, (100, 0, 0), Ok(()), SECOND_REFUSED));
}

#[test]
fn no_bulk_request(rt: HostRuntime) {
    let body = &TWO[..TWO.len() - 1];
    assert!(rt; gives(&rt, body, (100, 0, 0), Ok(()), NO_LAST_LINE_END));
}

// The result of `apply` for this many spaces, and whether it wrote nothing.
fn of_spaces(rt: &(impl Abort + AllocGlobal), size: usize) -> (Option<ApplyFault>, bool) {
    let body = Vec::from_elem(rt.alloc(), b' ', size).expect(rt, "memory");
    let mut reader = stream_of(rt, &body, 0, 1_000_000, 0);
    let mut writer = stream_of(rt, b"", 1000, 1000, 0);
    let (index, script) = (Index::new(rt.alloc()), Script::new(rt.alloc()));
    let found = apply(rt.alloc(), &mut reader, &mut writer, index, script);
    (found.err(), writer.written().is_empty())
}

const AT_THEIR_LIMIT: &[(usize, Option<ApplyFault>, bool)] = &[
    (BODY_LIMIT - 1, None, false),
    (BODY_LIMIT, None, false),
    (BODY_LIMIT + 1, Some(ApplyFault::BodyLong), true),
    (BODY_LIMIT + 2, Some(ApplyFault::BodyLong), true),
];

#[test]
fn bodies_at_their_limit(rt: HostRuntime) {
    for (size, fault, silent) in AT_THEIR_LIMIT {
        assert!(rt; of_spaces(&rt, *size) == (*fault, *silent), "{size}");
    }
}

#[test]
fn each_read_fails_in_turn(rt: HostRuntime) {
    for fail_at in 1..TWO.len() as u64 / 10 + 3 {
        let found = gives(&rt, TWO, (10, fail_at, 0), Err(ApplyFault::Read), b"");
        assert!(rt; found, "{fail_at}");
    }
}

// Whether exactly the bytes before a failed write of one byte were written.
fn is_right_at_write(rt: &(impl Abort + AllocGlobal), sent: usize) -> bool {
    let fault = ApplyFault::Write { sent: sent as u64 };
    let calls = (1, 0, (sent as u64).saturating_add(1));
    let part = TWO_ANSWER.get(..sent).expect(rt, "a part of the answer");
    gives(rt, TWO, calls, Err(fault), part)
}

#[test]
fn each_write_fails_in_turn(rt: HostRuntime) {
    for sent in 0..TWO_ANSWER.len() {
        assert!(rt; is_right_at_write(&rt, sent), "{sent}");
    }
}
