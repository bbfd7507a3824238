//! Bulk text and its length, and a write that fails in the middle.
use crate::writes::write_of;
use relay_action::{MemStream, Write};
use relay_ndjson::{
    TextFault, append_action_line, append_bulk, append_write, bulk_len, bulk_text, has_escapes,
    write_len, write_write,
};
use std::alloc::Global;
use std::mem;
use std::process::Abort;

const TWO_LINES: &[u8] =
    b"{\"index\":{\"_id\":\"1\",\"_index\":\"books\",\"version\":1,\"version_type\":\"external\"}}\n{\"title\": \"Emma\"}\n{\"delete\":{\"_id\":\"2\",\"_index\":\"books\",\"version\":2,\"version_type\":\"external\"}}\n";

// The write of the first line and its source.
fn indexing(rt: &(impl Abort + AllocGlobal)) -> Write {
    write_of(rt, "books", "1", 1, Some("{\"title\": \"Emma\"}"))
}

// The delete of the last line.
fn deletion(rt: &(impl Abort + AllocGlobal)) -> Write {
    write_of(rt, "books", "2", 2, None)
}

// An index action and a delete, with the versions 1 and 2.
fn two_writes(rt: &(impl Abort + AllocGlobal)) -> Vec<Write> {
    let mut writes = Vec::new(rt.alloc());
    writes.push(indexing(rt)).expect(rt, "memory");
    writes.push(deletion(rt)).expect(rt, "memory");
    writes
}

// Whether this is the bulk text of some writes.
fn is_text(rt: &(impl Abort + AllocGlobal), writes: &[Write], wanted: &[u8]) -> bool {
    let text = bulk_text(rt.alloc(), writes).expect(rt, "memory");
    text.as_slice() == wanted
}

#[test]
fn bulk_text_of_two_writes(rt: HostRuntime) {
    let writes = two_writes(&rt);
    assert!(rt; is_text(&rt, &writes, TWO_LINES) && is_text(&rt, &[], b""));
    assert!(rt; writes.len() == 2 && bulk_len(&writes) == 173 && write_len(&writes[1]) == 78);
}

// The text of a write is added to what was there before.
#[test]
fn a_write_is_appended(rt: HostRuntime) {
    let write = deletion(&rt);
    let mut text = b"x".to_vec(rt.alloc()).expect(&rt, "memory");
    append_write(rt.alloc(), &mut text, &write).expect(&rt, "memory");
    assert!(rt; text.len() == 79 && text.as_slice().starts_with(b"x{\"delete\""));
    mem::forget(write);
}

// Whether a text is a byte, an action line and two writes.
fn is_appended(text: &[u8]) -> bool {
    text.len() == 251 && text.starts_with(b"x{\"index\"") && text.ends_with(TWO_LINES)
}

// The action line of a write is added to what was there before, without its source, and then the
// lines of both writes.
#[test]
fn an_action_line_and_writes_are_appended(rt: HostRuntime) {
    let write = indexing(&rt);
    let writes = two_writes(&rt);
    let mut text = b"x".to_vec(rt.alloc()).expect(&rt, "memory");
    append_action_line(rt.alloc(), &mut text, &write).expect(&rt, "memory");
    append_bulk(&mut text, &writes).expect(&rt, "memory");
    assert!(rt; is_appended(text.as_slice()) && !has_escapes(&write));
    mem::forget((write, writes));
}

// A delete with texts of which some characters are escaped in JSON strings and others are not is
// written as these bytes, and has their length.
#[test]
fn texts_are_escaped(rt: HostRuntime) {
    let wanted =
        b"{\"delete\":{\"_id\":\"\\b\\t\\n\\f\\r\\\"\\\\/\\u001f\",\"_index\":\"\xc3\xa9\x7f\",\"version\":18446744073709551615,\"version_type\":\"external\"}}\n";
    let id = "\u{8}\t\n\u{c}\r\"\\/\u{1f}";
    let write = write_of(&rt, "é\u{7f}", id, u64::MAX, None);
    assert!(rt; has_escapes(&write) && write_len(&write) == wanted.len() as u64);
    let nothing = Vec::new(rt.alloc());
    let mut out = MemStream::new(rt.alloc(), nothing, 1000, 3, 0).expect(&rt, "memory");
    write_write(rt.alloc(), &mut out, &write).expect(&rt, "a write");
    assert!(rt; out.written() == wanted.as_slice());
    mem::forget((write, out));
}

// The result if this call of the stream fails while a write is written in pieces of seven bytes,
// and how many bytes were written.
fn written_until(
    rt: &impl Abort,
    alloc: Global,
    write: &Write,
    fail_at: u64,
) -> (Result<(), TextFault>, u64) {
    let mut out = MemStream::new(alloc, Vec::new(alloc), 100, 7, fail_at).expect(rt, "memory");
    let answer = write_write(alloc, &mut out, write);
    let sent = out.written().len() as u64;
    mem::forget(out);
    (answer, sent)
}

// Each call of writing in pieces of seven bytes fails in turn: exactly the bytes before it were
// written.
#[test]
fn each_write_fails_in_turn(rt: HostRuntime) {
    let write = deletion(&rt);
    for fail_at in 1..12u64 {
        let sent = 7 * (fail_at - 1);
        let failed = Err(TextFault::Write { sent });
        assert!(rt; written_until(&rt, rt.alloc(), &write, fail_at) == (failed, sent));
    }
    assert!(rt; written_until(&rt, rt.alloc(), &write, 13) == (Ok(()), 78));
    mem::forget(write);
}
