//! Requests that are sent in many pieces, and failed allocations.
use crate::reading::over_failing;
use relay_action::{Action, DocKey, Write};
use relay_http::HttpFault;
use relay_ndjson::bulk_len;
use std::alloc::{AllocError, Global};

// A write of the document with this id and version.
fn write_of(alloc: Global, id: &str, version: u64, source: &str) -> Option<Write> {
    Some(Write {
        key: DocKey::new(alloc, "a", id).ok()?,
        version,
        action: Action::index(alloc, source).ok()?,
    })
}

// A text of this many bytes.
fn text_of(alloc: Global, size: usize) -> Result<String, AllocError> {
    let mut text = String::new(alloc);
    for _byte in 0..size {
        text.push('x')?;
    }
    Ok(text)
}

/// Writes of distinct documents, with sources of this many bytes.
pub fn writes_of(alloc: Global, count: u64, size: usize) -> Option<Vec<Write>> {
    writes_named(alloc, "", count, size)
}

/// The same, with ids that begin with this.
pub fn writes_named(alloc: Global, start: &str, count: u64, size: usize) -> Option<Vec<Write>> {
    let source = text_of(alloc, size).ok()?;
    let mut writes = Vec::new(alloc);
    for number in 1..=count {
        let id = format!(in alloc; "{start}{number}").ok()?;
        let write = write_of(alloc, id.as_str(), number, source.as_str())?;
        if writes.push(write).is_err() {
            return None;
        }
    }
    Some(writes)
}

// The lines of these writes, whose ids begin with this in a JSON string.
fn lines_of(alloc: Global, start: &str, count: u64, size: usize) -> Result<String, AllocError> {
    let source = text_of(alloc, size)?;
    let mut lines = String::new(alloc);
    for number in 1..=count {
        let line = format!(in alloc;
            "{{\"index\":{{\"_id\":\"{start}{number}\",\"_index\":\"a\",\"version\":{number},\"version_type\":\"external\"}}}}\n{source}\n"
        )?;
        lines.push_str(line.as_str())?;
    }
    Ok(lines)
}

// The request with these lines.
fn request_of(alloc: Global, lines: &str) -> Result<String, AllocError> {
    let size = lines.len();
    format!(in alloc;
        "POST /_bulk HTTP/1.1\r\nHost: a\r\nContent-Type: application/x-ndjson\r\nContent-Length: {size}\r\n\r\n{lines}"
    )
}

/// The request with this many writes, each with a source of this many bytes and an id that begins
/// with this in a JSON string.
pub fn request_named(
    alloc: Global,
    start: &str,
    count: u64,
    size: usize,
) -> Result<String, AllocError> {
    let lines = lines_of(alloc, start, count, size)?;
    request_of(alloc, lines.as_str())
}

// The result of writing the request with these writes to a stream that takes a few bytes at a time:
// the result, and whether these bytes were written, or, if an allocation failed, none or a prefix
// of them with the head.
fn leaves(alloc: Global, writes: &[Write], wanted: &str, piece: usize) -> Result<bool, AllocError> {
    if piece == 0 || writes.len() > 10_000 || bulk_len(writes) > 16_777_216 {
        return Ok(false);
    }
    let mut conn = over_failing(alloc, b"", piece, wanted.len(), 0)?;
    let done = conn.write_request(alloc, "a", writes);
    let open = conn.is_open();
    let stream = conn.into_stream();
    Ok(match done {
        Ok(()) => open && stream.written() == wanted.as_bytes(),
        Err(HttpFault::Memory) => {
            !open
                && is_front(
                    stream.written(),
                    wanted.as_bytes(),
                    bulk_len(writes) as usize,
                )
        }
        Err(_) => false,
    })
}

// Whether nothing was written, or the head and part of the body of this length.
fn is_front(written: &[u8], wanted: &[u8], body: usize) -> bool {
    written.is_empty()
        || (wanted.starts_with(written) && written.len().saturating_add(body) >= wanted.len())
}

// Whether a request whose ids begin with a text that has this form in a JSON string is written as
// expected. `None`: an allocation of the test failed.
fn is_written_named(
    alloc: Global,
    start: (&str, &str),
    count: u64,
    size: usize,
    piece: usize,
) -> Option<bool> {
    let writes = writes_named(alloc, start.0, count, size)?;
    let wanted = request_named(alloc, start.1, count, size).ok()?;
    leaves(alloc, writes.as_slice(), wanted.as_str(), piece).ok()
}

// The same with ids that need no escapes.
fn is_written(alloc: Global, count: u64, size: usize, piece: usize) -> Option<bool> {
    is_written_named(alloc, ("", ""), count, size, piece)
}

#[test]
fn ten_thousand_writes(rt: HostRuntime) {
    assert!(rt; is_written(rt.alloc(), 10_000, 1_000, 100_000) == Some(true));
}

#[test]
fn a_byte_at_a_time(rt: HostRuntime) {
    assert!(rt; is_written(rt.alloc(), 100, 1_000, 1) == Some(true));
}

// A source of 16,384 bytes is sent without copying it, and a single one may be longer than a piece.
#[test]
fn long_sources(rt: HostRuntime) {
    for size in [16_383, 16_384, 65_536, 1_000_000] {
        assert!(rt; is_written(rt.alloc(), 3, size, 100_000) == Some(true));
    }
}

// An id with a quote needs an allocation when its line is written, and the head is sent before
// that. The test passes whichever allocation fails, so that each can be refused in turn (`make
// refusals`): then nothing was sent, or the whole head and part of the body.
#[test]
fn memory_that_is_refused(rt: HostRuntime) {
    for size in [100, 30_000] {
        assert!(rt; is_written_named(rt.alloc(), ("\"", "\\\""), 3, size, 100_000) != Some(false));
    }
}
