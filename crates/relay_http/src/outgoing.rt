//! Writing requests, piece by piece (RFC 9112, section 3).
ghost use Rattle.std.specs.Prelude.{◌≡◌, ◌≤◌, ◌<◌, ◌++◌, length, OnOk, IfSome};
ghost use Rattle.std.specs.Fmt.{decimal};
ghost use Rattle.relay_ndjson.specs.Bulk.{line_end, source_line, text_of, write_text};
ghost use Rattle.relay_http.specs.Connection.{failed_writing};
ghost use Rattle.relay_http.specs.WrittenRequest.{head_text, SendsRequest};
ghost use Rattle.relay_http.specs.Steps.{Begun, Flushes, Gathers, SendsBoth};

use crate::fault::HttpFault;
use itoa::Buffer;
use relay_action::{Action, ByteOut, Write, write_all};
use relay_ndjson::{append_action_line, append_write, bulk_len, has_escapes};
use std::alloc::{AllocError, Global};

// What was gathered is sent once it has this many bytes.
const PIECE: usize = 60_416;

// The room for what is gathered: a piece, the longest action line, which has 4,693 bytes, and the
// longest source that is gathered. So adding lines does not allocate.
const ROOM: u64 = 81_920;

// A source of this many bytes or more is written from where it is. Copying a shorter one is
// quicker.
const LONG_SOURCE: usize = 16_384;

// More bytes than any head has.
const HEAD_ROOM: u64 = 512;

// Writes the request with these writes to this host. It is gathered in the text and sent a piece at
// a time, except that long sources are written from where they are. If an allocation fails after
// the head was composed, the head is sent.
pub(crate) fn write_bulk<S: ByteOut>(
    alloc: Global,
    stream: &mut S,
    text: &mut Vec<u8>,
    host: &str,
    writes: &[Write],
) -> Result<(), HttpFault>
    requires { length writes.now ≤ 10000 }
    ensures sent { SendsRequest host.now writes.now (S.written stream.old) (S.written stream.new)
        result }
    ensures failed { S.failed stream.new ≡ failed_writing result (S.failed stream.old) }
    ensures left { S.left stream.new ≡ S.left stream.old }
{
    start(stream, text, host, writes)?;
    for write in writes {
        gather(alloc, stream, text, write)?;
    }
    flush(stream, text)
}

// Gathers the head, and sends it ahead if a line may need an allocation. A request of several
// pieces is not checked for that: sending one more piece costs less.
fn start<S: ByteOut>(
    stream: &mut S,
    text: &mut Vec<u8>,
    host: &str,
    writes: &[Write],
) -> Result<(), HttpFault>
    requires { length writes.now ≤ 10000 }
    ensures sent { Begun (head_text host.now (decimal (length (text_of writes.now))))
        text.new.items (S.written stream.old) (S.written stream.new) result }
    ensures failed { S.failed stream.new ≡ failed_writing result (S.failed stream.old) }
    ensures left { S.left stream.new ≡ S.left stream.old }
{
    let size = bulk_len(writes);
    if let Err(_) = begin(text, host, size) {
        return Err(HttpFault::Memory);
    }
    if size > ROOM || takes_memory(writes) {
        return flush(stream, text);
    }
    Ok(())
}

// Whether the lines of one of the writes may need an allocation beyond the room for what is
// gathered.
fn takes_memory(writes: &[Write]) -> bool {
    writes.iter().any(|write| has_escapes(write))
}

// Sets a text to the head of the request to this host with a body of this length, and makes room
// for a piece.
fn begin(text: &mut Vec<u8>, host: &str, size: u64) -> Result<(), AllocError>
    ensures { OnOk result (text.new.items ≡ head_text host.now (decimal size)) }
{
    let mut digits = Buffer::new();
    text.clear();
    text.reserve(size.saturating_add(HEAD_ROOM).min(ROOM) as usize)?;
    text.extend_from_slice(b"POST /_bulk HTTP/1.1\r\nHost: ")?;
    text.extend_from_slice(host.as_bytes())?;
    text.extend_from_slice(b"\r\nContent-Type: application/x-ndjson\r\nContent-Length: ")?;
    text.extend_from_slice(digits.format(size).as_bytes())?;
    text.extend_from_slice(b"\r\n\r\n")
}

// Gathers or sends the lines of a write.
fn gather<S: ByteOut>(
    alloc: Global,
    stream: &mut S,
    text: &mut Vec<u8>,
    write: &Write,
) -> Result<(), HttpFault>
    ensures sent { Gathers (write_text write.now) text.old.items text.new.items
        (S.written stream.old) (S.written stream.new) result }
    ensures failed { S.failed stream.new ≡ failed_writing result (S.failed stream.old) }
    ensures left { S.left stream.new ≡ S.left stream.old }
{
    match long_source(write) {
        Some(source) => send_source(alloc, stream, text, write, source),
        None => gather_lines(alloc, stream, text, write),
    }
}

fn long_source(write: &Write) -> Option<&[u8]>
    ensures { IfSome result (λ source. source_line write.now.action ≡ source.now ++ line_end) }
{
    match &write.action {
        Action::Index(source) if source.text().len() >= LONG_SOURCE => {
            Some(source.text().as_bytes())
        }
        _ => None,
    }
}

// Gathers the lines of a write, and sends what was gathered once it makes a piece. If an allocation
// fails, what was gathered before is sent.
fn gather_lines<S: ByteOut>(
    alloc: Global,
    stream: &mut S,
    text: &mut Vec<u8>,
    write: &Write,
) -> Result<(), HttpFault>
    ensures sent { Gathers (write_text write.now) text.old.items text.new.items
        (S.written stream.old) (S.written stream.new) result }
    ensures failed { S.failed stream.new ≡ failed_writing result (S.failed stream.old) }
    ensures left { S.left stream.new ≡ S.left stream.old }
{
    if let Err(_) = append_write(alloc, text, write) {
        flush(stream, text)?;
        return Err(HttpFault::Memory);
    }
    if text.len() < PIECE {
        return Ok(());
    }
    flush(stream, text)
}

// Sends what was gathered, the action line of a write and its source, and gathers the line end
// after it. If an allocation fails, what was gathered before is sent.
fn send_source<S: ByteOut>(
    alloc: Global,
    stream: &mut S,
    text: &mut Vec<u8>,
    write: &Write,
    source: &[u8],
) -> Result<(), HttpFault>
    requires { source_line write.now.action ≡ source.now ++ line_end }
    ensures sent { Gathers (write_text write.now) text.old.items text.new.items
        (S.written stream.old) (S.written stream.new) result }
    ensures failed { S.failed stream.new ≡ failed_writing result (S.failed stream.old) }
    ensures left { S.left stream.new ≡ S.left stream.old }
{
    if let Err(_) = append_action_line(alloc, text, write) {
        flush(stream, text)?;
        return Err(HttpFault::Memory);
    }
    send_both(stream, text.as_slice(), source)?;
    keep_line_end(text);
    Ok(())
}

// Writes one text and then another. `Err`: a write failed.
fn send_both<S: ByteOut>(stream: &mut S, first: &[u8], second: &[u8]) -> Result<(), HttpFault>
    ensures sent { SendsBoth (first.now ++ second.now) (S.written stream.old)
        (S.written stream.new) result }
    ensures failed { S.failed stream.new ≡ failed_writing result (S.failed stream.old) }
    ensures left { S.left stream.new ≡ S.left stream.old }
{
    if let Err(_) = write_all(stream, first) {
        return Err(HttpFault::Write);
    }
    if let Err(_) = write_all(stream, second) {
        return Err(HttpFault::Write);
    }
    Ok(())
}

// Replaces what was gathered by a line end, for which there is room.
fn keep_line_end(text: &mut Vec<u8>)
    requires { 0 < length text.old.items }
    ensures { text.new.items ≡ line_end }
{
    text.truncate(1);
    text[0] = b'\n';
}

// Sends what was gathered.
fn flush<S: ByteOut>(stream: &mut S, text: &mut Vec<u8>) -> Result<(), HttpFault>
    ensures sent { Flushes text.old.items text.new.items (S.written stream.old)
        (S.written stream.new) result }
    ensures failed { S.failed stream.new ≡ failed_writing result (S.failed stream.old) }
    ensures left { S.left stream.new ≡ S.left stream.old }
{
    match write_all(stream, text.as_slice()) {
        Err(_) => Err(HttpFault::Write),
        Ok(()) => {
            text.clear();
            Ok(())
        }
    }
}
