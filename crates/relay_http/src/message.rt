//! Writing answers (RFC 9112, section 4).
ghost use Rattle.std.specs.Prelude.{◌≡◌, OnOk};
ghost use Rattle.std.specs.Fmt.{decimal};
ghost use Rattle.relay_http.specs.Connection.{failed_writing};
ghost use Rattle.relay_http.specs.WrittenRequest.{WritesText};
ghost use Rattle.relay_http.specs.WrittenAnswer.{answer, answer_text, ending, reason_of};

use crate::fault::HttpFault;
use itoa::Buffer;
use relay_action::{ByteOut, write_all};
use std::alloc::AllocError;

// Composes the answer with this status and this body, with or without `close`. `AllocError`:
// allocation failed, and the text may hold anything.
pub(crate) fn gather_answer(
    text: &mut Vec<u8>,
    status: u16,
    body: &str,
    keep: bool,
) -> Result<(), AllocError>
    ensures { OnOk result (text.new.items ≡ answer status body.now keep) }
{
    answer_head(text, status, body.len(), keep)?;
    text.extend_from_slice(body.as_bytes())
}

// Sets a text to the head of an answer with a body of this length. After an error, part of it may
// be there.
fn answer_head(text: &mut Vec<u8>, status: u16, size: usize, keep: bool) -> Result<(), AllocError>
    ensures { OnOk result
        (text.new.items ≡ answer_text (decimal status) (reason_of status) (decimal size) keep) }
{
    let mut code = Buffer::new();
    let mut digits = Buffer::new();
    text.clear();
    text.extend_from_slice(b"HTTP/1.1 ")?;
    text.extend_from_slice(code.format(status).as_bytes())?;
    text.push(b' ')?;
    text.extend_from_slice(reason(status))?;
    text.extend_from_slice(b"\r\nContent-Type: application/json\r\nContent-Length: ")?;
    text.extend_from_slice(digits.format(size).as_bytes())?;
    text.extend_from_slice(ending(keep))
}

// The reason phrase of a status, or nothing if it has none here.
fn reason(status: u16) -> &'static [u8]
    ensures { result.now ≡ reason_of status }
{
    match status {
        200 => b"OK",
        400 => b"Bad Request",
        413 => b"Content Too Large",
        429 => b"Too Many Requests",
        502 => b"Bad Gateway",
        503 => b"Service Unavailable",
        504 => b"Gateway Timeout",
        _ => b"",
    }
}

// What follows the length.
fn ending(keep: bool) -> &'static [u8]
    ensures { result.now ≡ ending keep }
{
    if keep {
        b"\r\n\r\n"
    } else {
        b"\r\nConnection: close\r\n\r\n"
    }
}

pub(crate) fn send<S: ByteOut>(stream: &mut S, message: &[u8]) -> Result<(), HttpFault>
    ensures sent { WritesText message.now (S.written stream.old) (S.written stream.new) result }
    ensures failed { S.failed stream.new ≡ failed_writing result (S.failed stream.old) }
    ensures left { S.left stream.new ≡ S.left stream.old }
{
    match write_all(stream, message) {
        Err(_) => Err(HttpFault::Write),
        Ok(()) => Ok(()),
    }
}
