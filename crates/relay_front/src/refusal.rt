//! Requests that are refused as a whole.
ghost use Rattle.std.specs.Prelude.{◌≡◌, IfOk};
ghost use Rattle.relay_front.specs.Texts.{refusal_body};

use crate::text::{add, add_counted, add_error};
use std::alloc::{AllocError, Global};

/// The type of an error for which the client is to blame, as OpenSearch names it.
pub const ILLEGAL_ARGUMENT: &str = "illegal_argument_exception";

/// The body of an answer that refuses a request: its error, in the form of OpenSearch, and its
/// status.
pub fn refusal_text(
    alloc: Global,
    status: u16,
    kind: &str,
    reason: &str,
) -> Result<Vec<u8>, AllocError>
    ensures { IfOk result (λ text. text.items ≡ refusal_body status kind.now reason.now) }
{
    let mut text = Vec::new(alloc);
    add(&mut text, "{\"error\":{\"root_cause\":[{")?;
    add_error(alloc, &mut text, kind, reason)?;
    add(&mut text, "}],")?;
    add_error(alloc, &mut text, kind, reason)?;
    add_counted(&mut text, "},\"status\":", u64::from(status))?;
    text.push(b'}')?;
    Ok(text)
}

/// The body of the answer if memory ran out before anything was put.
pub const NO_MEMORY: &[u8] =
    b"{\"error\":{\"root_cause\":[{\"type\":\"relay_memory\",\"reason\":\"the relay ran out of memory; nothing of the request was put\"}],\"type\":\"relay_memory\",\"reason\":\"the relay ran out of memory; nothing of the request was put\"},\"status\":503}";

/// The body of the answer if memory ran out after operations were put.
pub const NO_ANSWER: &[u8] =
    b"{\"error\":{\"root_cause\":[{\"type\":\"relay_memory\",\"reason\":\"the relay ran out of memory for the answer; the writes may have been applied\"}],\"type\":\"relay_memory\",\"reason\":\"the relay ran out of memory for the answer; the writes may have been applied\"},\"status\":503}";

/// The room for either of the two.
pub const FAILED_ROOM: usize = 320;

// What is said of a refusal of `http_server` with this status.
fn broken_reason(status: u16) -> (&'static str, &'static str) {
    match status {
        413 => (
            "Payload Too Large",
            "the body has more than 104857600 bytes",
        ),
        414 => ("URI Too Long", "the target is too long"),
        429 => (
            "Too Many Requests",
            "the relay has no room for the request; nothing of it was put",
        ),
        431 => (
            "Request Header Fields Too Large",
            "the head has more than 64 fields, or more than 16384 bytes",
        ),
        501 => (
            "Not Implemented",
            "the relay undoes no transfer coding but chunked",
        ),
        500 => ("Internal Server Error", "the answer could not be written"),
        _ => ("Bad Request", "the request is not one of HTTP/1.1"),
    }
}

/// The whole message that refuses what is no request, or one past the limits, with this status. The
/// connection closes after it.
pub fn refusal_message(alloc: Global, status: u16) -> Result<Vec<u8>, AllocError> {
    let (phrase, reason) = broken_reason(status);
    let body = refusal_text(alloc, status, ILLEGAL_ARGUMENT, reason)?;
    let mut text = Vec::new(alloc);
    add_counted(&mut text, "HTTP/1.1 ", u64::from(status))?;
    add(&mut text, " ")?;
    add(&mut text, phrase)?;
    add(
        &mut text,
        "\r\nconnection: close\r\ncontent-type: application/json\r\n",
    )?;
    if status == 429 {
        add(&mut text, "retry-after: 1\r\n")?;
    }
    add_counted(&mut text, "content-length: ", body.len() as u64)?;
    add(&mut text, "\r\n\r\n")?;
    text.extend_from_slice(body.as_slice())?;
    Ok(text)
}
