//! One request on a connection.
ghost use Rattle.std.specs.Prelude.{IsTrue, IsFalse, option_map};
ghost use Rattle.relay_index.specs.Serving.{under};
ghost use Rattle.relay_http.specs.Connection.{is_broken, is_open};
ghost use Rattle.relay_http.specs.WrittenAnswer.{IsAnswerStatus};
ghost use Rattle.relay_http.specs.Listening.{shown_by};
ghost use Rattle.relay_stub.specs.Visits.{IsAnswered, IsServed, Exchanges, Meets, MeetsBulk, MeetsPut};
ghost use Rattle.relay_stub.specs.Visits.{Receives};

use crate::document::put_document;
use relay_action::{ByteIn, ByteOut};
use relay_http::{Conn, HttpRequest, REPLY_LIMIT};
use relay_index::{Index, Script, ServeFault};
use relay_target::read_target;
use std::alloc::Global;

// The answer to a request that is not a POST to `/_bulk`.
const NOT_BULK: &str = "{\"error\":{\"type\":\"NotBulk\"},\"status\":400}";

/// Serves one request on a connection over this stream, and returns the stream.
///
/// A bulk request is run by the index under the script, as in `Index::serve_body`, and answered. A
/// PUT of a document, `/INDEX/_doc/ID`, is stored with the version that the index gives it, as
/// [`put_document`] does. Any other request gets 400 and
/// `{"error":{"type":"NotBulk"},"status":400}`. Each answer says that the connection closes. If no request arrives, if its bytes are invalid, or if a read or an
/// allocation for reading fails, nothing is run and nothing answered. An answer of more than
/// 67,108,864 bytes is not written; its request was run, and so was one whose answer could not be
/// written in full.
///
/// `ServeFault`: an allocation for the connection or for running the request failed after exactly
/// the first `ran` items of the request, and nothing was written.
///
/// [`put_document`]: crate::document::put_document
pub fn serve_connection<S: ByteIn + ByteOut + Drop>(
    alloc: Global,
    stream: S,
    index: &mut Index,
    script: &mut Script,
) -> (Result<(), ServeFault>, S)
    ensures { IsServed (shown_by (S.left stream) (S.written stream) (S.failed stream))
        (shown_by (S.left result.1) (S.written result.1) (S.failed result.1))
        (under index.old script.old) (under index.new script.new) result.0 }
{
    match Conn::new(alloc, stream) {
        Ok(mut conn) => {
            let result = serve_request(alloc, &mut conn, index, script);
            (result, conn.into_stream())
        }
        Err((_, stream)) => (Err(ServeFault { ran: 0 }), stream),
    }
}

// Looks at a request, reads it, and does what it asks for. If there is none, nothing is done.
fn serve_request<S: ByteIn + ByteOut + Drop>(
    alloc: Global,
    conn: &mut Conn<S>,
    index: &mut Index,
    script: &mut Script,
) -> Result<(), ServeFault>
    requires { IsTrue (is_open conn.old.phase) }
    ensures { Exchanges conn.old conn.new
        (under index.old script.old) (under index.new script.new) result }
{
    match conn.peek_put(alloc) {
        Ok(put) => receive(alloc, conn, put, index, script),
        Err(_) => Ok(()),
    }
}

// Reads a request, which is a PUT of this target if there is one, and does what it asks for.
fn receive<S: ByteIn + ByteOut + Drop>(
    alloc: Global,
    conn: &mut Conn<S>,
    put: Option<Vec<u8>>,
    index: &mut Index,
    script: &mut Script,
) -> Result<(), ServeFault>
    requires { IsTrue (is_open conn.old.phase) }
    ensures { Receives (option_map (λ v. v.items) put) conn.old conn.new
        (under index.old script.old) (under index.new script.new) result }
{
    match conn.read_request(alloc) {
        Ok(Some(request)) => meet(alloc, conn, &request, put, index, script),
        Ok(None) => Ok(()),
        Err(_) => Ok(()),
    }
}

// Does what a request asks for.
fn meet<S: ByteOut + Drop>(
    alloc: Global,
    conn: &mut Conn<S>,
    request: &HttpRequest,
    put: Option<Vec<u8>>,
    index: &mut Index,
    script: &mut Script,
) -> Result<(), ServeFault>
    requires { IsFalse (is_broken conn.old.phase) }
    ensures { Meets request.now (option_map (λ v. v.items) put) (under index.old script.old)
        (under index.new script.new) conn.old conn.new result }
{
    if request.bulk {
        return run(alloc, conn, request.body.as_slice(), index, script);
    }
    if let Some(target) = put {
        return store(
            alloc,
            conn,
            target.as_slice(),
            request.body.as_slice(),
            index,
            script,
        );
    }
    reply(alloc, conn, 400, NOT_BULK);
    Ok(())
}

// Stores a body under the target of a document, and answers it.
fn store<S: ByteOut + Drop>(
    alloc: Global,
    conn: &mut Conn<S>,
    target: &[u8],
    body: &[u8],
    index: &mut Index,
    script: &Script,
) -> Result<(), ServeFault>
    requires { IsFalse (is_broken conn.old.phase) }
    ensures { MeetsPut target.now body.now (under index.old script.now)
        (under index.new script.now) conn.old conn.new result }
{
    let Ok(key) = read_target(alloc, target) else {
        return Err(ServeFault { ran: 0 });
    };
    let Some(key) = key else {
        reply(alloc, conn, 400, NOT_BULK);
        return Ok(());
    };
    match put_document(alloc, index, key, body) {
        Ok(Some((status, text))) => {
            reply(alloc, conn, status, text.as_str());
            Ok(())
        }
        Ok(None) => {
            reply(alloc, conn, 400, NOT_BULK);
            Ok(())
        }
        Err(fault) => Err(fault),
    }
}

// Runs the body of a bulk request, and answers it.
fn run<S: ByteOut + Drop>(
    alloc: Global,
    conn: &mut Conn<S>,
    body: &[u8],
    index: &mut Index,
    script: &mut Script,
) -> Result<(), ServeFault>
    requires { IsFalse (is_broken conn.old.phase) }
    ensures { MeetsBulk body.now (under index.old script.old) (under index.new script.new)
        conn.old conn.new result }
{
    let (status, text) = index.serve_body(alloc, body, script)?;
    reply(alloc, conn, status, text.as_str());
    Ok(())
}

// Writes an answer, unless it is too long. A fault of the connection is ignored, since the
// connection carries nothing more.
fn reply<S: ByteOut + Drop>(alloc: Global, conn: &mut Conn<S>, status: u16, text: &str)
    requires phase { IsFalse (is_broken conn.old.phase) }
    requires status { IsAnswerStatus status }
    ensures { IsAnswered status text.now conn.old conn.new }
{
    if text.len() > REPLY_LIMIT {
        return;
    }
    let _ = conn.write_answer(alloc, status, text, false);
}
