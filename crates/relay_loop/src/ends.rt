//! The index's end of a stream: a request is read, and its answer is written.
ghost use Rattle.std.specs.Prelude.{◌≡◌, ◌≤◌, ℕ, List, [], Some, true, length, IfOk, IsTrue};
ghost use Rattle.relay_http.specs.Connection.{fresh};
ghost use Rattle.relay_http.specs.Framing.{reply_limit, request_limit};
ghost use Rattle.relay_http.specs.WrittenAnswer.{IsAnswerStatus, answer};
ghost use Rattle.relay_http.specs.WrittenRequest.{is_host, request};

use relay_action::MemStream;
use relay_http::Conn;
use std::alloc::{AllocError, Global};

// More bytes than the head of any message that is written here has.
const HEAD_ROOM: usize = 1024;

// The maximum number of bytes that a call of a stream moves.
const PIECE: usize = 4096;

// A connection over these bytes, whose stream has this room for writes.
fn connect(alloc: Global, input: Vec<u8>, room: usize) -> Result<Conn<MemStream>, AllocError>
    ensures { IfOk result (λ c. c ≡ fresh (Some input.items) (Some []) 0) }
{
    let stream = MemStream::new(alloc, input, room, PIECE, 0)?;
    Conn::new(alloc, stream).map_err(|(failed, _)| failed)
}

fn written(alloc: Global, conn: Conn<MemStream>) -> Result<Vec<u8>, AllocError>
    ensures { (bytes : List ℕ) → conn.written ≡ Some bytes → IfOk result (λ v. v.items ≡ bytes) }
{
    conn.into_stream().written().to_vec(alloc)
}

// The body of the request in these bytes.
pub(crate) fn request_body(alloc: Global, bytes: Vec<u8>) -> Result<Vec<u8>, AllocError>
    ensures { (host body : List ℕ) → IsTrue (is_host host) → length body ≤ request_limit
        → bytes.items ≡ request host body → IfOk result (λ v. v.items ≡ body) }
{
    let mut conn = connect(alloc, bytes, 0)?;
    let request = conn.read_request(alloc).map_err(|_| AllocError)?;
    Ok(request.ok_or(AllocError)?.body)
}

// The bytes of the answer with this status and this body.
pub(crate) fn answer_bytes(alloc: Global, status: u16, body: &str) -> Result<Vec<u8>, AllocError>
    requires status { IsAnswerStatus status }
    requires size { length body.now ≤ reply_limit }
    ensures { IfOk result (λ bytes. bytes.items ≡ answer status body.now true) }
{
    let mut conn = connect(alloc, Vec::new(alloc), body.len() + HEAD_ROOM)?;
    conn.write_answer(alloc, status, body, true)
        .map_err(|_| AllocError)?;
    written(alloc, conn)
}
