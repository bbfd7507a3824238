//! One request at the index's end: it is read, run and answered.
ghost use Rattle.std.specs.Prelude.{◌≡◌, ℕ, List, string_bytes, IfOk, MatchResult, IsTrue};
ghost use Rattle.relay_action.specs.declared.write.Write.{Write};
ghost use Rattle.relay_ndjson.specs.Bulk.{text_of};
ghost use Rattle.relay_index.specs.Serving.{under};
ghost use Rattle.relay_http.specs.WrittenAnswer.{IsAnswerStatus};
ghost use Rattle.relay_http.specs.WrittenRequest.{is_host, request};
ghost use Rattle.relay_wires.specs.Peers.{MayGo};
ghost use Rattle.relay_loop.specs.Loops.{IsServed, Leaves, Stops};

use crate::ends::{answer_bytes, request_body};
use relay_http::REPLY_LIMIT;
use relay_index::{Index, Script};
use std::alloc::{AllocError, Global};

// Reads and runs the request in these bytes, and returns the status and the text of its answer.
fn serve(
    alloc: Global,
    bytes: Vec<u8>,
    index: &mut Index,
    script: &mut Script,
) -> Result<(u16, String), AllocError>
    ensures status { IfOk result (λ answer. IsAnswerStatus answer.0) }
    ensures served { (host : List ℕ) (ws : List Write) → IsTrue (is_host host) → MayGo ws
        → bytes.items ≡ request host (text_of ws) → MatchResult result
        (λ answer. IsServed ws (under index.old script.old) (under index.new script.new)
        answer.0 (string_bytes answer.1))
        (λ e. Stops ws (under index.old script.old) (under index.new script.new)) }
{
    let body = request_body(alloc, bytes)?;
    index
        .serve_body(alloc, body.as_slice(), script)
        .map_err(|_| AllocError)
}

// Runs the request in these bytes, and returns the bytes of its answer, or none if it is to be lost
// or is longer than a connection carries.
pub(crate) fn leave(
    alloc: Global,
    bytes: Vec<u8>,
    lost: bool,
    index: &mut Index,
    script: &mut Script,
) -> Result<Vec<u8>, AllocError>
    ensures { (host : List ℕ) (ws : List Write) → IsTrue (is_host host) → MayGo ws
        → bytes.items ≡ request host (text_of ws) → MatchResult result
        (λ left. Leaves lost ws (under index.old script.old) (under index.new script.new)
        left.items)
        (λ e. Stops ws (under index.old script.old) (under index.new script.new)) }
{
    let (status, text) = serve(alloc, bytes, index, script)?;
    if lost || text.len() > REPLY_LIMIT {
        return Ok(Vec::new(alloc));
    }
    answer_bytes(alloc, status, text.as_str())
}
