//! Serving bulk requests.
ghost use Rattle.relay_results.specs.Done.{AreStatable};
ghost use Rattle.std.specs.Prelude.{◌≡◌, IfOk, IfErr, string_bytes};
ghost use Rattle.serde_json.specs.View.{view};
ghost use Rattle.relay_index.specs.Serving.{under, answer_of, RunsAll, RunsFirst, Replies};
ghost use Rattle.relay_index.specs.Serving.{fault_data, fault_text, too_large_data, too_large_text};
ghost use Rattle.relay_index.specs.Serving.{IsRejection, IsTooLarge, Answers, StopsAfter};

use crate::index::Index;
use crate::script::Script;
use relay_action::Write;
use relay_ndjson::{BulkFault, LineKind, read_bulk};
use relay_results::{ItemDone, write_reply};
use serde_json::{Value, json};
use std::alloc::{AllocError, Global};
use thiserror::Error;

/// An allocation failed while a request was served.
#[derive(Clone, Copy, Debug, PartialEq, Eq, Error)]
#[error("no memory after {ran} items")]
pub struct ServeFault {
    /// How many items of the request were run: exactly the first `ran`.
    pub ran: u64,
}

// The JSON value that names the bad line of a body.
fn fault_value(alloc: Global, line: u64, kind: &str) -> Result<Value, AllocError>
    ensures { IfOk result (λ v. view v ≡ fault_data line kind.now) }
{
    let status = 400u64;
    json!(in alloc; {"error": {"line": line, "type": kind}, "status": status})
}

#[tactic(auto, unfolding(crate::specs::Serving::fault_text))]
fn write_fault(alloc: Global, line: u64, kind: &str) -> Result<String, AllocError>
    ensures { IfOk result (λ s. string_bytes s ≡ fault_text line kind.now) }
{
    let value = fault_value(alloc, line, kind)?;
    let text = value.to_string(alloc)?;
    Ok(text)
}

// The answer to a body with a fault: 400 and the text that names it, unless an allocation failed.
fn reject(alloc: Global, fault: BulkFault) -> Result<(u16, String), ServeFault>
    ensures ok { IfOk result
        (λ answer. IsRejection fault (answer_of answer.0 (string_bytes answer.1))) }
    ensures err { IfErr result (λ e. e.ran ≡ 0) }
{
    if fault.kind == LineKind::Memory {
        return Err(ServeFault { ran: 0 });
    }
    match write_fault(alloc, fault.line, fault.kind.name()) {
        Ok(text) => Ok((400, text)),
        Err(_) => Err(ServeFault { ran: 0 }),
    }
}

// The JSON value that says that a body is too large.
fn too_large_value(alloc: Global) -> Result<Value, AllocError>
    ensures { IfOk result (λ v. view v ≡ too_large_data) }
{
    let status = 413u64;
    json!(in alloc; {"error": {"type": "TooLarge"}, "status": status})
}

#[tactic(auto, unfolding(crate::specs::Serving::too_large_text))]
fn write_too_large(alloc: Global) -> Result<String, AllocError>
    ensures { IfOk result (λ s. string_bytes s ≡ too_large_text) }
{
    let value = too_large_value(alloc)?;
    let text = value.to_string(alloc)?;
    Ok(text)
}

// The answer to a body that is too large, unless an allocation fails.
fn refuse_length(alloc: Global) -> Result<(u16, String), ServeFault>
    ensures ok { IfOk result (λ answer. IsTooLarge (answer_of answer.0 (string_bytes answer.1))) }
    ensures err { IfErr result (λ e. e.ran ≡ 0) }
{
    match write_too_large(alloc) {
        Ok(text) => Ok((413, text)),
        Err(_) => Err(ServeFault { ran: 0 }),
    }
}

impl Index {
    // Runs the writes in order under the script. The fault says that an allocation failed after
    // exactly the first `ran` writes.
    fn run_all(
        &mut self,
        alloc: Global,
        writes: &[Write],
        script: &mut Script,
    ) -> Result<Vec<ItemDone>, ServeFault>
        ensures ok { IfOk result (λ items.
            RunsAll (under self.old script.old) writes.now items.items
            (under self.new script.new)) }
        ensures statable { IfOk result (λ items. AreStatable items.items) }
        ensures err { IfErr result (λ e.
            RunsFirst e.ran (under self.old script.old) writes.now (under self.new script.new)) }
    {
        let mut items = match Vec::with_capacity(alloc, writes.len()) {
            Ok(items) => items,
            Err(_) => return Err(ServeFault { ran: 0 }),
        };
        'writes: for write in writes {
            let choice = script.choice();
            let done = match self.run(write, choice) {
                Ok(done) => done,
                Err(_) => {
                    return Err(ServeFault {
                        ran: items.len() as u64,
                    });
                }
            };
            script.step();
            items.push_reserved(done);
        }
        Ok(items)
    }

    // Runs the writes in order under the script, and returns the text of the reply. The fault says
    // that an allocation failed after exactly the first `ran` writes.
    fn serve_writes(
        &mut self,
        alloc: Global,
        writes: &[Write],
        script: &mut Script,
    ) -> Result<String, ServeFault>
        ensures ok { IfOk result (λ text.
            Replies (under self.old script.old) writes.now (string_bytes text)
            (under self.new script.new)) }
        ensures err { IfErr result (λ e.
            RunsFirst e.ran (under self.old script.old) writes.now (under self.new script.new)) }
    {
        let items = self.run_all(alloc, writes, script)?;
        match write_reply(alloc, 0, items.as_slice()) {
            Ok(text) => Ok(text),
            Err(_) => Err(ServeFault {
                ran: writes.len() as u64,
            }),
        }
    }

    /// Serves the body of a bulk request: runs its writes once each, in order, each as the script
    /// says for its place, and returns the status and the text of the answer.
    ///
    /// If the body has more bytes than the script accepts, the answer is 413 and
    /// `{"error":{"type":"TooLarge"},"status":413}`, no line is read and nothing is run. Otherwise
    /// the answer is 200 and the reply, with `took` 0. If the body is not a bulk request, it is 400
    /// and `{"error":{"line":N,"type":"KIND"},"status":400}`, with the first bad line and the name
    /// of the kind of its fault; then nothing is run, and the index and the script are unchanged.
    ///
    /// `ServeFault`: an allocation failed after exactly the first `ran` items were run. That is 0
    /// if it failed for the body or for the text of its fault, and the number of all items if it
    /// failed only for the reply.
    pub fn serve_body(
        &mut self,
        alloc: Global,
        body: &[u8],
        script: &mut Script,
    ) -> Result<(u16, String), ServeFault>
        ensures answered { IfOk result (λ answer. Answers body.now (under self.old script.old)
            (answer_of answer.0 (string_bytes answer.1)) (under self.new script.new)) }
        ensures stopped { IfErr result (λ e.
            StopsAfter e.ran body.now (under self.old script.old) (under self.new script.new)) }
    {
        if !script.takes(body.len()) {
            return refuse_length(alloc);
        }
        let writes = match read_bulk(alloc, body) {
            Ok(writes) => writes,
            Err(fault) => return reject(alloc, fault),
        };
        let text = self.serve_writes(alloc, writes.as_slice(), script)?;
        Ok((200, text))
    }
}
