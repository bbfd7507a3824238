//! Writes of one document with the index's own versions.
ghost use Rattle.std.specs.Prelude.{◌≡◌, IfOk, MatchOption, MatchResult, string_bytes};
ghost use Rattle.serde_json.specs.View.{view};
ghost use Rattle.relay_action.specs.Actions.{IsIndexOf};
ghost use Rattle.relay_results.specs.Documents.{document_of};
ghost use Rattle.relay_stub.specs.Documents.{IsNoSource, Puts, RunsTo, StopsPut};
ghost use Rattle.relay_stub.specs.Documents.{StopsRun, StoresNothing, next_version};
ghost use Rattle.relay_stub.specs.Documents.{put_data, put_text, stored_text};

use relay_action::{Action, ActionFault, DocKey, Write};
use relay_index::{Choice, Index, ServeFault};
use relay_results::{DoneResult, ItemDone};
use serde_json::{Value, json};
use std::alloc::{AllocError, Global};

// The answer to a write whose version is not above the stored one.
const CONFLICT: &str =
    "{\"error\":{\"type\":\"version_conflict_engine_exception\"},\"status\":409}";

// The version that the index gives the next write of a document: 1 if no version is stored, and
// otherwise one more than the stored one.
fn next_version(index: &Index, key: &DocKey) -> u64
    ensures { result ≡ next_version index.now (document_of key.now) }
{
    match index.version(key) {
        Some(version) => version.saturating_add(1),
        None => 1,
    }
}

// The action that stores this body, if it may be a source.
fn action_of(alloc: Global, body: &[u8]) -> Result<Option<Action>, AllocError>
    ensures { IfOk result
        (λ action. MatchOption action (IsNoSource body.now) (IsIndexOf body.now)) }
{
    let Ok(source) = str::from_utf8(body) else {
        return Ok(None);
    };
    match Action::index(alloc, source) {
        Ok(action) => Ok(Some(action)),
        Err(ActionFault::Memory) => Err(AllocError),
        Err(_) => Ok(None),
    }
}

// The JSON value of the answer to a write that was applied.
fn answer_value(alloc: Global, done: &ItemDone, name: &str) -> Result<Value, AllocError>
    ensures { IfOk result (λ value. view value ≡ put_data done.now name.now) }
{
    let index = done.key.index();
    let id = done.key.id();
    let version = done.version;
    let seq = done.seq;
    json!(in alloc; {"_id": id, "_index": index, "_seq_no": seq, "_version": version, "result": name})
}

#[tactic(auto, unfolding(crate::specs::Documents::stored_text))]
fn stored_text(alloc: Global, done: &ItemDone, name: &str) -> Result<String, AllocError>
    ensures { IfOk result (λ text. string_bytes text ≡ stored_text done.now name.now) }
{
    let value = answer_value(alloc, done, name)?;
    let text = value.to_string(alloc)?;
    Ok(text)
}

// The text of the answer to a write that was run.
fn put_text(alloc: Global, done: &ItemDone) -> Result<String, AllocError>
    ensures { IfOk result (λ text. string_bytes text ≡ put_text done.now) }
{
    match done.result {
        DoneResult::Created => stored_text(alloc, done, "created"),
        DoneResult::Updated => stored_text(alloc, done, "updated"),
        _ => String::from_str(alloc, CONFLICT),
    }
}

// Runs a write, and returns the status and the text of the answer.
fn run_and_answer(
    alloc: Global,
    index: &mut Index,
    write: &Write,
) -> Result<(u16, String), ServeFault>
    ensures { MatchResult result
        (λ answer. RunsTo write.now index.old answer.0 (string_bytes answer.1) index.new)
        (λ e. StopsRun write.now e.ran index.old index.new) }
{
    let Ok(done) = index.run(write, Choice::Run) else {
        return Err(ServeFault { ran: 0 });
    };
    match put_text(alloc, &done) {
        Ok(text) => Ok((done.status, text)),
        Err(_) => Err(ServeFault { ran: 1 }),
    }
}

/// Stores a body as the source of a document with the version that the index itself gives it, as
/// OpenSearch does for a write that states no version: 1 if no version of the document is stored,
/// and otherwise one more than that, whatever kind of write stored it. It returns the status and
/// the text of the answer, 201 if the document did not exist and 200 if it did. `None`: the body
/// may not be a source, and nothing was run. If the stored version is 2^64 - 1, the answer is 409,
/// and nothing is stored.
///
/// `ServeFault`: an allocation failed; the write was run if `ran` is 1, and not if it is 0.
pub fn put_document(
    alloc: Global,
    index: &mut Index,
    key: DocKey,
    body: &[u8],
) -> Result<Option<(u16, String)>, ServeFault>
    ensures { MatchResult result
        (λ answer. MatchOption answer (StoresNothing body.now index.old index.new)
        (λ a. Puts (document_of key) body.now index.old a.0 (string_bytes a.1) index.new))
        (λ e. StopsPut (document_of key) body.now e.ran index.old index.new) }
{
    let Ok(action) = action_of(alloc, body) else {
        return Err(ServeFault { ran: 0 });
    };
    let Some(action) = action else {
        return Ok(None);
    };
    let version = next_version(index, &key);
    let write = Write {
        key,
        version,
        action,
    };
    match run_and_answer(alloc, index, &write) {
        Ok(answer) => Ok(Some(answer)),
        Err(fault) => Err(fault),
    }
}
