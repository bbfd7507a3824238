//! What is replied to a request that writes.
ghost use Rattle.std.specs.Prelude.{◌≡◌, ◌∷◌, [], IfOk};
ghost use Rattle.relay_ndjson.specs.Metadata.{bytes_given};
ghost use Rattle.relay_front.specs.Reasons.{reason_of};
ghost use Rattle.relay_front.specs.Service.{IsReply, Refuses, RepliesToBulk, RepliesToDelete};
ghost use Rattle.relay_front.specs.Service.{RepliesToPut, RepliesToWrite, fault_text, reply_of};
ghost use Rattle.relay_front.specs.Service.{RepliesToSource, SaysOf};
ghost use Rattle.relay_front.specs.Said.{words_of};
ghost use Rattle.relay_front.specs.Texts.{refusal_body};

use crate::aside::{aside_text, have_reports, operation_text};
use crate::document::on_one_line;
use crate::ending::End;
use crate::items::{bulk_text, document_text};
use crate::lines::{BodyFault, Unread, action_of, key_within, read_operations};
use crate::operation::{AskedKind, Item, ItemFault};
use crate::refusal::{ILLEGAL_ARGUMENT, refusal_text};
use crate::said::{Said, fault_reason, said_of};
use crate::settle::{Ids, Settle};
use relay_action::{Action, DocKey};
use std::alloc::{AllocError, Global};

/// An answer: its status and its body.
#[derive(Drop)]
pub struct Answer {
    pub status: u16,
    pub text: Vec<u8>,
}

/// Why there is no answer: allocation failed, before anything was put or after.
#[derive(Clone, Copy, Debug, PartialEq, Eq)]
pub enum Short {
    Unput,
    Put,
}

impl From<AllocError> for Short {
    ghost use Rattle.relay_front.specs.declared.replying.Short.{Short};

    ghost from_gives = { λ _ short. short ≡ Short.Unput };

    fn from(_error: AllocError) -> Short {
        Short::Unput
    }
}

/// An error as the answer.
pub fn refuse(alloc: Global, status: u16, kind: &str, reason: &str) -> Result<Answer, Short>
    ensures { IsReply status (refusal_body status kind.now reason.now) (reply_of result) }
{
    Ok(Answer {
        status,
        text: refusal_text(alloc, status, kind, reason)?,
    })
}

/// An error for which the client is to blame as the answer.
pub fn refuse_client(alloc: Global, reason: &str) -> Result<Answer, Short>
    ensures { Refuses reason.now (reply_of result) }
{
    refuse(alloc, 400, ILLEGAL_ARGUMENT, reason)
}

// The refusal of an operation as the answer.
fn refuse_item(alloc: Global, fault: &ItemFault) -> Result<Answer, Short>
    ensures { Refuses (reason_of fault.now) (reply_of result) }
{
    let reason = fault_reason(alloc, fault)?;
    refuse_client(alloc, reason.as_str())
}

// The refusal of a body as the answer.
fn refuse_body(alloc: Global, fault: BodyFault) -> Result<Answer, Short>
    ensures { Refuses (fault_text fault) (reply_of result) }
{
    let line = fault.line;
    let reason = fault.kind.reason();
    let reason = format!(in alloc; "line {line}: {reason}")?;
    refuse_client(alloc, reason.as_str())
}

// Sets aside the operations of a body that are reported. Since their sources are gone with the writes, the
// body is read once more.
fn set_aside<S: Settle, I: Ids>(
    alloc: Global,
    default: Option<&str>,
    body: &[u8],
    items: &[Item],
    ends: &[End],
    relay: &S,
    ids: &mut I,
) {
    if !relay.sets_aside() || !have_reports(ends) {
        return;
    }
    let lines = match read_operations(alloc, body, default, ids) {
        Ok(again) => aside_text(alloc, items, &again.writes, ends).ok(),
        Err(_) => None,
    };
    relay.set_aside(lines);
}

// The same of a request for one document.
fn set_one_aside<S: Settle>(
    alloc: Global,
    key: &DocKey,
    source: Option<&[u8]>,
    ends: &[End],
    relay: &S,
) {
    if relay.sets_aside() && have_reports(ends) {
        relay.set_aside(operation_text(alloc, key, source).ok());
    }
}

/// What is replied to a bulk request.
pub fn reply_to_bulk<S: Settle, I: Ids>(
    alloc: Global,
    default: Option<&str>,
    body: &[u8],
    relay: &mut S,
    ids: &mut I,
) -> Result<Answer, Short>
    ensures { RepliesToBulk S.settles (bytes_given default.entry) body.now relay.old
        (reply_of result) relay.new }
{
    let operations = match read_operations(alloc, body, default, ids) {
        Ok(operations) => operations,
        Err(Unread::Memory) => return Err(Short::Unput),
        Err(Unread::Body(fault)) => return refuse_body(alloc, fault),
    };
    let settled = relay.settle(operations.writes)?;
    set_aside(
        alloc,
        default,
        body,
        &operations.items,
        &settled.ends,
        relay,
        ids,
    );
    match bulk_text(alloc, settled.took, &operations.items, &settled.ends) {
        Ok(text) => Ok(Answer { status: 200, text }),
        Err(_) => Err(Short::Put),
    }
}

// The list of one write.
fn one_write(
    alloc: Global,
    key: &DocKey,
    action: Action,
) -> Result<Vec<(DocKey, Action)>, AllocError>
    ensures { IfOk result (λ writes. writes.items ≡ (key.now, action) ∷ []) }
{
    let mut writes = Vec::new(alloc);
    writes.push((key.copy()?, action))?;
    Ok(writes)
}

// The answer to a request for one document, whose write says this.
fn said_answer(alloc: Global, key: &DocKey, said: Said<'_>) -> Result<Answer, Short>
    ensures { SaysOf key.now (words_of said.entry) (reply_of result) }
{
    match document_text(alloc, key, said) {
        Ok((status, text)) => Ok(Answer { status, text }),
        Err(_) => Err(Short::Put),
    }
}

// What is replied to a request for one document, once it is known what to write.
fn reply_to_write<S: Settle>(
    alloc: Global,
    kind: AskedKind,
    made: bool,
    key: &DocKey,
    action: Action,
    source: Option<&[u8]>,
    relay: &mut S,
) -> Result<Answer, Short>
    ensures { RepliesToWrite S.settles kind made key.now action relay.old (reply_of result)
        relay.new }
{
    let writes = one_write(alloc, key, action)?;
    let settled = relay.settle(writes)?;
    set_one_aside(alloc, key, source, &settled.ends, relay);
    let unput = End::Unput;
    let end = settled.ends.first().unwrap_or(&unput);
    said_answer(alloc, key, said_of(kind, made, end))
}

// What is replied to a request that stores a document, once it is known which.
fn reply_to_source<S: Settle>(
    alloc: Global,
    made: bool,
    key: &DocKey,
    body: &[u8],
    relay: &mut S,
) -> Result<Answer, Short>
    ensures { RepliesToSource S.settles made key.now body.now relay.old (reply_of result)
        relay.new }
{
    let source = on_one_line(alloc, body)?;
    match action_of(alloc, &source)? {
        Ok(action) => {
            let kept = Some(source.as_slice());
            reply_to_write(alloc, AskedKind::Index, made, key, action, kept, relay)
        }
        Err(fault) => refuse_item(alloc, &fault),
    }
}

/// What is replied to a request that stores a document.
pub fn reply_to_put<S: Settle>(
    alloc: Global,
    made: bool,
    index: &str,
    id: &str,
    body: &[u8],
    relay: &mut S,
) -> Result<Answer, Short>
    ensures { RepliesToPut S.settles made index.now id.now body.now relay.old (reply_of result)
        relay.new }
{
    match key_within(alloc, index, id, made)? {
        Ok((key, _)) => reply_to_source(alloc, made, &key, body, relay),
        Err(fault) => refuse_item(alloc, &fault),
    }
}

/// What is replied to a request that removes a document.
pub fn reply_to_delete<S: Settle>(
    alloc: Global,
    index: &str,
    id: &str,
    relay: &mut S,
) -> Result<Answer, Short>
    ensures { RepliesToDelete S.settles index.now id.now relay.old (reply_of result) relay.new }
{
    match key_within(alloc, index, id, false)? {
        Ok((key, _)) => reply_to_write(
            alloc,
            AskedKind::Delete,
            false,
            &key,
            Action::delete(),
            None,
            relay,
        ),
        Err(fault) => refuse_item(alloc, &fault),
    }
}
