//! Writing replies.
ghost use Rattle.std.specs.Prelude.{◌≡◌, IfOk, OnOk, codes, string_bytes};
ghost use Rattle.serde_json.specs.Data.{object, array, string, number, unsigned};
ghost use Rattle.serde_json.specs.Data.{put as with_member};
ghost use Rattle.serde_json.specs.View.{view, members_view};
ghost use Rattle.std.specs.List.{list_any};
ghost use Rattle.relay_results.specs.Done.{failure, result_name, error_fields, fields_by};
ghost use Rattle.relay_results.specs.Done.{entry_data};
ghost use Rattle.relay_results.specs.Done.{entries_data, is_failure, reply_data};
ghost use Rattle.relay_results.specs.Done.{reply_text, outcomes_of, HaveStatuses, AreStatable};
ghost use Rattle.relay_results.specs.Replies.{IsBulkReply};

use crate::done::{DoneResult, ItemDone, conflict_reason};
use relay_action::ActionKind;
use serde_json::{Map, Value, json, put};
use std::alloc::{AllocError, Global};

// The name of a result, if the write was applied.
fn result_name(result_of: DoneResult) -> &'static str
    ensures { result.now ≡ result_name result_of }
{
    match result_of {
        DoneResult::Created => "created",
        DoneResult::Updated => "updated",
        DoneResult::Deleted => "deleted",
        DoneResult::NotFound => "not_found",
        DoneResult::Conflict | DoneResult::Refused => "",
    }
}

// The error of an item, of this type.
fn error_value(alloc: Global, done: &ItemDone, kind: &str) -> Result<Value, AllocError>
    ensures { IfOk result
        (λ v. view v ≡ object (error_fields done.now.key.id done.now.conflict kind.now)) }
{
    match done.conflict {
        Some(conflict) => {
            let reason = conflict_reason(alloc, done.key.id(), conflict)?;
            json!(in alloc; {"reason": reason, "type": kind})
        }
        None => json!(in alloc; {"type": kind}),
    }
}

// Adds a member whose value is a string.
fn add_text(
    alloc: Global,
    members: &mut Map<String, Value>,
    name: &str,
    text: &str,
) -> Result<(), AllocError>
    ensures { OnOk result (members_view members.new.entries
        ≡ with_member name.now (string text.now) (members_view members.old.entries)) }
{
    let value = Value::try_from_str(alloc, text)?;
    put(members, alloc, name, value)
}

fn add_number(
    alloc: Global,
    members: &mut Map<String, Value>,
    name: &str,
    value: u64,
) -> Result<(), AllocError>
    ensures { OnOk result (members_view members.new.entries
        ≡ with_member name.now (number (unsigned value)) (members_view members.old.entries)) }
{
    put(members, alloc, name, Value::from(value))
}

// Adds the members of the entry of an item for which nothing was done.
fn add_failed(
    alloc: Global,
    members: &mut Map<String, Value>,
    done: &ItemDone,
    error: Value,
) -> Result<(), AllocError>
    ensures { OnOk result (members_view members.new.entries
        ≡ with_member (codes "status") (number (unsigned done.now.status))
        (with_member (codes "error") (view error)
        (with_member (codes "_index") (string done.now.key.index)
        (with_member (codes "_id") (string done.now.key.id) (members_view members.old.entries))))) }
{
    add_text(alloc, members, "_id", done.key.id())?;
    add_text(alloc, members, "_index", done.key.index())?;
    put(members, alloc, "error", error)?;
    add_number(alloc, members, "status", u64::from(done.status))
}

// Adds the members of the entry of an item that was applied.
fn add_applied(
    alloc: Global,
    members: &mut Map<String, Value>,
    done: &ItemDone,
) -> Result<(), AllocError>
    ensures { OnOk result (members_view members.new.entries
        ≡ with_member (codes "status") (number (unsigned done.now.status))
        (with_member (codes "result") (string (result_name done.now.result))
        (with_member (codes "_version") (number (unsigned done.now.version))
        (with_member (codes "_seq_no") (number (unsigned done.now.seq))
        (with_member (codes "_index") (string done.now.key.index)
        (with_member (codes "_id") (string done.now.key.id) (members_view members.old.entries))))))) }
{
    add_text(alloc, members, "_id", done.key.id())?;
    add_text(alloc, members, "_index", done.key.index())?;
    add_number(alloc, members, "_seq_no", done.seq)?;
    add_number(alloc, members, "_version", done.version)?;
    add_text(alloc, members, "result", result_name(done.result))?;
    add_number(alloc, members, "status", u64::from(done.status))
}

// The members of an item's entry.
fn fields_value(alloc: Global, done: &ItemDone) -> Result<Value, AllocError>
    ensures { IfOk result (λ v. view v ≡ object (fields_by done.now (failure done.now.result))) }
{
    let mut members = Map::new(alloc);
    match done.result.failure() {
        Some(kind) => {
            let error = error_value(alloc, done, kind)?;
            add_failed(alloc, &mut members, done, error)?;
        }
        None => add_applied(alloc, &mut members, done)?,
    }
    Ok(Value::Object(members))
}

fn entry_value(alloc: Global, done: &ItemDone) -> Result<Value, AllocError>
    ensures { IfOk result (λ v. view v ≡ entry_data done.now) }
{
    let fields = fields_value(alloc, done)?;
    match done.kind {
        ActionKind::Index => json!(in alloc; {"index": fields}),
        ActionKind::Delete => json!(in alloc; {"delete": fields}),
    }
}

fn entries_value(alloc: Global, items: &[ItemDone]) -> Result<Value, AllocError>
    ensures { IfOk result (λ v. view v ≡ array (entries_data items.now)) }
{
    let mut entries = Vec::with_capacity(alloc, items.len())?;
    for done in items {
        entries.push(entry_value(alloc, done)?)?;
    }
    Ok(Value::Array(entries))
}

// Whether one of the items is a conflict or was refused.
fn has_failure(items: &[ItemDone]) -> bool
    ensures { result ≡ list_any is_failure items.now }
{
    items.iter().any(|done| done.result.failure().is_some())
}

fn reply_value(alloc: Global, took: u64, items: &[ItemDone]) -> Result<Value, AllocError>
    ensures { IfOk result (λ v. view v ≡ reply_data took items.now) }
{
    let errors = has_failure(items);
    let entries = entries_value(alloc, items)?;
    json!(in alloc; {"errors": errors, "items": entries, "took": took})
}

/// The reply to a request with these items, in order: one line of JSON without spaces and with its
/// keys in byte order, `{"errors":B,"items":[..],"took":N}` (OpenSearch, bulk API, response).
/// `took` is in milliseconds, and `errors` is true if an item is `Conflict` or `Refused`. An item
/// that was applied has `_id`, `_index`, `_seq_no`, `_version`, `result` and `status`, any other
/// `_id`, `_index`, `error` and `status`. An error has its `type`, and that of a conflict whose
/// versions are stated also a `reason`, in the words of OpenSearch. If each status is from 100 to
/// 599, reading the reply gives the outcome of each item. `AllocError`: allocation failed.
#[tactic(auto, unfolding(crate::specs::Done::reply_text))]
pub fn write_reply(alloc: Global, took: u64, items: &[ItemDone]) -> Result<String, AllocError>
    ensures text { IfOk result (λ s. string_bytes s ≡ reply_text took items.now) }
    ensures reads_back { IfOk result (λ s. HaveStatuses items.now → AreStatable items.now
        → IsBulkReply (string_bytes s) (outcomes_of items.now)) }
{
    let value = reply_value(alloc, took, items)?;
    let text = value.to_string(alloc)?;
    Ok(text)
}
