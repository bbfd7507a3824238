//! The texts of answers to writes, in the form of OpenSearch's bulk and document APIs.
ghost use Rattle.std.specs.Prelude.{◌≡◌, ◌++◌, IfOk, OnOk, drop};
ghost use Rattle.relay_front.specs.Said.{words_of};
ghost use Rattle.relay_front.specs.Texts.{asked_item, bulk_body, document_body, document_members};
ghost use Rattle.relay_front.specs.Texts.{document_status, ends_after, first_end, have_errors};
ghost use Rattle.relay_front.specs.Texts.{failed_members, is_error, item_text, item_texts};
ghost use Rattle.relay_front.specs.Texts.{optional_string, outcome_members, refused_item};
ghost use Rattle.relay_front.specs.Texts.{said_members, truth_text, with_commas, written_members};

use crate::ending::End;
use crate::operation::Item;
use crate::refusal::refusal_text;
use crate::said::{Said, fault_reason, refused_said, said_of};
use crate::text::{add, add_counted, add_error, add_string};
use relay_action::{DocKey, Text};
use std::alloc::{AllocError, Global};

/// Adds the members that name a document.
pub(crate) fn add_document(
    alloc: Global,
    text: &mut Vec<u8>,
    key: &DocKey,
) -> Result<(), AllocError>
    ensures { OnOk result
        (text.new.items ≡ text.old.items ++ document_members key.now.index key.now.id) }
{
    add(text, "\"_index\":")?;
    add_string(alloc, text, key.index())?;
    add(text, ",\"_id\":")?;
    add_string(alloc, text, key.id())
}

// Adds a text as a JSON string, or null.
fn add_optional(alloc: Global, text: &mut Vec<u8>, string: &Option<Text>) -> Result<(), AllocError>
    ensures { OnOk result (text.new.items ≡ text.old.items ++ optional_string string.now) }
{
    match string {
        Some(string) => add_string(alloc, text, string.as_str()),
        None => add(text, "null"),
    }
}

// Adds the members of a written operation but for its status. What the index says of shards and
// sequence numbers is not known: they are as OpenSearch has them where none is assigned.
fn add_written(text: &mut Vec<u8>, outcome: &str, version: u64) -> Result<(), AllocError>
    ensures { OnOk result
        (text.new.items ≡ text.old.items ++ written_members outcome.now version) }
{
    add_counted(text, ",\"_version\":", version)?;
    add(text, ",\"result\":\"")?;
    add(text, outcome)?;
    add(
        text,
        "\",\"_shards\":{\"total\":1,\"successful\":1,\"failed\":0},\"_seq_no\":-2,\"_primary_term\":0",
    )
}

// Adds the members of an error but for its status.
fn add_failed(alloc: Global, text: &mut Vec<u8>, kind: &str, reason: &str) -> Result<(), AllocError>
    ensures { OnOk result
        (text.new.items ≡ text.old.items ++ failed_members kind.now reason.now) }
{
    add(text, ",\"error\":{")?;
    add_error(alloc, text, kind, reason)?;
    add(text, "}")
}

// Adds what became of an operation.
#[tactic(auto, unfolding(crate::specs::Texts::outcome_members))]
fn add_outcome(alloc: Global, text: &mut Vec<u8>, said: Said<'_>) -> Result<(), AllocError>
    ensures { OnOk result
        (text.new.items ≡ text.old.items ++ outcome_members (words_of said.entry)) }
{
    match said {
        Said::Written {
            result,
            version,
            ..
        } => add_written(text, result, version),
        Said::Failed { kind, reason, .. } => add_failed(alloc, text, kind, reason),
    }
}

// Adds what an item says, behind the members that name its document.
fn add_said(alloc: Global, text: &mut Vec<u8>, said: Said<'_>) -> Result<(), AllocError>
    ensures { OnOk result
        (text.new.items ≡ text.old.items ++ said_members (words_of said.entry)) }
{
    add_outcome(alloc, text, said)?;
    add_counted(text, ",\"status\":", u64::from(said.status()))
}

// Adds an item whose operation ended so.
fn add_asked(
    alloc: Global,
    text: &mut Vec<u8>,
    key: &DocKey,
    name: &str,
    said: Said<'_>,
) -> Result<(), AllocError>
    ensures { OnOk result (text.new.items
        ≡ text.old.items ++ asked_item name.now key.now (words_of said.entry)) }
{
    add(text, "{\"")?;
    add(text, name)?;
    add(text, "\":{")?;
    add_document(alloc, text, key)?;
    add_said(alloc, text, said)?;
    add(text, "}}")
}

// Adds an item whose operation is refused.
fn add_refused(
    alloc: Global,
    text: &mut Vec<u8>,
    name: &str,
    index: &Option<Text>,
    id: &Option<Text>,
    reason: &str,
) -> Result<(), AllocError>
    ensures { OnOk result (text.new.items
        ≡ text.old.items ++ refused_item name.now index.now id.now reason.now) }
{
    add(text, "{\"")?;
    add(text, name)?;
    add(text, "\":{\"_index\":")?;
    add_optional(alloc, text, index)?;
    add(text, ",\"_id\":")?;
    add_optional(alloc, text, id)?;
    add_said(alloc, text, refused_said(reason))?;
    add(text, "}}")
}

// Adds the item of an operation, whose write ended so if it was put. Returns whether it is an error.
fn add_item(alloc: Global, text: &mut Vec<u8>, item: &Item, end: &End) -> Result<bool, AllocError>
    ensures { IfOk result (λ failed. (failed ≡ is_error item.now end.now)
        × (text.new.items ≡ text.old.items ++ item_text item.now end.now)) }
{
    match item {
        Item::Asked { kind, key, made } => {
            let said = said_of(*kind, *made, end);
            add_asked(alloc, text, key, kind.name(), said)?;
            Ok(said.is_failed())
        }
        Item::Refused {
            kind,
            index,
            id,
            fault,
        } => {
            let reason = fault_reason(alloc, fault)?;
            add_refused(alloc, text, kind.name(), index, id, reason.as_str())?;
            Ok(true)
        }
    }
}

// The next end. An operation without one was not put.
fn first_end<'a>(ends: &'a [End], unput: &'a End) -> &'a End
    requires { unput.now ≡ End.Unput }
    ensures { result.now ≡ first_end ends.now }
{
    match ends.first() {
        Some(end) => end,
        None => unput,
    }
}

/// The ends of the operations after this one.
pub(crate) fn ends_after<'a>(item: &Item, ends: &'a [End]) -> &'a [End]
    ensures { result.now ≡ ends_after item.now ends.now }
{
    match item {
        Item::Asked { .. } => match ends {
            [_, rest @ ..] => rest,
            [] => ends,
        },
        Item::Refused { .. } => ends,
    }
}

// Adds the items, each behind a comma, and returns whether one of them is an error.
fn add_items(
    alloc: Global,
    text: &mut Vec<u8>,
    items: &[Item],
    ends: &[End],
    unput: &End,
) -> Result<bool, AllocError>
    requires { unput.now ≡ End.Unput }
    ensures { IfOk result (λ errors. (errors ≡ have_errors items.now ends.now)
        × (text.new.items ≡ text.old.items ++ with_commas (item_texts items.now ends.now))) }
{
    let mut errors = false;
    let mut rest = ends;
    for item in items {
        add(text, ",")?;
        let failed = add_item(alloc, text, item, first_end(rest, unput))?;
        errors = errors || failed;
        rest = ends_after(item, rest);
    }
    Ok(errors)
}

fn truth_text(truth: bool) -> &'static str
    ensures { result.now ≡ truth_text truth }
{
    if truth { "true" } else { "false" }
}

/// The body of the answer to a bulk request with these items, whose writes ended so, in `took`
/// milliseconds.
pub fn bulk_text(
    alloc: Global,
    took: u64,
    items: &[Item],
    ends: &[End],
) -> Result<Vec<u8>, AllocError>
    ensures { IfOk result (λ text. text.items ≡ bulk_body took items.now ends.now) }
{
    let mut list = Vec::new(alloc);
    let errors = add_items(alloc, &mut list, items, ends, &End::Unput)?;
    let mut text = Vec::with_capacity(alloc, list.len().saturating_add(64))?;
    add_counted(&mut text, "{\"took\":", took)?;
    add(&mut text, ",\"errors\":")?;
    add(&mut text, truth_text(errors))?;
    add(&mut text, ",\"items\":[")?;
    text.extend_from_slice(without_comma(list.as_slice()))?;
    add(&mut text, "]}")?;
    Ok(text)
}

// A list without its first byte, a comma.
fn without_comma(list: &[u8]) -> &[u8]
    ensures { result.now ≡ drop 1 list.now }
{
    match list {
        [_, rest @ ..] => rest,
        [] => list,
    }
}

/// The status and the body of the answer to a request for one document, whose write says this.
pub fn document_text(
    alloc: Global,
    key: &DocKey,
    said: Said<'_>,
) -> Result<(u16, Vec<u8>), AllocError>
    ensures { IfOk result (λ answer. (answer.0 ≡ document_status (words_of said.entry))
        × (answer.1.items ≡ document_body key.now (words_of said.entry))) }
{
    match said {
        Said::Written {
            status,
            result,
            version,
        } => {
            let mut text = Vec::new(alloc);
            text.push(b'{')?;
            add_document(alloc, &mut text, key)?;
            add_written(&mut text, result, version)?;
            text.push(b'}')?;
            Ok((status, text))
        }
        Said::Failed {
            status,
            kind,
            reason,
        } => Ok((status, refusal_text(alloc, status, kind, reason)?)),
    }
}
