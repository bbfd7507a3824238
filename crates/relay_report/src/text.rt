//! Reports as lines of JSON.
ghost use Rattle.std.specs.Prelude.{◌≡◌, ◌++◌, IfOk, OnOk, OnErr, flat_map};
ghost use Rattle.std.specs.Prelude.{codes, decimal, string_bytes};
ghost use Rattle.serde_json.specs.Data.{string, number, unsigned, put as with_member};
ghost use Rattle.serde_json.specs.View.{view, members_view};
ghost use Rattle.relay_report.specs.Reports.{cause_name, report_data, report_line};
ghost use Rattle.relay_report.specs.Reports.{loss_word, last_word};
ghost use Rattle.relay_report.specs.Members.{and_cause, and_document, and_name, and_reason};
ghost use Rattle.relay_report.specs.Members.{and_stored};

use itoa::Buffer;
use relay_action::{DocKey, OpName, Text};
use relay_core::Report;
use relay_results::{Cause, LastTry, Loss};
use serde_json::{Map, Value, put};
use std::alloc::{AllocError, Global};

/// Appends the line of a report to a text: its object as compact JSON with its keys in byte order,
/// and a line feed. `AllocError`: allocation failed, and the text is unchanged.
pub fn append_report(alloc: Global, text: &mut Vec<u8>, report: &Report) -> Result<(), AllocError>
    ensures ok { OnOk result (text.new.items ≡ text.old.items ++ report_line report.now) }
    ensures err { OnErr result (text.new.items ≡ text.old.items) }
{
    let line = line_of(alloc, report)?;
    text.extend_from_slice(line.as_slice())
}

/// The lines of reports, in the order of the slice. `AllocError`: allocation failed.
pub fn report_text(alloc: Global, reports: &[Report]) -> Result<Vec<u8>, AllocError>
    ensures { IfOk result (λ text. text.items ≡ flat_map report_line reports.now) }
{
    let mut text = Vec::new(alloc);
    append_reports(alloc, &mut text, reports)?;
    Ok(text)
}

fn append_reports(alloc: Global, text: &mut Vec<u8>, reports: &[Report]) -> Result<(), AllocError>
    ensures { OnOk result (text.new.items ≡ text.old.items ++ flat_map report_line reports.now) }
{
    'reports: for report in reports {
        append_report(alloc, text, report)?;
    }
    Ok(())
}

#[tactic(auto, using(crate::proofs::Lines::line_text))]
fn line_of(alloc: Global, report: &Report) -> Result<Vec<u8>, AllocError>
    ensures { IfOk result (λ line. line.items ≡ report_line report.now) }
{
    let value = report_value(alloc, report)?;
    let mut line = value.to_string(alloc)?.into_bytes();
    line.push(b'\n')?;
    Ok(line)
}

/// The JSON value of a report.
pub(crate) fn report_value(alloc: Global, report: &Report) -> Result<Value, AllocError>
    ensures { IfOk result (λ v. view v ≡ report_data report.now) }
{
    let mut members = Map::new(alloc);
    add_name(alloc, &mut members, report.name)?;
    add_document(alloc, &mut members, &report.key)?;
    add_cause(alloc, &mut members, &report.cause)?;
    Ok(Value::Object(members))
}

// Adds a member whose value is a string.
fn add_text(
    alloc: Global,
    members: &mut Map<String, Value>,
    name: &str,
    text: &str,
) -> Result<(), AllocError>
    ensures { OnOk result (members_view members.new.entries
        ≡ with_member name.now (string text.now) (members_view members.old.entries)) }
{
    let value = Value::try_from_str(alloc, text)?;
    put(members, alloc, name, value)
}

fn add_number(
    alloc: Global,
    members: &mut Map<String, Value>,
    name: &str,
    value: u64,
) -> Result<(), AllocError>
    ensures { OnOk result (members_view members.new.entries
        ≡ with_member name.now (number (unsigned value)) (members_view members.old.entries)) }
{
    put(members, alloc, name, Value::from(value))
}

// Adds the members for the name of the operation. In epoch 0 the one for the epoch is omitted.
fn add_name(alloc: Global, members: &mut Map<String, Value>, name: OpName) -> Result<(), AllocError>
    ensures { OnOk result
        (members_view members.new.entries ≡ and_name name (members_view members.old.entries)) }
{
    add_number(alloc, members, "number", name.number)?;
    add_number(alloc, members, "producer", name.producer as u64)?;
    if name.epoch == 0 {
        return Ok(());
    }
    add_number(alloc, members, "epoch", name.epoch as u64)
}

// Adds the members for the document.
fn add_document(
    alloc: Global,
    members: &mut Map<String, Value>,
    key: &DocKey,
) -> Result<(), AllocError>
    ensures { OnOk result
        (members_view members.new.entries
        ≡ and_document key.now (members_view members.old.entries)) }
{
    add_text(alloc, members, "id", key.id())?;
    add_text(alloc, members, "index", key.index())
}

/// The name of a cause, as it is written in a report.
pub(crate) fn cause_name(cause: &Cause) -> &'static str
    ensures { result.now ≡ cause_name cause.now }
{
    match cause {
        Cause::Refused { .. } => "Refused",
        Cause::Request { .. } => "Request",
        Cause::Conflict { .. } => "Conflict",
        Cause::GaveUp { .. } => "GaveUp",
        Cause::Spent => "Spent",
    }
}

// Adds the member for a reason, if there is one.
fn add_reason(
    alloc: Global,
    members: &mut Map<String, Value>,
    reason: &Option<Text>,
) -> Result<(), AllocError>
    ensures { OnOk result
        (members_view members.new.entries
        ≡ and_reason reason.now (members_view members.old.entries)) }
{
    match reason {
        Some(reason) => add_text(alloc, members, "reason", reason.as_str()),
        None => Ok(()),
    }
}

// The word for a loss.
fn loss_word(loss: Loss) -> &'static str
    ensures { result.now ≡ loss_word loss }
{
    match loss {
        Loss::Refused => "refused",
        Loss::Unreachable => "unreachable",
        Loss::TimedOut => "timeout",
        Loss::Closed => "closed",
        Loss::Unreadable => "unreadable",
        Loss::Memory => "memory",
    }
}

// A word and a status.
fn status_word(alloc: Global, word: &str, status: u16) -> Result<String, AllocError>
    ensures { IfOk result (λ text. string_bytes text ≡ word.now ++ decimal status) }
{
    let mut digits = Buffer::new();
    let mut text = String::new(alloc);
    text.push_str(word)?;
    text.push_str(digits.format(status as u64))?;
    Ok(text)
}

// Adds the member for what became of the last try.
fn add_last(
    alloc: Global,
    members: &mut Map<String, Value>,
    last: LastTry,
) -> Result<(), AllocError>
    ensures { OnOk result (members_view members.new.entries
        ≡ with_member (codes "last") (string (last_word last)) (members_view members.old.entries)) }
{
    match last {
        LastTry::Lost(loss) => add_text(alloc, members, "last", loss_word(loss)),
        LastTry::Whole(status) => {
            let text = status_word(alloc, "status ", status)?;
            add_text(alloc, members, "last", text.as_str())
        }
        LastTry::Item(status) => {
            let text = status_word(alloc, "item ", status)?;
            add_text(alloc, members, "last", text.as_str())
        }
    }
}

// Adds the member for a stored version, if there is one.
fn add_stored(
    alloc: Global,
    members: &mut Map<String, Value>,
    stored: Option<u64>,
) -> Result<(), AllocError>
    ensures { OnOk result
        (members_view members.new.entries ≡ and_stored stored (members_view members.old.entries)) }
{
    match stored {
        Some(stored) => add_number(alloc, members, "stored", stored),
        None => Ok(()),
    }
}

// Adds the members for the cause.
fn add_cause(
    alloc: Global,
    members: &mut Map<String, Value>,
    cause: &Cause,
) -> Result<(), AllocError>
    ensures { OnOk result
        (members_view members.new.entries
        ≡ and_cause cause.now (members_view members.old.entries)) }
{
    add_text(alloc, members, "cause", cause_name(cause))?;
    match cause {
        Cause::Refused {
            status,
            kind,
            reason,
        } => {
            add_text(alloc, members, "kind", kind.as_str())?;
            add_number(alloc, members, "status", *status as u64)?;
            add_reason(alloc, members, reason)
        }
        Cause::Request { status, reason } => {
            add_number(alloc, members, "status", *status as u64)?;
            add_reason(alloc, members, reason)
        }
        Cause::GaveUp { sends, last } => {
            add_number(alloc, members, "sends", *sends as u64)?;
            add_last(alloc, members, *last)
        }
        Cause::Conflict { stored, reason } => {
            add_stored(alloc, members, *stored)?;
            add_reason(alloc, members, reason)
        }
        Cause::Spent => Ok(()),
    }
}
