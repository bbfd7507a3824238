//! Reading a line of a report.
ghost use Rattle.std.specs.Prelude.{◌≡◌, ◌^◌, ◌≤◌, Option, Some, Err, IfOk, IfSome, codes, is_some};
ghost use Rattle.std.specs.Prelude.{option_map};
ghost use Rattle.serde_json.specs.Find.{as_str, as_u64, get};
ghost use Rattle.serde_json.specs.View.{view};
ghost use Rattle.relay_report.specs.Naming.{IsNamedBy, below, count_of, details_of, epoch_count};
ghost use Rattle.relay_report.specs.Naming.{epoch_of, is_whole, name_of, number_at, reason_count};
ghost use Rattle.relay_report.specs.Naming.{last_count, stored_count, text_at};

use relay_action::OpName;
use serde_json::Value;
use std::alloc::{AllocError, Global};

/// The operation that a line of a report names. The line must have the members that
/// [`report_text`](crate::report_text) writes for its cause, in any order and with any JSON
/// formatting; the reason and the stored version may be left out. `None`:
/// it is not a line of a report. `AllocError`: allocation failed.
pub fn read_name(alloc: Global, line: &[u8]) -> Result<Option<OpName>, AllocError>
    ensures { IfOk result (IsNamedBy line.now) }
{
    let value = match Value::from_slice(alloc, line) {
        Ok(value) => value,
        Err(error) => return if error.is_memory() {
            Err(AllocError)
        } else {
            Ok(None)
        },
    };
    Ok(name_in(&value))
}

fn name_in(value: &Value) -> Option<OpName>
    ensures { result ≡ name_of (view value.now) }
{
    if !is_whole(value) {
        return None;
    }
    Some(OpName {
        epoch: epoch_in(value)?,
        producer: small_at(value, "producer")?,
        number: number_at(value, "number")?,
    })
}

// Whether the value has the members of a line of a report, and no others.
fn is_whole(value: &Value) -> bool
    ensures { result ≡ is_whole (view value.now) }
{
    let Some(cause) = text_at(value, "cause") else {
        return false;
    };
    match details_in(value, cause) {
        Some(details) => {
            text_at(value, "id").is_some()
                && text_at(value, "index").is_some()
                && count_in(value) == details + 5 + epoch_count(value)
        }
        None => false,
    }
}

// How many members there are for a reason, if it is a string.
fn reason_count(value: &Value) -> Option<u64>
    ensures count { result ≡ reason_count (view value.now) }
    ensures most { IfSome result (λ n. n ≤ 1) }
{
    match value.get("reason") {
        Some(_) => text_at(value, "reason").map(|_| 1),
        None => Some(0),
    }
}

// How many members there are for what became of the last try, if it is a string.
fn last_count(value: &Value) -> Option<u64>
    ensures count { result ≡ last_count (view value.now) }
    ensures most { IfSome result (λ n. n ≤ 1) }
{
    match value.get("last") {
        Some(_) => text_at(value, "last").map(|_| 1),
        None => Some(0),
    }
}

// How many members there are for a stored version, if it is a number.
fn stored_count(value: &Value) -> Option<u64>
    ensures count { result ≡ stored_count (view value.now) }
    ensures most { IfSome result (λ n. n ≤ 1) }
{
    match value.get("stored") {
        Some(_) => number_at(value, "stored").map(|_| 1),
        None => Some(0),
    }
}

// How many members describe a refusal.
fn refusal_count(value: &Value) -> Option<u64>
    ensures count { result ≡ details_of (view value.now) (codes "Refused") }
    ensures most { IfSome result (λ n. n ≤ 3) }
{
    let _kind = text_at(value, "kind")?;
    let _status = status_at(value)?;
    let reason = reason_count(value)?;
    Some(reason + 2)
}

// How many members describe a refusal of the whole request.
fn rejection_count(value: &Value) -> Option<u64>
    ensures count { result ≡ details_of (view value.now) (codes "Request") }
    ensures most { IfSome result (λ n. n ≤ 2) }
{
    let _status = status_at(value)?;
    let reason = reason_count(value)?;
    Some(reason + 1)
}

// How many members describe that all tries are used up.
fn give_up_count(value: &Value) -> Option<u64>
    ensures count { result ≡ details_of (view value.now) (codes "GaveUp") }
    ensures most { IfSome result (λ n. n ≤ 2) }
{
    let _sends = small_at(value, "sends")?;
    let last = last_count(value)?;
    Some(last + 1)
}

// How many members describe a conflict.
fn conflict_count(value: &Value) -> Option<u64>
    ensures count { result ≡ details_of (view value.now) (codes "Conflict") }
    ensures most { IfSome result (λ n. n ≤ 2) }
{
    let stored = stored_count(value)?;
    let reason = reason_count(value)?;
    Some(reason + stored)
}

// How many members describe the cause, besides its name, if all that have to be there are.
fn details_in(value: &Value, cause: &str) -> Option<u64>
    ensures count { result ≡ details_of (view value.now) cause.now }
    ensures most { IfSome result (λ n. n ≤ 3) }
{
    match cause {
        "Refused" => refusal_count(value),
        "Request" => rejection_count(value),
        "Conflict" => conflict_count(value),
        "GaveUp" => give_up_count(value),
        "Spent" => Some(0),
        _ => None,
    }
}

fn epoch_count(value: &Value) -> u64
    ensures { result ≡ epoch_count (view value.now) }
{
    match value.get("epoch") {
        Some(_) => 1,
        None => 0,
    }
}

// The epoch, 0 if it is absent.
fn epoch_in(value: &Value) -> Option<u32>
    ensures { result ≡ epoch_of (view value.now) }
{
    match value.get("epoch") {
        Some(_) => small_at(value, "epoch"),
        None => Some(0),
    }
}

fn count_in(value: &Value) -> u64
    ensures { result ≡ count_of (view value.now) }
{
    match value.as_object() {
        Some(members) => members.len() as u64,
        None => 0,
    }
}

fn text_at<'v>(value: &'v Value, name: &str) -> Option<&'v str>
    ensures { option_map (λ t. t.now) result ≡ text_at name.now (view value.now) }
{
    value.get(name).and_then(Value::as_str)
}

fn number_at(value: &Value, name: &str) -> Option<u64>
    ensures { result ≡ number_at name.now (view value.now) }
{
    value.get(name).and_then(Value::as_u64)
}

// The 32-bit number of a member.
fn small_at(value: &Value, name: &str) -> Option<u32>
    ensures { result ≡ below (2 ^ 32) (number_at name.now (view value.now)) }
{
    match u32::try_from(number_at(value, name)?) {
        Ok(number) => Some(number),
        Err(_) => None,
    }
}

// The status, a 16-bit number.
fn status_at(value: &Value) -> Option<u16>
    ensures { result ≡ below (2 ^ 16) (number_at (codes "status") (view value.now)) }
{
    match u16::try_from(number_at(value, "status")?) {
        Ok(number) => Some(number),
        Err(_) => None,
    }
}
