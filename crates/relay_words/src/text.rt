//! Texts that are appended to a vector.
ghost use Rattle.std.specs.Prelude.{◌≡◌, ◌++◌, OnOk, OnErr, decimal};
ghost use Rattle.relay_ndjson.specs.Bulk.{Begins};
ghost use Rattle.relay_words.specs.Texts.{cause_text, document_text, epoch_text, name_text};
ghost use Rattle.relay_words.specs.Texts.{spaced_number};

use itoa::Buffer;
use relay_action::{DocKey, OpName};
use relay_results::Cause;
use std::alloc::AllocError;

/// Adds a number in decimal.
pub fn add_number(text: &mut Vec<u8>, number: u64) -> Result<(), AllocError>
    ensures ok { OnOk result (text.new.items ≡ text.old.items ++ decimal number) }
    ensures err { OnErr result (text.new.items ≡ text.old.items) }
{
    let mut digits = Buffer::new();
    text.extend_from_slice(digits.format(number).as_bytes())
}

/// Adds a space and a number.
pub fn add_spaced(text: &mut Vec<u8>, number: u64) -> Result<(), AllocError>
    ensures ok { OnOk result (text.new.items ≡ text.old.items ++ spaced_number number) }
    ensures err { OnErr result (text.new.items ≡ text.old.items) }
{
    let length = text.len();
    let done = append_spaced(text, number);
    if done.is_err() {
        text.truncate(length);
    }
    done
}

/// Adds the name of an operation, `P:N` in epoch 0 and `E.P:N` in any other: its epoch, its
/// producer, from 0, and its number, from 1.
pub fn add_name(text: &mut Vec<u8>, name: OpName) -> Result<(), AllocError>
    ensures ok { OnOk result (text.new.items ≡ text.old.items ++ name_text name) }
    ensures err { OnErr result (text.new.items ≡ text.old.items) }
{
    let length = text.len();
    let done = append_name(text, name);
    if done.is_err() {
        text.truncate(length);
    }
    done
}

/// Adds a document, `INDEX/ID`, unescaped.
pub fn add_document(text: &mut Vec<u8>, key: &DocKey) -> Result<(), AllocError>
    ensures ok { OnOk result (text.new.items ≡ text.old.items ++ document_text key.now) }
    ensures err { OnErr result (text.new.items ≡ text.old.items) }
{
    let length = text.len();
    let done = append_document(text, key);
    if done.is_err() {
        text.truncate(length);
    }
    done
}

/// Adds the cause of a report: `Refused STATUS KIND`, where KIND is the type of the item's error,
/// `Request STATUS`, `Conflict`, `GaveUp SENDS` or `Spent`.
pub fn add_cause(text: &mut Vec<u8>, cause: &Cause) -> Result<(), AllocError>
    ensures ok { OnOk result (text.new.items ≡ text.old.items ++ cause_text cause.now) }
    ensures err { OnErr result (text.new.items ≡ text.old.items) }
{
    let length = text.len();
    let done = append_cause(text, cause);
    if done.is_err() {
        text.truncate(length);
    }
    done
}

// Appends a space and a number. After an error, part of it may be there; this also holds for the
// functions below.
fn append_spaced(text: &mut Vec<u8>, number: u64) -> Result<(), AllocError>
    ensures ok { OnOk result (text.new.items ≡ text.old.items ++ spaced_number number) }
    ensures front { Begins text.old.items text.new.items }
{
    text.extend_from_slice(b" ")?;
    add_number(text, number)
}

// Appends an epoch and a dot, or nothing in epoch 0.
fn append_epoch(text: &mut Vec<u8>, epoch: u32) -> Result<(), AllocError>
    ensures ok { OnOk result (text.new.items ≡ text.old.items ++ epoch_text epoch) }
    ensures front { Begins text.old.items text.new.items }
{
    if epoch == 0 {
        return Ok(());
    }
    add_number(text, epoch as u64)?;
    text.extend_from_slice(b".")
}

fn append_name(text: &mut Vec<u8>, name: OpName) -> Result<(), AllocError>
    ensures ok { OnOk result (text.new.items ≡ text.old.items ++ name_text name) }
    ensures front { Begins text.old.items text.new.items }
{
    append_epoch(text, name.epoch)?;
    add_number(text, name.producer as u64)?;
    text.extend_from_slice(b":")?;
    add_number(text, name.number)
}

fn append_document(text: &mut Vec<u8>, key: &DocKey) -> Result<(), AllocError>
    ensures ok { OnOk result (text.new.items ≡ text.old.items ++ document_text key.now) }
    ensures front { Begins text.old.items text.new.items }
{
    text.extend_from_slice(key.index().as_bytes())?;
    text.extend_from_slice(b"/")?;
    text.extend_from_slice(key.id().as_bytes())
}

fn append_cause(text: &mut Vec<u8>, cause: &Cause) -> Result<(), AllocError>
    ensures ok { OnOk result (text.new.items ≡ text.old.items ++ cause_text cause.now) }
    ensures front { Begins text.old.items text.new.items }
{
    match cause {
        Cause::Refused { status, kind, .. } => {
            text.extend_from_slice(b"Refused")?;
            add_spaced(text, *status as u64)?;
            text.extend_from_slice(b" ")?;
            text.extend_from_slice(kind.as_str().as_bytes())
        }
        Cause::Request { status, .. } => {
            text.extend_from_slice(b"Request")?;
            add_spaced(text, *status as u64)
        }
        Cause::Conflict { .. } => text.extend_from_slice(b"Conflict"),
        Cause::GaveUp { sends, .. } => {
            text.extend_from_slice(b"GaveUp")?;
            add_spaced(text, *sends as u64)
        }
        Cause::Spent => text.extend_from_slice(b"Spent"),
    }
}
