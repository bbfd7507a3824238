//! The state in a JSON value.
ghost use Rattle.std.specs.Prelude.{◌≡◌, IfOk, codes, option_map};
ghost use Rattle.serde_json.specs.View.{view, items_view};
ghost use Rattle.relay_resume.specs.Finding.{IsFoundIn, digest_of, epoch_of, input_of, inputs_of};
ghost use Rattle.relay_resume.specs.Finding.{mark_of, number_at, numbers_of, state_of, text_at};

use crate::mark::Mark;
use crate::state::{InputState, State};
use hex::FromHex;
use relay_action::{List, Text};
use serde_json::Value;
use std::alloc::{AllocError, Global};

/// The numbers by which an input is recognized.
#[derive(Clone, Copy, Debug, PartialEq, Eq)]
pub struct Numbers {
    device: u64,
    inode: u64,
    checked: u64,
}

fn number_at(value: &Value, name: &str) -> Option<u64>
    ensures { result ≡ number_at name.now (view value.now) }
{
    value.get(name).and_then(Value::as_u64)
}

fn text_at<'v>(value: &'v Value, name: &str) -> Option<&'v str>
    ensures { option_map (λ t. t.now) result ≡ text_at name.now (view value.now) }
{
    value.get(name).and_then(Value::as_str)
}

fn numbers_in(value: &Value) -> Option<Numbers>
    ensures { result ≡ numbers_of (view value.now) }
{
    Some(Numbers {
        device: number_at(value, "device")?,
        inode: number_at(value, "inode")?,
        checked: number_at(value, "checked")?,
    })
}

fn mark_in(value: &Value) -> Option<Mark>
    ensures { result ≡ mark_of (view value.now) }
{
    Some(Mark {
        offset: number_at(value, "offset")?,
        line: number_at(value, "line")?,
        count: number_at(value, "count")?,
    })
}

fn digest_in(value: &Value) -> Option<[u8; 32]>
    ensures { result ≡ digest_of (view value.now) }
{
    let text = text_at(value, "digest")?;
    match <[u8; 32] as FromHex>::from_hex(text) {
        Ok(digest) => Some(digest),
        Err(_) => None,
    }
}

#[tactic(auto, unfolding(crate::specs::Finding::input_of))]
fn input_in(alloc: Global, value: &Value) -> Result<Option<InputState>, AllocError>
    ensures { IfOk result (λ o. o ≡ input_of (view value.now)) }
{
    let Some(path) = text_at(value, "path") else {
        return Ok(None);
    };
    let Some(numbers) = numbers_in(value) else {
        return Ok(None);
    };
    let Some(digest) = digest_in(value) else {
        return Ok(None);
    };
    let Some(mark) = mark_in(value) else {
        return Ok(None);
    };
    Ok(Some(InputState {
        path: Text::new(alloc, path)?,
        device: numbers.device,
        inode: numbers.inode,
        checked: numbers.checked,
        digest,
        mark,
    }))
}

fn inputs_in(alloc: Global, items: &[Value]) -> Result<Option<List<InputState>>, AllocError>
    ensures { IfOk result (λ o. o ≡ inputs_of (items_view items.now)) }
{
    let mut inputs = Vec::new(alloc);
    'items: for value in items {
        match input_in(alloc, value)? {
            Some(input) => inputs.push(input)?,
            None => return Ok(None),
        }
    }
    Ok(Some(List::of(inputs)))
}

fn epoch_in(value: &Value) -> Option<u32>
    ensures { result ≡ epoch_of (view value.now) }
{
    match u32::try_from(number_at(value, "epoch")?) {
        Ok(epoch) => Some(epoch),
        Err(_) => None,
    }
}

#[tactic(auto, unfolding(crate::specs::Finding::state_of))]
fn state_in(alloc: Global, value: &Value) -> Result<Option<State>, AllocError>
    ensures { IfOk result (λ o. o ≡ state_of (view value.now)) }
{
    let Some(epoch) = epoch_in(value) else {
        return Ok(None);
    };
    let Some(items) = value.get("inputs").and_then(Value::as_array) else {
        return Ok(None);
    };
    match inputs_in(alloc, items.as_slice())? {
        Some(inputs) => Ok(Some(State { epoch, inputs })),
        None => Ok(None),
    }
}

/// The state in a line, if it is a JSON value that has one.
pub(crate) fn state_read(alloc: Global, line: &[u8]) -> Result<Option<State>, AllocError>
    ensures { IfOk result (IsFoundIn line.now) }
{
    match Value::from_slice(alloc, line) {
        Ok(value) => state_in(alloc, &value),
        Err(error) => {
            if error.is_memory() {
                Err(AllocError)
            } else {
                Ok(None)
            }
        }
    }
}
