//! The epoch in an answer.
ghost use Rattle.std.specs.Prelude.{◌≡◌, ◌⊎◌, IfOk, Err, option_map};
ghost use Rattle.serde_json.specs.View.{view};
ghost use Rattle.relay_epoch.specs.Answers.{Gives, IsValue, Says, Tells, kind_in, stated_kind};
ghost use Rattle.relay_epoch.specs.Answers.{stated_version, version_in};

use crate::fault::EpochFault;
use relay_action::Text;
use serde_json::Value;
use std::alloc::{AllocError, Global};

/// The last epoch.
pub const LAST_EPOCH: u32 = 4_194_303;

// The JSON value of a body, if it is one.
fn value_of(alloc: Global, body: &[u8]) -> Result<Option<Value>, AllocError>
    ensures { IfOk result (λ value. IsValue body.now (option_map view value)) }
{
    match Value::from_slice(alloc, body) {
        Ok(value) => Ok(Some(value)),
        Err(error) => {
            if error.is_memory() {
                Err(AllocError)
            } else {
                Ok(None)
            }
        }
    }
}

// The version that a value states.
fn version_in(value: &Value) -> Option<u64>
    ensures { result ≡ version_in (view value.now) }
{
    value.get("_version").and_then(Value::as_u64)
}

// The version that a body states, if it is a JSON value.
fn stated_version(value: &Option<Value>) -> Option<u64>
    ensures { result ≡ stated_version (option_map view value.now) }
{
    match value {
        Some(value) => version_in(value),
        None => None,
    }
}

// The type of the error that a value states, or the empty text.
fn kind_in(value: &Value) -> &str
    ensures { result.now ≡ kind_in (view value.now) }
{
    let Some(error) = value.get("error") else {
        return "";
    };
    match error.get("type").and_then(Value::as_str) {
        Some(kind) => kind,
        None => "",
    }
}

// The type of the error that a body states, or the empty text.
fn stated_kind(value: &Option<Value>) -> &str
    ensures { result.now ≡ stated_kind (option_map view value.now) }
{
    match value {
        Some(value) => kind_in(value),
        None => "",
    }
}

// The epoch for a version that an answer states.
fn epoch_with(version: Option<u64>) -> Result<u32, EpochFault>
    ensures { Gives version result }
{
    match version {
        None => Err(EpochFault::NoVersion),
        Some(0) => Err(EpochFault::NoVersion),
        Some(version) => {
            if version > LAST_EPOCH as u64 {
                return Err(EpochFault::Spent);
            }
            Ok(version as u32)
        }
    }
}

// What an answer with this status and this value says.
fn epoch_by(alloc: Global, status: u16, value: &Option<Value>) -> Result<u32, EpochFault>
    ensures { Says status (option_map view value.now) result ⊎ (result ≡ Err EpochFault.Memory) }
{
    if status == 200 || status == 201 {
        return epoch_with(stated_version(value));
    }
    match Text::new(alloc, stated_kind(value)) {
        Ok(kind) => Err(EpochFault::Status { status, kind }),
        Err(_) => Err(EpochFault::Memory),
    }
}

/// The epoch that an answer with this status and this body gives: the number of `_version`, if the
/// status is 200 or 201 and the number is from 1 to 4,194,303.
///
/// The faults: `Status` with the type of the error for any other status; `NoVersion` if the body is
/// not JSON in UTF-8, or `_version` is not an integer from 1 to 2^64 - 1; `Spent` if it is above the
/// last epoch; `Memory` if an allocation failed.
pub fn epoch_of(alloc: Global, status: u16, body: &[u8]) -> Result<u32, EpochFault>
    ensures { Tells status body.now result }
{
    match value_of(alloc, body) {
        Ok(value) => epoch_by(alloc, status, &value),
        Err(_) => Err(EpochFault::Memory),
    }
}
