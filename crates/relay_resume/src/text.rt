//! The text of a state.
ghost use Rattle.std.specs.Prelude.{◌≡◌, ◌++◌, IfOk, OnOk, decimal, false};
ghost use Rattle.json.specs.Print.{quoted};
ghost use Rattle.serde_json.specs.Written.{comma_if};
ghost use Rattle.hex.specs.Hex.{encode_lower};
ghost use Rattle.relay_resume.specs.Texts.{state_text};
ghost use Rattle.relay_resume.specs.Writing.{input_text, inputs_text};

use crate::state::{InputState, State};
use relay_words::add_number;
use serde_json::Value;
use std::alloc::{AllocError, Global};

// The functions below append to a text. After an error, part of what they append may be there.

// Appends these bytes, and a number in decimal.
fn add_number_after(text: &mut Vec<u8>, front: &[u8], number: u64) -> Result<(), AllocError>
    ensures { OnOk result (text.new.items ≡ text.old.items ++ (front.now ++ decimal number)) }
{
    text.extend_from_slice(front)?;
    add_number(text, number)
}

// Appends these bytes, and a JSON string.
fn add_text_after(
    alloc: Global,
    text: &mut Vec<u8>,
    front: &[u8],
    string: &str,
) -> Result<(), AllocError>
    ensures { OnOk result (text.new.items ≡ text.old.items ++ (front.now ++ quoted string.now)) }
{
    let string = Value::try_from_str(alloc, string)?.to_string(alloc)?;
    text.extend_from_slice(front)?;
    text.extend_from_slice(string.as_bytes())
}

// Appends these bytes, and the JSON string of a digest in hexadecimal digits.
fn add_digest_after(
    alloc: Global,
    text: &mut Vec<u8>,
    front: &[u8],
    digest: &[u8],
) -> Result<(), AllocError>
    ensures { OnOk result
        (text.new.items ≡ text.old.items ++ (front.now ++ quoted (encode_lower digest.now))) }
{
    let digits = hex::encode(alloc, digest)?;
    add_text_after(alloc, text, front, digits.as_str())
}

fn add_input(alloc: Global, text: &mut Vec<u8>, input: &InputState) -> Result<(), AllocError>
    ensures { OnOk result (text.new.items ≡ text.old.items ++ input_text input.now) }
{
    add_text_after(alloc, text, b"{\"path\":", input.path.as_str())?;
    add_number_after(text, b",\"device\":", input.device)?;
    add_number_after(text, b",\"inode\":", input.inode)?;
    add_number_after(text, b",\"checked\":", input.checked)?;
    add_digest_after(alloc, text, b",\"digest\":", &input.digest)?;
    add_number_after(text, b",\"offset\":", input.mark.offset)?;
    add_number_after(text, b",\"line\":", input.mark.line)?;
    add_number_after(text, b",\"count\":", input.mark.count)?;
    text.extend_from_slice(b"}")
}

// Appends an input, after a comma unless it is the first.
fn add_item(
    alloc: Global,
    text: &mut Vec<u8>,
    later: bool,
    input: &InputState,
) -> Result<(), AllocError>
    ensures { OnOk result (text.new.items
        ≡ text.old.items ++ (comma_if later ++ input_text input.now)) }
{
    if later {
        text.extend_from_slice(b",")?;
    }
    add_input(alloc, text, input)
}

// Appends inputs, and the bracket after them.
fn add_inputs(alloc: Global, text: &mut Vec<u8>, inputs: &[InputState]) -> Result<(), AllocError>
    ensures { OnOk result
        (text.new.items ≡ text.old.items ++ inputs_text false inputs.now) }
{
    let mut later = false;
    'inputs: for input in inputs {
        add_item(alloc, text, later, input)?;
        later = true;
    }
    text.extend_from_slice(b"]")
}

/// The text of a state: one JSON object on one line, with its members in this order, and a line
/// feed. `AllocError`: allocation failed.
///
/// ```text
/// {"epoch":E,"inputs":[{"path":"..","device":D,"inode":I,"checked":C,"digest":"..","offset":O,"line":L,"count":N}]}
/// ```
pub fn write_state(alloc: Global, state: &State) -> Result<Vec<u8>, AllocError>
    ensures { IfOk result (λ text. text.items ≡ state_text state.now) }
{
    let mut text = Vec::new(alloc);
    add_number_after(&mut text, b"{\"epoch\":", state.epoch as u64)?;
    text.extend_from_slice(b",\"inputs\":[")?;
    add_inputs(alloc, &mut text, state.inputs.as_slice())?;
    text.extend_from_slice(b"}\n")?;
    Ok(text)
}
