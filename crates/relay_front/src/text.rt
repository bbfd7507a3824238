//! JSON texts.
ghost use Rattle.std.specs.Prelude.{◌≡◌, ◌++◌, OnOk, decimal};
ghost use Rattle.std.specs.List.{list_all};
ghost use Rattle.json.specs.Print.{quoted};
ghost use Rattle.relay_ndjson.specs.Escapes.{needs_no_escape};
ghost use Rattle.relay_results.specs.Replies.{IsTruncated};
ghost use Rattle.relay_front.specs.Texts.{error_members};

use relay_words::add_number;
use serde_json::Value;
use std::alloc::{AllocError, Global};

// Whether a text is between the quotes of its JSON string as it is.
fn is_plain(bytes: &[u8]) -> bool
    ensures { result ≡ list_all needs_no_escape bytes.now }
{
    let mut plain = true;
    for byte in bytes {
        plain &= needs_no_escape(*byte);
    }
    plain
}

fn needs_no_escape(byte: u8) -> bool
    ensures { result ≡ needs_no_escape byte }
{
    (byte >= 32) & (byte != b'"') & (byte != b'\\')
}

/// Adds a text as a JSON string.
#[tactic(auto, using(crate::proofs::Plain::quoted_plain))]
pub fn add_string(alloc: Global, text: &mut Vec<u8>, string: &str) -> Result<(), AllocError>
    ensures { OnOk result (text.new.items ≡ text.old.items ++ quoted string.now) }
{
    if !is_plain(string.as_bytes()) {
        let escaped = Value::try_from_str(alloc, string)?.to_string(alloc)?;
        return text.extend_from_slice(escaped.as_bytes());
    }
    text.push(b'"')?;
    text.extend_from_slice(string.as_bytes())?;
    Ok(text.push(b'"')?)
}

/// Adds a text as it is.
pub fn add(text: &mut Vec<u8>, more: &str) -> Result<(), AllocError>
    ensures { OnOk result (text.new.items ≡ text.old.items ++ more.now) }
{
    text.extend_from_slice(more.as_bytes())
}

/// Adds a text and a number in decimal.
pub fn add_counted(text: &mut Vec<u8>, more: &str, number: u64) -> Result<(), AllocError>
    ensures { OnOk result (text.new.items ≡ text.old.items ++ more.now ++ decimal number) }
{
    add(text, more)?;
    add_number(text, number)
}

/// Adds the members `type` and `reason` of an error.
pub fn add_error(
    alloc: Global,
    text: &mut Vec<u8>,
    kind: &str,
    reason: &str,
) -> Result<(), AllocError>
    ensures { OnOk result (text.new.items ≡ text.old.items ++ error_members kind.now reason.now) }
{
    add(text, "\"type\":")?;
    add_string(alloc, text, kind)?;
    add(text, ",\"reason\":")?;
    add_string(alloc, text, reason)
}

/// The longest prefix of a text of at most 255 bytes that ends at a character boundary.
pub fn front_of(text: &str) -> &str
    ensures { IsTruncated 255 text.now result.now }
{
    &text[..text.floor_char_boundary(255)]
}
