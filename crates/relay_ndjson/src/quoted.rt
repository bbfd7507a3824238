//! Texts as JSON strings (RFC 8259, section 7).
ghost use Rattle.std.specs.Prelude.{◌≡◌, ◌&&◌, not, IfOk};
ghost use Rattle.std.specs.List.{list_all};
ghost use Rattle.json.specs.Print.{escape};
ghost use Rattle.relay_ndjson.specs.Escapes.{needs_no_escape, IsEscapeOf};

use relay_action::Write;
use serde_json::Value;
use std::alloc::{AllocError, Global};

/// The JSON string of a text, or `None` if the text needs no escapes.
#[tactic(auto, using(crate::proofs::Plain::escape_plain))]
pub fn escape_of(alloc: Global, text: &str) -> Result<Option<String>, AllocError>
    ensures { IfOk result (λ o. IsEscapeOf text.now o) }
{
    if is_plain(text.as_bytes()) {
        return Ok(None);
    }
    let string = Value::try_from_str(alloc, text)?.to_string(alloc)?;
    Ok(Some(string))
}

/// What is between the quotes of a text's JSON string.
#[tactic(auto, using(crate::proofs::Plain::inside_quotes))]
pub fn between_quotes<'t>(text: &'t str, string: &'t Option<String>) -> &'t [u8]
    requires { IsEscapeOf text.now string.now }
    ensures { result.now ≡ escape text.now }
{
    match string {
        Some(string) => {
            let bytes = string.as_bytes();
            &bytes[1..bytes.len() - 1]
        }
        None => text.as_bytes(),
    }
}

/// Whether the id or the index name of a write's document needs an escape in its action line.
/// Appending such a line allocates, even if the text it is appended to has room.
pub fn has_escapes(write: &Write) -> bool
    ensures { result ≡ not (list_all needs_no_escape write.now.key.id
        && list_all needs_no_escape write.now.key.index) }
{
    !(is_plain(write.key.id().as_bytes()) && is_plain(write.key.index().as_bytes()))
}

// Whether a byte stands for itself in a JSON string.
#[inline(always)]
fn needs_no_escape(byte: u8) -> bool
    ensures { result ≡ needs_no_escape byte }
{
    (byte >= 32) & (byte != b'"') & (byte != b'\\')
}

/// Whether each byte stands for itself in a JSON string. It does not stop at the first that does
/// not: without a branch, the compiler compares many bytes at once.
pub fn is_plain(bytes: &[u8]) -> bool
    ensures { result ≡ list_all needs_no_escape bytes.now }
{
    let mut plain = true;
    for byte in bytes {
        plain &= needs_no_escape(*byte);
    }
    plain
}
