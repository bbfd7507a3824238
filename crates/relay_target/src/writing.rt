//! Writing the target of a document.
ghost use Rattle.std.specs.Prelude.{◌≡◌, ◌++◌, IfOk, OnOk, string_bytes};
ghost use Rattle.relay_target.specs.Targets.{EscapesReserved, document_target, escaped};

use percent_encoding::{AsciiSet, NON_ALPHANUMERIC, percent_encode};
use relay_action::DocKey;
use std::alloc::{AllocError, Global};

// The ASCII bytes that are escaped: all but the unreserved characters (RFC 3986, section 2.3).
fn reserved() -> AsciiSet
    ensures { EscapesReserved result }
{
    NON_ALPHANUMERIC
        .remove(b'-')
        .remove(b'.')
        .remove(b'_')
        .remove(b'~')
}

// Adds a part with its escapes.
fn add_escaped(target: &mut String, part: &str) -> Result<(), AllocError>
    ensures { OnOk result (string_bytes target.new ≡ string_bytes target.old ++ escaped part.now) }
{
    percent_encode(part.as_bytes(), reserved()).append_to(target)
}

/// The target of a document: `/INDEX/_doc/ID`, with the index name and the id percent-encoded, so
/// that each is one segment of the path. `AllocError`: allocation failed.
pub fn document_target(alloc: Global, key: &DocKey) -> Result<String, AllocError>
    ensures { IfOk result
        (λ target. string_bytes target ≡ document_target key.now.index key.now.id) }
{
    let mut target = String::from_str(alloc, "/")?;
    add_escaped(&mut target, key.index())?;
    target.push_str("/_doc/")?;
    add_escaped(&mut target, key.id())?;
    Ok(target)
}
