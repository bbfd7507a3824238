//! Reading the target of a document.
ghost use Rattle.std.specs.Prelude.{◌≡◌, ◌≢◌, ◌++◌, ◌↔◌, ℕ, List, IfOk, MatchOption, IsTrue};
ghost use Rattle.std.specs.Prelude.{string_bytes, IsUtf8};
ghost use Rattle.percent_encoding.specs.Percent.{percent_decode};
ghost use Rattle.relay_target.specs.Targets.{HasNoParts, HasNoSlash, HasParts, IsLastPart, IsName};
ghost use Rattle.relay_target.specs.Targets.{Names, NamesNone};

use crate::key::key_of;
use percent_encoding::percent_decode;
use relay_action::DocKey;
use std::alloc::{AllocError, Global};

// The bytes before the first `/` and those after it.
fn split_slash(bytes: &[u8]) -> Option<(&[u8], &[u8])>
    ensures { MatchOption result (HasNoSlash bytes.now)
        (λ parts. IsName bytes.now parts.0.now parts.1.now) }
{
    let Some(end) = bytes.iter().position(|byte| *byte == b'/') else {
        return None;
    };
    Some((&bytes[..end], &bytes[end + 1..]))
}

// Whether a part has neither a `/` nor a `?`.
fn is_last_part(part: &[u8]) -> bool
    ensures { IsTrue result ↔ IsLastPart part.now }
{
    part.iter().all(|byte| *byte != b'/' && *byte != b'?')
}

// What follows these bytes at the front, if they are there.
fn after<'a>(bytes: &'a [u8], front: &[u8]) -> Option<&'a [u8]>
    ensures { MatchOption result ((rest : List ℕ) → bytes.now ≢ front.now ++ rest)
        (λ rest. bytes.now ≡ front.now ++ rest.now) }
{
    if bytes.len() < front.len() {
        return None;
    }
    let (head, rest) = bytes.split_at(front.len());
    if head == front { Some(rest) } else { None }
}

// The parts of a target `/INDEX/_doc/ID`, as they are there.
fn parts_of(target: &[u8]) -> Option<(&[u8], &[u8])>
    ensures { MatchOption result (HasNoParts target.now)
        (λ parts. HasParts target.now parts.0.now parts.1.now) }
{
    let Some(path) = after(target, b"/") else {
        return None;
    };
    let Some((index, rest)) = split_slash(path) else {
        return None;
    };
    let Some(id) = after(rest, b"_doc/") else {
        return None;
    };
    if !is_last_part(id) {
        return None;
    }
    Some((index, id))
}

// What a part stands for, if it is UTF-8.
fn decoded(alloc: Global, part: &[u8]) -> Result<Option<String>, AllocError>
    ensures { IfOk result (λ r. MatchOption r (¬ (IsUtf8 (percent_decode part.now)))
        (λ text. string_bytes text ≡ percent_decode part.now)) }
{
    let mut bytes = Vec::new(alloc);
    percent_decode(part).append_to(&mut bytes)?;
    Ok(String::from_utf8(bytes).ok())
}

/// The document with this target, `/INDEX/_doc/ID`: the index name is what the part up to the next
/// `/` stands for once it is percent-decoded, and the id what the rest does. `None`: it has another
/// form, a further `/` or a query, or a part is not UTF-8, or not within its limits. `AllocError`:
/// allocation failed.
pub fn read_target(alloc: Global, target: &[u8]) -> Result<Option<DocKey>, AllocError>
    ensures { IfOk result (λ r. MatchOption r (NamesNone target.now)
        (λ key. Names target.now key.index key.id)) }
{
    let Some((index_part, id_part)) = parts_of(target) else {
        return Ok(None);
    };
    let Some(index) = decoded(alloc, index_part)? else {
        return Ok(None);
    };
    let Some(id) = decoded(alloc, id_part)? else {
        return Ok(None);
    };
    key_of(alloc, index.as_str(), id.as_str())
}
