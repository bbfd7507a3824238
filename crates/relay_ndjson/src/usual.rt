//! Action lines in the usual form, which are read without a JSON reader.
ghost use Rattle.std.specs.Prelude.{◌≡◌, ◌++◌, codes, IfSome};
ghost use Rattle.relay_json.specs.Plain.{IsPlain};
ghost use Rattle.relay_ndjson.specs.Metadata.{bytes_given, Says};
ghost use Rattle.relay_ndjson.specs.Usual.{IsPlainIndex, usual_start};
ghost use Rattle.relay_ndjson.specs.Usual.{usual_id, usual_line, with_index};

use relay_action::{ActionKind, DocKey};
use relay_json::{after, plain_text, take_plain};
use std::alloc::Global;

/// Reads an action line in the usual form: `{"index":{"_index":"I","_id":"ID"}}`, the same with
/// `delete`, and both without the index name, without blanks, and with texts of ASCII characters
/// that stand for themselves. `None`: the line has another form or a fault, or an allocation
/// failed.
pub fn read_usual(
    alloc: Global,
    default_index: Option<&str>,
    line: &[u8],
) -> Option<(ActionKind, DocKey)>
    ensures { IfSome result
        (λ a. Says (bytes_given default_index.entry) line.now a.0 a.1.index a.1.id) }
{
    let usual = usual_of(line)?;
    let index = usual.index.or(default_index)?;
    match DocKey::new(alloc, index, usual.id) {
        Ok(key) => Some((usual.kind, key)),
        Err(_) => None,
    }
}

// The parts of a line in the usual form.
#[derive(Clone, Copy)]
struct Usual<'t> {
    kind: ActionKind,
    index: Option<&'t str>,
    id: &'t str,
}

fn usual_of(line: &[u8]) -> Option<Usual<'_>>
    ensures line { IfSome result
        (λ u. line.now ≡ usual_line u.kind (bytes_given u.index) u.id.now) }
    ensures texts { IfSome result (λ u. IsPlainIndex (bytes_given u.index) × IsPlain u.id.now) }
{
    let (kind, rest) = take_start(line)?;
    let (index, rest) = take_index(rest)?;
    Some(Usual {
        kind,
        index,
        id: id_of(rest)?,
    })
}

// The start of a line, and what follows it.
fn take_start(line: &[u8]) -> Option<(ActionKind, &[u8])>
    ensures { IfSome result (λ s. line.now ≡ usual_start s.0 ++ s.1.now) }
{
    if let Some(rest) = after(line, b"{\"index\":{") {
        return Some((ActionKind::Index, rest));
    }
    let rest = after(line, b"{\"delete\":{")?;
    Some((ActionKind::Delete, rest))
}

// The index name, if it is given, and what follows it.
fn take_index(bytes: &[u8]) -> Option<(Option<&str>, &[u8])>
    ensures parts { IfSome result (λ i. bytes.now ≡ with_index (bytes_given i.0) i.1.now) }
    ensures text { IfSome result (λ i. IsPlainIndex (bytes_given i.0)) }
{
    match after(bytes, b"\"_index\":\"") {
        Some(rest) => {
            let (index, rest) = take_plain(rest)?;
            Some((Some(index), after(rest, b",")?))
        }
        None => Some((None, bytes)),
    }
}

// The id, if only the end of the line follows it.
fn id_of(bytes: &[u8]) -> Option<&str>
    ensures parts { IfSome result (λ id. bytes.now ≡ usual_id id.now) }
    ensures text { IfSome result (λ id. IsPlain id.now) }
{
    let rest = after(bytes, b"\"_id\":\"")?;
    let id = plain_text(before_end(rest)?)?;
    Some(id)
}

// The bytes without the end of the line.
fn before_end(bytes: &[u8]) -> Option<&[u8]>
    ensures { IfSome result (λ front. bytes.now ≡ front.now ++ codes "\"}}") }
{
    match bytes {
        [front @ .., b'"', b'}', b'}'] => Some(front),
        _ => None,
    }
}
