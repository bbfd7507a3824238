//! Replies in the usual form, which are read without a JSON reader.
ghost use Rattle.std.specs.Prelude.{◌≡◌, ◌≤◌, ◌<◌, ◌∷◌, ◌++◌, []};
ghost use Rattle.std.specs.Prelude.{codes, decimal, IsTrue, IfSome};
ghost use Rattle.relay_json.specs.Plain.{IsPlain};
ghost use Rattle.relay_results.specs.declared.usual.Entry.{Entry as EntryModel};
ghost use Rattle.relay_results.specs.Replies.{IsBulkReply};
ghost use Rattle.relay_results.specs.Usual.{start_text, type_text, id_text, document_text};
ghost use Rattle.relay_results.specs.Usual.{applied_text, shards_text, place_text, entry_text};
ghost use Rattle.relay_results.specs.Usual.{head_text, outcome_of, IsPlainType, IsDocument};
ghost use Rattle.relay_results.specs.Usual.{IsApplied, AreShards, IsPlace, IsUsual, HasRead};

use crate::outcome::Outcome;
use crate::reading::valid_status;
use relay_action::{ActionKind, Text};
use relay_json::{after, take_decimal, take_plain};
use std::alloc::Global;

// The part of an entry that names the document.
#[derive(Clone, Copy)]
struct Document<'t> {
    kind: ActionKind,
    index: &'t str,
    type_name: Option<&'t str>,
    id: &'t str,
}

// The part that says what was done.
#[derive(Clone, Copy)]
struct Applied<'t> {
    version: u64,
    result: &'t str,
}

// The number of copies of the shard.
#[derive(Clone, Copy)]
struct Shards {
    total: u64,
    successful: u64,
    failed: u64,
}

// The place of the write in the shard, and its status.
#[derive(Clone, Copy)]
struct Place {
    seq_no: u64,
    primary_term: u64,
    status: u64,
}

#[derive(Clone, Copy)]
struct Entry<'t> {
    document: Document<'t>,
    applied: Applied<'t>,
    shards: Shards,
    place: Place,
}

/// The outcomes of a reply in the usual form: what OpenSearch returns if every action of a request
/// was applied, with the members in its order, without blanks, and with texts of ASCII characters
/// that stand for themselves. `None`: the reply has another form, or an allocation failed.
pub fn read_usual(alloc: Global, bytes: &[u8]) -> Option<Vec<Outcome>>
    ensures { IfSome result (λ v. IsBulkReply bytes.now v.items) }
{
    let mut outcomes = Vec::new(alloc);
    let mut rest = take_first(alloc, bytes, &mut outcomes)?;
    'entries: while let Some(more) = after(rest, b",") {
        rest = take_outcome(alloc, more, &mut outcomes)?;
    }
    if is_end(rest) { Some(outcomes) } else { None }
}

// Whether only the end of a reply is left.
fn is_end(bytes: &[u8]) -> bool
    ensures { IsTrue result → bytes.now ≡ codes "]}" }
{
    matches!(bytes, [b']', b'}'])
}

// Takes the head of a reply and its first entry, adds its outcome, and returns what follows.
fn take_first<'t>(alloc: Global, bytes: &'t [u8], outcomes: &mut Vec<Outcome>) -> Option<&'t [u8]>
    requires { outcomes.old.items ≡ [] }
    ensures { IfSome result (λ rest. HasRead bytes.now outcomes.new.items rest.now) }
{
    let (_, rest) = take_head(bytes)?;
    take_outcome(alloc, rest, outcomes)
}

// A number after this mark, and what follows it.
fn take_number<'t>(bytes: &'t [u8], mark: &[u8]) -> Option<(u64, &'t [u8])>
    ensures { IfSome result (λ n. bytes.now ≡ mark.now ++ (decimal n.0 ++ n.1.now)) }
{
    take_decimal(after(bytes, mark)?)
}

// The time in milliseconds that the reply gives, and its entries with what follows them.
fn take_head(bytes: &[u8]) -> Option<(u64, &[u8])>
    ensures { IfSome result (λ h. bytes.now ≡ head_text h.0 h.1.now) }
{
    let (took, rest) = take_number(bytes, b"{\"took\":")?;
    Some((took, after(rest, b",\"errors\":false,\"items\":[")?))
}

// Takes the next entry, adds its outcome, and returns what follows.
fn take_outcome<'t>(alloc: Global, bytes: &'t [u8], outcomes: &mut Vec<Outcome>) -> Option<&'t [u8]>
    ensures entry { IfSome result
        (λ rest. (e : EntryModel) × IsUsual e × (bytes.now ≡ entry_text e rest.now)
        × (outcomes.new.items ≡ outcomes.old.items ++ outcome_of e ∷ [])) }
{
    let (entry, rest) = take_entry(bytes)?;
    let status = valid_status(entry.place.status)?;
    let id = Text::new(alloc, entry.document.id).ok()?;
    let outcome = Outcome {
        kind: entry.document.kind,
        id,
        status,
        error: None,
    };
    outcomes.push(outcome).ok()?;
    Some(rest)
}

// The next entry, and what follows it.
fn take_entry(bytes: &[u8]) -> Option<(Entry<'_>, &[u8])>
    ensures text { IfSome result (λ e. bytes.now ≡ entry_text e.0 e.1.now) }
    ensures parts { IfSome result
        (λ e. IsDocument e.0.document × IsApplied e.0.applied × AreShards e.0.shards
        × IsPlace e.0.place) }
{
    let (document, rest) = take_document(bytes)?;
    let (applied, rest) = take_applied(rest)?;
    let (shards, rest) = take_shards(rest)?;
    let (place, rest) = take_place(rest)?;
    let entry = Entry {
        document,
        applied,
        shards,
        place,
    };
    Some((entry, rest))
}

fn take_document(bytes: &[u8]) -> Option<(Document<'_>, &[u8])>
    ensures text { IfSome result (λ d. bytes.now ≡ document_text d.0 d.1.now) }
    ensures parts { IfSome result (λ d. IsDocument d.0) }
{
    let (kind, rest) = take_start(bytes)?;
    let (index, rest) = take_text(rest)?;
    let (type_name, rest) = take_type(rest)?;
    let (id, rest) = take_id(rest)?;
    let document = Document {
        kind,
        index,
        type_name,
        id,
    };
    Some((document, rest))
}

fn take_start(bytes: &[u8]) -> Option<(ActionKind, &[u8])>
    ensures { IfSome result (λ s. bytes.now ≡ start_text s.0 ++ s.1.now) }
{
    if let Some(rest) = after(bytes, b"{\"index\":{\"_index\":\"") {
        return Some((ActionKind::Index, rest));
    }
    let rest = after(bytes, b"{\"delete\":{\"_index\":\"")?;
    Some((ActionKind::Delete, rest))
}

// A plain text up to its closing quote, and what follows the comma after it.
fn take_text(bytes: &[u8]) -> Option<(&str, &[u8])>
    ensures text { IfSome result (λ t. bytes.now ≡ t.0.now ++ (codes "\"," ++ t.1.now)) }
    ensures plain { IfSome result (λ t. IsPlain t.0.now) }
{
    let (text, rest) = take_plain(bytes)?;
    let rest = after(rest, b",")?;
    Some((text, rest))
}

fn take_type(bytes: &[u8]) -> Option<(Option<&str>, &[u8])>
    ensures text { IfSome result (λ t. bytes.now ≡ type_text t.0 t.1.now) }
    ensures plain { IfSome result (λ t. IsPlainType t.0) }
{
    match after(bytes, b"\"_type\":\"") {
        Some(text) => {
            let (name, rest) = take_text(text)?;
            Some((Some(name), rest))
        }
        None => Some((None, bytes)),
    }
}

fn take_id(bytes: &[u8]) -> Option<(&str, &[u8])>
    ensures text { IfSome result (λ t. bytes.now ≡ id_text t.0.now t.1.now) }
    ensures plain { IfSome result (λ t. IsPlain t.0.now) }
{
    let text = after(bytes, b"\"_id\":\"")?;
    take_text(text)
}

fn take_applied(bytes: &[u8]) -> Option<(Applied<'_>, &[u8])>
    ensures text { IfSome result (λ a. bytes.now ≡ applied_text a.0 a.1.now) }
    ensures parts { IfSome result (λ a. IsApplied a.0) }
{
    let (version, rest) = take_number(bytes, b"\"_version\":")?;
    let (result, rest) = take_text(after(rest, b",\"result\":\"")?)?;
    Some((Applied { version, result }, rest))
}

fn take_shards(bytes: &[u8]) -> Option<(Shards, &[u8])>
    ensures text { IfSome result (λ s. bytes.now ≡ shards_text s.0 s.1.now) }
    ensures parts { IfSome result (λ s. AreShards s.0) }
{
    let (total, rest) = take_number(bytes, b"\"_shards\":{\"total\":")?;
    let (successful, rest) = take_number(rest, b",\"successful\":")?;
    let (failed, rest) = take_number(rest, b",\"failed\":")?;
    let rest = after(rest, b"},")?;
    let shards = Shards {
        total,
        successful,
        failed,
    };
    Some((shards, rest))
}

fn take_place(bytes: &[u8]) -> Option<(Place, &[u8])>
    ensures text { IfSome result (λ p. bytes.now ≡ place_text p.0 p.1.now) }
    ensures parts { IfSome result (λ p. IsPlace p.0) }
{
    let (seq_no, rest) = take_number(bytes, b"\"_seq_no\":")?;
    let (primary_term, rest) = take_number(rest, b",\"_primary_term\":")?;
    let (status, rest) = take_number(rest, b",\"status\":")?;
    let rest = after(rest, b"}}")?;
    let place = Place {
        seq_no,
        primary_term,
        status,
    };
    Some((place, rest))
}
