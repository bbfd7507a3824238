//! Reading replies.
ghost use Rattle.std.specs.Prelude.{◌≡◌, false, Option, Some, None, Err, IfOk};
ghost use Rattle.std.specs.Prelude.{IfErr, MatchOption, option_map};
ghost use Rattle.serde_json.specs.Data.{Data, object, Items, no_items};
ghost use Rattle.serde_json.specs.Data.{Members, member, no_members};
ghost use Rattle.relay_json.specs.Walks.{IsLeaf, IsRead, IsRefused, IsPast};
ghost use Rattle.relay_results.specs.Replies.{IsTruncated, KeepsReason, IsDetail, IsEntry};
ghost use Rattle.relay_results.specs.Replies.{IsNoEntry, IsBulkReply, IsFaultOf};
ghost use Rattle.relay_results.specs.Parts.{in_range, status_of, told_error, KeepsError, HoldsTexts};
ghost use Rattle.relay_results.specs.Parts.{texts_of};
ghost use Rattle.relay_results.specs.Parts.{HoldsFields, HoldsEntries, HoldsReply};

use crate::outcome::{ErrorDetail, ItemError, Outcome};
use crate::stating::stored_in;
use crate::usual::read_usual;
use relay_action::{ActionKind, Text};
use relay_json::{Collect, Fields, Gather, Leaf, ReadFault, Scratch, Walk, read_object};
use std::alloc::{AllocError, Global};
use thiserror::Error;

/// The maximum length of the type of an error that an outcome keeps, in bytes.
pub const ERROR_LIMIT: usize = 64;

/// The maximum length of the reason of an error that an outcome keeps, in bytes.
pub const REASON_LIMIT: usize = 512;

/// Why a text is not a reply, in the order in which the causes are checked. A fault is printed as
/// the name of its variant.
#[derive(Clone, Copy, Debug, PartialEq, Eq, Error)]
pub enum ReplyFault {
    /// The bytes are not UTF-8, not JSON (RFC 8259), or nested more than 127 deep.
    #[error("NotJson")]
    NotJson,
    /// The value is not an object, or has no array `items`.
    #[error("NoItems")]
    NoItems,
    /// The entry at this place, from 0, is the first one that is not valid.
    #[error("BadItem({0})")]
    BadItem(u64),
    /// An allocation for the value or for the outcomes failed. It says nothing about the text.
    #[error("Memory")]
    Memory,
}

// The type of an error and its reason, each if it is a string.
#[derive(Clone, Copy, Drop)]
struct ErrorFields<'t> {
    kind: Option<&'t str>,
    reason: Option<&'t str>,
}

impl<'t> Gather<'t> for ErrorFields<'t> {
    ghost Holds = { HoldsTexts };

    ghost MayFail = { ⊥ };

    fn member(&mut self, name: &'t str, walk: &mut Walk<'t>) -> Result<(), ReadFault> {
        match name {
            "type" => self.kind = walk.leaf()?.as_str(),
            "reason" => self.reason = walk.leaf()?.as_str(),
            _ => {
                walk.leaf()?;
            }
        }
        Ok(())
    }
}

// What is kept of an error, or `None` if it is null.
fn read_error<'t>(walk: &mut Walk<'t>) -> Result<Option<ErrorFields<'t>>, ReadFault>
    ensures ok { IfOk result (λ e. (d : Data) × IsRead walk.old d walk.new
        × (option_map texts_of e ≡ told_error d)) }
    ensures err { IfErr result (λ e. (e ≡ ReadFault.NotJson) × IsRefused walk.old) }
    ensures past { IsPast walk.old walk.new }
{
    let none = ErrorFields {
        kind: None,
        reason: None,
    };
    match walk.gather_or_leaf(none)? {
        Ok(error) => Ok(Some(error)),
        Err(Leaf::Null) => Ok(None),
        Err(_) => Ok(Some(none)),
    }
}

fn status_of(leaf: Leaf<'_>) -> Option<u16>
    ensures { (d : Data) → IsLeaf leaf.entry d → result ≡ status_of d }
{
    valid_status(leaf.as_u64()?)
}

/// The status of an item, from 100 to 599. `None`: it is not in this range.
pub(crate) fn valid_status(status: u64) -> Option<u16>
    ensures { result ≡ in_range status }
{
    if 100 <= status && status <= 599 {
        Some(status as u16)
    } else {
        None
    }
}

// What is kept of the value of an entry's member: its id and its status, if they are valid, and its
// error, if it has one.
#[derive(Drop)]
struct EntryFields<'t> {
    id: Option<&'t str>,
    status: Option<u16>,
    error: Option<ErrorFields<'t>>,
}

impl<'t> Gather<'t> for EntryFields<'t> {
    ghost Holds = { HoldsFields };

    ghost MayFail = { ⊥ };

    fn member(&mut self, name: &'t str, walk: &mut Walk<'t>) -> Result<(), ReadFault> {
        match name {
            "_id" => self.id = walk.leaf()?.as_str(),
            "status" => self.status = status_of(walk.leaf()?),
            "error" => self.error = read_error(walk)?,
            _ => {
                walk.leaf()?;
            }
        }
        Ok(())
    }
}

impl<'t> Fields<'t> for EntryFields<'t> {
    fn none() -> EntryFields<'t> {
        EntryFields {
            id: None,
            status: None,
            error: None,
        }
    }
}

// The longest prefix that is within the limit and ends at a character boundary.
pub(crate) fn cut(text: &str, limit: usize) -> &str
    ensures { IsTruncated limit text.now result.now }
{
    &text[..text.floor_char_boundary(limit)]
}

// What is kept of an error's reason.
pub(crate) fn reason_of(alloc: Global, reason: Option<&str>) -> Result<Option<Text>, AllocError>
    ensures { IfOk result (λ r. KeepsReason (option_map (λ t. t.now) reason.entry) r) }
{
    match reason {
        Some(text) => Ok(Some(Text::new(alloc, cut(text, REASON_LIMIT))?)),
        None => Ok(None),
    }
}

// What an outcome keeps of an error.
fn detail_of(alloc: Global, error: &ErrorFields<'_>) -> Result<ErrorDetail, AllocError>
    ensures { IfOk result (λ e. IsDetail (texts_of error.now) e) }
{
    let kind = error.kind.unwrap_or("");
    Ok(ErrorDetail {
        kind: Text::new(alloc, cut(kind, ERROR_LIMIT))?,
        reason: reason_of(alloc, error.reason)?,
        stored: stored_in(error.reason),
    })
}

// What an outcome keeps of an error, if there is one.
fn error_of(alloc: Global, error: &Option<ErrorFields<'_>>) -> Result<Option<ItemError>, AllocError>
    ensures { IfOk result (λ e. KeepsError (option_map texts_of error.now) e) }
{
    match error {
        Some(error) => Ok(Some(ItemError::new(alloc, detail_of(alloc, error)?)?)),
        None => Ok(None),
    }
}

// The outcome of an entry whose only member has this name, if the entry is valid.
fn outcome_of(
    alloc: Global,
    name: &str,
    fields: &EntryFields<'_>,
) -> Result<Option<Outcome>, AllocError>
    ensures { IfOk result (λ r. (ms : Members) → HoldsFields fields.now ms → MatchOption r
        (IsNoEntry (object (member name.now (object ms) no_members)))
        (IsEntry (object (member name.now (object ms) no_members)))) }
{
    let Some(kind) = ActionKind::named(name) else {
        return Ok(None);
    };
    let Some(id) = fields.id else {
        return Ok(None);
    };
    let Some(status) = fields.status else {
        return Ok(None);
    };
    Ok(Some(Outcome {
        kind,
        id: Text::new(alloc, id)?,
        status,
        error: error_of(alloc, &fields.error)?,
    }))
}

// The outcome of the next value, if it is a valid entry.
fn read_entry(alloc: Global, walk: &mut Walk<'_>) -> Result<Option<Outcome>, ReadFault>
    ensures ok { IfOk result (λ r. (d : Data) × IsRead walk.old d walk.new
        × MatchOption r (IsNoEntry d) (IsEntry d)) }
    ensures not_json { result ≡ Err ReadFault.NotJson → IsRefused walk.old }
    ensures past { IsPast walk.old walk.new }
{
    let Some((name, fields)) = walk.sole_object::<EntryFields<'_>>()? else {
        return Ok(None);
    };
    Ok(outcome_of(alloc, name, &fields).map_err(|_| ReadFault::Memory)?)
}

// What entries say, up to the first invalid one.
#[derive(Drop)]
struct Entries {
    alloc: Global,
    outcomes: Vec<Outcome>,
    // Whether the entry after these outcomes is invalid.
    has_bad: bool,
}

impl Entries {
    fn new(alloc: Global) -> Entries
        ensures { HoldsEntries result no_items }
    {
        Entries {
            alloc,
            outcomes: Vec::new(alloc),
            has_bad: false,
        }
    }
}

impl<'t> Collect<'t> for Entries {
    ghost Holds = { HoldsEntries };

    ghost MayFail = { Unit {0} };

    fn item(&mut self, walk: &mut Walk<'t>) -> Result<(), ReadFault> {
        if self.has_bad {
            walk.leaf()?;
            return Ok(());
        }
        match read_entry(self.alloc, walk)? {
            Some(outcome) => self.outcomes.push(outcome).map_err(|_| ReadFault::Memory)?,
            None => self.has_bad = true,
        }
        Ok(())
    }
}

// What is kept of a reply.
#[derive(Drop)]
struct Reply {
    alloc: Global,
    entries: Option<Entries>,
}

impl<'t> Gather<'t> for Reply {
    ghost Holds = { HoldsReply };

    ghost MayFail = { Unit {0} };

    fn member(&mut self, name: &'t str, walk: &mut Walk<'t>) -> Result<(), ReadFault> {
        if name == "items" {
            self.entries = walk.collect(Entries::new(self.alloc))?;
        } else {
            walk.leaf()?;
        }
        Ok(())
    }
}

/// The outcomes in the body of a reply of status 200, one for each entry, in order.
///
/// A reply is a JSON object with a member `items`, an array (OpenSearch, bulk API). An entry is an
/// object with one member named `index` or `delete`, whose value is an object with `_id`, a string,
/// and `status`, an integer from 100 to 599. If `error` is present and not null, the outcome has
/// an [`ErrorDetail`]: its members `type` and `reason`, cut to the longest prefixes of at most 64
/// and 512 bytes that end at a character boundary, and the stored version that the whole reason
/// states. All other members are ignored. The fault is the first of [`ReplyFault`] that applies, and
/// then no outcomes are returned.
///
/// Contracts do not see whether an allocation fails, so no clause says that `Memory` is returned
/// only then.
pub fn read_reply(alloc: Global, bytes: &[u8]) -> Result<Vec<Outcome>, ReplyFault>
    ensures ok { IfOk result (λ v. IsBulkReply bytes.now v.items) }
    ensures err { IfErr result (λ e. IsFaultOf bytes.now e) }
{
    match read_usual(alloc, bytes) {
        Some(outcomes) => Ok(outcomes),
        None => parse_reply(alloc, bytes),
    }
}

// The same for replies that are not in the usual form.
fn parse_reply(alloc: Global, bytes: &[u8]) -> Result<Vec<Outcome>, ReplyFault>
    ensures ok { IfOk result (λ v. IsBulkReply bytes.now v.items) }
    ensures err { IfErr result (λ e. IsFaultOf bytes.now e) }
{
    let mut scratch = Scratch::new(alloc);
    let start = Reply {
        alloc,
        entries: None,
    };
    let found = match read_object(bytes, &mut scratch, start) {
        Ok(found) => found,
        Err(ReadFault::NotJson) => return Err(ReplyFault::NotJson),
        Err(ReadFault::Memory) => return Err(ReplyFault::Memory),
    };
    let Some(entries) = found.and_then(|reply| reply.entries) else {
        return Err(ReplyFault::NoItems);
    };
    if entries.has_bad {
        return Err(ReplyFault::BadItem(entries.outcomes.len() as u64));
    }
    Ok(entries.outcomes)
}
