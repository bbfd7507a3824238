//! The operations in the body of a bulk request.
ghost use Rattle.std.specs.Prelude.{◌≡◌, ◌≢◌, ◌⊎◌, ◌<◌, ◌+◌, ◌++◌, ◌∷◌, ℕ, List, [], length, min, codes};
ghost use Rattle.std.specs.Prelude.{Option, Some, None, IfOk, IfErr, IfSome, OnOk, MatchOption};
ghost use Rattle.std.specs.Prelude.{false, is_some, ok_or, option_map, option_and_then, option_to_list};
ghost use Rattle.serde_json.specs.Data.{Data, Members};
ghost use Rattle.serde_json.specs.Find.{as_number, as_str};
ghost use Rattle.relay_action.specs.Actions.{IsIndexOf};
ghost use Rattle.relay_json.specs.Walks.{IsLeaf};
ghost use Rattle.relay_ndjson.specs.Lines.{IsRaw, IsUnbroken};
ghost use Rattle.relay_ndjson.specs.Fields.{IsLeafOf};
ghost use Rattle.relay_ndjson.specs.Metadata.{bytes_given, id_text, number_text, text_or};
ghost use Rattle.relay_front.specs.Bodies.{BeginsWithLine, is_blank};
ghost use Rattle.relay_front.specs.Metadata.{given, HoldsMembers};
ghost use Rattle.relay_front.specs.Operations.{and_then, document_at, document_by, index_by, key_by};
ghost use Rattle.relay_front.specs.Operations.{asked_kind, is_allowed, not_allowed, kind_of, line_fault};
ghost use Rattle.relay_front.specs.Operations.{source_reason, AsksFor, BreaksAt, BreaksBody, HasRead};
ghost use Rattle.relay_front.specs.Operations.{IsAdded, IsAsked, IsItem, LacksSource, TakesPart};
ghost use Rattle.relay_front.specs.Operations.{after_lines, bytes_found, bytes_shown, named};

use crate::metadata::Metadata;
use crate::operation::{AskedKind, Item, ItemFault, Operations};
use crate::settle::Ids;
use crate::text::front_of;
use itoa::Buffer;
use memchr::memchr;
use relay_action::{Action, ActionFault, ActionKind, DocKey, Text};
use relay_json::{Leaf, ReadFault, Scratch, read_sole_object};
use relay_ndjson::read_action;
use simdutf8::compat::from_utf8;
use std::alloc::{AllocError, Global};

/// What is wrong with a body whose lines cannot be told apart.
#[derive(Clone, Copy, Debug, PartialEq, Eq)]
pub enum BodyFaultKind {
    /// An action line is not JSON, or not UTF-8.
    NotJson,
    /// An action line is not an object with one member whose value is an object.
    NotOneAction,
    /// The member is named neither `index`, `create`, `update` nor `delete`.
    UnknownAction,
    /// The last line has no line feed.
    NoFinalNewline,
    /// The body ends before the source of its last action line.
    SourceMissing,
    /// There is no operation.
    Empty,
}

impl BodyFaultKind {
    ghost use Rattle.relay_front.specs.Service.{body_reason};

    /// What is said of it.
    pub fn reason(self) -> &'static str
        ensures { result.now ≡ body_reason self }
    {
        match self {
            BodyFaultKind::NotJson => "the action line is not JSON in UTF-8",
            BodyFaultKind::NotOneAction =>
                "the action line is not an object with one member whose value is an object",
            BodyFaultKind::UnknownAction => "the action is none of [index, create, update, delete]",
            BodyFaultKind::NoFinalNewline => "the bulk request must end with a newline [\\n]",
            BodyFaultKind::SourceMissing => "the source of the last action is missing",
            BodyFaultKind::Empty => "the bulk request has no operation",
        }
    }
}

/// The first fault of a body: its line, from 1, and what is wrong with it.
#[derive(Clone, Copy, Debug, PartialEq, Eq)]
pub struct BodyFault {
    /// The line.
    pub line: u64,
    /// What is wrong with it.
    pub kind: BodyFaultKind,
}

/// Why the operations of a body were not read.
#[derive(Clone, Copy, Debug, PartialEq, Eq)]
pub enum Unread {
    /// The body is refused as a whole.
    Body(BodyFault),
    /// Allocation failed.
    Memory,
}

impl From<AllocError> for Unread {
    ghost use Rattle.relay_front.specs.declared.lines.Unread.{Unread};

    ghost from_gives = { λ _ unread. unread ≡ Unread.Memory };

    fn from(_error: AllocError) -> Unread {
        Unread::Memory
    }
}

// A line without a carriage return at its end.
fn without_return(raw: &[u8]) -> &[u8]
    ensures { IsRaw result.now raw.now }
{
    match raw.last() {
        Some(&b'\r') => &raw[..raw.len() - 1],
        _ => raw,
    }
}

// The text of the first line, and the bytes after it. `None`: the line has no end.
fn front_line(bytes: &[u8]) -> Option<(&[u8], &[u8])>
    ensures line { MatchOption result (IsUnbroken bytes.now)
        (λ front. BeginsWithLine bytes.now front.1.now front.0.now) }
    ensures shorter { IfSome result (λ front. length front.1.now < length bytes.now) }
{
    let Some(end) = memchr(b'\n', bytes) else {
        return None;
    };
    Some((without_return(&bytes[..end]), &bytes[end + 1..]))
}

// The source after an action line, and the bytes after its line. The line of a fault is relative to
// the action line.
fn take_source(bytes: &[u8]) -> Result<(&[u8], &[u8]), BodyFault>
    ensures ok { IfOk result (λ front. BeginsWithLine bytes.now front.1.now front.0.now) }
    ensures err { IfErr result (λ f. LacksSource bytes.now f.line f.kind) }
    ensures shorter { IfOk result (λ front. length front.1.now < length bytes.now) }
{
    if bytes.is_empty() {
        return Err(BodyFault {
            line: 1,
            kind: BodyFaultKind::SourceMissing,
        });
    }
    match front_line(bytes) {
        Some(front) => Ok(front),
        None => Err(BodyFault {
            line: 2,
            kind: BodyFaultKind::NoFinalNewline,
        }),
    }
}

fn is_blank(line: &[u8]) -> bool
    ensures { result ≡ is_blank line.now }
{
    line.iter().all(|byte| *byte == b' ' || *byte == b'\t')
}

/// A document within its limits, and whether the relay made its id. `AllocError`: allocation failed.
pub(crate) fn key_within(
    alloc: Global,
    index: &str,
    id: &str,
    made: bool,
) -> Result<Result<(DocKey, bool), ItemFault>, AllocError>
    ensures { IfOk result (λ k. named k ≡ key_by index.now made id.now) }
{
    match DocKey::new(alloc, index, id) {
        Ok(key) => Ok(Ok((key, made))),
        Err(ActionFault::Memory) => Err(AllocError),
        Err(fault) => Ok(Err(ItemFault::Action(fault))),
    }
}

// The index name of an operation.
fn index_of<'t>(metadata: &Metadata<'t>, default: Option<&'t str>) -> Result<&'t str, ItemFault>
    ensures { (ms : Members) → HoldsMembers metadata.now ms
        → bytes_found result
        ≡ index_by (bytes_given default.entry) (given (codes "_index") ms) }
{
    match metadata.given_index() {
        Some(leaf) => leaf.as_str().ok_or(ItemFault::IndexForm),
        None => default.ok_or(ItemFault::NoIndex),
    }
}

// The decimal text of a 64-bit integer.
fn integer_text<'b>(leaf: Leaf<'_>, buffer: &'b mut Buffer) -> Option<&'b str>
    ensures { (d : Data) → IsLeaf leaf.entry d
        → option_map (λ t. t.now) result ≡ option_and_then number_text (as_number d) }
{
    if let Some(n) = leaf.as_u64() {
        return Some(buffer.format(n));
    }
    if let Some(n) = leaf.as_i64() {
        return Some(buffer.format(n));
    }
    None
}

// The document with the id that a line gives.
fn key_given(
    alloc: Global,
    index: &str,
    id: Leaf<'_>,
) -> Result<Result<(DocKey, bool), ItemFault>, AllocError>
    ensures { (d : Data) → IsLeaf id.entry d
        → IfOk result (λ k. named k ≡ and_then (ok_or (id_text d) ItemFault.IdForm)
        (key_by index.now false)) }
{
    if let Some(text) = id.as_str() {
        return key_within(alloc, index, text, false);
    }
    let mut buffer = Buffer::new();
    match integer_text(id, &mut buffer) {
        Some(text) => key_within(alloc, index, text, false),
        None => Ok(Err(ItemFault::IdForm)),
    }
}

// The document of a line, whose index name was found.
fn document_at<I: Ids>(
    alloc: Global,
    kind: AskedKind,
    id: Option<Leaf<'_>>,
    index: &str,
    ids: &mut I,
) -> Result<Result<(DocKey, bool), ItemFault>, AllocError>
    ensures { (value : Option Data) → IsLeafOf id.entry value
        → IfOk result (λ k. (made : List ℕ)
        × (named k ≡ document_at kind made value index.now)) }
{
    if let Some(leaf) = id {
        return key_given(alloc, index, leaf);
    }
    if matches!(kind, AskedKind::Delete) {
        return Ok(Err(ItemFault::NoId));
    }
    let made = ids.next_id()?;
    key_within(alloc, index, made.as_str(), true)
}

// The document of a line.
fn document_of<I: Ids>(
    alloc: Global,
    kind: AskedKind,
    metadata: &Metadata<'_>,
    default: Option<&str>,
    ids: &mut I,
) -> Result<Result<(DocKey, bool), ItemFault>, AllocError>
    ensures { (ms : Members) → HoldsMembers metadata.now ms
        → IfOk result (λ k. (made : List ℕ)
        × (named k ≡ document_by (bytes_given default.entry) kind made ms)) }
{
    match index_of(metadata, default) {
        Ok(index) => document_at(alloc, kind, metadata.given_id(), index, ids),
        Err(fault) => Ok(Err(fault)),
    }
}

// Whether the relay does this, with an id of the line or without.
fn is_allowed(kind: AskedKind, has_id: bool) -> bool
    ensures { (id : Option Data) → has_id ≡ is_some id → result ≡ is_allowed kind id }
{
    match kind {
        AskedKind::Update => false,
        AskedKind::Create => !has_id,
        AskedKind::Index | AskedKind::Delete => true,
    }
}

// Why it does not.
fn not_allowed(kind: AskedKind) -> ItemFault
    ensures { result ≡ not_allowed kind }
{
    match kind {
        AskedKind::Update => ItemFault::Update,
        _ => ItemFault::CreateWithId,
    }
}

// The document of a line, or why the line is refused.
fn asked_of<I: Ids>(
    alloc: Global,
    kind: AskedKind,
    metadata: &Metadata<'_>,
    default: Option<&str>,
    ids: &mut I,
) -> Result<Result<(DocKey, bool), ItemFault>, AllocError>
    ensures { (ms : Members) → HoldsMembers metadata.now ms
        → IfOk result (IsAsked (bytes_given default.entry) kind ms) }
{
    if !is_allowed(kind, metadata.given_id().is_some()) {
        return Ok(Err(not_allowed(kind)));
    }
    if let Some(name) = metadata.other {
        return Ok(Err(ItemFault::Member(Text::new(alloc, front_of(name))?)));
    }
    document_of(alloc, kind, metadata, default, ids)
}

fn own_text(alloc: Global, text: Option<&str>) -> Result<Option<Text>, AllocError>
    ensures { IfOk result (λ t. t ≡ bytes_given text.entry) }
{
    match text {
        Some(text) => Ok(Some(Text::new(alloc, text)?)),
        None => Ok(None),
    }
}

// The index name that an item shows, if there is one.
fn index_shown<'t>(metadata: &Metadata<'t>, default: Option<&'t str>) -> Option<&'t str>
    ensures { (ms : Members) → HoldsMembers metadata.now ms
        → option_map (λ t. t.now) result
        ≡ text_or (bytes_given default.entry) (given (codes "_index") ms) }
{
    match metadata.given_index() {
        Some(leaf) => leaf.as_str(),
        None => default,
    }
}

// The id that an item shows, if there is one.
fn id_shown<'t>(metadata: &Metadata<'t>) -> Option<&'t str>
    ensures { (ms : Members) → HoldsMembers metadata.now ms
        → option_map (λ t. t.now) result
        ≡ option_and_then as_str (given (codes "_id") ms) }
{
    match metadata.given_id() {
        Some(leaf) => leaf.as_str(),
        None => None,
    }
}

// The item of a line.
fn item_of<I: Ids>(
    alloc: Global,
    kind: AskedKind,
    metadata: &Metadata<'_>,
    default: Option<&str>,
    ids: &mut I,
) -> Result<Item, AllocError>
    ensures { (ms : Members) → HoldsMembers metadata.now ms
        → IfOk result (λ i. (made : List ℕ) × IsItem (bytes_given default.entry) kind made ms i) }
{
    match asked_of(alloc, kind, metadata, default, ids)? {
        Ok((key, made)) => Ok(Item::Asked { kind, key, made }),
        Err(fault) => Ok(Item::Refused {
            kind,
            index: own_text(alloc, index_shown(metadata, default))?,
            id: own_text(alloc, id_shown(metadata))?,
            fault,
        }),
    }
}

fn asked_kind(kind: ActionKind) -> AskedKind
    ensures { result ≡ asked_kind kind }
{
    match kind {
        ActionKind::Index => AskedKind::Index,
        ActionKind::Delete => AskedKind::Delete,
    }
}

// The item of an action line that is not in the usual form.
fn read_other<I: Ids>(
    alloc: Global,
    line: &[u8],
    default: Option<&str>,
    scratch: &mut Scratch,
    ids: &mut I,
) -> Result<Result<Item, BodyFaultKind>, AllocError>
    ensures ok { IfOk result (λ r. IfOk r (AsksFor (bytes_given default.entry) line.now)) }
    ensures err { IfOk result (λ r. IfErr r (λ k. line_fault line.now ≡ Some k)) }
{
    let (name, metadata) = match read_sole_object::<Metadata>(line, scratch) {
        Ok(Some(found)) => found,
        Ok(None) => return Ok(Err(BodyFaultKind::NotOneAction)),
        Err(ReadFault::NotJson) => return Ok(Err(BodyFaultKind::NotJson)),
        Err(ReadFault::Memory) => return Err(AllocError),
    };
    match AskedKind::named(name) {
        Some(kind) => Ok(Ok(item_of(alloc, kind, &metadata, default, ids)?)),
        None => Ok(Err(BodyFaultKind::UnknownAction)),
    }
}

// The item of an action line.
fn read_line<I: Ids>(
    alloc: Global,
    line: &[u8],
    default: Option<&str>,
    scratch: &mut Scratch,
    ids: &mut I,
) -> Result<Result<Item, BodyFaultKind>, AllocError>
    ensures ok { IfOk result (λ r. IfOk r (AsksFor (bytes_given default.entry) line.now)) }
    ensures err { IfOk result (λ r. IfErr r (λ k. line_fault line.now ≡ Some k)) }
{
    if let Ok((kind, key)) = read_action(alloc, default, line, scratch) {
        return Ok(Ok(Item::Asked {
            kind: asked_kind(kind),
            key,
            made: false,
        }));
    }
    read_other(alloc, line, default, scratch, ids)
}

// Why an operation is refused that breaks this limit.
fn limit_fault(fault: ActionFault) -> Result<ItemFault, AllocError>
    ensures { IfOk result (λ f. (f ≡ ItemFault.Action fault) × (fault ≢ ActionFault.Memory)) }
{
    match fault {
        ActionFault::Memory => Err(AllocError),
        limit => Ok(ItemFault::Action(limit)),
    }
}

/// The action that stores a source, or why it is refused. `AllocError`: allocation failed.
pub(crate) fn action_of(
    alloc: Global,
    source: &[u8],
) -> Result<Result<Action, ItemFault>, AllocError>
    ensures ok { IfOk result (λ r. IfOk r
        (λ a. (source_reason source.now ≡ None) × IsIndexOf source.now a)) }
    ensures err { IfOk result (λ r. IfErr r (λ f. source_reason source.now ≡ Some f)) }
{
    let Ok(text) = from_utf8(source) else {
        return Ok(Err(ItemFault::SourceForm));
    };
    match Action::index(alloc, text) {
        Ok(action) => Ok(Ok(action)),
        Err(fault) => Ok(Err(limit_fault(fault)?)),
    }
}

// The item of an operation whose source is refused.
fn refuse(
    alloc: Global,
    kind: AskedKind,
    key: &DocKey,
    fault: ItemFault,
) -> Result<Item, AllocError>
    ensures { IfOk result
        (λ i. i ≡ Item.Refused kind (Some key.now.index) (Some key.now.id) fault) }
{
    Ok(Item::Refused {
        kind,
        index: Some(Text::new(alloc, key.index())?),
        id: Some(Text::new(alloc, key.id())?),
        fault,
    })
}

// Adds an item, and its write if it has one.
fn push(
    operations: &mut Operations,
    item: Item,
    write: Option<(DocKey, Action)>,
) -> Result<(), AllocError>
    ensures items { OnOk result
        (operations.new.items.items ≡ operations.old.items.items ++ item ∷ []) }
    ensures writes { OnOk result (operations.new.writes.items
        ≡ operations.old.writes.items ++ option_to_list write) }
{
    operations.items.push(item)?;
    if let Some(write) = write {
        operations.writes.push(write)?;
    }
    Ok(())
}

// Adds the operation that an action line asks for, with its source if it has one.
fn add_item(
    alloc: Global,
    operations: &mut Operations,
    asked: Item,
    source: Option<&[u8]>,
) -> Result<(), AllocError>
    ensures { OnOk result (IsAdded operations.old operations.new asked (bytes_shown source.entry)) }
{
    let Item::Asked { kind, key, made } = asked else {
        return push(operations, asked, None);
    };
    let Some(source) = source else {
        let write = (key.copy()?, Action::delete());
        return push(operations, Item::Asked { kind, key, made }, Some(write));
    };
    match action_of(alloc, source)? {
        Ok(action) => {
            let write = (key.copy()?, action);
            push(operations, Item::Asked { kind, key, made }, Some(write))
        }
        Err(fault) => push(operations, refuse(alloc, kind, &key, fault)?, None),
    }
}

fn kind_of(item: &Item) -> AskedKind
    ensures { result ≡ kind_of item.now }
{
    match item {
        Item::Asked { kind, .. } => *kind,
        Item::Refused { kind, .. } => *kind,
    }
}

// Takes the blank line or the operation at the front of what is left of a body. Returns the bytes after
// it and how many lines it has. The line of a fault is relative to it.
fn take_part<'b, I: Ids>(
    alloc: Global,
    bytes: &'b [u8],
    default: Option<&str>,
    scratch: &mut Scratch,
    ids: &mut I,
    operations: &mut Operations,
) -> Result<(&'b [u8], u64), Unread>
    requires { bytes.now ≢ [] }
    ensures ok { IfOk result (λ t. TakesPart (bytes_given default.entry) bytes.now t.0.now t.1
        operations.old operations.new) }
    ensures shorter { IfOk result (λ t. length t.0.now < length bytes.now) }
    ensures err { IfErr result (λ e. (e ≡ Unread.Memory)
        ⊎ ((f : BodyFault) × (e ≡ Unread.Body f)
        × BreaksAt (bytes_given default.entry) bytes.now f.line f.kind)) }
{
    let Some((text, rest)) = front_line(bytes) else {
        return Err(fault_at(1, BodyFaultKind::NoFinalNewline));
    };
    if is_blank(text) {
        return Ok((rest, 1));
    }
    let asked = match read_line(alloc, text, default, scratch, ids)? {
        Ok(asked) => asked,
        Err(kind) => return Err(fault_at(1, kind)),
    };
    if !kind_of(&asked).has_source() {
        add_item(alloc, operations, asked, None)?;
        return Ok((rest, 1));
    }
    match take_source(rest) {
        Ok((source, after)) => {
            add_item(alloc, operations, asked, Some(source))?;
            Ok((after, 2))
        }
        Err(fault) => Err(Unread::Body(fault)),
    }
}

// A fault whose line is relative to what follows so many lines.
fn after_lines(count: u64, unread: Unread) -> Unread
    ensures { result ≡ after_lines count unread }
{
    match unread {
        Unread::Body(fault) => fault_at(count.saturating_add(fault.line), fault.kind),
        Unread::Memory => Unread::Memory,
    }
}

/// Reads the operations of the body of a bulk request, of which those that do not name an index get
/// the default. An operation that is refused alone has an item, and the others go on. `Body`: a line
/// from which on lines cannot be told apart, or no operation at all.
pub fn read_operations<I: Ids>(
    alloc: Global,
    body: &[u8],
    default: Option<&str>,
    ids: &mut I,
) -> Result<Operations, Unread>
    ensures ok { IfOk result (λ o. (o.items.items ≢ [])
        × HasRead (bytes_given default.entry) body.now [] o.items.items o.writes.items) }
    ensures err { IfErr result (λ e. (e ≡ Unread.Memory)
        ⊎ ((f : BodyFault) × (e ≡ Unread.Body f) × BreaksBody (bytes_given default.entry) body.now f)) }
{
    let mut operations = Operations {
        items: Vec::new(alloc),
        writes: Vec::new(alloc),
    };
    let mut scratch = Scratch::new(alloc);
    let mut rest = body;
    let mut lines = 0u64;
    'parts: while !rest.is_empty() {
        let part = take_part(alloc, rest, default, &mut scratch, ids, &mut operations);
        let (after, count) = match part {
            Ok(taken) => taken,
            Err(unread) => return Err(after_lines(lines, unread)),
        };
        lines = lines.saturating_add(count);
        rest = after;
    }
    if operations.items.is_empty() {
        return Err(fault_at(lines, BodyFaultKind::Empty));
    }
    Ok(operations)
}

fn fault_at(line: u64, kind: BodyFaultKind) -> Unread
    ensures { result ≡ Unread.Body (record { line = line; kind = kind }) }
{
    Unread::Body(BodyFault { line, kind })
}
