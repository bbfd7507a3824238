//! The operations of a request that are set aside: those that are reported, as lines of a bulk request, so that they can be
//! submitted again as they are.
ghost use Rattle.std.specs.Prelude.{◌≡◌, ◌++◌, IfOk, OnOk, option_map};
ghost use Rattle.relay_front.specs.Asides.{aside_text, have_reports, is_reported, operation_lines};
ghost use Rattle.relay_front.specs.Asides.{set_aside, source_of, writes_after};
ghost use Rattle.relay_front.specs.Texts.{ends_after};

use crate::ending::End;
use crate::items::{add_document, ends_after};
use crate::operation::Item;
use crate::text::add;
use relay_action::{Action, DocKey};
use std::alloc::{AllocError, Global};

fn is_reported(end: &End) -> bool
    ensures { result ≡ is_reported end.now }
{
    matches!(end, End::Reported(_))
}

/// Whether one of these ends is a report.
pub fn have_reports(ends: &[End]) -> bool
    ensures { result ≡ have_reports ends.now }
{
    'ends: for end in ends {
        if is_reported(end) {
            return true;
        }
    }
    false
}

// Adds an operation as lines of a bulk request: one that stores this source, or a delete.
fn add_operation(
    alloc: Global,
    text: &mut Vec<u8>,
    key: &DocKey,
    source: Option<&[u8]>,
) -> Result<(), AllocError>
    ensures { OnOk result (text.new.items
        ≡ text.old.items ++ operation_lines key.now (option_map (λ s. s.now) source.entry)) }
{
    match source {
        Some(source) => {
            add(text, "{\"index\":{")?;
            add_document(alloc, text, key)?;
            add(text, "}}\n")?;
            text.extend_from_slice(source)?;
            add(text, "\n")
        }
        None => {
            add(text, "{\"delete\":{")?;
            add_document(alloc, text, key)?;
            add(text, "}}\n")
        }
    }
}

/// An operation as lines of a bulk request: one that stores this source, or a delete. `AllocError`:
/// allocation failed.
pub fn operation_text(
    alloc: Global,
    key: &DocKey,
    source: Option<&[u8]>,
) -> Result<Vec<u8>, AllocError>
    ensures { IfOk result (λ text. text.items
        ≡ operation_lines key.now (option_map (λ s. s.now) source.entry)) }
{
    let mut text = Vec::new(alloc);
    add_operation(alloc, &mut text, key, source)?;
    Ok(text)
}

// What an action stores, if it stores something.
fn source_of(action: &Action) -> Option<&[u8]>
    ensures { option_map (λ s. s.now) result ≡ source_of action.now }
{
    match action {
        Action::Index(source) => Some(source.text().as_bytes()),
        Action::Delete => None,
    }
}

// Adds an operation if it is reported.
fn add_aside(
    alloc: Global,
    text: &mut Vec<u8>,
    item: &Item,
    writes: &[(DocKey, Action)],
    ends: &[End],
) -> Result<(), AllocError>
    ensures { OnOk result
        (text.new.items ≡ text.old.items ++ aside_text item.now writes.now ends.now) }
{
    let Item::Asked { key, .. } = item else {
        return Ok(());
    };
    let Some(write) = writes.first() else {
        return Ok(());
    };
    match ends.first() {
        Some(End::Reported(_)) => add_operation(alloc, text, key, source_of(&write.1)),
        _ => Ok(()),
    }
}

// The writes of the operations after this one.
fn writes_after<'a>(item: &Item, writes: &'a [(DocKey, Action)]) -> &'a [(DocKey, Action)]
    ensures { result.now ≡ writes_after item.now writes.now }
{
    match item {
        Item::Asked { .. } => match writes {
            [_, rest @ ..] => rest,
            [] => writes,
        },
        Item::Refused { .. } => writes,
    }
}

/// The operations with these items that are reported, in their order, given the writes of those that
/// were put and how these ended. `AllocError`: allocation failed.
pub fn aside_text(
    alloc: Global,
    items: &[Item],
    writes: &[(DocKey, Action)],
    ends: &[End],
) -> Result<Vec<u8>, AllocError>
    ensures { IfOk result (λ text. text.items ≡ set_aside items.now writes.now ends.now) }
{
    let mut text = Vec::new(alloc);
    let mut puts = writes;
    let mut rest = ends;
    'items: for item in items {
        add_aside(alloc, &mut text, item, puts, rest)?;
        puts = writes_after(item, puts);
        rest = ends_after(item, rest);
    }
    Ok(text)
}
