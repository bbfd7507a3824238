//! Counts and the lines that show them, with any one of their allocations refused (`make
//! refusals`).
use crate::progress::lines::{SOME, SOME_LINE};
use crate::progress::wires::asks_counted;
use relay_fixtures::asking::Told;
use relay_fixtures::index_wire::Way;
use relay_progress::{Counts, Shared, Trouble, progress_text, trouble_text, written_text};
use std::alloc::{AllocError, Global};
use std::sync::Arc;

fn text_of(alloc: Global) -> Option<Vec<u8>> {
    match progress_text(alloc, &SOME) {
        Ok(text) => Some(text),
        Err(AllocError) => progress_text(alloc, &SOME).ok(),
    }
}

fn line_of(alloc: Global) -> Option<Vec<u8>> {
    match written_text(alloc, &SOME, false) {
        Ok(text) => Some(text),
        Err(AllocError) => written_text(alloc, &SOME, false).ok(),
    }
}

fn is_said(alloc: Global) -> Option<bool> {
    let text = text_of(alloc)?;
    let line = line_of(alloc)?;
    Some(line.as_slice() == SOME_LINE && SOME_LINE.strip_suffix(b"\n") == Some(text.as_slice()))
}

#[test]
fn refused_lines(rt: HostRuntime) {
    assert!(rt; is_said(rt.alloc()) == Some(true));
}

const ADDRESS: &str = "an.address.of.more.than.thirty-eight.bytes:9200";

fn trouble_of(alloc: Global) -> Option<Vec<u8>> {
    match trouble_text(alloc, ADDRESS, Trouble::Refused, false) {
        Ok(text) => Some(text),
        Err(AllocError) => trouble_text(alloc, ADDRESS, Trouble::Refused, false).ok(),
    }
}

#[test]
fn refused_trouble(rt: HostRuntime) {
    let wanted =
        b"an.address.of.more.than.thirty-eight.bytes:9200: connection refused, trying again\n";
    assert!(rt; trouble_of(rt.alloc()).is_some_and(|text| text.as_slice() == wanted.as_slice()));
}

fn counts_of(alloc: Global) -> Option<Shared> {
    match Counts::shared(alloc) {
        Ok(counts) => Some(counts),
        Err(AllocError) => Counts::shared(alloc).ok(),
    }
}

#[test]
fn refused_counts(rt: HostRuntime) {
    assert!(rt; counts_of(rt.alloc()).is_some_and(|counts| counts.requests() == 0));
}

// Sends a request over a counted wire, and returns whether it is answered, if this many requests
// are counted as sent and ended by then, and one answer if so.
fn asks(alloc: Global, counts: &Shared, sent: u64) -> Option<bool> {
    let shared = Arc::try_clone(counts).ok()?;
    let told = asks_counted(alloc, Way::Answers(404), Some(shared));
    let answered = told == Told::Entries(1, 404);
    let asked = counts.requests() == sent && counts.operations() == sent && counts.ended() == sent;
    let answers = if answered { 1 } else { 0 };
    (asked && counts.answers() == answers).then_some(answered)
}

// Whether a request over a counted wire is answered; if an allocation of the wire was refused for
// the first one, the second.
fn is_counted(alloc: Global) -> Option<bool> {
    let counts = counts_of(alloc)?;
    Some(asks(alloc, &counts, 1)? || asks(alloc, &counts, 2)?)
}

#[test]
fn refused_counted_wire(rt: HostRuntime) {
    assert!(rt; is_counted(rt.alloc()) == Some(true));
}
