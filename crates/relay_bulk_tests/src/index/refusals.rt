//! Calls of the index, with any one of their allocations refused (`make refusals`): the refusal
//! says what was run, and the call succeeds when it is repeated.
use crate::writes::write_again;
use relay_action::{DocKey, Write};
use relay_index::{Choice, Index, Script};
use relay_results::ItemDone;
use std::alloc::{AllocError, Global};
use std::mem;
use std::process::Abort;

/// Ids and sources that are too long to be stored in the value itself.
const IDS: [&str; 3] = [
    "the first document of more than thirty-eight bytes",
    "the second document of more than thirty-eight bytes",
    "the third document of more than thirty-eight bytes",
];

// Whether a write was applied, or would be. `None`: the call was refused.
fn is_applied(done: Result<ItemDone, AllocError>) -> Option<bool> {
    match done {
        Ok(done) => Some(done.status < 300),
        Err(AllocError) => None,
    }
}

// Whether a write is said to be applied, by a second call if the first was refused.
fn foretells(index: &Index, write: &Write) -> bool {
    match is_applied(index.preview(write, Choice::Run)) {
        None => is_applied(index.preview(write, Choice::Run)) == Some(true),
        told => told == Some(true),
    }
}

// Whether a write is applied, by a second call if the first was refused and left the index as it was.
fn runs_one(index: &mut Index, write: &Write) -> bool {
    let (highest, count) = (index.highest(), index.applied(&write.key).len());
    match is_applied(index.run(write, Choice::Run)) {
        None => {
            index.highest() == highest
                && index.applied(&write.key).len() == count
                && is_applied(index.run(write, Choice::Run)) == Some(true)
        }
        told => told == Some(true),
    }
}

fn applies(rt: &impl Abort, alloc: Global, index: &mut Index, id: &str, version: u64) -> bool {
    let write = write_again(rt, alloc, id, version, Some(id));
    let good = foretells(index, &write) & runs_one(index, &write);
    mem::forget(write);
    good
}

// Writes each document twice, each time with a higher version.
fn fills(rt: &impl Abort, alloc: Global, index: &mut Index) -> bool {
    let mut good = true;
    for version in 0..6usize {
        good &= applies(rt, alloc, index, IDS[version % 3], version as u64 + 1);
    }
    good
}

// Whether a document has two writes, the last of them with one of the last three versions.
fn is_twice(index: &Index, key: &DocKey) -> bool {
    index.applied(key).len() == 2
        && index.version(key).unwrap_or(0) > 3
        && index.source(key) == Some(key.id())
}

// Whether each document is so.
fn is_filled(index: &Index, keys: &[DocKey]) -> bool {
    for key in keys {
        if !is_twice(index, key) {
            return false;
        }
    }
    keys.len() == 3
}

fn keys_once(alloc: Global, index: &Index) -> Result<bool, AllocError> {
    match index.keys(alloc) {
        Ok(keys) => Ok(is_filled(index, &keys)),
        Err(AllocError) => Err(AllocError),
    }
}

// The same, with the documents by a second call if the first was refused.
fn has_keys(alloc: Global, index: &Index) -> bool {
    match keys_once(alloc, index) {
        Err(AllocError) => keys_once(alloc, index) == Ok(true),
        told => told == Ok(true),
    }
}

#[test]
fn refused_runs(rt: HostRuntime) {
    let mut index = Index::new(rt.alloc());
    assert!(rt; fills(&rt, rt.alloc(), &mut index) && has_keys(rt.alloc(), &index));
    mem::forget(index);
}

// Adds the refusal of an item to the script, by a second call if the first was refused.
fn notes(script: &mut Script, place: u64) -> bool {
    match script.refuse(place, 429) {
        Ok(()) => true,
        Err(AllocError) => script.refuse(place, 429).is_ok(),
    }
}

const BODY: &str =
    "{\"index\":{\"_index\":\"books\",\"_id\":\"the first document of more than thirty-eight bytes\",\"version\":1,\"version_type\":\"external\"}}\n{\"a\":\"a source of more than thirty-eight bytes\"}\n{\"index\":{\"_id\":\"the second document of more than thirty-eight bytes\",\"_index\":\"books\",\"version\":2,\"version_type\":\"external\"}}\n{\"a\":\"a source of more than thirty-eight bytes\"}\n{\"delete\":{\"_id\":\"the third document of more than thirty-eight \\\"bytes\\\"\",\"_index\":\"books\",\"version\":3,\"version_type\":\"external\"}}\n";

fn count_of(index: &Index, keys: &[DocKey]) -> u64 {
    let mut count = 0u64;
    for key in keys {
        count = count.saturating_add(index.applied(key).len() as u64);
    }
    count
}

// How many writes an index applied.
fn count(alloc: Global, index: &Index) -> Option<u64> {
    match index.keys(alloc) {
        Ok(keys) => Some(count_of(index, &keys)),
        Err(AllocError) => None,
    }
}

// The same, by a second call if the first was refused.
fn count_again(alloc: Global, index: &Index) -> Option<u64> {
    match count(alloc, index) {
        None => count(alloc, index),
        found => found,
    }
}

// The status with which a body is served, by a second call if an allocation failed and the fault said
// how many items were run.
fn status_of(alloc: Global, index: &mut Index, script: &mut Script, body: &str) -> Option<u16> {
    match index.serve_body(alloc, body.as_bytes(), script) {
        Ok(answer) => Some(answer.0),
        Err(fault) if count(alloc, index) == Some(fault.ran) => {
            let answer = index.serve_body(alloc, body.as_bytes(), script).ok()?;
            Some(answer.0)
        }
        Err(_) => None,
    }
}

// Whether a body is served with this status, and the index then has this many writes: a second call
// applies none of them again.
fn serves(alloc: Global, body: &str, status: u16, applied: u64) -> bool {
    let mut index = Index::new(alloc);
    let mut script = Script::new(alloc);
    let told = status_of(alloc, &mut index, &mut script, body);
    let good = told == Some(status) && count_again(alloc, &index) == Some(applied);
    mem::forget((index, script));
    good
}

#[test]
fn refused_bodies(rt: HostRuntime) {
    for (body, status, applied) in [(BODY, 200, 3), ("{\"index\":7}\n", 400, 0)] {
        assert!(rt; serves(rt.alloc(), body, status, applied));
    }
}

// Adds the refusals of all items but the first.
fn notes_others(script: &mut Script) -> bool {
    let mut good = true;
    for place in 2..40u64 {
        good = notes(script, place) && good;
    }
    good
}

// How many items of the body are run, which are all three unless an allocation failed.
fn ran_of(alloc: Global, index: &mut Index, script: &mut Script) -> u64 {
    match index.serve_body(alloc, BODY.as_bytes(), script) {
        Ok(_) => 3,
        Err(fault) => fault.ran,
    }
}

// Whether the items that a script refuses are not applied, and the others are.
fn serves_others(alloc: Global) -> bool {
    let mut index = Index::new(alloc);
    let mut script = Script::new(alloc);
    let good = notes_others(&mut script);
    let ran = ran_of(alloc, &mut index, &mut script);
    let counted = count_again(alloc, &index) == Some(ran.min(1));
    mem::forget((index, script));
    good && counted
}

#[test]
fn refused_scripts(rt: HostRuntime) {
    assert!(rt; serves_others(rt.alloc()));
}
