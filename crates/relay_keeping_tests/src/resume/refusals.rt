//! Trails and states with any one of the allocations refused (`make refusals`).
use crate::resume::desk::{AFTER, BEFORE, is_state_of, joined, state_of};
use relay_resume::{Mark, Place, State, StateFault, Trail, read_state, write_state};
use std::alloc::{AllocError, Global};
use std::mem;

const PATH: &str = "/a/path/that/has/more/than/38/bytes/operations.ndjson";

const STRING: &[u8] = b"\"/a/path/that/has/more/than/38/bytes/operations.ndjson\"";

// Puts an operation. If that fails, the mark is as it was, and a second call succeeds.
fn puts(trail: &mut Trail, end: Place) -> bool {
    let mark = trail.mark();
    match trail.put(end) {
        Ok(()) => true,
        Err(AllocError) => trail.mark() == mark && trail.put(end).is_ok(),
    }
}

// Settles an operation. If that fails, the mark is as it was, and a second call succeeds.
fn settles(trail: &mut Trail, number: u64) -> bool {
    let mark = trail.mark();
    match trail.settle(number) {
        Ok(()) => true,
        Err(AllocError) => trail.mark() == mark && trail.settle(number).is_ok(),
    }
}

#[test]
fn refused_trails(rt: HostRuntime) {
    let mut trail = Trail::new(
        rt.alloc(),
        Mark {
            offset: 0,
            line: 0,
            count: 0,
        },
    );
    for number in 1..20u64 {
        let end = Place {
            offset: number * 50,
            line: number * 2,
        };
        assert!(rt; puts(&mut trail, end));
    }
    for number in 2..20u64 {
        assert!(rt; settles(&mut trail, number) && trail.mark().count == 0);
    }
    assert!(rt; settles(&mut trail, 1));
    assert!(rt;
        trail.mark()
            == Mark {
                offset: 950,
                line: 38,
                count: 19
            }
    );
}

fn state(alloc: Global) -> Option<State> {
    match state_of(alloc, PATH) {
        None => state_of(alloc, PATH),
        made => made,
    }
}

// Whether a text is that of the state.
fn is_text(text: &[u8]) -> bool {
    match text.strip_prefix(BEFORE) {
        Some(rest) => rest.strip_suffix(AFTER) == Some(STRING),
        None => false,
    }
}

fn write_once(alloc: Global, state: &State) -> Result<bool, AllocError> {
    match write_state(alloc, state) {
        Ok(text) => Ok(is_text(&text)),
        Err(AllocError) => Err(AllocError),
    }
}

// Whether the state is written, by a second call if the first was refused.
fn writes(alloc: Global, state: &State) -> bool {
    match write_once(alloc, state) {
        Err(AllocError) => write_once(alloc, state) == Ok(true),
        written => written == Ok(true),
    }
}

fn read_once(alloc: Global, text: &[u8]) -> Result<bool, StateFault> {
    match read_state(alloc, text) {
        Ok(state) => Ok(is_state_of(&state, PATH)),
        Err(fault) => Err(fault),
    }
}

// Whether the state is read, by a second call if the first was refused.
fn reads(alloc: Global, text: &[u8]) -> bool {
    match read_once(alloc, text) {
        Err(StateFault::Memory) => read_once(alloc, text) == Ok(true),
        read => read == Ok(true),
    }
}

const PARTS: &[&[u8]] = &[BEFORE, STRING, AFTER];

fn text(alloc: Global) -> Option<Vec<u8>> {
    match joined(alloc, PARTS) {
        None => joined(alloc, PARTS),
        made => made,
    }
}

#[test]
fn refused_states(rt: HostRuntime) {
    let state = state(rt.alloc()).expect(&rt, "a state");
    assert!(rt; writes(rt.alloc(), &state));
    let text = text(rt.alloc()).expect(&rt, "a text");
    assert!(rt; reads(rt.alloc(), &text));
    mem::forget((state, text));
}
