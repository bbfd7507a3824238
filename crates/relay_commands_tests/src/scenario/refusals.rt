//! Scripts, with any one of their allocations refused (`make refusals`): what was written is a
//! prefix of what is written without the refusal.
use crate::scenario::scripts::{ITS_ANSWERS, THREE_THEN_ONE};
use relay_action::MemStream;
use relay_core::RelayConfig;
use relay_index::Index;
use relay_scenario::config_line::read_config;
use relay_scenario::event_line::{LineFault, read_event};
use relay_scenario::script::{ScriptFault, world_script};
use relay_world::Event;
use std::alloc::Global;

fn config_of(alloc: Global, line: &[u8]) -> Option<RelayConfig> {
    match read_config(alloc, line) {
        Err(LineFault::Memory) => read_config(alloc, line).ok(),
        read => read.ok(),
    }
}

#[test]
fn refused_configs(rt: HostRuntime) {
    let config = config_of(rt.alloc(), b"world 2 3 4 5 6 1027 8 9 1 10 11");
    let found = config.map(|config| (config.lanes, config.epoch, config.deal));
    assert!(rt; found == Some((2, 10, 11)));
}

fn event_of(alloc: Global, line: &[u8]) -> Option<Event> {
    match read_event(alloc, line) {
        Err(LineFault::Memory) => read_event(alloc, line).ok(),
        read => read.ok(),
    }
}

// A number that differs for the events of the lines below.
fn number_of(event: &Event) -> usize {
    match event {
        Event::Put(_, key, _) => key.id().len(),
        Event::Reply(_, picks) => picks.as_slice().len(),
        Event::Run(_, item, _) => *item as usize,
        _ => 0,
    }
}

const LINES: [(&[u8], usize); 4] = [
    (
        b"put 1 b a_document_of_more_than_thirty-eight_bytes index {\"a\":\"a source of more than thirty-eight bytes\"}",
        42,
    ),
    (b"reply 1 1 2 3 4 5 6 7 8 9", 9),
    (b"run 1 2 429", 2),
    (b"restart 7", 0),
];

#[test]
fn refused_events(rt: HostRuntime) {
    for (line, number) in LINES {
        assert!(rt; event_of(rt.alloc(), line).is_some_and(|event| number_of(&event) == number));
    }
}

fn stream_once(alloc: Global, input: &[u8]) -> Option<MemStream> {
    MemStream::new(alloc, input.to_vec(alloc).ok()?, 1_000, 100, 0).ok()
}

fn stream_of(alloc: Global, input: &[u8]) -> Option<MemStream> {
    stream_once(alloc, input).or_else(|| stream_once(alloc, input))
}

// The result of a worked script, and what was written.
fn play(alloc: Global) -> Option<(Result<(), ScriptFault>, MemStream)> {
    let mut reader = stream_of(alloc, THREE_THEN_ONE)?;
    let mut writer = stream_of(alloc, b"")?;
    let found = world_script(alloc, &mut reader, &mut writer, Index::new(alloc));
    Some((found, writer))
}

// Whether it is played, by a second run if the first was refused after it had written a prefix of
// the answers.
fn plays(alloc: Global) -> Option<bool> {
    let (found, writer) = play(alloc)?;
    if found.is_ok() {
        return Some(writer.written() == ITS_ANSWERS);
    }
    let front = ITS_ANSWERS.starts_with(writer.written());
    let (again, writer) = play(alloc)?;
    let whole = again.is_ok() && writer.written() == ITS_ANSWERS;
    Some(found == Err(ScriptFault::Memory) && front && whole)
}

#[test]
fn refused_script(rt: HostRuntime) {
    assert!(rt; plays(rt.alloc()) == Some(true));
}
