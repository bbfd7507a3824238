//! Lines of configs and of events.
use relay_core::RelayConfig;
use relay_scenario::config_line::read_config;
use relay_scenario::event_line::{LineFault, read_event};
use relay_world::Event;
use std::alloc::Global;

/// The eleven numbers of a config.
fn numbers(config: RelayConfig) -> [u64; 11] {
    [
        config.lanes as u64,
        config.producers as u64,
        config.capacity as u64,
        config.max_held as u64,
        config.limits.count as u64,
        config.limits.bytes,
        config.limits.linger as u64,
        config.attempts as u64,
        config.in_flight as u64,
        config.epoch as u64,
        config.deal,
    ]
}

#[test]
fn configs(rt: HostRuntime) {
    let config = read_config(rt.alloc(), b"world 2 3 4 05 6 1027 8 9 1 10 11");
    assert!(rt;
        config.is_ok_and(|config| numbers(config) == [2, 3, 4, 5, 6, 1027, 8, 9, 1, 10, 11])
    );
    assert!(rt; read_config(rt.alloc(), b"world 2 3 4 5 6 7 8 9 1 10 11") == Err(LineFault::Bad));
}

/// The numbers of an event, preceded by that of its kind; for a put the producer and the lengths of
/// its texts.
fn parts(event: &Event) -> [u64; 4] {
    match event {
        Event::Put(producer, key, _) => {
            [
                1,
                *producer as u64,
                key.index().len() as u64,
                key.id().len() as u64,
            ]
        }
        Event::Close(sender, lane) => [2, *sender as u64, *lane as u64, 0],
        Event::Tick(lane) => [3, *lane as u64, 0, 0],
        Event::Flush(lane) => [4, *lane as u64, 0, 0],
        Event::Take(lane) => [5, *lane as u64, 0, 0],
        Event::Send(lane) => [6, *lane as u64, 0, 0],
        Event::Run(request, item, _) => [7, *request, *item, 0],
        Event::Reply(request, picks) => [8, *request, picks.as_slice().len() as u64, 0],
        Event::Whole(request, status) => [9, *request, *status as u64, 0],
        Event::Lost(request) => [10, *request, 0, 0],
        Event::Restart(epoch) => [11, *epoch as u64, 0, 0],
    }
}

/// Whether a line is an event with these numbers.
fn is_event(alloc: Global, line: &[u8], wanted: [u64; 4]) -> bool {
    match read_event(alloc, line) {
        Ok(event) => parts(&event) == wanted,
        Err(_) => false,
    }
}

const EVENTS: &[(&[u8], [u64; 4])] = &[
    (b"put 7 ab c index {\"a\": 1}", [1, 7, 2, 1]),
    (b"put 0 a bcd delete", [1, 0, 1, 3]),
    (b"close 4294967295 2", [2, 4294967295, 2, 0]),
    (b"tick 3", [3, 3, 0, 0]),
    (b"flush 4", [4, 4, 0, 0]),
    (b"take 005", [5, 5, 0, 0]),
    (b"send 6", [6, 6, 0, 0]),
    (b"run 7 8 429", [7, 7, 8, 0]),
    (b"reply 9 1 2 3", [8, 9, 3, 0]),
    (b"whole 10 503", [9, 10, 503, 0]),
    (
        b"lost 18446744073709551615",
        [10, 18446744073709551615, 0, 0],
    ),
    (b"restart 4294967295", [11, 4294967295, 0, 0]),
];

#[test]
fn events(rt: HostRuntime) {
    for (line, wanted) in EVENTS {
        assert!(rt; is_event(rt.alloc(), *line, *wanted));
    }
}
