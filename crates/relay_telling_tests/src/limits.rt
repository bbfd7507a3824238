//! Producers whose windows are full.
ghost use Rattle.std.specs.Prelude.{◌≡◌, ◌<◌, ◌≤◌};
ghost use Rattle.relay_producer.specs.Ends.{identities, open_puts};
ghost use Rattle.relay_telling_tests.specs.Handles.{open_names};

use crate::relays::{finish, key_of, start};
use relay_action::Action;
use relay_fixtures::config::CONFIG;
use relay_fixtures::index_wire::Way;
use relay_receipts::{ReceiptTake, WINDOW_LIMIT, WindowFault, WindowFaultKind, WindowedProducer};
use relay_telling::Ending;
use std::process::Abort;
use std::sync::Wait;
use std::thread::Threads;

// Puts as many operations as the window has, and takes nothing. Each is open then.
fn fill<R: Wait + Abort + AllocGlobal>(rt: &R, producer: &mut WindowedProducer<Ending>, window: u32)
    ensures { identities (open_puts producer.new.producer.ends)
        ≡ identities (open_puts producer.old.producer.ends) }
{
    for open in 0..window {
        assert!(rt; producer.pending() == open);
        let key = key_of(rt, 0, u64::from(open));
        producer.put(rt, key, Action::delete()).expect(rt, "a put");
    }
    assert!(rt; producer.pending() == window);
}

// The window is full for an operation, which is put once a receipt was taken.
fn is_full<R: Wait + Abort + AllocGlobal>(
    rt: &R,
    producer: &mut WindowedProducer<Ending>,
    window: u32,
)
    ensures { identities (open_puts producer.new.producer.ends)
        ≡ identities (open_puts producer.old.producer.ends) }
{
    let key = key_of(rt, 0, u64::from(window));
    let fault = producer
        .put(rt, key, Action::delete())
        .expect_err(rt, "a full window");
    let WindowFault { kind, key, action } = fault;
    assert!(rt; kind == WindowFaultKind::WindowFull);
    assert!(rt; producer.take(rt).expect(rt, "a receipt").told.is_some());
    assert!(rt; u64::from(producer.pending()) + 1 == u64::from(window));
    let receipt = producer.put(rt, key, action).expect(rt, "a put");
    assert!(rt; receipt.name.number == u64::from(window) + 1);
}

// The window of the only producer holds this many operations, twice over.
fn holds<R: Wait + Abort + AllocGlobal>(
    rt: &R,
    producers: &mut Vec<WindowedProducer<Ending>>,
    window: u32,
)
    ensures { open_names producers.new.items ≡ open_names producers.old.items }
{
    assert!(rt; producers.len() == 1);
    fill(rt, &mut producers[0], window);
    is_full(rt, &mut producers[0], window);
}

// Whether the next notice says how an operation ended. `None`: nobody tells more.
fn next_ends<R: Wait>(rt: &R, take: &mut ReceiptTake<Ending>) -> Option<bool> {
    match take.take(rt) {
        Ok(notice) => Some(notice.told.is_some()),
        Err(_) => None,
    }
}

// How many operations the only producer is told of, until it is told that nobody tells more.
fn count_rest<R: Wait + Abort>(rt: &R, take: &mut ReceiptTake<Ending>) -> u32 {
    let mut told = 0u32;
    for _ in 0..WINDOW_LIMIT + 2 {
        match next_ends(rt, take) {
            Some(ends) => told = told.saturating_add(u32::from(ends)),
            None => return told,
        }
    }
    panic!(rt; "it is told more")
}

// A relay of one lane from start to finish, to which a producer puts one operation more than its
// window has. The window is full when it should be. How many endings the lane left on the channel when
// it had ended.
fn run<R>(rt: R, window: u32) -> u32
where
    R: Threads + Wait + Abort + AllocGlobal + Copy + Send + 'static,
    requires { (0 < window) × (window ≤ 65536) }
{
    let started = start(rt, rt.alloc(), CONFIG, &[Way::Runs], window);
    let (relay, mut producers, control) = started.expect(&rt, "a relay");
    holds(&rt, &mut producers, window);
    let finished = finish(&rt, rt.alloc(), relay, producers, control);
    let (_, mut takes) = finished.expect(&rt, "an end");
    count_rest(&rt, takes.get_mut(0).expect(&rt, "a producer"))
}

#[test]
fn windows_are_full(rt: HostRuntime) {
    for window in [1, 3, WINDOW_LIMIT] {
        assert!(rt; run(rt, window) == window);
    }
}
