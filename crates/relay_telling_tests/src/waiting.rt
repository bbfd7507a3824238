//! Producers that wait for the receipt of each operation before they put the next one.
ghost use Rattle.std.specs.Prelude.{◌≡◌};
ghost use Rattle.relay_producer.specs.Ends.{identities, open_puts};
ghost use Rattle.relay_telling_tests.specs.Handles.{open_names};

use crate::relays::{count_taken, finish, key_of, start};
use relay_action::Action;
use relay_fixtures::config::CONFIG;
use relay_fixtures::index_wire::Way;
use relay_receipts::WindowedProducer;
use relay_telling::Ending;
use std::process::Abort;
use std::sync::Wait;
use std::thread::Threads;

// Puts an operation, and waits for its receipt, which says that it was applied.
fn put_and_wait<R: Wait + Abort + AllocGlobal>(
    rt: &R,
    producer: &mut WindowedProducer<Ending>,
    number: u32,
    document: u64,
)
    ensures { identities (open_puts producer.new.producer.ends)
        ≡ identities (open_puts producer.old.producer.ends) }
{
    let key = key_of(rt, number, document);
    let receipt = producer.put(rt, key, Action::delete()).expect(rt, "a put");
    let notice = producer.take(rt).expect(rt, "a receipt");
    let ending = notice.told.expect(rt, "an ending");
    assert!(rt; matches!(ending, Ending::Applied(_)) && ending.name() == receipt.name);
}

// Each of five operations is applied while the next one waits.
fn wait_all<R: Wait + Abort + AllocGlobal>(rt: &R, producers: &mut Vec<WindowedProducer<Ending>>)
    ensures { open_names producers.new.items ≡ open_names producers.old.items }
{
    for number in 0..5u64 {
        for p in 0..producers.len() {
            let own = u32::try_from(p).expect(rt, "a number");
            put_and_wait(rt, &mut producers[p], own, number);
        }
    }
}

// The same from the start of a relay with one lane and one producer to its finish. How many
// operations the lane took.
fn run<R>(rt: R) -> u64
where
    R: Threads + Wait + Abort + AllocGlobal + Copy + Send + 'static,
{
    let started = start(rt, rt.alloc(), CONFIG, &[Way::Runs], 1);
    let (relay, mut producers, control) = started.expect(&rt, "a relay");
    wait_all(&rt, &mut producers);
    let finished = finish(&rt, rt.alloc(), relay, producers, control);
    count_taken(&finished.expect(&rt, "an end").0)
}

#[test]
fn each_receipt_is_waited_for(rt: HostRuntime) {
    assert!(rt; run(rt) == 5);
}
