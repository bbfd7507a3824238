//! Producers that wait for a notice with a time limit.
use relay_receipts::{LaneTell, ReceiptTake, receipts};
use std::process::Abort;
use std::sync::Wait;
use std::thread;
use std::time::{Clock, Duration, Instant};

// What the next notice says, if one comes within this time.
fn heard<R: Wait + Clock>(rt: &R, take: &mut ReceiptTake<u64>, limit: Duration) -> Option<u64> {
    match take.take_within(rt, limit) {
        Ok(Some(notice)) => notice.told,
        _ => None,
    }
}

// A channel of one lane.
fn channel(rt: &(impl Abort + AllocGlobal)) -> (ReceiptTake<u64>, LaneTell<u64>) {
    let (take, mut tells) = receipts(rt.alloc(), 4, 1).expect(rt, "memory");
    (take, tells.pop().expect(rt, "a lane"))
}

// Whether something took at least so long, and not much longer.
fn is_in_time(taken: Duration, least: u64) -> bool {
    (Duration::from_millis(least)..Duration::from_secs(20)).contains(&taken)
}

#[test]
fn nothing_comes(rt: HostRuntime) {
    let (mut take, _lane) = channel(&rt);
    let start = Instant::now(&rt).expect(&rt, "the time");
    assert!(rt; heard(&rt, &mut take, Duration::from_millis(300)).is_none());
    assert!(rt; is_in_time(start.elapsed(&rt).expect(&rt, "the time"), 300));
}

#[test]
fn what_is_queued_comes_at_once(rt: HostRuntime) {
    let (mut take, mut lane) = channel(&rt);
    assert!(rt; lane.tell(&rt, 7).is_ok());
    assert!(rt; heard(&rt, &mut take, Duration::ZERO) == Some(7));
    assert!(rt; heard(&rt, &mut take, Duration::ZERO).is_none());
}

// A producer sleeps before the lane tells something, and is woken by it.
#[test]
fn a_sleeper_is_woken(rt: HostRuntime) {
    let (mut take, mut lane) = channel(&rt);
    let start = Instant::now(&rt).expect(&rt, "the time");
    let teller = thread::spawn(&rt, move || {
        thread::sleep(&rt, Duration::from_millis(300));
        lane.tell(&rt, 9).is_ok()
    });
    let teller = teller.expect(&rt, "a thread");
    assert!(rt; heard(&rt, &mut take, Duration::from_secs(60)) == Some(9));
    assert!(rt; is_in_time(start.elapsed(&rt).expect(&rt, "the time"), 300));
    assert!(rt; teller.join(&rt));
}
