//! A queue, with any one of its allocations refused (`make refusals`).
use relay_action::Body;
use relay_queue::{Gone, LanePut, LaneTake, lane_queue};
use std::alloc::{AllocError, Global};
use std::sync::Wait;

fn queue_of(alloc: Global) -> Option<(LaneTake, Vec<LanePut>)> {
    match lane_queue(alloc, 4, 3) {
        Ok(queue) => Some(queue),
        Err(AllocError) => lane_queue(alloc, 4, 3).ok(),
    }
}

// Whether each sender sends its first message.
fn sends<R: Wait>(rt: &R, puts: &mut Vec<LanePut>) -> bool {
    let mut good = puts.len() == 3;
    for put in puts.iter_mut() {
        good = matches!(put.put(rt, Body::Tick), Ok(1)) && good;
    }
    good
}

// Whether the next message is the first of this sender.
fn finds<R: Wait>(rt: &R, take: &mut LaneTake, sender: u32) -> bool {
    match take.take(rt) {
        Ok(mail) => { mail.sender == sender && mail.number == 1 && matches!(mail.body, Body::Tick) }
        Err(Gone) => false,
    }
}

// Whether each of three senders sends a message, and the taker finds them in this order.
fn passes<R: Wait>(rt: &R, alloc: Global) -> Option<bool> {
    let (mut take, mut puts) = queue_of(alloc)?;
    let mut good = sends(rt, &mut puts);
    for sender in 0..3u32 {
        good = finds(rt, &mut take, sender) && good;
    }
    Some(good)
}

#[test]
fn refused_queue(rt: HostRuntime) {
    assert!(rt; passes(&rt, rt.alloc()) == Some(true));
}
