//! Handles of senders, with any one of their allocations refused (`make refusals`): the ends are
//! dropped with the handle that was refused, and another one is made over other lanes.
use crate::producer::lanes::{Lanes, Said, document, make, takes};
use relay_action::Action;
use relay_producer::{Control, Producer};
use relay_queue::LaneTake;
use std::alloc::{AllocError, Global};
use std::sync::Wait;

/// The result of making a handle: `None` if its lanes were not made.
type Made<T> = Option<Result<(Vec<LaneTake>, T), bool>>;

// Whether each taker finds all ends of its senders dropped.
fn are_gone<R: Wait>(rt: &R, lanes: &mut Vec<LaneTake>) -> bool {
    let mut gone = lanes.len() == 2;
    for take in lanes.iter_mut() {
        gone = take.take(rt).is_err() && gone;
    }
    gone
}

// A producer of two lanes, and their takers. `Err`: it was refused, with whether the ends are
// dropped.
fn make_producer<R: Wait>(rt: &R, alloc: Global) -> Made<Producer> {
    let Lanes {
        mut takes,
        first,
        ..
    } = make(alloc, 2, 16).ok()?;
    Some(match Producer::new(alloc, 7, 0, first) {
        Ok(producer) => Ok((takes, producer)),
        Err(AllocError) => Err(are_gone(rt, &mut takes)),
    })
}

// Whether a producer puts an operation to the lane of its document.
fn puts<R: Wait>(rt: &R, alloc: Global, producer: &mut Producer, lanes: &mut [LaneTake]) -> bool {
    let (Some(key), Some(take)) = (document(alloc, "0"), lanes.first_mut()) else {
        return false;
    };
    match producer.put(rt, key, Action::delete()) {
        Ok(receipt) => {
            receipt.lane == 0 && receipt.name.epoch == 7 && takes(rt, take, 0, 1, Said::Put(1))
        }
        Err(_) => false,
    }
}

// Whether a producer, if it is made, puts. `Err`: as for one that is refused.
fn produces<R: Wait>(rt: &R, alloc: Global) -> Option<Result<bool, bool>> {
    match make_producer(rt, alloc)? {
        Ok((mut lanes, mut producer)) => Some(Ok(puts(rt, alloc, &mut producer, &mut lanes))),
        Err(gone) => Some(Err(gone)),
    }
}

#[test]
fn refused_producer(rt: HostRuntime) {
    let first = produces(&rt, rt.alloc());
    assert!(rt; matches!(first, None | Some(Ok(true)) | Some(Err(true))));
    assert!(rt; first == Some(Ok(true)) || produces(&rt, rt.alloc()) == Some(Ok(true)));
}

// The control of two lanes, and their takers. `Err`: it was refused, with whether the ends are
// dropped.
fn make_control<R: Wait>(rt: &R, alloc: Global) -> Made<Control> {
    let Lanes {
        mut takes,
        control,
        ..
    } = make(alloc, 2, 16).ok()?;
    Some(match Control::new(alloc, 2, control) {
        Ok(control) => Ok((takes, control)),
        Err(AllocError) => Err(are_gone(rt, &mut takes)),
    })
}

// Whether the control sends a tick to each lane.
fn ticks<R: Wait>(rt: &R, control: &mut Control, lanes: &mut [LaneTake]) -> bool {
    let mut good = control.tick(rt) == 2;
    for take in lanes.iter_mut() {
        good = takes(rt, take, 2, 1, Said::Tick) && good;
    }
    good
}

// Whether a control, if it is made, ticks. `Err`: as for one that is refused.
fn controls<R: Wait>(rt: &R, alloc: Global) -> Option<Result<bool, bool>> {
    match make_control(rt, alloc)? {
        Ok((mut lanes, mut control)) => Some(Ok(ticks(rt, &mut control, &mut lanes))),
        Err(gone) => Some(Err(gone)),
    }
}

#[test]
fn refused_control(rt: HostRuntime) {
    let first = controls(&rt, rt.alloc());
    assert!(rt; matches!(first, None | Some(Ok(true)) | Some(Err(true))));
    assert!(rt; first == Some(Ok(true)) || controls(&rt, rt.alloc()) == Some(Ok(true)));
}
