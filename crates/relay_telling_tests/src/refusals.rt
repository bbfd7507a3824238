//! The channels of receipts, and a lane that tells of a report, with any one of their allocations
//! refused (`make refusals`): the call reports the refusal and the next one succeeds.
use relay_action::OpName;
use relay_fixtures::keys;
use relay_lane::{Cause, Report};
use relay_receipts::{ReceiptTake, receipts};
use relay_telling::{Ending, LaneTells, telling};
use relay_threads::Tell;
use std::alloc::Global;
use std::sync::Wait;

// Whether the channels of two producers and two lanes are made, by a second call if the first was
// refused.
fn are_made(alloc: Global) -> bool {
    match telling(alloc, 2, 2, 4).or_else(|_| telling(alloc, 2, 2, 4)) {
        Ok((tells, takes)) => tells.len() == 2 && takes.len() == 2,
        Err(_) => false,
    }
}

#[test]
fn refused_channels(rt: HostRuntime) {
    assert!(rt; are_made(rt.alloc()));
}

// Whether one channel of two lanes is made, in the same way.
fn is_made(alloc: Global) -> bool {
    match receipts::<Ending>(alloc, 4, 2).or_else(|_| receipts::<Ending>(alloc, 4, 2)) {
        Ok((_, tells)) => tells.len() == 2,
        Err(_) => false,
    }
}

#[test]
fn refused_channel(rt: HostRuntime) {
    assert!(rt; is_made(rt.alloc()));
}

// A report of the first operation of producer 0, on a document with a long id.
fn report_of(alloc: Global) -> Option<Report> {
    Some(Report {
        name: OpName {
            epoch: 1,
            producer: 0,
            number: 1,
        },
        key: keys::key_of(alloc, "books", "an id of which a copy has to be allocated")?,
        cause: Cause::Request {
            status: 401,
            reason: None,
        },
    })
}

// Whether a notice of an ending is queued.
fn is_queued<R: Wait>(rt: &R, take: &mut ReceiptTake<Ending>) -> bool {
    match take.try_take(rt) {
        Ok(notice) => notice.is_some(),
        Err(_) => false,
    }
}

fn is_empty<R: Wait>(rt: &R, take: &mut ReceiptTake<Ending>) -> bool {
    match take.try_take(rt) {
        Ok(notice) => notice.is_none(),
        Err(_) => false,
    }
}

// Whether a lane tells of a report, by a second call if the first was refused, and only once.
fn is_told_once<R: Wait>(
    rt: &R,
    lane: &mut LaneTells,
    take: &mut ReceiptTake<Ending>,
    report: &Report,
) -> bool {
    if lane.reported(rt, report).is_err() && lane.reported(rt, report).is_err() {
        return false;
    }
    is_queued(rt, take) && is_empty(rt, take)
}

// The same of the only lane and the only producer.
fn is_told_by_one<R: Wait>(
    rt: &R,
    tells: &mut [LaneTells],
    takes: &mut [ReceiptTake<Ending>],
    report: &Report,
) -> bool {
    match (tells.first_mut(), takes.first_mut()) {
        (Some(lane), Some(take)) => is_told_once(rt, lane, take, report),
        _ => false,
    }
}

fn tells_report<R: Wait>(rt: &R, alloc: Global) -> Option<bool> {
    let report = report_of(alloc)?;
    match telling(alloc, 1, 1, 1).or_else(|_| telling(alloc, 1, 1, 1)) {
        Ok((mut tells, mut takes)) => Some(is_told_by_one(rt, &mut tells, &mut takes, &report)),
        Err(_) => None,
    }
}

#[test]
fn refused_report(rt: HostRuntime) {
    assert!(rt; tells_report(&rt, rt.alloc()) == Some(true));
}
