//! What two lanes tell two producers.
use relay_action::{DocKey, OpName};
use relay_lane::{Cause, Report, Success};
use relay_receipts::{Notice, ReceiptTake};
use relay_telling::{Ending, LaneTells, telling};
use relay_threads::Tell;
use std::process::Abort;
use std::sync::Wait;

fn name_of(producer: u32, number: u64) -> OpName {
    OpName {
        epoch: 1,
        producer,
        number,
    }
}

fn success_of(producer: u32, number: u64) -> Success {
    Success {
        name: name_of(producer, number),
        version: 7,
        status: Some(201),
    }
}

fn report_of(rt: &(impl Abort + AllocGlobal), producer: u32, number: u64) -> Report {
    Report {
        name: name_of(producer, number),
        key: DocKey::new(rt.alloc(), "books", "emma").expect(rt, "a key"),
        cause: Cause::Request {
            status: 401,
            reason: None,
        },
    }
}

// A notice as its lane and the number of its operation, which is 0 if the lane tells no more, and
// 100 more if the operation is reported.
fn seen(notice: &Notice<Ending>) -> (u32, u64) {
    match &notice.told {
        Some(Ending::Applied(success)) => (notice.lane, success.name.number),
        Some(Ending::Reported(report)) => (notice.lane, report.name.number.saturating_add(100)),
        None => (notice.lane, 0),
    }
}

// The next notice, if one is queued.
fn next_seen<R: Wait>(rt: &R, take: &mut ReceiptTake<Ending>) -> Option<(u32, u64)> {
    match take.try_take(rt) {
        Ok(Some(notice)) => Some(seen(&notice)),
        _ => None,
    }
}

// Whether nothing is queued, although lanes may still tell more.
fn is_silent<R: Wait>(rt: &R, take: &mut ReceiptTake<Ending>) -> bool {
    match take.try_take(rt) {
        Ok(notice) => notice.is_none(),
        Err(_) => false,
    }
}

// Whether these notices come next, and then none.
fn hears<R: Wait>(rt: &R, take: &mut ReceiptTake<Ending>, wanted: &[(u32, u64)]) -> bool {
    for row in wanted {
        if next_seen(rt, take) != Some(*row) {
            return false;
        }
    }
    is_silent(rt, take)
}

// Tells of the operation 1 of producer 0 and 2 of producer 1 as applied, of 3 of producer 1 as
// reported, and of one of a producer that has no channel.
fn tell_some<R: Wait + Abort + AllocGlobal>(rt: &R, lane: &mut LaneTells) {
    lane.applied(rt, &[success_of(0, 1), success_of(1, 2), success_of(2, 9)]);
    let report = report_of(rt, 1, 3);
    lane.reported(rt, &report).expect(rt, "memory");
}

// Each producer hears what a lane tells it, and from another lane that it tells no more.
#[test]
fn producers_are_told(rt: HostRuntime) {
    let (mut tells, mut takes) = telling(rt.alloc(), 2, 2, 4).expect(&rt, "memory");
    tell_some(&rt, tells.get_mut(1).expect(&rt, "a lane"));
    tells.get_mut(0).expect(&rt, "a lane").ended(&rt);
    let first = takes.get_mut(0).expect(&rt, "a producer");
    assert!(rt; hears(&rt, first, &[(1, 1), (0, 0)]));
    let second = takes.get_mut(1).expect(&rt, "a producer");
    assert!(rt; hears(&rt, second, &[(1, 2), (1, 103), (0, 0)]));
}
