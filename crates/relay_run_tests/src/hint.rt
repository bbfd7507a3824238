//! What is said of the conflicts of a run.
use relay_action::{DocKey, MemStream, OpName};
use relay_core::{Cause, Report};
use relay_run::hint::say_hint;
use std::process::Abort;

// A report of a conflict with this stored version, or of a request that was refused.
#[derive(Clone, Copy)]
enum Row {
    Stated(u64),
    Unstated,
    Rejected,
}

fn cause_of(row: Row) -> Cause {
    match row {
        Row::Stated(version) => Cause::Conflict {
            stored: Some(version),
            reason: None,
        },
        Row::Unstated => Cause::Conflict {
            stored: None,
            reason: None,
        },
        Row::Rejected => Cause::Request {
            status: 400,
            reason: None,
        },
    }
}

fn report_of(rt: &(impl Abort + AllocGlobal), row: Row) -> Report {
    Report {
        name: OpName {
            epoch: 1,
            producer: 0,
            number: 1,
        },
        key: DocKey::new(rt.alloc(), "books", "emma").expect(rt, "a key"),
        cause: cause_of(row),
    }
}

// Whether this is said of the reports of these rows in epoch 1.
fn says(rt: &(impl Abort + AllocGlobal), rows: &[Row], wanted: &[u8]) -> bool {
    let mut reports = Vec::new(rt.alloc());
    for row in rows {
        reports.push(report_of(rt, *row)).expect(rt, "memory");
    }
    let none = Vec::new(rt.alloc());
    let mut err = MemStream::new(rt.alloc(), none, 1_000, 100, 0).expect(rt, "memory");
    say_hint(rt.alloc(), &reports, 1, &mut err).expect(rt, "memory");
    err.written() == wanted
}

const NOTHING: &[u8] = b"";

const UNSTATED: &[u8] =
    b"the index has versions that are not below those of this run: of a higher epoch, or of another writer\n";

const OTHER: &[u8] =
    b"the index has versions of this epoch or of an earlier one: of another run in it, or of another writer\n";

const SECOND: &[u8] = b"the index has versions of epoch 2: run again with --epoch 3 or higher\n";

const LAST_BUT_ONE: &[u8] =
    b"the index has versions of epoch 4194302: run again with --epoch 4194303 or higher\n";

const ABOVE_ALL: &[u8] = b"the index has versions that no epoch is above: of another writer\n";

// The first version of epoch 2 is 2 * 2^40 + 1.
const ROWS: &[(&[Row], &[u8])] = &[
    (&[], NOTHING),
    (&[Row::Rejected], NOTHING),
    (&[Row::Unstated], UNSTATED),
    (&[Row::Rejected, Row::Unstated, Row::Rejected], UNSTATED),
    (&[Row::Stated(0)], OTHER),
    (&[Row::Stated(1_099_511_627_777)], OTHER),
    (&[Row::Stated(2_199_023_255_552)], OTHER),
    (&[Row::Stated(2_199_023_255_553)], SECOND),
    (
        &[
            Row::Stated(5),
            Row::Unstated,
            Row::Stated(2_199_023_255_553),
            Row::Stated(7),
        ],
        SECOND,
    ),
    (&[Row::Stated(4_611_683_819_404_132_353)], LAST_BUT_ONE),
    (&[Row::Stated(4_611_684_918_915_760_129)], ABOVE_ALL),
    (&[Row::Stated(18_446_744_073_709_551_615)], ABOVE_ALL),
];

#[test]
fn hints(rt: HostRuntime) {
    for (rows, wanted) in ROWS {
        assert!(rt; says(&rt, *rows, *wanted));
    }
}
