//! When something is written.
use crossbeam_channel::{Receiver, Sender, bounded};
use relay_action::MemStream;
use relay_progress::{Counts, Log, Show, Trouble, show_progress};
use std::alloc::Global;
use std::process::Abort;
use std::sync::Wait;
use std::thread;
use std::thread::Threads;
use std::time::{Clock, Duration};

// Drops a sender after this many milliseconds.
fn lets_go<R: Clock>(rt: &R, ended: Sender<(), Global>, millis: u64) {
    thread::sleep(rt, Duration::from_millis(millis));
    drop(ended);
}

// What to show, lines or none, on a terminal or not; what is known of connections, for how many
// milliseconds it is shown, and what is written.
struct Row {
    lines: bool,
    over: bool,
    trouble: Trouble,
    millis: u64,
    wanted: &'static [u8],
}

fn show_of(rt: &(impl Abort + AllocGlobal), row: &Row) -> Show {
    Show {
        lines: row.lines,
        over: row.over,
        address: String::from_str(rt.alloc(), "a:1").expect(rt, "memory"),
        size: None,
        log: Log::None,
        epoch: 0,
        lanes: 1,
    }
}

// What is written of a row.
fn shows<R>(rt: R, row: &Row) -> MemStream
where
    R: Threads + Wait + Clock + Abort + AllocGlobal + Copy + Send + 'static,
{
    let show = show_of(&rt, row);
    let counts = Counts::shared(rt.alloc()).expect(&rt, "memory");
    counts.set_trouble(row.trouble);
    let (ended, waiting) = bounded(rt.alloc(), 1).expect(&rt, "memory");
    let millis = row.millis;
    let other = thread::spawn(&rt, move || lets_go(&rt, ended, millis)).expect(&rt, "a thread");
    let none = Vec::new(rt.alloc());
    let mut err = MemStream::new(rt.alloc(), none, 1_000, 1_000, 0).expect(&rt, "memory");
    show_progress(&rt, rt.alloc(), &show, &counts, &waiting, &mut err);
    other.join(&rt);
    err
}

const ROWS: &[Row] = &[
    Row {
        lines: true,
        over: false,
        trouble: Trouble::None,
        millis: 0,
        wanted: b"read 0 bytes, sent 0 operations in 0 requests, settled 0, refused 0, repeats 0, out 0, no answer yet\n",
    },
    Row {
        lines: true,
        over: true,
        trouble: Trouble::None,
        millis: 0,
        wanted: b"\r\x1b[?7lread 0 bytes, sent 0 operations in 0 requests, settled 0, refused 0, repeats 0, out 0, no answer yet\x1b[K\x1b[?7h\n",
    },
    Row {
        lines: false,
        over: false,
        trouble: Trouble::None,
        millis: 1_200,
        wanted: b"",
    },
    Row {
        lines: false,
        over: false,
        trouble: Trouble::Refused,
        millis: 500,
        wanted: b"a:1: connection refused, trying again\n",
    },
    Row {
        lines: true,
        over: true,
        trouble: Trouble::TimedOut,
        millis: 0,
        wanted: b"\r\x1b[Ka:1: connection timed out, trying again\n\r\x1b[?7lread 0 bytes, sent 0 operations in 0 requests, settled 0, refused 0, repeats 0, out 0, no answer yet\x1b[K\x1b[?7h\n",
    },
];

#[test]
fn says_what_is_to_be_said(rt: HostRuntime) {
    for row in ROWS {
        let err = shows(rt, row);
        assert!(rt; err.written() == row.wanted);
    }
}
