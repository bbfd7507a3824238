//! Writing the progress of a run while it works.
use crate::counts::{Counts, Trouble};
use crate::event::Event;
use crate::line::{Progress, trouble_text, written_text};
use crate::log::{Log, Logging, say_end, say_event};
use crossbeam_channel::{Receiver, RecvTimeoutError};
use relay_action::{ByteOut, write_all};
use std::alloc::{AllocError, Global};
use std::sync::Wait;
use std::time::{Clock, Duration, Instant};

/// What to write, and how.
#[derive(Drop)]
pub struct Show {
    /// Whether to write a progress line every second.
    pub lines: bool,
    /// Whether it is written to a terminal, each line over the previous one.
    pub over: bool,
    /// The address that is dialled.
    pub address: String,
    /// The number of bytes to read, if it is known.
    pub size: Option<u64>,
    /// What is said of what goes wrong, each line with the time.
    pub log: Log,
    /// The epoch of the run.
    pub epoch: u32,
    /// How many lanes it has.
    pub lanes: u32,
}

// The time between two looks at the counts, in milliseconds, and the number of looks per line.
const LOOK: u64 = 100;

const LOOKS_A_LINE: u32 = 10;

// What was seen at the last look.
#[derive(Clone, Copy)]
struct Seen {
    looks: u32,
    answers: u64,
    answered: Option<Instant>,
    trouble: Trouble,
    log: Logging,
}

/// Writes the progress of a run until every sender of `ended` is gone, and once more at the end: a
/// line every second if asked for, and what the log says, within a tenth of a second. Without a log
/// that is that no connection can be made, or that one was made again. What cannot be written or
/// allocated is left out.
pub fn show_progress<R: Wait + Clock, E: ByteOut>(
    rt: &R,
    alloc: Global,
    show: &Show,
    counts: &Counts,
    ended: &Receiver<(), Global>,
    err: &mut E,
) {
    let mut seen = Seen {
        looks: 0,
        answers: 0,
        answered: None,
        trouble: Trouble::None,
        log: Logging::new(rt),
    };
    let _ = say_start(rt, alloc, show, err);
    'looks: for _ in rt.forever() {
        match ended.recv_timeout(rt, Duration::from_millis(LOOK)) {
            Err(RecvTimeoutError::Timeout) => {
                let _ = look(rt, alloc, show, counts, &mut seen, err);
            }
            Err(RecvTimeoutError::Disconnected) => break,
            Ok(()) => {}
        }
    }
    let _ = say_last(rt, alloc, show, counts, &mut seen, err);
}

// Looks at the counts, and writes what is new.
fn look<R: Clock, E: ByteOut>(
    rt: &R,
    alloc: Global,
    show: &Show,
    counts: &Counts,
    seen: &mut Seen,
    err: &mut E,
) -> Result<(), AllocError> {
    see_answers(rt, counts, seen);
    say_new(rt, alloc, show, counts, seen, err)?;
    seen.looks = seen.looks.saturating_add(1);
    if seen.looks < LOOKS_A_LINE || !show.lines {
        return Ok(());
    }
    seen.looks = 0;
    say_line(rt, alloc, show, counts, seen, err)
}

// Writes that the run has begun, if the log says so.
fn say_start<R: Clock, E: ByteOut>(
    rt: &R,
    alloc: Global,
    show: &Show,
    err: &mut E,
) -> Result<(), AllocError> {
    if show.log != Log::Events {
        return Ok(());
    }
    let event = Event::Start {
        epoch: show.epoch,
        lanes: show.lanes,
    };
    say_event(rt, alloc, show, &event, err)
}

// Writes what the log says, or what is new about connections if there is none.
fn say_new<R: Clock, E: ByteOut>(
    rt: &R,
    alloc: Global,
    show: &Show,
    counts: &Counts,
    seen: &mut Seen,
    err: &mut E,
) -> Result<(), AllocError> {
    match show.log {
        Log::None => say_trouble(alloc, show, counts, seen, err),
        _ => seen.log.say_new(rt, alloc, show, counts, err),
    }
}

// Remembers when an answer was first seen.
fn see_answers<R: Clock>(rt: &R, counts: &Counts, seen: &mut Seen) {
    let answers = counts.answers();
    if answers != seen.answers {
        seen.answers = answers;
        seen.answered = Instant::now(rt).ok();
    }
}

// Writes that no connection can be made, or that one was made again, if that is new.
fn say_trouble<E: ByteOut>(
    alloc: Global,
    show: &Show,
    counts: &Counts,
    seen: &mut Seen,
    err: &mut E,
) -> Result<(), AllocError> {
    let trouble = counts.trouble();
    if (trouble == Trouble::None) == (seen.trouble == Trouble::None) {
        return Ok(());
    }
    seen.trouble = trouble;
    let text = trouble_text(alloc, show.address.as_str(), trouble, show.over)?;
    let _ = write_all(err, &text);
    Ok(())
}

// Writes the progress line.
fn say_line<R: Clock, E: ByteOut>(
    rt: &R,
    alloc: Global,
    show: &Show,
    counts: &Counts,
    seen: &Seen,
    err: &mut E,
) -> Result<(), AllocError> {
    let progress = progress_of(counts, show.size, idle(rt, seen));
    let text = written_text(alloc, &progress, show.over)?;
    let _ = write_all(err, &text);
    Ok(())
}

// Writes what is new, the last line, which is not overwritten, and that the run has ended, if the log
// says so.
fn say_last<R: Clock, E: ByteOut>(
    rt: &R,
    alloc: Global,
    show: &Show,
    counts: &Counts,
    seen: &mut Seen,
    err: &mut E,
) -> Result<(), AllocError> {
    say_new(rt, alloc, show, counts, seen, err)?;
    if show.lines {
        see_answers(rt, counts, seen);
        say_line(rt, alloc, show, counts, seen, err)?;
        if show.over {
            let _ = write_all(err, b"\n");
        }
    }
    if show.log != Log::Events {
        return Ok(());
    }
    let progress = progress_of(counts, show.size, idle(rt, seen));
    say_end(rt, alloc, show, &progress, err)
}

// How many seconds ago the last answer was seen.
fn idle<R: Clock>(rt: &R, seen: &Seen) -> Option<u64> {
    let spent = seen.answered?.elapsed(rt).ok()?;
    Some(spent.as_secs())
}

fn progress_of(counts: &Counts, size: Option<u64>, idle: Option<u64>) -> Progress {
    let ended = counts.ended();
    let requests = counts.requests();
    Progress {
        read: counts.read(),
        size,
        requests,
        operations: counts.operations(),
        settled: counts.settled(),
        refused: counts.refused(),
        repeats: counts.repeats(),
        out: requests.saturating_sub(ended),
        idle,
    }
}
