//! What a line says of what goes wrong.
ghost use Rattle.std.specs.Prelude.{◌≡◌, ◌++◌, OnOk, option_map, string_bytes};
ghost use Rattle.relay_progress.specs.Events.{conflicts_text, down_text, end_text, event_text};
ghost use Rattle.relay_progress.specs.Events.{kind_text, reason_name, refusal_text, seconds_text};
ghost use Rattle.relay_progress.specs.Events.{start_text, too_large_text, up_text, whole_request};

use crate::line::{Progress, add_count};
use crate::refusals::Refusal;
use relay_lane::Loss;
use relay_words::add_number;
use std::alloc::AllocError;

/// Something that is said while a run goes on.
#[derive(Clone, Copy, Debug, PartialEq, Eq)]
pub enum Event {
    /// Nothing is answered.
    Down {
        /// Why the last exchange, or try to connect, failed.
        reason: Loss,
    },
    /// Something is answered again.
    Up {
        /// For how many milliseconds nothing was.
        millis: u64,
        /// How many requests were sent meanwhile.
        sends: u64,
    },
    /// A request was answered with 413.
    TooLarge,
    /// Operations are reported as conflicts.
    Conflicts {
        /// How many up to now.
        count: u64,
    },
    /// The run has begun.
    Start {
        /// Its epoch.
        epoch: u32,
        /// How many lanes it has.
        lanes: u32,
    },
}

fn reason_name(reason: Loss) -> &'static [u8]
    ensures { result.now ≡ reason_name reason }
{
    match reason {
        Loss::Refused => b"connection refused",
        Loss::Unreachable => b"no connection",
        Loss::TimedOut => b"timed out",
        Loss::Closed => b"connection closed",
        Loss::Unreadable => b"unreadable answer",
        Loss::Memory => b"out of memory",
    }
}

// Adds a number of seconds, with tenths.
fn add_seconds(text: &mut Vec<u8>, millis: u64) -> Result<(), AllocError>
    ensures { OnOk result (text.new.items ≡ text.old.items ++ seconds_text millis) }
{
    add_number(text, millis / 1_000)?;
    text.extend_from_slice(b".")?;
    add_number(text, millis / 100 % 10)
}

fn add_down(text: &mut Vec<u8>, reason: Loss) -> Result<(), AllocError>
    ensures { OnOk result (text.new.items ≡ text.old.items ++ down_text reason) }
{
    text.extend_from_slice(b"down: ")?;
    text.extend_from_slice(reason_name(reason))
}

fn add_up(text: &mut Vec<u8>, millis: u64, sends: u64) -> Result<(), AllocError>
    ensures { OnOk result (text.new.items ≡ text.old.items ++ up_text millis sends) }
{
    text.extend_from_slice(b"up again after ")?;
    add_seconds(text, millis)?;
    add_count(text, b" s, sends ", sends)
}

fn add_too_large(text: &mut Vec<u8>) -> Result<(), AllocError>
    ensures { OnOk result (text.new.items ≡ text.old.items ++ too_large_text) }
{
    text.extend_from_slice(b"too large: a request got 413, and is sent again in halves")
}

fn add_conflicts(text: &mut Vec<u8>, count: u64) -> Result<(), AllocError>
    ensures { OnOk result (text.new.items ≡ text.old.items ++ conflicts_text count) }
{
    add_count(text, b"conflicts: ", count)
}

fn add_start(text: &mut Vec<u8>, epoch: u32, lanes: u32) -> Result<(), AllocError>
    ensures { OnOk result (text.new.items ≡ text.old.items ++ start_text epoch lanes) }
{
    add_count(text, b"start: epoch ", epoch as u64)?;
    add_count(text, b", lanes ", lanes as u64)
}

/// Adds what is said of something. `AllocError`: allocation failed; part of it may be there.
pub(crate) fn add_event(text: &mut Vec<u8>, event: &Event) -> Result<(), AllocError>
    ensures { OnOk result (text.new.items ≡ text.old.items ++ event_text event.now) }
{
    match event {
        Event::Down { reason } => add_down(text, *reason),
        Event::Up { millis, sends } => add_up(text, *millis, *sends),
        Event::TooLarge => add_too_large(text),
        Event::Conflicts { count } => add_conflicts(text, *count),
        Event::Start { epoch, lanes } => add_start(text, *epoch, *lanes),
    }
}

// Adds the type of a refusal, or that it is of a whole request.
fn add_kind(text: &mut Vec<u8>, kind: &Option<String>) -> Result<(), AllocError>
    ensures { OnOk result
        (text.new.items ≡ text.old.items ++ kind_text (option_map string_bytes kind.now)) }
{
    match kind {
        Some(kind) => {
            text.extend_from_slice(b" ")?;
            text.extend_from_slice(kind.as_bytes())
        }
        None => text.extend_from_slice(whole_request()),
    }
}

fn whole_request() -> &'static [u8]
    ensures { result.now ≡ whole_request }
{
    b" for a whole request"
}

/// Adds what is said of a refusal. `AllocError`: allocation failed; part of it may be there.
pub(crate) fn add_refusal(text: &mut Vec<u8>, refusal: &Refusal) -> Result<(), AllocError>
    ensures { OnOk result (text.new.items ≡ text.old.items
        ++ refusal_text refusal.now.status (option_map string_bytes refusal.now.kind)) }
{
    add_count(text, b"refused: ", refusal.status as u64)?;
    add_kind(text, &refusal.kind)
}

/// Adds what is said of the end of a run with these counts. `AllocError`: allocation failed; part of
/// it may be there.
pub(crate) fn add_end(text: &mut Vec<u8>, progress: &Progress) -> Result<(), AllocError>
    ensures { OnOk result (text.new.items ≡ text.old.items ++ end_text progress.now) }
{
    add_count(text, b"end: sent ", progress.operations)?;
    add_count(text, b" operations in ", progress.requests)?;
    add_count(text, b" requests, settled ", progress.settled)?;
    add_count(text, b", refused ", progress.refused)?;
    add_count(text, b", repeats ", progress.repeats)
}
