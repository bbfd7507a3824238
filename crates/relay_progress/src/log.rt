//! Writing the lines about what goes wrong while a run goes on.
use crate::counts::Counts;
use crate::event::{Event, add_end, add_event, add_refusal};
use crate::line::Progress;
use crate::refusals::REFUSAL_LIMIT;
use crate::show::Show;
use crate::sight::{NOTHING, Said, after, next_event, noticed};
use crate::stamp::add_stamp;
use relay_action::{ByteOut, write_all};
use std::alloc::{AllocError, Global};
use std::time::{Clock, Duration, Instant};

/// What is said while a run goes on.
#[derive(Clone, Copy, Debug, PartialEq, Eq)]
pub enum Log {
    /// Nothing but what [`show_progress`](crate::show_progress) says without a log.
    None,
    /// What goes wrong.
    Errors,
    /// That, and the start and the end of the run.
    Events,
}

// The maximum number of lines of one look, apart from those about refusals.
const LINES_A_LOOK: u32 = 4;

/// When the run began, and what was said of it.
#[derive(Clone, Copy)]
pub(crate) struct Logging {
    start: Option<Instant>,
    said: Said,
    // How many refusals were looked at.
    refusals: usize,
}

impl Logging {
    /// Nothing was said.
    pub fn new<R: Clock>(rt: &R) -> Logging {
        Logging {
            start: Instant::now(rt).ok(),
            said: NOTHING,
            refusals: 0,
        }
    }

    // Milliseconds since the run began, or 0 if the clock cannot be read.
    fn now<R: Clock>(&self, rt: &R) -> u64 {
        match self.start {
            Some(start) => start.elapsed(rt).map_or(0, millis_of),
            None => 0,
        }
    }

    /// Writes what is new. `AllocError`: allocation failed; what was not written is looked at again.
    pub fn say_new<R: Clock, E: ByteOut>(
        &mut self,
        rt: &R,
        alloc: Global,
        show: &Show,
        counts: &Counts,
        err: &mut E,
    ) -> Result<(), AllocError> {
        let sight = counts.sight(self.now(rt));
        self.said = noticed(&self.said, &sight);
        for _line in 0..LINES_A_LOOK {
            let Some(event) = next_event(&self.said, &sight) else {
                break;
            };
            say_event(rt, alloc, show, &event, err)?;
            self.said = after(&self.said, &event, sight.moment);
        }
        self.say_refusals(rt, alloc, show, counts, err)
    }

    // Writes the refusals that are new.
    fn say_refusals<R: Clock, E: ByteOut>(
        &mut self,
        rt: &R,
        alloc: Global,
        show: &Show,
        counts: &Counts,
        err: &mut E,
    ) -> Result<(), AllocError> {
        for place in self.refusals..REFUSAL_LIMIT {
            let Some(refusal) = counts.refusal(place) else {
                return Ok(());
            };
            if !counts.is_repeated(place) {
                let mut text = begun_line(rt, alloc, show)?;
                add_refusal(&mut text, refusal)?;
                end_line(&mut text, err)?;
            }
            self.refusals = place + 1;
        }
        Ok(())
    }
}

/// Writes a line about something. `AllocError`: allocation failed, and nothing was written.
pub(crate) fn say_event<R: Clock, E: ByteOut>(
    rt: &R,
    alloc: Global,
    show: &Show,
    event: &Event,
    err: &mut E,
) -> Result<(), AllocError> {
    let mut text = begun_line(rt, alloc, show)?;
    add_event(&mut text, event)?;
    end_line(&mut text, err)
}

/// Writes the line about the end of a run with these counts. `AllocError`: allocation failed, and
/// nothing was written.
pub(crate) fn say_end<R: Clock, E: ByteOut>(
    rt: &R,
    alloc: Global,
    show: &Show,
    progress: &Progress,
    err: &mut E,
) -> Result<(), AllocError> {
    let mut text = begun_line(rt, alloc, show)?;
    add_end(&mut text, progress)?;
    end_line(&mut text, err)
}

// Ends a line, and writes it.
fn end_line<E: ByteOut>(text: &mut Vec<u8>, err: &mut E) -> Result<(), AllocError> {
    text.extend_from_slice(b"\n")?;
    let _ = write_all(err, text);
    Ok(())
}

fn millis_of(duration: Duration) -> u64 {
    let millis = duration.as_secs().saturating_mul(1_000);
    millis.saturating_add(duration.subsec_millis() as u64)
}

// The beginning of a line: the time in UTC, such as `2026-11-27T19:44:44Z`, unless the clock cannot
// be read, and the address. On a terminal the line replaces the previous one.
fn begun_line<R: Clock>(rt: &R, alloc: Global, show: &Show) -> Result<Vec<u8>, AllocError> {
    let mut text = Vec::new(alloc);
    if show.over {
        text.extend_from_slice(b"\r\x1b[K")?;
    }
    add_stamp(rt, alloc, &mut text)?;
    text.extend_from_slice(show.address.as_bytes())?;
    text.extend_from_slice(b": ")?;
    Ok(text)
}
