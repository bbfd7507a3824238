//! When a run takes no more input: it has reported too much, or the index takes nothing.
ghost use Rattle.std.specs.Prelude.{◌≡◌, ◌<◌, ◌^◌, ◌+◌, None, Some, IfOk, IsTrue, OnOk, OnErr, is_some};
ghost use Rattle.relay_run.specs.Faults.{worse};
ghost use Rattle.relay_run.specs.Saying.{IsSaid};
ghost use Rattle.relay_run.specs.Stopping.{at_limit, code_of, exit_of_stop, is_hopeless, reason_said};
ghost use Rattle.relay_run.specs.Stopping.{stop_by, stop_text};

use crate::faults::worse;
use crate::feed::FeedFault;
use crate::saying::say;
use relay_action::ByteOut;
use relay_core::Cause;
use relay_progress::Shared;
use relay_words::{Exit, add_number};
use std::alloc::{AllocError, Global};
use std::sync::Arc;
use std::sync::atomic::{AtomicU64, Ordering};

/// Why a run takes no more input.
#[derive(Clone, Copy, Debug, PartialEq, Eq)]
pub enum StopReason {
    /// As many operations were reported as may be.
    Reports,
    /// The index answered a whole request with this status before it had applied anything.
    Hopeless {
        /// The status.
        status: u16,
    },
    /// The file is there that was named for it.
    Until,
}

/// What the lanes of a run tell, as far as it may stop the run, and whether it is to stop. Each part
/// is read separately. No contract says what another thread has told.
#[derive(Drop)]
pub struct Stop {
    // How many operations may be reported; 0 means any number.
    limit: u64,
    reported: AtomicU64,
    // How many operations were applied.
    applied: AtomicU64,
    // 1 once somebody has asked for it.
    asked: AtomicU64,
    // The code of the reason, or 0.
    reason: AtomicU64,
    // Where conflicts are counted, if they are.
    counts: Option<Shared>,
}

/// A stop that several threads hold.
pub type SharedStop = Arc<Stop, Global>;

impl Stop {
    /// Stops once `limit` operations were reported; 0 means any number. Conflicts among them are noted
    /// in these counts, if there are any. `AllocError`: allocation failed.
    pub fn shared(
        alloc: Global,
        limit: u64,
        counts: Option<Shared>,
    ) -> Result<SharedStop, AllocError> {
        Ok(Arc::new(alloc, Stop::new(limit, counts))?)
    }

    fn new(limit: u64, counts: Option<Shared>) -> Stop {
        Stop {
            limit,
            reported: AtomicU64::new(0),
            applied: AtomicU64::new(0),
            asked: AtomicU64::new(0),
            reason: AtomicU64::new(0),
            counts,
        }
    }

    /// Tells of this many operations that ended as applied.
    pub fn tell_applied(&self, count: usize) {
        if count > 0 {
            let _ = self.applied.fetch_add(count as u64, Ordering::SeqCst);
        }
    }

    /// Asks for the run to take no more input.
    pub(crate) fn ask(&self) {
        self.asked.store(1, Ordering::SeqCst);
        self.stop_for(StopReason::Until);
    }

    /// Whether somebody has asked for it.
    pub(crate) fn is_asked(&self) -> bool {
        self.asked.load(Ordering::SeqCst) > 0
    }

    /// How many operations have ended.
    pub(crate) fn ended(&self) -> u64 {
        let applied = self.applied.load(Ordering::SeqCst);
        applied.saturating_add(self.reported.load(Ordering::SeqCst))
    }

    // Stops for this reason, unless there was one before.
    fn stop_for(&self, reason: StopReason) {
        let _ = self
            .reason
            .compare_exchange(0, code_of(reason), Ordering::SeqCst, Ordering::SeqCst);
    }

    /// Tells of an operation that is reported with this cause.
    pub fn tell_reported(&self, cause: &Cause) {
        if let (Some(counts), Cause::Conflict { .. }) = (&self.counts, cause) {
            counts.note_conflict();
        }
        let reported = self
            .reported
            .fetch_add(1, Ordering::SeqCst)
            .saturating_add(1);
        let applied = self.applied.load(Ordering::SeqCst) > 0;
        if let Some(reason) = stop_by(cause, applied, self.limit, reported) {
            self.stop_for(reason);
        }
    }

    /// Why the run is to stop, if it is: the first reason that there was.
    pub fn reason(&self) -> Option<StopReason> {
        reason_of(self.reason.load(Ordering::SeqCst))
    }
}

/// Another handle of the same stop. `AllocError`: there are too many handles.
pub(crate) fn share_stop(stop: &Option<SharedStop>) -> Result<Option<SharedStop>, AllocError>
    ensures { IfOk result (λ s. is_some s ≡ is_some stop.now) }
{
    match stop {
        Some(stop) => Ok(Some(Arc::try_clone(stop)?)),
        None => Ok(None),
    }
}

/// Whether a run is to stop. Without a stop it is not.
pub(crate) fn is_stopped(stop: &Option<SharedStop>) -> bool
    ensures { IsTrue result → IsTrue (is_some stop.now) }
{
    match stop {
        Some(stop) => stop.reason().is_some(),
        None => false,
    }
}

// Whether it is in vain to send more to an index that answered a whole request with this status.
fn is_hopeless(status: u16) -> bool
    ensures { result ≡ is_hopeless status }
{
    status == 401 || status == 403 || status == 404 || (300 <= status && status < 400)
}

// Whether as many operations were reported as may be.
fn at_limit(limit: u64, reported: u64) -> Option<StopReason>
    ensures { result ≡ at_limit limit reported }
{
    if 0 < limit && limit <= reported {
        Some(StopReason::Reports)
    } else {
        None
    }
}

/// Why a run is to stop after a report with this cause, if it is, given whether an operation was
/// applied before, how many may be reported, and how many are with this one.
pub fn stop_by(cause: &Cause, applied: bool, limit: u64, reported: u64) -> Option<StopReason>
    ensures { result ≡ stop_by cause.now applied limit reported }
{
    match cause {
        Cause::Request { status, .. } if !applied && is_hopeless(*status) => {
            Some(StopReason::Hopeless { status: *status })
        }
        _ => at_limit(limit, reported),
    }
}

// The code of being asked for, above those of all statuses.
const UNTIL: u64 = 65_538;

// A reason as a number above 0.
fn code_of(reason: StopReason) -> u64
    ensures { result ≡ code_of reason }
{
    match reason {
        StopReason::Reports => 1,
        StopReason::Hopeless { status } => status as u64 + 2,
        StopReason::Until => UNTIL,
    }
}

// The reason with this code; none has the code 0.
fn reason_of(code: u64) -> Option<StopReason>
    ensures none { code ≡ 0 → result ≡ None }
    ensures reports { code ≡ 1 → result ≡ Some StopReason.Reports }
    ensures until { code ≡ 65538 → result ≡ Some StopReason.Until }
    ensures hopeless { (status : _) → code ≡ status + 2 → status < 2 ^ 16
        → result ≡ Some (StopReason.Hopeless status) }
{
    match code {
        0 => None,
        1 => Some(StopReason::Reports),
        UNTIL => Some(StopReason::Until),
        _ => match u16::try_from(code.saturating_sub(2)) {
            Ok(status) => Some(StopReason::Hopeless { status }),
            Err(_) => None,
        },
    }
}

/// Why a run is said to have stopped, given why it was to, whether a reader was not read to its end
/// for that, and whether an operation was applied in the end. Because of its reports only if something
/// was left unread; because of an answer also if all was read, unless something was applied
/// meanwhile.
pub(crate) fn reason_said(
    reason: Option<StopReason>,
    was_cut: bool,
    applied: bool,
) -> Option<StopReason>
    ensures { result ≡ reason_said reason was_cut applied }
{
    match reason {
        Some(StopReason::Reports | StopReason::Until) if !was_cut => None,
        Some(StopReason::Hopeless { .. }) if !was_cut && applied => None,
        reason => reason,
    }
}

/// Whether a reader was not read to its end since the run stopped.
pub(crate) fn were_cut(faults: &[Option<FeedFault>]) -> bool {
    faults.iter().any(is_cut)
}

fn is_cut(fault: &Option<FeedFault>) -> bool {
    matches!(fault, Some(FeedFault::Stopped))
}

/// Why a run is to stop, if it is.
pub(crate) fn reason_of_stop(stop: &Option<SharedStop>) -> Option<StopReason> {
    match stop {
        Some(stop) => stop.reason(),
        None => None,
    }
}

/// Says on `err` why a run has stopped that may report `limit` operations. Returns the exit status of
/// a program that would otherwise have ended with `exit`. `AllocError`: allocation failed, and
/// nothing was said.
pub fn say_stopped<E: ByteOut>(
    alloc: Global,
    exit: Exit,
    limit: u64,
    reason: StopReason,
    err: &mut E,
) -> Result<Exit, AllocError>
    ensures said { OnOk result (IsSaid (stop_text limit reason)
        (E.written err.old, E.failed err.old) (E.written err.new, E.failed err.new)) }
    ensures exit { IfOk result (λ end. end ≡ worse exit (exit_of_stop reason)) }
    ensures err { OnErr result ((E.written err.new ≡ E.written err.old)
        × (E.failed err.new ≡ E.failed err.old)) }
{
    let text = stop_text(alloc, limit, reason)?;
    let _ = say(err, &text);
    Ok(worse(exit, exit_of_stop(reason)))
}

fn stop_text(alloc: Global, limit: u64, reason: StopReason) -> Result<Vec<u8>, AllocError>
    ensures { IfOk result (λ text. text.items ≡ stop_text limit reason) }
{
    let mut text = Vec::new(alloc);
    match reason {
        StopReason::Reports => {
            text.extend_from_slice(b"stopped after ")?;
            add_number(&mut text, limit)?;
            text.extend_from_slice(b" reports: --max-reports\n")?;
        }
        StopReason::Hopeless { status } => {
            text.extend_from_slice(b"stopped: the index answered a whole request with ")?;
            add_number(&mut text, status as u64)?;
            text.extend_from_slice(b" before it had applied anything\n")?;
        }
        StopReason::Until => text.extend_from_slice(b"stopped: --until\n")?,
    }
    Ok(text)
}

fn exit_of_stop(reason: StopReason) -> Exit
    ensures { result ≡ exit_of_stop reason }
{
    match reason {
        StopReason::Reports => Exit::Reported,
        StopReason::Hopeless { .. } => Exit::Device,
        StopReason::Until => Exit::Done,
    }
}
