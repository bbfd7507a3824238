//! What a lane of a run tells by: it saves each report as soon as it arises.
ghost use Rattle.std.specs.Prelude.{◌≡◌, ◌+◌, ◌++◌, ◌∷◌, [], IfOk, OnErr, OnOk, map, true, vec_len};
ghost use Rattle.relay_keeping.specs.Tellers.{seat};
ghost use Rattle.relay_run.specs.Saving.{IsExactly, KeepsOneMore, GoesOn, AreUnwritten, AreNew};
ghost use Rattle.relay_run.specs.Saving.{AddsOne, AllGoOnFrom, AllKeep, AreUntold, SayFailed, lane_seat, seat_of};

use crate::numbering::Numbering;
use crate::saying::say;
use crate::stopping::{SharedStop, share_stop};
use http_server::Log;
use relay_action::ByteOut;
use relay_core::{Report, Success};
use relay_keeping::LaneTelling;
use relay_report::append_report;
use relay_threads::Tell;
use std::alloc::{AllocError, Global};
use std::marker::Model;
use std::sync::Wait;

/// What a lane of a run tells by. It saves each report in a file, of which it has a handle of its
/// own, as soon as it is told of it: the line of the report, in one write if the file takes that.
/// After a write that failed it saves no more. It also tells a stop, if it has one, what it is told,
/// and which operations are settled: those that were applied, and those whose reports were saved.
/// Contracts see what was written, whether a write failed, what it was told, and what it told as
/// settled.
#[derive(Drop)]
pub struct SavingTell<P: ByteOut> {
    alloc: Global,
    file: P,
    // Whether a write of a report failed.
    failed: bool,
    stop: Option<SharedStop>,
    settled: LaneTelling,
    // How the operations are numbered in the reports.
    numbering: Numbering,
    // What it was told, for proofs only.
    applied: Log<Success, ()>,
    reported: Log<Report, ()>,
}

impl<P: ByteOut> Model for SavingTell<P> {
    ghost use Rattle.std.specs.Prelude.{map};
    ghost use Rattle.relay_keeping.specs.Tellers.{seat};
    ghost use Rattle.relay_run.specs.Saving.{Saver, KeepsAll};

    ghost Value = { Saver };

    ghost view = { λ t. record {
      given = P.written t.file;
      failures = P.failed t.file;
      failed = t.failed;
      before = t.numbering.before;
      applied = map (λ x. x.0) t.applied.items;
      reported = map (λ x. x.0) t.reported.items;
      settled = record { applied = t.settled.applied; saved = t.settled.saved };
      via = seat t.settled.end;
    } };

    ghost invariant = { λ t. KeepsAll t.failed (P.written t.file) (P.failed t.file)
        t.numbering.before (map (λ x. x.0) t.applied.items) (map (λ x. x.0) t.reported.items)
        (record { applied = t.settled.applied; saved = t.settled.saved }) };
}

impl<P: ByteOut> SavingTell<P> {
    ghost use Rattle.relay_run.specs.Saving.{KeepsTold};

    /// It saves in this file, to which nothing was written yet. Memory is allocated for each report.
    pub fn new(
        alloc: Global,
        file: P,
        numbering: Numbering,
        stop: Option<SharedStop>,
        settled: LaneTelling,
    ) -> SavingTell<P>
        requires file { IsExactly (P.written file) [] × (P.failed file ≡ 0) }
        requires settled { (settled.applied ≡ []) × (settled.saved ≡ []) }
        ensures new { (result.applied ≡ []) × (result.reported ≡ []) }
        ensures before { result.before ≡ numbering.before }
        ensures via { result.via ≡ seat settled.end }
    {
        SavingTell {
            alloc,
            file,
            failed: false,
            stop,
            settled,
            numbering,
            applied: Log::new(),
            reported: Log::new(),
        }
    }

    /// The file.
    pub fn file(&self) -> &P
        ensures { (P.written result.now ≡ self.now.given)
            × (P.failed result.now ≡ self.now.failures) }
    {
        &self.file
    }

    /// Whether a write of a report failed.
    pub fn has_failed(&self) -> bool
        ensures failed { result ≡ self.now.failed }
        ensures keeps { KeepsTold self.now }
    {
        self.failed
    }
}

impl<P: ByteOut + Drop> SavingTell<P> {
    ghost use Rattle.relay_run.specs.Safe.{IsLaneOf};

    /// What it told by which operations are settled.
    pub(crate) fn into_settled(self) -> LaneTelling
        ensures via { seat result.end ≡ self.via }
        ensures lane { IsLaneOf self result }
    {
        self.settled
    }
}

impl<P: ByteOut> Tell for SavingTell<P> {
    ghost use Rattle.std.specs.Prelude.{ℕ, List};
    ghost use Rattle.relay_run.specs.Saving.{told_by};
    ghost use Rattle.relay_run.specs.Settling.{Seat};

    ghost told = { λ t p. told_by t p };

    // How the operations are numbered in the reports, and the end by which it tells what is settled.
    ghost Destination = { List ℕ × Seat };

    ghost destination = { λ t. (t.before, t.via) };

    fn applied<R: Wait>(&mut self, rt: &R, successes: &[Success]) {
        if let Some(stop) = &self.stop {
            stop.tell_applied(successes.len());
        }
        self.settled.applied(rt, successes);
        note_all(&mut self.applied, successes);
    }

    fn reported<R: Wait>(&mut self, rt: &R, report: &Report) -> Result<(), AllocError> {
        let named = self.numbering.report(report)?;
        self.failed = save(self.alloc, &mut self.file, self.failed, &named)?;
        if let Some(stop) = &self.stop {
            stop.tell_reported(&report.cause);
        }
        self.settled.reported(rt, report.name, self.failed);
        self.reported = self.reported.and(report, &());
        Ok(())
    }

    fn ended<R: Wait>(&mut self, _rt: &R) {}
}

// Notes for proofs that it was told of these operations.
fn note_all(noted: &mut Log<Success, ()>, successes: &[Success])
    ensures { map (λ x. x.0) noted.new.items
        ≡ map (λ x. x.0) noted.old.items ++ successes.now }
{
    for success in successes {
        *noted = noted.and(success, &());
    }
}

// Saves a report, unless a write failed before. Returns whether one has failed.
fn save<P: ByteOut>(
    alloc: Global,
    file: &mut P,
    failed: bool,
    report: &Report,
) -> Result<bool, AllocError>
    ensures ok { IfOk result (λ now. KeepsOneMore report.now failed now
        (P.written file.old) (P.written file.new) (P.failed file.old) (P.failed file.new)) }
    ensures stays { failed ≡ true → IfOk result (λ now. now ≡ true) }
    ensures on { IfOk result (λ _. GoesOn (P.written file.old) (P.written file.new)) }
    ensures err { OnErr result ((P.written file.new ≡ P.written file.old)
        × (P.failed file.new ≡ P.failed file.old)) }
{
    if failed {
        return Ok(true);
    }
    let mut line = Vec::new(alloc);
    append_report(alloc, &mut line, report)?;
    Ok(!say(file, &line))
}

// Adds what a lane tells by that saves its reports in this file, to which nothing was written yet, and
// tells by this which operations are settled.
fn add_tell<P: ByteOut + Drop>(
    alloc: Global,
    tells: &mut Vec<SavingTell<P>>,
    file: P,
    numbering: Numbering,
    stop: &Option<SharedStop>,
    settled: LaneTelling,
) -> Result<(), AllocError>
    requires file { IsExactly (P.written file) [] × (P.failed file ≡ 0) }
    requires settled { (settled.applied ≡ []) × (settled.saved ≡ []) }
    ensures added { OnOk result (AddsOne tells.old.items tells.new.items numbering.before
        (seat settled.end)) }
    ensures len { OnOk result (vec_len tells.new ≡ vec_len tells.old + 1) }
{
    let stop = share_stop(stop)?;
    tells.push(SavingTell::new(alloc, file, numbering, stop, settled))?;
    Ok(())
}

// Adds what a lane tells by for each of these files.
fn add_tells<P: ByteOut + Drop>(
    alloc: Global,
    tells: &mut Vec<SavingTell<P>>,
    files: Vec<P>,
    numbering: Numbering,
    stop: &Option<SharedStop>,
    settled: Vec<LaneTelling>,
) -> Result<(), AllocError>
    requires none { tells.old.items ≡ [] }
    requires files { AreUnwritten P.written P.failed files.items }
    requires settled { AreUntold settled.items }
    requires lanes { vec_len settled ≡ vec_len files }
    ensures count { OnOk result (vec_len tells.new ≡ vec_len files) }
    ensures seats { OnOk result (map seat_of tells.new.items ≡ map lane_seat settled.items) }
    ensures new { OnOk result (AreNew tells.new.items) }
    ensures before { OnOk result (AllGoOnFrom numbering.before tells.new.items) }
{
    let mut settled = settled.into_iter();
    for file in files {
        match settled.next() {
            Some(settled) => add_tell(alloc, tells, file, numbering, stop, settled)?,
            None => return Err(AllocError),
        }
    }
    Ok(())
}

/// For each of these files, to which nothing was written yet, what a lane tells by that saves its
/// reports there, and tells the stop of them, and by what is at its position which operations are
/// settled. Its operations are named by this numbering there.
/// `AllocError`: allocation failed.
pub fn make_tells<P: ByteOut + Drop>(
    alloc: Global,
    files: Vec<P>,
    numbering: Numbering,
    stop: &Option<SharedStop>,
    settled: Vec<LaneTelling>,
) -> Result<Vec<SavingTell<P>>, AllocError>
    requires files { AreUnwritten P.written P.failed files.items }
    requires settled { AreUntold settled.items }
    requires lanes { vec_len settled ≡ vec_len files }
    ensures count { IfOk result (λ v. vec_len v ≡ vec_len files) }
    ensures seats { IfOk result (λ v. map seat_of v.items ≡ map lane_seat settled.items) }
    ensures new { IfOk result (λ v. AreNew v.items) }
    ensures before { IfOk result (λ v. AllGoOnFrom numbering.before v.items) }
{
    let mut tells = Vec::with_capacity(alloc, files.len())?;
    add_tells(alloc, &mut tells, files, numbering, stop, settled)?;
    Ok(tells)
}

/// Whether a write of a report failed in one of the lanes.
pub fn have_failed<P: ByteOut + Drop>(tells: &[SavingTell<P>]) -> bool
    ensures failed { SayFailed tells.now result }
    ensures keep { AllKeep tells.now }
{
    let mut failed = false;
    for tell in tells {
        failed = tell.has_failed() || failed;
    }
    failed
}
