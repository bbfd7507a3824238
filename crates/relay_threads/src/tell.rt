//! Telling how operations ended.
ghost use Rattle.std.specs.Prelude.{◌≡◌, ℕ, Option, OnOk, OnErr};
ghost use Rattle.relay_core.specs.Walk.{report_of};
ghost use Rattle.relay_threads.specs.Told.{Told, AddsApplied, AddsReport, AddsNothing};

use relay_lane::{Report, Success};
use std::alloc::AllocError;
use std::sync::Wait;

/// To whom a lane's thread tells how the operations that it took ended, after the answer that ended
/// them was read.
pub trait Tell {
    /// What it was told of the operations of each producer, if it shows that. It may cease to show
    /// it, for a producer that is gone, say.
    ghost told: { Self → ℕ → Option Told };

    /// Where it tells, and how: the channels that it tells on, for example.
    ghost Destination: { Type 0 };

    /// Where it tells, and how. No call changes that.
    ghost destination: { Self → Destination };

    /// Tells of operations that ended as applied, in the order in which they ended.
    fn applied<R: Wait>(&mut self, rt: &R, successes: &[Success])
        ensures told { (p : ℕ) → AddsApplied p successes.now (told self.old p) (told self.new p) }
        ensures destination { destination self.new ≡ destination self.old };

    /// Tells of an operation that was reported. `AllocError`: an allocation failed, and nothing was
    /// told.
    fn reported<R: Wait>(&mut self, rt: &R, report: &Report) -> Result<(), AllocError>
        ensures ok { OnOk result
            ((p : ℕ) → AddsReport p (report_of report.now) (told self.old p) (told self.new p)) }
        ensures err { OnErr result ((p : ℕ) → AddsNothing (told self.old p) (told self.new p)) }
        ensures destination { destination self.new ≡ destination self.old };

    /// Tells that the lane's thread ends. Nothing is told after it.
    fn ended<R: Wait>(&mut self, rt: &R)
        ensures told { (p : ℕ) → AddsNothing (told self.old p) (told self.new p) }
        ensures destination { destination self.new ≡ destination self.old };
}

/// Tells nobody.
#[derive(Clone, Copy, Debug, Drop)]
pub struct TellNobody;

impl Tell for TellNobody {
    ghost use Rattle.std.specs.Prelude.{None};

    ghost told = { λ t p. None };

    ghost Destination = { Unit {0} };

    ghost destination = { λ _. tt };

    fn applied<R: Wait>(&mut self, _rt: &R, _successes: &[Success]) {}

    fn reported<R: Wait>(&mut self, _rt: &R, _report: &Report) -> Result<(), AllocError> {
        Ok(())
    }

    fn ended<R: Wait>(&mut self, _rt: &R) {}
}
