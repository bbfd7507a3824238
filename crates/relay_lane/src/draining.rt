//! A lane sends, repeats and settles over a wire. The ticks that pass while a call waits for the
//! wire are counted, as its pace returns them, before the lane decides anything.
ghost use Rattle.std.specs.Prelude.{◌≡◌, ◌+◌, ◌*◌, ◌-◌, ◌<◌, ◌≤◌, [], None, true, false, length};
ghost use Rattle.std.specs.Prelude.{nat_lt, IfOk, OnOk, OnErr, MatchResult};
ghost use Rattle.relay_core.specs.State.{next_batch, all_closed, after_flush};
ghost use Rattle.relay_lane.specs.Out.{out_of};
ghost use Rattle.relay_lane.specs.Turns.{Stays, pumps, sends_only, collects, holds};
ghost use Rattle.relay_lane.specs.Turns.{holds_some, is_full, Passed, sends_left, work_left};
ghost use Rattle.relay_lane.specs.Steps.{IsPressed, Progressed};
ghost use Rattle.relay_lane.specs.Delivers.{Delivers, TookTurnIf, WorkedOn};

use crate::pace::Pace;
use crate::turn::{send_next, settle_oldest, wait};
use crate::wire::Wire;
use relay_core::Lane;
use std::alloc::AllocError;

/// Sends every request that is ready, and returns how many. If all places in flight are taken, it
/// waits for the answer to the oldest request and settles it, so that the next one can be sent. It
/// does not pause. What is still in flight at the end is settled by a later call, or by [`collect`].
/// `AllocError`: allocating a request failed; the lane is as the turns before left it, and the call
/// may be repeated.
pub fn pump<W: Wire, P: Pace>(
    lane: &mut Lane,
    wire: &mut W,
    pace: &mut P,
) -> Result<u64, AllocError>
    requires out { W.out wire.old ≡ out_of lane.old.state }
    ensures requests { IfOk result
        (λ n. lane.new.state.core.requests ≡ lane.old.state.core.requests + n) }
    ensures done { OnOk result (next_batch lane.new.state ≡ None) }
    ensures place { OnOk result
        (length lane.new.state.core.flying < lane.new.state.config.in_flight) }
    ensures memory { OnErr result (0 < length lane.new.state.core.held) }
    ensures worked { WorkedOn (W.describes wire.old) W.fits W.carries pumps wire.old wire.new
        lane.old.state lane.new.state }
    ensures passed { Passed lane.old.state.core.clock lane.new.state.core.clock
        (P.paused pace.old) (P.paused pace.new) }
    ensures bound { lane.new.state.core.requests + sends_left lane.new.state
        ≤ lane.old.state.core.requests + sends_left lane.old.state }
    ensures stays { Stays lane.old.state lane.new.state }
    ensures out { W.out wire.new ≡ out_of lane.new.state }
    ensures describes { W.describes wire.new ≡ W.describes wire.old }
{
    let _ = lane.totals();
    let places = lane.in_flight();
    let mut sent: u64 = 0;
    'turns: loop {
        if send_next(lane, wire, pace)? {
            sent += 1;
        } else if lane.flying() >= places {
            settle_oldest(lane, wire, pace);
        } else {
            return Ok(sent);
        }
    }
}

/// Sends every request that is ready while a place in flight is free, and returns how many. It
/// waits for no answer, and does not pause. `AllocError`: the allocation of a request failed; the
/// lane is as the requests before left it, and the call may be repeated.
pub fn send_ready<W: Wire, P: Pace>(
    lane: &mut Lane,
    wire: &mut W,
    pace: &mut P,
) -> Result<u64, AllocError>
    requires out { W.out wire.old ≡ out_of lane.old.state }
    ensures requests { IfOk result
        (λ n. lane.new.state.core.requests ≡ lane.old.state.core.requests + n) }
    ensures done { OnOk result (next_batch lane.new.state ≡ None) }
    ensures memory { OnErr result (0 < length lane.new.state.core.held) }
    ensures worked { WorkedOn (W.describes wire.old) W.fits W.carries sends_only wire.old wire.new
        lane.old.state lane.new.state }
    ensures passed { Passed lane.old.state.core.clock lane.new.state.core.clock
        (P.paused pace.old) (P.paused pace.new) }
    ensures bound { lane.new.state.core.requests + sends_left lane.new.state
        ≤ lane.old.state.core.requests + sends_left lane.old.state }
    ensures stays { Stays lane.old.state lane.new.state }
    ensures out { W.out wire.new ≡ out_of lane.new.state }
    ensures describes { W.describes wire.new ≡ W.describes wire.old }
{
    let _ = lane.totals();
    let mut count: u64 = 0;
    'turns: loop {
        if send_next(lane, wire, pace)? {
            count += 1;
        } else {
            return Ok(count);
        }
    }
}

/// Waits for the answer to the oldest request in flight, if there is one, and settles it. Returns
/// whether there was one. Nothing is sent, it does not pause, and the lane allocates nothing.
pub fn settle_next<W: Wire, P: Pace>(lane: &mut Lane, wire: &mut W, pace: &mut P) -> bool
    requires out { W.out wire.old ≡ out_of lane.old.state }
    ensures some { result ≡ nat_lt 0 (length lane.old.state.core.flying) }
    ensures one { length lane.new.state.core.flying ≡ length lane.old.state.core.flying - 1 }
    ensures worked { WorkedOn (W.describes wire.old) W.fits W.carries collects wire.old wire.new
        lane.old.state lane.new.state }
    ensures requests { lane.new.state.core.requests ≡ lane.old.state.core.requests }
    ensures passed { Passed lane.old.state.core.clock lane.new.state.core.clock
        (P.paused pace.old) (P.paused pace.new) }
    ensures bound { sends_left lane.new.state ≤ sends_left lane.old.state }
    ensures stays { Stays lane.old.state lane.new.state }
    ensures out { W.out wire.new ≡ out_of lane.new.state }
    ensures describes { W.describes wire.new ≡ W.describes wire.old }
{
    let _ = lane.totals();
    if lane.flying() == 0 {
        return false;
    }
    settle_oldest(lane, wire, pace);
    true
}

/// Waits for the answer to each request in flight, the oldest first, settles it, and returns how
/// many there were. Nothing is sent, it does not pause, and the lane allocates nothing.
pub fn collect<W: Wire, P: Pace>(lane: &mut Lane, wire: &mut W, pace: &mut P) -> u64
    requires out { W.out wire.old ≡ out_of lane.old.state }
    ensures count { result ≡ length lane.old.state.core.flying }
    ensures none { lane.new.state.core.flying ≡ [] }
    ensures worked { WorkedOn (W.describes wire.old) W.fits W.carries collects wire.old wire.new
        lane.old.state lane.new.state }
    ensures requests { lane.new.state.core.requests ≡ lane.old.state.core.requests }
    ensures passed { Passed lane.old.state.core.clock lane.new.state.core.clock
        (P.paused pace.old) (P.paused pace.new) }
    ensures bound { sends_left lane.new.state ≤ sends_left lane.old.state }
    ensures stays { Stays lane.old.state lane.new.state }
    ensures out { W.out wire.new ≡ [] }
    ensures describes { W.describes wire.new ≡ W.describes wire.old }
{
    let _ = lane.totals();
    let mut settled: u64 = 0;
    'answers: while lane.flying() > 0 {
        settle_oldest(lane, wire, pace);
        settled += 1;
    }
    settled
}

// Takes one turn of a lane that holds something: its next request is sent, or if none is ready, the
// oldest in flight is answered, or if none is in flight either, it pauses.
fn take_turn<W: Wire, P: Pace>(
    lane: &mut Lane,
    wire: &mut W,
    pace: &mut P,
) -> Result<(), AllocError>
    requires some { 0 < length lane.old.state.core.held }
    requires pressed { IsPressed lane.old.state }
    requires out { W.out wire.old ≡ out_of lane.old.state }
    ensures turn { OnOk result (Progressed (W.describes wire.old) W.fits W.carries wire.old wire.new
        lane.old.state lane.new.state) }
    ensures unchanged { OnErr result (lane.new.state ≡ lane.old.state) }
    ensures delivers { OnErr result (Delivers (W.describes wire.old) W.fits W.carries wire.old wire.new
        lane.old.state lane.new.state []) }
    ensures passed { Passed lane.old.state.core.clock lane.new.state.core.clock
        (P.paused pace.old) (P.paused pace.new) }
    ensures out { W.out wire.new ≡ out_of lane.new.state }
    ensures describes { W.describes wire.new ≡ W.describes wire.old }
{
    if send_next(lane, wire, pace)? {
        return Ok(());
    }
    if lane.flying() > 0 {
        settle_oldest(lane, wire, pace); // so that no answer waits out a pause
        return Ok(());
    }
    wait(lane, pace);
    Ok(())
}

// Sends, repeats and settles until fewer than `least` operations are held.
fn work<W: Wire, P: Pace>(
    lane: &mut Lane,
    wire: &mut W,
    pace: &mut P,
    least: u32,
) -> Result<(), AllocError>
    requires some { 1 ≤ least }
    requires pressed { IsPressed lane.old.state }
    requires out { W.out wire.old ≡ out_of lane.old.state }
    ensures done { OnOk result (length lane.new.state.core.held < least) }
    ensures memory { OnErr result (least ≤ length lane.new.state.core.held) }
    ensures worked { WorkedOn (W.describes wire.old) W.fits W.carries (holds least) wire.old wire.new
        lane.old.state lane.new.state }
    ensures bound { lane.new.state.core.requests + sends_left lane.new.state
        ≤ lane.old.state.core.requests + sends_left lane.old.state }
    ensures passed { Passed lane.old.state.core.clock lane.new.state.core.clock
        (P.paused pace.old) (P.paused pace.new) }
    ensures stays { Stays lane.old.state lane.new.state }
    ensures out { W.out wire.new ≡ out_of lane.new.state }
    ensures describes { W.describes wire.new ≡ W.describes wire.old }
{
    let _ = lane.totals();
    'turns: while lane.held() >= least {
        take_turn(lane, wire, pace)?;
    }
    Ok(())
}

/// Flushes, and then sends, repeats and settles until fewer than `max_held` operations are held. If
/// nothing is ready it settles the oldest request in flight; if none is in flight either, it pauses
/// and ticks, as [`drain`] does. So a lane that has room is only flushed. `AllocError`: allocating
/// a request failed; the lane is as the turns before left it, and the call may be repeated.
pub fn make_room<W: Wire, P: Pace>(
    lane: &mut Lane,
    wire: &mut W,
    pace: &mut P,
) -> Result<(), AllocError>
    requires out { W.out wire.old ≡ out_of lane.old.state }
    ensures done { OnOk result (length lane.new.state.core.held < lane.new.state.config.max_held) }
    ensures memory { OnErr result
        (lane.new.state.config.max_held ≤ length lane.new.state.core.held) }
    ensures worked { WorkedOn (W.describes wire.old) W.fits W.carries is_full wire.old wire.new
        (after_flush lane.old.state) lane.new.state }
    ensures bound { lane.new.state.core.requests + sends_left lane.new.state
        ≤ lane.old.state.core.requests + sends_left lane.old.state }
    ensures passed { Passed lane.old.state.core.clock lane.new.state.core.clock
        (P.paused pace.old) (P.paused pace.new) }
    ensures stays { Stays lane.old.state lane.new.state }
    ensures out { W.out wire.new ≡ out_of lane.new.state }
    ensures describes { W.describes wire.new ≡ W.describes wire.old }
{
    let _ = lane.totals();
    let most = lane.max_held();
    lane.flush();
    work(lane, wire, pace, most)
}

/// Sends, repeats and settles until a closed lane holds nothing. It sends at most `attempts + 14`
/// requests for each operation held, 14 for the halvings of requests that are too large. If nothing
/// is ready it settles the oldest request in flight; if none is in flight either, it pauses until
/// the first operation that may be sent is due, and ticks the clock accordingly. `AllocError`:
/// allocating a request failed; the lane is as the turns before left it, and the call may be
/// repeated.
pub fn drain<W: Wire, P: Pace>(
    lane: &mut Lane,
    wire: &mut W,
    pace: &mut P,
) -> Result<(), AllocError>
    requires closed { all_closed lane.old.state ≡ true }
    requires out { W.out wire.old ≡ out_of lane.old.state }
    ensures done { OnOk result (lane.new.state.core.held ≡ []) }
    ensures memory { OnErr result (0 < length lane.new.state.core.held) }
    ensures worked { WorkedOn (W.describes wire.old) W.fits W.carries holds_some wire.old wire.new
        lane.old.state lane.new.state }
    ensures bound { lane.new.state.core.requests + sends_left lane.new.state
        ≤ lane.old.state.core.requests + sends_left lane.old.state }
    ensures most { lane.new.state.core.requests
        ≤ lane.old.state.core.requests
        + length lane.old.state.core.held * (lane.old.state.config.attempts + 14) }
    ensures passed { Passed lane.old.state.core.clock lane.new.state.core.clock
        (P.paused pace.old) (P.paused pace.new) }
    ensures stays { Stays lane.old.state lane.new.state }
    ensures out { W.out wire.new ≡ out_of lane.new.state }
    ensures describes { W.describes wire.new ≡ W.describes wire.old }
{
    let _ = lane.totals();
    work(lane, wire, pace, 1)
}

/// One turn of [`drain`], if a closed lane holds something; returns whether it did. So a caller that
/// repeats it until it returns false has drained the lane, and can look at it after each turn; each
/// leaves less to do (`work_left`). `AllocError`: allocating a request failed; the lane is unchanged.
pub fn drain_next<W: Wire, P: Pace>(
    lane: &mut Lane,
    wire: &mut W,
    pace: &mut P,
) -> Result<bool, AllocError>
    requires closed { all_closed lane.old.state ≡ true }
    requires out { W.out wire.old ≡ out_of lane.old.state }
    ensures some { IfOk result (λ some. some ≡ nat_lt 0 (length lane.old.state.core.held)) }
    ensures turn { MatchResult result
        (λ some. TookTurnIf some (W.describes wire.old) W.fits W.carries holds_some wire.old wire.new
        lane.old.state lane.new.state)
        (λ _. TookTurnIf false (W.describes wire.old) W.fits W.carries holds_some wire.old wire.new
        lane.old.state lane.new.state) }
    ensures memory { OnErr result (0 < length lane.old.state.core.held) }
    ensures smaller { IfOk result (λ some. some ≡ true
        → work_left lane.new.state < work_left lane.old.state) }
    ensures bound { lane.new.state.core.requests + sends_left lane.new.state
        ≤ lane.old.state.core.requests + sends_left lane.old.state }
    ensures passed { Passed lane.old.state.core.clock lane.new.state.core.clock
        (P.paused pace.old) (P.paused pace.new) }
    ensures stays { Stays lane.old.state lane.new.state }
    ensures out { W.out wire.new ≡ out_of lane.new.state }
    ensures describes { W.describes wire.new ≡ W.describes wire.old }
{
    let _ = lane.totals();
    if lane.held() == 0 {
        return Ok(false);
    }
    take_turn(lane, wire, pace)?;
    Ok(true)
}
