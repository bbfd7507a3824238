//! Waiting until the lanes of a relay have ended, and summing up what they have done.
ghost use Rattle.std.specs.Prelude.{◌≡◌, ◌+◌, ◌<◌, ◌≤◌, ◌||◌, []};
ghost use Rattle.std.specs.Prelude.{ℕ, List, IfOk, IfErr, map, vec_len, vec_capacity};
ghost use Rattle.relay_action.specs.declared.operation.Op.{Op};
ghost use Rattle.relay_queue.specs.Messages.{mail_of, HasDone};
ghost use Rattle.relay_producer.specs.Ends.{is_gone, closed_puts};
ghost use Rattle.relay_producer.specs.Puts.{HaveNoPuts};
ghost use Rattle.relay_threads.specs.DeliveryOfAll.{HavePut, AllDelivered};
ghost use Rattle.relay_threads.specs.Faults.{FirstOf, TellsFault, is_gone_in, is_gone_in_any};
ghost use Rattle.relay_threads.specs.Faults.{is_gone_lane, ends_as, is_memory, is_gone_kind};
ghost use Rattle.relay_threads.specs.Ending.{AllFinished, HasFault};
ghost use Rattle.relay_threads.specs.Relay.{AreRows, rows_of};
ghost use Rattle.relay_threads.specs.Sums.{IsClosedOn, AreClosedOn, IsMet, AreMet, AreDone};
ghost use Rattle.relay_threads.specs.Sums.{NoneGone, queues_of_ends, SumsUp, AllSumUp};
ghost use Rattle.relay_threads.specs.ToldAll.{AllTold, AllToldOfPuts};
ghost use Rattle.relay_threads.specs.Together.{AreDeliveredTogether};

use crate::fault::{FinishFault, FinishFaultKind};
use crate::lane_end::{LaneEnd, LaneEndKind};
use crate::relay::Relay;
use crate::rows::pop_each;
use crate::summary::{LaneSummary, Summary};
use crate::tell::Tell;
use crate::thread::join_all;
use relay_lane::Wire;
use relay_producer::{ClosedControl, ClosedEnd, ClosedProducer};
use relay_queue::Taken;
use std::alloc::{AllocError, Global};
use std::thread::Threads;

// ---- faults

fn is_marked(end: &ClosedEnd) -> bool
    ensures { result ≡ is_gone end.now }
{
    matches!(end, ClosedEnd::Gone(_))
}

// Whether a closed handle has marked the lane.
fn is_marked_at(row: &Vec<ClosedEnd>, lane: usize) -> bool
    ensures { result ≡ is_gone_in row.now.items lane }
{
    if lane < row.len() {
        is_marked(&row[lane])
    } else {
        false
    }
}

fn is_memory(kind: LaneEndKind) -> bool
    ensures { result ≡ is_memory kind }
{
    matches!(kind, LaneEndKind::Memory)
}

fn is_gone(kind: LaneEndKind) -> bool
    ensures { result ≡ is_gone_kind kind }
{
    matches!(kind, LaneEndKind::Gone)
}

// The first lane that ended as Memory.
fn first_memory<W: Drop>(ends: &Vec<LaneEnd<W>>) -> Option<u32>
    requires { vec_len ends.now ≤ 8 }
    ensures { FirstOf (ends_as is_memory ends.now.items) (vec_len ends.now) result }
{
    for lane in 0..ends.len() {
        if is_memory(ends[lane].kind) {
            return Some(lane as u32);
        }
    }
    None
}

// Whether one of the closed handles has marked the lane.
fn is_marked_by_any(rows: &Vec<Vec<ClosedEnd>>, lane: usize) -> bool
    ensures { result ≡ is_gone_in_any (map (λ r. r.items) rows.now.items) lane }
{
    for sender in 0..rows.len() {
        if is_marked_at(&rows[sender], lane) {
            return true;
        }
    }
    false
}

// Whether a lane ended as Gone, or one of the closed handles has marked it.
fn is_lost<W: Drop>(end: &LaneEnd<W>, rows: &Vec<Vec<ClosedEnd>>, lane: usize) -> bool
    ensures { result ≡ (is_gone_kind end.now.kind
        || is_gone_in_any (map (λ r. r.items) rows.now.items) lane) }
{
    is_gone(end.kind) || is_marked_by_any(rows, lane)
}

// The first lane that ended as Gone, or that a closed handle has marked.
fn first_gone<W: Drop>(ends: &Vec<LaneEnd<W>>, rows: &Vec<Vec<ClosedEnd>>) -> Option<u32>
    requires { vec_len ends.now ≤ 8 }
    ensures { FirstOf (is_gone_lane ends.now.items (map (λ r. r.items) rows.now.items))
        (vec_len ends.now) result }
{
    for lane in 0..ends.len() {
        if is_lost(&ends[lane], rows, lane) {
            return Some(lane as u32);
        }
    }
    None
}

/// The fault of lanes that have ended, given their ends and the closed handles' ends of their
/// queues, one row per handle: `LaneMemory` of the first lane that ended as Memory; if none did,
/// `LaneGone` of the first that ended as Gone or that a handle has marked. `None`: each lane has
/// finished, and none is marked.
pub fn fault_of<W: Drop>(ends: &Vec<LaneEnd<W>>, rows: &Vec<Vec<ClosedEnd>>) -> Option<FinishFault>
    requires { vec_len ends.now ≤ 8 }
    ensures { TellsFault ends.now.items (map (λ r. r.items) rows.now.items) result }
{
    if let Some(lane) = first_memory(ends) {
        return Some(FinishFault {
            kind: FinishFaultKind::LaneMemory,
            lane,
        });
    }
    first_gone(ends, rows).map(|lane| FinishFault {
        kind: FinishFaultKind::LaneGone,
        lane,
    })
}

// ---- what is returned

// The closed ends of the senders, in order. There is room for all.
fn give_back(
    places: Vec<Vec<ClosedEnd>>,
    producers: Vec<ClosedProducer>,
    control: ClosedControl,
) -> Vec<Vec<ClosedEnd>>
    requires none { places.items ≡ [] }
    requires places { vec_len producers + 1 ≤ vec_capacity places }
    ensures rows { map (λ r. r.items) result.items ≡ rows_of producers.items control }
    ensures no_puts { HaveNoPuts (closed_puts control.ends) }
{
    let mut rows = places;
    for producer in producers {
        rows.push_reserved(producer.into_ends());
    }
    rows.push_reserved(control.into_ends());
    rows
}

// Compares what was taken with what one sender sent.
fn meet_one(taken: Taken, end: ClosedEnd, sender: u32) -> Taken
    requires end { IsClosedOn taken.queue sender end }
    requires done { HasDone (mail_of sender taken.taken) }
    ensures same { result ≡ taken }
    ensures met { IsMet sender taken.taken end }
{
    match end {
        ClosedEnd::Closed(put) => taken.meet(put),
        ClosedEnd::Gone(_) => unreachable!(),
    }
}

// Compares what was taken with what each sender sent.
fn meet_all(taken: Taken, column: Vec<ClosedEnd>)
    requires few { vec_len column ≤ 257 }
    requires column { AreClosedOn taken.queue 0 column.items }
    requires done { (sender : ℕ) → sender < vec_len column → HasDone (mail_of sender taken.taken) }
    ensures { AreMet 0 taken.taken column.items }
{
    let mut taken = taken;
    let mut sender = 0u32;
    for end in column {
        taken = meet_one(taken, end, sender);
        sender += 1;
    }
}

// ---- the summary

// The summary of a lane in which each sender has closed.
fn sum_up<W: Drop>(end: LaneEnd<W>, column: Vec<ClosedEnd>) -> LaneSummary<W>
    requires few { vec_len column ≤ 257 }
    requires column { AreClosedOn end.taken.queue 0 column.items }
    requires done { (sender : ℕ) → sender < vec_len column
        → HasDone (mail_of sender end.taken.taken) }
    ensures met { AreMet 0 end.taken.taken column.items }
    ensures sums { SumsUp end result }
{
    let LaneEnd {
        kind: _,
        taken,
        lane,
        wire,
    } = end;
    meet_all(taken, column);
    let totals = lane.totals();
    LaneSummary {
        taken: totals.taken,
        applied: totals.applied,
        already: totals.already,
        requests: totals.requests,
        reports: lane.into_reports(),
        wire,
    }
}

// The summaries of the lanes, none of which is marked.
fn sum_up_all<W: Drop>(
    alloc: Global,
    ends: Vec<LaneEnd<W>>,
    rows: Vec<Vec<ClosedEnd>>,
) -> Result<Vec<LaneSummary<W>>, AllocError>
    requires few { vec_len rows ≤ 257 }
    requires rows { AreRows (queues_of_ends ends.items) 0 (map (λ r. r.items) rows.items) }
    requires none_gone { NoneGone (map (λ r. r.items) rows.items) }
    requires done { AreDone (vec_len rows) ends.items }
    ensures { IfOk result (λ v. AllSumUp (map (λ r. r.items) rows.items) 0 ends.items v.items) }
{
    let mut ends = ends;
    let mut rows = rows;
    let mut all = Vec::new(alloc);
    while let Some(end) = ends.pop() {
        let column = pop_each(alloc, &mut rows)?;
        all.insert(0, sum_up(end, column))?;
    }
    Ok(all)
}

impl<W: Wire + Drop + Send + 'static, T: Tell + Drop + Send + 'static> Relay<W, T> {
    /// Waits until every lane has ended, and returns what each has done. Each handle that `start`
    /// returned must be closed and passed here: the producers in order, and the control.
    ///
    /// After `Ok` each lane has finished: it took exactly what the handles sent there, and each
    /// operation was applied or is reported, by answers that the lane's wire returned. Over all
    /// lanes no operation is reported twice, and one assignment of versions is used for all
    /// reports. A fault names the first lane of its kind: one that ended as Memory, otherwise one
    /// that ended as Gone or that a handle has marked; otherwise an allocation for the summary
    /// failed. What was taken until then was delivered as
    /// [`run_lane`](crate::run_lane) says.
    pub fn finish<R: Threads>(
        self,
        rt: &R,
        producers: Vec<ClosedProducer>,
        control: ClosedControl,
    ) -> Result<Summary<W>, FinishFault>
        requires count { vec_len producers ≡ self.config.producers }
        requires rows { AreRows self.queues 0 (rows_of producers.items control) }
        ensures finished { IfOk result (λ s. AllFinished W.describes W.fits W.carries self.config
            (rows_of producers.items control) 0 self.wires s.lanes.items) }
        ensures delivered { IfOk result (λ s. (puts : ℕ → List Op)
            → HavePut puts 0 producers.items
            → AllDelivered W.describes W.fits W.carries self.config puts
            (rows_of producers.items control) 0 self.wires s.lanes.items) }
        ensures together { IfOk result (λ s. (puts : ℕ → List Op)
            → HavePut puts 0 producers.items
            → AreDeliveredTogether W.describes W.fits self.config puts self.wires s.lanes.items) }
        ensures fault { IfErr result (λ e. HasFault W.describes W.fits W.carries self.config
            self.queues self.wires (rows_of producers.items control) e) }
    {
        let (summary, _) = self.finish_telling(rt, producers, control)?;
        Ok(summary)
    }

    /// The same as [`Relay::finish`]; it also returns what each lane told by, after its last call.
    ///
    /// After `Ok` each lane has told of each operation that it took once: as applied, or by its
    /// report in the summary. An operation that it told of as applied has the version assigned for
    /// its place. Beside each outside that explains the lane's calls, and beside one that continues
    /// each outside which its wire describes, the index has applied the write with that version, and
    /// each report has a true cause. What it told by tells where it did at the start.
    pub fn finish_telling<R: Threads>(
        self,
        rt: &R,
        producers: Vec<ClosedProducer>,
        control: ClosedControl,
    ) -> Result<(Summary<W>, Vec<T>), FinishFault>
        requires count { vec_len producers ≡ self.config.producers }
        requires rows { AreRows self.queues 0 (rows_of producers.items control) }
        ensures finished { IfOk result (λ r. AllFinished W.describes W.fits W.carries self.config
            (rows_of producers.items control) 0 self.wires r.0.lanes.items) }
        ensures delivered { IfOk result (λ r. (puts : ℕ → List Op)
            → HavePut puts 0 producers.items
            → AllDelivered W.describes W.fits W.carries self.config puts
            (rows_of producers.items control) 0 self.wires r.0.lanes.items) }
        ensures together { IfOk result (λ r. (puts : ℕ → List Op)
            → HavePut puts 0 producers.items
            → AreDeliveredTogether W.describes W.fits self.config puts self.wires r.0.lanes.items) }
        ensures told { IfOk result (λ r. AllTold W.describes W.fits W.carries T.told self.config
            (rows_of producers.items control) 0 self.wires self.tells
            r.1.items r.0.lanes.items) }
        ensures told_of_puts { IfOk result (λ r. (puts : ℕ → List Op)
            → HavePut puts 0 producers.items
            → AllToldOfPuts W.describes W.fits W.carries T.told self.config puts
            (rows_of producers.items control) 0 self.wires self.tells r.1.items r.0.lanes.items) }
        ensures destinations { IfOk result (λ r. map T.destination r.1.items
            ≡ map T.destination self.tells) }
        ensures fault { IfErr result (λ e. HasFault W.describes W.fits W.carries self.config
            self.queues self.wires (rows_of producers.items control) e) }
    {
        let Relay {
            alloc,
            config: _,
            lanes,
            ends,
            tells,
            rows,
        } = self;
        let (ends, tells) = join_all(rt, lanes, ends, tells);
        let rows = give_back(rows, producers, control);
        if let Some(fault) = fault_of(&ends, &rows) {
            return Err(fault);
        }
        let lanes = sum_up_all(alloc, ends, rows).map_err(|_| FinishFault {
            kind: FinishFaultKind::Memory,
            lane: 0,
        })?;
        Ok((Summary { lanes }, tells))
    }
}
