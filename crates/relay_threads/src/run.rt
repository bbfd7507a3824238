//! A lane's thread: it takes messages and works until each sender has closed.
ghost use Rattle.std.specs.Prelude.{◌≡◌, ◌≢◌, ◌+◌, ◌<◌, ◌≤◌, [], ◌++◌, ◌∷◌};
ghost use Rattle.std.specs.Prelude.{ℕ, List, true, false, length, IfOk};
ghost use Rattle.std.specs.Prelude.{OnOk, OnErr, IfErr, IfSome, IfNone};
ghost use Rattle.relay_action.specs.declared.mail.Mail.{Mail};
ghost use Rattle.relay_queue.specs.Messages.{mail_of, HasDone, IsWellTaken};
ghost use Rattle.relay_core.specs.State.{fresh, all_closed, without_successes};
ghost use Rattle.relay_lane.specs.Out.{out_of};
ghost use Rattle.relay_lane.specs.Turns.{work_left};
ghost use Rattle.relay_threads.specs.Course.{KnowsClosed, HasHeard, EndsAs};
ghost use Rattle.relay_threads.specs.Steps.{Takes};
ghost use Rattle.relay_threads.specs.Told.{HasTold, GoesOnTelling, TellsMore, StaysTold, EndsTold};

use crate::lane_end::{LaneEnd, LaneEndKind};
use crate::tell::Tell;
use relay_action::{Body, Mail};
use relay_lane::{
    Lane, Pace, TakeFault, Wire, collect, drain_next, make_room, pass, send_ready, settle_next,
};
use relay_queue::{Gone, LaneTake};
use std::alloc::AllocError;
use std::hint;
use std::sync::Wait;

// Sends and settles until there is room for one operation, if the lane holds its maximum number.
fn make_place<W: Wire, P: Pace>(
    lane: &mut Lane,
    wire: &mut W,
    pace: &mut P,
) -> Result<(), AllocError>
    requires out { W.out wire.old ≡ out_of lane.old.state }
    ensures room { OnOk result (length lane.new.state.core.held < lane.new.state.config.max_held) }
    ensures closed { lane.new.state.closed ≡ lane.old.state.closed }
    ensures out { W.out wire.new ≡ out_of lane.new.state }
    ensures describes { W.describes wire.new ≡ W.describes wire.old }
    ensures told { StaysTold (W.describes wire.old) W.fits W.carries wire.old wire.new
        lane.old.state lane.new.state }
{
    if lane.held() < lane.max_held() {
        return Ok(());
    }
    make_room(lane, wire, pace)
}

// What came from the queue.
#[derive(Clone, Copy)]
enum Message {
    // A Tick or a Flush.
    Mark,
    // An operation or a Done.
    Other,
    // Nothing is queued, and no place in flight is free, or something has arrived for the oldest
    // request in flight.
    Nothing,
}

// The number of looks at the queue before a lane rests between them, and the spins between two of
// them. Together they take some microseconds: as long as a producer that is at work needs for its
// next operation, and short compared with an answer.
const LOOKS: u32 = 8;

const SPINS: u32 = 64;

fn spin() {
    for _spin in 0..SPINS {
        hint::spin_loop();
    }
}

// The next message, or `None` if none comes within some microseconds.
fn next_soon<R: Wait>(rt: &R, take: &mut LaneTake) -> Result<Option<Mail>, Gone>
    ensures same { (take.new.queue ≡ take.old.queue) × (take.new.senders ≡ take.old.senders) }
    ensures taken { IfOk result (λ o. IfSome o (λ m. take.new.taken ≡ take.old.taken ++ m ∷ [])) }
    ensures sender { IfOk result (λ o. IfSome o (λ m. m.sender < take.old.senders)) }
    ensures well_taken { IsWellTaken take.new.senders take.new.taken }
    ensures none { IfOk result (λ o. IfNone o (take.new ≡ take.old)) }
    ensures gone { IfErr result (λ _. take.new ≡ take.old) }
{
    for _look in 0..LOOKS {
        if let Some(mail) = take.try_take(rt)? {
            return Ok(Some(mail));
        }
        spin();
    }
    take.try_take(rt)
}

// The next message, or `None` once something has arrived for the oldest request in flight. If no
// message comes soon, it looks at the queue and at the connection of that request in turns, with a
// rest of about a millisecond between.
fn next_unless_answered<R: Wait, W: Wire, P: Pace>(
    rt: &R,
    take: &mut LaneTake,
    wire: &W,
    pace: &mut P,
    oldest: u64,
) -> Result<Option<Mail>, Gone>
    ensures same { (take.new.queue ≡ take.old.queue) × (take.new.senders ≡ take.old.senders) }
    ensures taken { IfOk result (λ o. IfSome o (λ m. take.new.taken ≡ take.old.taken ++ m ∷ [])) }
    ensures sender { IfOk result (λ o. IfSome o (λ m. m.sender < take.old.senders)) }
    ensures well_taken { IsWellTaken take.new.senders take.new.taken }
    ensures none { IfOk result (λ o. IfNone o (take.new ≡ take.old)) }
    ensures gone { IfErr result (λ _. take.new ≡ take.old) }
{
    if let Some(mail) = next_soon(rt, take)? {
        return Ok(Some(mail));
    }
    'looks: for _ in rt.forever() {
        if wire.has_answer(oldest) {
            return Ok(None);
        }
        pace.rest();
        if let Some(mail) = take.try_take(rt)? {
            return Ok(Some(mail));
        }
    }
    unreachable!()
}

// The next message. If there is something else to do it does not wait: `None` if nothing is queued.
// Otherwise it waits for a message or for the oldest answer, whichever comes first. It is not inlined:
// in the loop of the lane its messages would be moved more often.
#[inline(never)]
fn next_mail<R: Wait, W: Wire, P: Pace>(
    rt: &R,
    take: &mut LaneTake,
    lane: &Lane,
    wire: &W,
    pace: &mut P,
    is_busy: bool,
) -> Result<Option<Mail>, Gone>
    ensures same { (take.new.queue ≡ take.old.queue) × (take.new.senders ≡ take.old.senders) }
    ensures taken { IfOk result (λ o. IfSome o (λ m. take.new.taken ≡ take.old.taken ++ m ∷ [])) }
    ensures sender { IfOk result (λ o. IfSome o (λ m. m.sender < take.old.senders)) }
    ensures well_taken { IsWellTaken take.new.senders take.new.taken }
    ensures none { IfOk result (λ o. IfNone o (take.new ≡ take.old)) }
    ensures gone { IfErr result (λ _. take.new ≡ take.old) }
{
    if is_busy {
        return take.try_take(rt);
    }
    match lane.oldest() {
        Some(oldest) => next_unless_answered(rt, take, wire, pace, oldest),
        None => Ok(Some(take.take(rt)?)),
    }
}

// Drops a message. It is not inlined: where a message is dropped in place, the compiler moves it field
// by field instead of as a whole.
#[inline(never)]
fn let_go(_mail: Mail) {}

// Takes the next message from the queue into the lane, which has room; with `more` it does not wait
// for it. A tick only wakes a lane whose pace keeps time. If the allocation for a message fails, the
// lane is as before.
fn take_message<R: Wait, W: Wire, P: Pace>(
    rt: &R,
    take: &mut LaneTake,
    lane: &mut Lane,
    wire: &W,
    pace: &mut P,
    more: bool,
) -> Result<Message, LaneEndKind>
    requires room { length lane.old.state.core.held < lane.old.state.config.max_held }
    requires senders { length lane.old.state.closed ≡ take.old.senders }
    requires closed { KnowsClosed lane.old.state.closed take.old.taken }
    ensures same { (take.new.queue ≡ take.old.queue) × (take.new.senders ≡ take.old.senders) }
    ensures out { out_of lane.new.state ≡ out_of lane.old.state }
    ensures takes { IfOk result (λ m. m ≢ Message.Nothing
        → Takes lane.old.state lane.new.state take.old.taken take.new.taken) }
    ensures nothing { IfOk result (λ m. m ≡ Message.Nothing
        → (lane.new.state ≡ lane.old.state) × (take.new.taken ≡ take.old.taken)) }
    ensures unchanged { OnErr result (lane.new.state ≡ lane.old.state) }
    ensures early { IfErr result (λ kind. kind ≢ LaneEndKind.Finished) }
    ensures heard { IfErr result (λ kind. HasHeard kind take.new.taken take.old.taken) }
{
    let is_full = lane.flying() >= lane.in_flight();
    let Some(mail) = next_mail(rt, take, lane, wire, pace, is_full || more)? else {
        return Ok(Message::Nothing);
    };
    if matches!(&mail.body, Body::Tick) && pace.keeps_time() {
        let_go(mail);
        return Ok(Message::Mark);
    }
    let message = match mail.body {
        Body::Tick | Body::Flush => Message::Mark,
        _ => Message::Other,
    };
    match lane.take(mail) {
        Ok(()) => Ok(message),
        Err((TakeFault::Memory, _)) => Err(LaneEndKind::Memory),
        Err((TakeFault::AfterClose, _)) => unreachable!(),
        Err((TakeFault::HeldFull, _)) => unreachable!(),
    }
}

// Whether the oldest answer is to be waited for after a message: if nothing is queued, or if no place
// in flight is free for what may be ready then.
fn awaits_answer(lane: &Lane, message: Message) -> bool {
    match message {
        Message::Mark => false,
        Message::Nothing => true,
        Message::Other => lane.flying() >= lane.in_flight(),
    }
}

// Waits for the oldest answer after a message, if that is to be done, and settles it.
fn settle_some<W: Wire, P: Pace>(lane: &mut Lane, wire: &mut W, pace: &mut P, message: Message)
    requires out { W.out wire.old ≡ out_of lane.old.state }
    ensures out { W.out wire.new ≡ out_of lane.new.state }
    ensures describes { W.describes wire.new ≡ W.describes wire.old }
    ensures told { StaysTold (W.describes wire.old) W.fits W.carries wire.old wire.new
        lane.old.state lane.new.state }
{
    if awaits_answer(lane, message) {
        settle_next(lane, wire, pace);
    }
}

// Sends every request that is ready now, while a place in flight is free.
fn send_due<W: Wire, P: Pace>(lane: &mut Lane, wire: &mut W, pace: &mut P) -> Result<(), AllocError>
    requires out { W.out wire.old ≡ out_of lane.old.state }
    ensures out { W.out wire.new ≡ out_of lane.new.state }
    ensures describes { W.describes wire.new ≡ W.describes wire.old }
    ensures told { StaysTold (W.describes wire.old) W.fits W.carries wire.old wire.new
        lane.old.state lane.new.state }
{
    pass(lane, pace);
    send_ready(lane, wire, pace)?;
    Ok(())
}

// Settles what is to be settled after a message, and sends what is ready then. While the next
// request is still being gathered there is nothing to do after an operation; and what was queued
// while an answer was waited for is taken before more is sent.
fn go_on<W: Wire, P: Pace>(
    lane: &mut Lane,
    wire: &mut W,
    pace: &mut P,
    message: Message,
) -> Result<(), AllocError>
    requires out { W.out wire.old ≡ out_of lane.old.state }
    ensures out { W.out wire.new ≡ out_of lane.new.state }
    ensures describes { W.describes wire.new ≡ W.describes wire.old }
    ensures told { StaysTold (W.describes wire.old) W.fits W.carries wire.old wire.new
        lane.old.state lane.new.state }
{
    if matches!(message, Message::Other) && lane.is_gathering() {
        return Ok(());
    }
    settle_some(lane, wire, pace, message);
    if matches!(message, Message::Nothing) {
        return Ok(());
    }
    send_due(lane, wire, pace)
}

// Tells of the reports since the last call, one after another; `told` were told of before it, and
// as many as it says then were after it.
fn tell_reports<R: Wait, T: Tell>(
    rt: &R,
    lane: &Lane,
    tell: &mut T,
    told: &mut usize,
) -> Result<(), AllocError>
    ensures told { TellsMore (T.told tell.old) (T.told tell.new) told.old told.new
        lane.now.state lane.now.state }
    ensures all { OnOk result (length lane.now.state.core.reports ≤ told.new) }
    ensures destination { T.destination tell.new ≡ T.destination tell.old }
{
    let reports = lane.reports();
    while *told < reports.len() {
        tell.reported(rt, &reports[*told])?;
        *told += 1;
    }
    Ok(())
}

// Tells how operations ended since the last call: first of those that ended as applied.
fn tell_all<R: Wait, T: Tell>(
    rt: &R,
    lane: &mut Lane,
    tell: &mut T,
    told: &mut usize,
) -> Result<(), AllocError>
    ensures state { lane.new.state ≡ without_successes lane.old.state }
    ensures told { TellsMore (T.told tell.old) (T.told tell.new) told.old told.new
        lane.old.state lane.new.state }
    ensures all { OnOk result (length lane.new.state.core.reports ≤ told.new) }
    ensures destination { T.destination tell.new ≡ T.destination tell.old }
{
    tell.applied(rt, lane.successes());
    lane.forget_successes();
    tell_reports(rt, lane, tell, told)
}

// Settles and sends what is to be settled and sent after a message, and tells what has ended.
fn go_on_and_tell<R: Wait, W: Wire, P: Pace, T: Tell>(
    rt: &R,
    lane: &mut Lane,
    wire: &mut W,
    pace: &mut P,
    message: Message,
    tell: &mut T,
    told: &mut usize,
) -> Result<(), AllocError>
    requires out { W.out wire.old ≡ out_of lane.old.state }
    ensures out { W.out wire.new ≡ out_of lane.new.state }
    ensures describes { W.describes wire.new ≡ W.describes wire.old }
    ensures told { (heard : List Mail) → GoesOnTelling (W.describes wire.old) W.fits W.carries
        wire.old wire.new (T.told tell.old) (T.told tell.new) told.old told.new
        lane.old.state lane.new.state heard heard }
    ensures destination { T.destination tell.new ≡ T.destination tell.old }
{
    go_on(lane, wire, pace, message)?;
    tell_all(rt, lane, tell, told)
}

// One turn of a drain, if something is held, and tells how operations ended in it; returns whether it
// was.
fn drain_turn<R: Wait, W: Wire, P: Pace, T: Tell>(
    rt: &R,
    lane: &mut Lane,
    wire: &mut W,
    pace: &mut P,
    tell: &mut T,
    told: &mut usize,
) -> Result<bool, AllocError>
    requires closed { all_closed lane.old.state ≡ true }
    requires out { W.out wire.old ≡ out_of lane.old.state }
    ensures none { IfOk result (λ some. some ≡ false → lane.new.state.core.held ≡ []) }
    ensures all { IfOk result (λ some. some ≡ true → lane.new.state.successes ≡ []
        × (length lane.new.state.core.reports ≤ told.new)) }
    ensures smaller { IfOk result (λ some. some ≡ true
        → work_left lane.new.state < work_left lane.old.state) }
    ensures closed { lane.new.state.closed ≡ lane.old.state.closed }
    ensures out { W.out wire.new ≡ out_of lane.new.state }
    ensures describes { W.describes wire.new ≡ W.describes wire.old }
    ensures told { (heard : List Mail) → GoesOnTelling (W.describes wire.old) W.fits W.carries
        wire.old wire.new (T.told tell.old) (T.told tell.new) told.old told.new
        lane.old.state lane.new.state heard heard }
    ensures destination { T.destination tell.new ≡ T.destination tell.old }
{
    if !drain_next(lane, wire, pace)? {
        return Ok(false);
    }
    tell_all(rt, lane, tell, told)?;
    Ok(true)
}

// Works until nothing is held, and tells after each turn.
fn drain_turns<R: Wait, W: Wire, P: Pace, T: Tell>(
    rt: &R,
    lane: &mut Lane,
    wire: &mut W,
    pace: &mut P,
    tell: &mut T,
    told: &mut usize,
) -> Result<(), AllocError>
    requires closed { all_closed lane.old.state ≡ true }
    requires out { W.out wire.old ≡ out_of lane.old.state }
    ensures none { OnOk result (lane.new.state.core.held ≡ []) }
    ensures closed { lane.new.state.closed ≡ lane.old.state.closed }
    ensures out { W.out wire.new ≡ out_of lane.new.state }
    ensures describes { W.describes wire.new ≡ W.describes wire.old }
    ensures told { (heard : List Mail) → GoesOnTelling (W.describes wire.old) W.fits W.carries
        wire.old wire.new (T.told tell.old) (T.told tell.new) told.old told.new
        lane.old.state lane.new.state heard heard }
    ensures destination { T.destination tell.new ≡ T.destination tell.old }
{
    'turns: loop {
        if !drain_turn(rt, lane, wire, pace, tell, told)? {
            return Ok(());
        }
    }
}

// How a lane ends that has taken all messages: it works until nothing is held.
fn drain_all<R: Wait, W: Wire, P: Pace, T: Tell>(
    rt: &R,
    lane: &mut Lane,
    wire: &mut W,
    pace: &mut P,
    tell: &mut T,
    told: &mut usize,
) -> LaneEndKind
    requires closed { all_closed lane.old.state ≡ true }
    requires out { W.out wire.old ≡ out_of lane.old.state }
    ensures early { result ≢ LaneEndKind.Gone }
    ensures none { result ≡ LaneEndKind.Finished → lane.new.state.core.held ≡ [] }
    ensures closed { lane.new.state.closed ≡ lane.old.state.closed }
    ensures out { W.out wire.new ≡ out_of lane.new.state }
    ensures describes { W.describes wire.new ≡ W.describes wire.old }
    ensures told { (heard : List Mail) → GoesOnTelling (W.describes wire.old) W.fits W.carries
        wire.old wire.new (T.told tell.old) (T.told tell.new) told.old told.new
        lane.old.state lane.new.state heard heard }
    ensures destination { T.destination tell.new ≡ T.destination tell.old }
{
    match drain_turns(rt, lane, wire, pace, tell, told) {
        Ok(()) => LaneEndKind::Finished,
        Err(_) => LaneEndKind::Memory,
    }
}

// Whether one more message, if it is queued, may still go into the next request.
fn may_gather(lane: &Lane, message: Message) -> bool {
    matches!(message, Message::Other) && !lane.closed() && lane.held() < lane.request_count()
}

// What was heard last: an operation, if nothing is queued behind the ones that were gathered.
fn heard_last(message: Message, more: bool) -> Message {
    match message {
        Message::Nothing if more => Message::Other,
        _ => message,
    }
}

// Whether nothing was queued, so that an answer was waited for.
fn is_nothing(message: Message) -> bool {
    matches!(message, Message::Nothing)
}

// Takes one message if there is one or nothing else to wait for, and sends and settles what is to
// be sent and settled then, unless one more message may be gathered first; returns whether that is
// so. With `more` it does not wait for the message.
fn take_next<R: Wait, W: Wire, P: Pace, T: Tell>(
    rt: &R,
    take: &mut LaneTake,
    lane: &mut Lane,
    wire: &mut W,
    pace: &mut P,
    tell: &mut T,
    told: &mut usize,
    more: bool,
) -> Result<bool, LaneEndKind>
    requires senders { length lane.old.state.closed ≡ take.old.senders }
    requires closed { KnowsClosed lane.old.state.closed take.old.taken }
    requires out { W.out wire.old ≡ out_of lane.old.state }
    ensures same { (take.new.queue ≡ take.old.queue) × (take.new.senders ≡ take.old.senders) }
    ensures out { W.out wire.new ≡ out_of lane.new.state }
    ensures describes { W.describes wire.new ≡ W.describes wire.old }
    ensures early { IfErr result (λ kind. kind ≢ LaneEndKind.Finished) }
    ensures same_closed { IfErr result
        (λ kind. kind ≡ LaneEndKind.Gone → lane.new.state.closed ≡ lane.old.state.closed) }
    ensures told { OnOk result
        (GoesOnTelling (W.describes wire.old) W.fits W.carries wire.old wire.new
        (T.told tell.old) (T.told tell.new) told.old told.new
        lane.old.state lane.new.state take.old.taken take.new.taken) }
    ensures stopped { IfErr result (λ kind. (heard : List Mail) × HasHeard kind take.new.taken heard
        × GoesOnTelling (W.describes wire.old) W.fits W.carries wire.old wire.new
        (T.told tell.old) (T.told tell.new) told.old told.new
        lane.old.state lane.new.state take.old.taken heard) }
    ensures destination { T.destination tell.new ≡ T.destination tell.old }
{
    make_place(lane, wire, pace)?;
    let message = take_message(rt, take, lane, wire, pace, more)?;
    if may_gather(lane, message) {
        return Ok(true);
    }
    let last = heard_last(message, more);
    go_on_and_tell(rt, lane, wire, pace, last, tell, told)?;
    Ok(is_nothing(last))
}

// Takes until each sender has closed.
fn take_all<R: Wait, W: Wire, P: Pace, T: Tell>(
    rt: &R,
    take: &mut LaneTake,
    lane: &mut Lane,
    wire: &mut W,
    pace: &mut P,
    tell: &mut T,
    told: &mut usize,
) -> Result<(), LaneEndKind>
    requires fresh { lane.old.state ≡ fresh lane.old.state.config }
    requires senders { take.old.senders ≡ lane.old.state.config.producers + 1 }
    requires none_taken { take.old.taken ≡ [] }
    requires none_told { told.old ≡ 0 }
    requires out { W.out wire.old ≡ out_of lane.old.state }
    ensures same { (take.new.queue ≡ take.old.queue) × (take.new.senders ≡ take.old.senders) }
    ensures out { W.out wire.new ≡ out_of lane.new.state }
    ensures describes { W.describes wire.new ≡ W.describes wire.old }
    ensures closed { OnOk result (all_closed lane.new.state ≡ true) }
    ensures early { IfErr result (λ kind. kind ≢ LaneEndKind.Finished) }
    ensures not_closed { IfErr result
        (λ kind. kind ≡ LaneEndKind.Gone → all_closed lane.new.state ≡ false) }
    ensures told { OnOk result
        (HasTold (W.describes wire.old) W.fits W.carries wire.old wire.new lane.old.state.config
        (T.told tell.old) (T.told tell.new) told.new lane.new.state take.new.taken) }
    ensures stopped { IfErr result (λ kind. (heard : List Mail) × HasHeard kind take.new.taken heard
        × HasTold (W.describes wire.old) W.fits W.carries wire.old wire.new lane.old.state.config
        (T.told tell.old) (T.told tell.new) told.new lane.new.state heard) }
    ensures destination { T.destination tell.new ≡ T.destination tell.old }
{
    let mut more = false;
    'messages: for _ in rt.forever() {
        if lane.closed() {
            return Ok(());
        }
        more = take_next(rt, take, lane, wire, pace, tell, told, more)?;
    }
    unreachable!()
}

// Takes until each sender has closed, and works until nothing is held.
fn work<R: Wait, W: Wire, P: Pace, T: Tell>(
    rt: &R,
    take: &mut LaneTake,
    lane: &mut Lane,
    wire: &mut W,
    pace: &mut P,
    tell: &mut T,
    told: &mut usize,
) -> LaneEndKind
    requires fresh { lane.old.state ≡ fresh lane.old.state.config }
    requires senders { take.old.senders ≡ lane.old.state.config.producers + 1 }
    requires none_taken { take.old.taken ≡ [] }
    requires none_told { told.old ≡ 0 }
    requires out { W.out wire.old ≡ out_of lane.old.state }
    ensures same { (take.new.queue ≡ take.old.queue) × (take.new.senders ≡ take.old.senders) }
    ensures out { W.out wire.new ≡ out_of lane.new.state }
    ensures describes { W.describes wire.new ≡ W.describes wire.old }
    ensures ends { EndsAs (W.describes wire.old) W.fits W.carries wire.old wire.new lane.old.state.config
        take.new.taken result lane.new.state }
    ensures told { (heard : List Mail) × HasHeard result take.new.taken heard
        × HasTold (W.describes wire.old) W.fits W.carries wire.old wire.new lane.old.state.config
        (T.told tell.old) (T.told tell.new) told.new lane.new.state heard }
    ensures destination { T.destination tell.new ≡ T.destination tell.old }
{
    match take_all(rt, take, lane, wire, pace, tell, told) {
        Ok(()) => drain_all(rt, lane, wire, pace, tell, told),
        Err(kind) => kind,
    }
}

// How a lane ended that would have ended like this, after it has told all that is left, or failed to.
fn kind_after(kind: LaneEndKind, told: Result<(), AllocError>) -> LaneEndKind
    ensures told { OnOk told (result ≡ kind) }
    ensures not_told { OnErr told
        ((result ≢ LaneEndKind.Finished) × (result ≡ LaneEndKind.Gone → kind ≡ LaneEndKind.Gone)) }
    ensures memory { kind ≡ LaneEndKind.Memory → result ≡ LaneEndKind.Memory }
{
    match (kind, told) {
        (LaneEndKind::Finished, Err(_)) => LaneEndKind::Memory,
        (kind, _) => kind,
    }
}

/// A lane's thread. Until each sender's Done was taken it makes room if it holds its maximum number
/// of operations, takes one message, and sends what is ready. If no place in flight is free, it
/// takes at most as many operations as one request carries, and then, or once nothing is queued,
/// waits for the oldest answer and settles it. If a place is free and a request is in flight, it
/// waits for a message or the oldest answer, whichever comes first. Then it works until nothing is
/// held. It waits only for messages, for the wire and for the pace, and counts the ticks that passed
/// meanwhile, as its pace returns them, before it settles an answer and before it sends.
/// However it ends, it first waits for what is in flight and settles it.
///
/// After each round of that, and at the end after each turn until nothing is held, it tells `tell` of
/// the operations that ended in it; and at the end that it ends. So if it ends as Finished, it has told of each operation that it took once, whatever
/// its wire returned. What it told is true beside each outside that explains its calls, and beside
/// one that continues each outside which the wire describes: if it told that an operation ended as
/// applied, its write was applied with that version, and the status that it told is that of the entry
/// with which it was answered; and each report that it told has a true cause. It tells in one place
/// from its start to its end.
///
/// It ends as Memory if the allocation for an operation that it took, for a request or for telling
/// of a report failed, and as Gone if the queue says that all senders are dropped but not all had closed; [`LaneEnd`] says
/// what holds then. In each case delivery of what the lane heard from its queue is sound for each
/// outside that the wire describes, and complete if it ends as Finished; and whatever the wire
/// describes, the lane's calls are what passed over it, so it settled no answer but those that the
/// wire returned.
pub fn run_lane<R: Wait, W: Wire, P: Pace + Drop, T: Tell>(
    rt: &R,
    take: LaneTake,
    lane: Lane,
    wire: W,
    pace: P,
    tell: &mut T,
) -> LaneEnd<W>
    requires fresh { lane.state ≡ fresh lane.state.config }
    requires senders { take.senders ≡ lane.state.config.producers + 1 }
    requires none_taken { take.taken ≡ [] }
    requires out { W.out wire ≡ [] }
    ensures queue { result.taken.queue ≡ take.queue }
    ensures senders { result.taken.senders ≡ take.senders }
    ensures well_taken { IsWellTaken result.taken.senders result.taken.taken }
    ensures out { W.out result.wire ≡ [] }
    ensures ends { EndsAs (W.describes wire) W.fits W.carries wire result.wire lane.state.config
        result.taken.taken result.kind result.lane.state }
    ensures closed { result.kind ≡ LaneEndKind.Finished
        → (sender : ℕ) → sender < take.senders → HasDone (mail_of sender result.taken.taken) }
    ensures told { EndsTold (W.describes wire) W.fits W.carries wire result.wire
        (T.told tell.old) (T.told tell.new) lane.state.config
        result.taken.taken result.kind result.lane.state }
    ensures destination { T.destination tell.new ≡ T.destination tell.old }
{
    let mut take = take;
    let mut lane = lane;
    let mut wire = wire;
    let mut pace = pace;
    let mut told: usize = 0;
    let kind = work(
        rt, &mut take, &mut lane, &mut wire, &mut pace, tell, &mut told,
    );
    collect(&mut lane, &mut wire, &mut pace);
    let kind = kind_after(kind, tell_all(rt, &mut lane, tell, &mut told));
    tell.ended(rt);
    LaneEnd {
        kind,
        taken: take.end(),
        lane,
        wire,
    }
}
