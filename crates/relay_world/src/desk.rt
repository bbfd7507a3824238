//! A lane with its queue.
ghost use Rattle.std.specs.Prelude.{◌≡◌, if◌then◌else◌, ◌+◌, ◌≤◌, ◌≢◌, [], ◌∷◌, ◌++◌, None};
ghost use Rattle.std.specs.Prelude.{Some, true, OnOk, OnErr, IfOk, IfSome};
ghost use Rattle.std.specs.Prelude.{map, option_map, is_some, is_ok, length, nat_le, nat_lt};
ghost use Rattle.std.specs.Prelude.{replicate, slice_get, vec_capacity};
ghost use Rattle.std.specs.List.{list_all};
ghost use Rattle.relay_core.specs.Limits.{is_valid};
ghost use Rattle.relay_core.specs.Walk.{report_of};
ghost use Rattle.relay_core.specs.State.{is_flying, after_request, next_batch, writes_of};
ghost use Rattle.relay_core.specs.State.{AreCounts};
ghost use Rattle.relay_results.specs.Outside.{Items, Whole, Lost};
ghost use Rattle.relay_results.specs.Matching.{matches};
ghost use Rattle.relay_world.specs.State.{fresh_desk, has_closed, is_done};
ghost use Rattle.relay_world.specs.Refusals.{cause_if, front_refusal};
ghost use Rattle.relay_world.specs.Changes.{after_mail, after_post, took_front, sent_request};
ghost use Rattle.relay_world.specs.Changes.{request_of, answered_desk, item_of, items_of};
ghost use Rattle.relay_world.specs.Memory.{AllBelow, IsOpenAt};

use crate::event::Refusal;
use crate::request::{SentItem, SentRequest};
use crate::sender::Sender;
use relay_action::{Body, Mail, Op};
use relay_batch::BatchItem;
use relay_core::{Lane, NotFlying, RelayConfig, Report, Settled, TakeFault};
use relay_results::{Loss, Outcome};
use std::alloc::{AllocError, Global};
use std::collections::VecDeque;
use std::marker::Model;

// A lane, its queue, what each sender has done there, and what it took. Contracts see a record of
// these.
#[derive(Drop)]
pub(crate) struct Desk {
    queue: VecDeque<Mail>,
    senders: Vec<Sender>,
    taken: Vec<Op>,
    lane: Lane,
}

impl Model for Desk {
    ghost use Rattle.relay_world.specs.State.{Desk};
    ghost use Rattle.relay_world.specs.Memory.{IsDesk};

    ghost Value = { Desk };

    ghost view = { λ d. record {
      queue = d.queue.items;
      senders = d.senders.items;
      taken = d.taken.items;
      lane =
          d.lane.state;
    } };

    ghost invariant = { λ d. IsDesk
        (record {
          queue = d.queue.items;
          senders = d.senders.items;
          taken = d.taken.items;
          lane =
              d.lane.state;
        }) };
}

pub(crate) fn fresh_desks(alloc: Global, config: RelayConfig) -> Result<Vec<Desk>, AllocError>
    requires { is_valid config ≡ true }
    ensures { IfOk result (λ v. v.items ≡ replicate config.lanes (fresh_desk config)) }
{
    let mut desks = Vec::with_capacity(alloc, config.lanes as usize)?;
    'desks: for _ in 0..config.lanes {
        desks.push(Desk::new(alloc, config)?)?;
    }
    Ok(desks)
}

// A request that a lane has formed: its number there, and its items.
#[derive(Drop)]
pub(crate) struct Formed {
    pub(crate) number: u64,
    pub(crate) items: Vec<SentItem>,
}

// A copy of the body of a message. `AllocError`: allocation failed.
fn copy_of(body: &Body) -> Result<Body, AllocError>
    ensures { IfOk result (λ b. b ≡ body.now) }
{
    match body {
        Body::Put(op) => Ok(Body::Put(op.copy()?)),
        Body::Tick => Ok(Body::Tick),
        Body::Flush => Ok(Body::Flush),
        Body::Done => Ok(Body::Done),
    }
}

// Adds the items of a batch, for which there is room.
fn add_items(alloc: Global, batch: &[BatchItem], items: &mut Vec<SentItem>)
    requires none { items.old.items ≡ [] }
    requires room { length batch.now ≤ vec_capacity items.old }
    ensures { items.new.items ≡ map item_of batch.now }
{
    'batch: for item in batch {
        items.push_reserved(SentItem::new(alloc, item.version));
    }
}

// Forms the lane's next request, if there is one. `AllocError`: allocation failed; nothing changed.
fn form(lane: &mut Lane, alloc: Global) -> Result<Option<Formed>, AllocError>
    requires { AllBelow lane.old.state.flights.next lane.old.state.flights.batches }
    ensures when { IfOk result (λ o. is_some o ≡ is_some (next_batch lane.old.state)) }
    ensures number { IfOk result (λ o. IfSome o (λ f. f.number ≡ lane.old.state.flights.next)) }
    ensures items { IfOk result
        (λ o. IfSome o (λ f. f.items.items ≡ items_of (next_batch lane.old.state))) }
    ensures ok { OnOk result
        (lane.new.state ≡ after_request lane.old.state (next_batch lane.old.state)) }
    ensures unchanged { OnErr result (lane.new.state ≡ lane.old.state) }
{
    let mut items = Vec::with_capacity(alloc, lane.held() as usize)?;
    let Some(number) = lane.request()? else {
        return Ok(None);
    };
    let batch = lane.items(number).unwrap();
    add_items(alloc, batch, &mut items);
    Ok(Some(Formed { number, items }))
}

// Forms the lane's next request, if there is one, and adds it to the sent ones. `AllocError`:
// allocation failed; there is a request to form, and nothing changed.
pub(crate) fn send_from(
    desk: &mut Desk,
    sent: &mut Vec<SentRequest>,
    alloc: Global,
    epoch: u32,
    lane: u32,
) -> Result<bool, AllocError>
    ensures when { IfOk result (λ b. b ≡ is_some (next_batch desk.old.lane)) }
    ensures desk { OnOk result (desk.new ≡ sent_request desk.old) }
    ensures sent { IfOk result (λ b. sent.new.items
        ≡ sent.old.items ++ (if b then request_of epoch lane desk.old ∷ [] else [])) }
    ensures same_desk { OnErr result (desk.new ≡ desk.old) }
    ensures same_sent { OnErr result (sent.new.items ≡ sent.old.items) }
    ensures due { OnErr result (is_some (next_batch desk.old.lane) ≡ true) }
{
    if !desk.has_batch() {
        return Ok(false);
    }
    sent.reserve(1)?;
    match desk.request(alloc)? {
        None => Ok(false),
        Some(Formed { number, items }) => {
            sent.push_reserved(SentRequest::new(epoch, lane, number, items));
            Ok(true)
        }
    }
}

// Whether each sender has closed.
fn are_closed(senders: &[Sender]) -> bool
    ensures { result ≡ list_all (λ s. s.closed) senders.now }
{
    senders.iter().all(|sender| sender.closed)
}

// What a sender has done at a lane after one more message.
fn next_of(sender: Sender, body: &Body) -> Sender
    ensures { result ≡ after_mail body.now sender }
{
    Sender {
        count: sender.count.saturating_add(1),
        closed: sender.closed || matches!(body, Body::Done),
    }
}

impl Desk {
    pub(crate) fn into_taken(self) -> Vec<Op>
        ensures { result.items ≡ self.taken }
    {
        let Desk { taken, .. } = self;
        taken
    }

    // A fresh lane with an empty queue; no sender has done anything.
    pub(crate) fn new(alloc: Global, config: RelayConfig) -> Result<Desk, AllocError>
        requires { is_valid config ≡ true }
        ensures { IfOk result (λ d. d ≡ fresh_desk config) }
    {
        let none = Sender {
            count: 0,
            closed: false,
        };
        Ok(Desk {
            queue: VecDeque::new(alloc),
            senders: vec![in alloc; none; config.producers as usize + 1]?,
            taken: Vec::new(alloc),
            lane: Lane::new(alloc, config)?,
        })
    }

    pub(crate) fn has_closed(&self, sender: u32) -> bool
        ensures { result ≡ has_closed sender self.now }
    {
        match self.senders.get(sender as usize) {
            Some(sender) => sender.closed,
            None => false,
        }
    }

    // Whether each sender has closed here, nothing is queued, and the lane holds no operation.
    pub(crate) fn is_done(&self) -> bool
        ensures { result ≡ is_done self.now }
    {
        are_closed(&self.senders) && (self.queue.len() == 0 && self.lane.held() == 0)
    }

    pub(crate) fn op_at(&self, place: u64) -> Option<&Op>
        ensures { option_map (λ o. o.now) result ≡ slice_get self.now.taken place }
    {
        self.taken.get(place as usize)
    }

    pub(crate) fn reports(&self) -> &[Report]
        ensures { map report_of result.now ≡ self.now.lane.core.reports }
    {
        self.lane.reports()
    }

    // Puts a message of a sender at the back of the queue. `AllocError`: allocation failed; nothing
    // changed.
    pub(crate) fn post(&mut self, sender: u32, body: Body) -> Result<(), AllocError>
        requires { IsOpenAt sender self.old }
        ensures ok { OnOk result (self.new ≡ after_post sender body self.old) }
        ensures unchanged { OnErr result (self.new ≡ self.old) }
    {
        self.queue.reserve(1)?;
        let next = next_of(self.senders[sender as usize], &body);
        self.senders[sender as usize] = next;
        self.queue.push_back_reserved(Mail {
            sender,
            number: next.count,
            body,
        });
        Ok(())
    }

    // Why a Close of a sender is refused here, if it is.
    pub(crate) fn close_refusal(
        &self,
        sender: u32,
        producers: u32,
        capacity: u32,
    ) -> Option<Refusal>
        ensures { result ≡ cause_if (nat_lt producers sender) Refusal.NoSuch
            (cause_if (has_closed sender self.now) Refusal.Closed
            (cause_if (nat_le capacity (length self.now.queue)) Refusal.QueueFull None)) }
    {
        if sender > producers {
            return Some(Refusal::NoSuch);
        }
        if self.has_closed(sender) {
            return Some(Refusal::Closed);
        }
        self.full_refusal(capacity)
    }

    // `QueueFull` if the queue is at its capacity.
    pub(crate) fn full_refusal(&self, capacity: u32) -> Option<Refusal>
        ensures { result
            ≡ cause_if (nat_le capacity (length self.now.queue)) Refusal.QueueFull None }
    {
        if self.queue.len() >= capacity as usize {
            Some(Refusal::QueueFull)
        } else {
            None
        }
    }

    // Why the lane may not take the front of its queue, if it may not.
    pub(crate) fn front_refusal(&self, max_held: u32) -> Option<Refusal>
        requires { self.now.lane.config.max_held ≡ max_held }
        ensures { result ≡ front_refusal self.now.lane self.now.queue }
    {
        match self.queue.front() {
            None => Some(Refusal::NothingQueued),
            Some(mail) if matches!(&mail.body, Body::Put(_)) && self.lane.held() == max_held => {
                Some(Refusal::HeldFull)
            }
            Some(_) => None,
        }
    }

    // Takes the front of the lane's queue. `AllocError`: allocation failed; nothing changed.
    pub(crate) fn take(&mut self) -> Result<(), AllocError>
        requires { front_refusal self.old.lane self.old.queue ≡ None }
        ensures ok { OnOk result (self.new ≡ took_front self.old) }
        ensures unchanged { OnErr result (self.new ≡ self.old) }
    {
        let Some(mail) = self.queue.front() else {
            unreachable!();
        };
        let copy = Mail {
            sender: mail.sender,
            number: mail.number,
            body: copy_of(&mail.body)?,
        };
        self.taken.reserve(1)?;
        match self.lane.take(copy) {
            Ok(()) => {}
            Err((TakeFault::Memory, _)) => return Err(AllocError),
            Err(_) => unreachable!(), // its sender has not closed, and the lane has room
        }
        if let Some(
            Mail {
                body: Body::Put(op),
                ..
            },
        ) = self.queue.pop_front()
        {
            self.taken.push_reserved(op);
        }
        Ok(())
    }

    // Whether the lane has a request to form.
    pub(crate) fn has_batch(&mut self) -> bool
        ensures has { result ≡ is_some (next_batch self.old.lane) }
        ensures unchanged { self.new ≡ self.old }
    {
        self.lane.has_batch()
    }

    // Forms the lane's next request, if there is one. `AllocError`: allocation failed; nothing
    // changed.
    pub(crate) fn request(&mut self, alloc: Global) -> Result<Option<Formed>, AllocError>
        ensures when { IfOk result (λ o. is_some o ≡ is_some (next_batch self.old.lane)) }
        ensures number { IfOk result (λ o. IfSome o (λ f. f.number ≡ self.old.lane.flights.next)) }
        ensures items { IfOk result
            (λ o. IfSome o (λ f. f.items.items ≡ items_of (next_batch self.old.lane))) }
        ensures ok { OnOk result (self.new ≡ sent_request self.old) }
        ensures unchanged { OnErr result (self.new ≡ self.old) }
    {
        form(&mut self.lane, alloc)
    }

    pub(crate) fn is_flying(&self, number: u64) -> bool
        ensures { result ≡ is_flying number self.now.lane }
    {
        self.lane.writes(number).is_some()
    }

    // Settles a request whose reply was lost.
    pub(crate) fn lost(&mut self, number: u64) -> Result<Settled, NotFlying>
        ensures flies { is_ok result ≡ is_flying number self.old.lane }
        ensures ok { OnOk result (self.new ≡ answered_desk number (Lost Loss.Closed) self.old) }
        ensures counts { IfOk result (λ c. AreCounts self.old.lane number (Lost Loss.Closed) c) }
        ensures matched { IfOk result (λ c. c.matched ≡ true) }
        ensures unchanged { OnErr result (self.new ≡ self.old) }
    {
        self.lane.lost(number, Loss::Closed)
    }

    // Settles a request that was answered as a whole with this status.
    pub(crate) fn whole(&mut self, number: u64, status: u16) -> Result<Settled, NotFlying>
        requires { status ≢ 200 }
        ensures flies { is_ok result ≡ is_flying number self.old.lane }
        ensures ok { OnOk result (self.new ≡ answered_desk number (Whole status None) self.old) }
        ensures counts { IfOk result (λ c. AreCounts self.old.lane number (Whole status None) c) }
        ensures matched { IfOk result (λ c. c.matched ≡ true) }
        ensures unchanged { OnErr result (self.new ≡ self.old) }
    {
        self.lane.whole(number, status, None)
    }

    // Settles a request that was answered with these entries.
    pub(crate) fn reply(
        &mut self,
        number: u64,
        outcomes: Vec<Outcome>,
    ) -> Result<Settled, NotFlying>
        ensures flies { is_ok result ≡ is_flying number self.old.lane }
        ensures ok { OnOk result
            (self.new ≡ answered_desk number (Items outcomes.items) self.old) }
        ensures counts { IfOk result
            (λ c. AreCounts self.old.lane number (Items outcomes.items) c) }
        ensures matched { IfOk result
            (λ c. c.matched ≡ matches outcomes.items (writes_of number self.old.lane)) }
        ensures unchanged { OnErr result (self.new ≡ self.old) }
    {
        self.lane.reply(number, outcomes)
    }
}
