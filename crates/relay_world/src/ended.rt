//! Incarnations that have ended.
ghost use Rattle.std.specs.Prelude.{◌≡◌, ◌≤◌, unwrap_or, [], map, option_map, slice_get, vec_len};
ghost use Rattle.std.specs.Prelude.{vec_capacity};

use crate::accepted::Accepted;
use crate::desk::Desk;
use relay_action::Op;
use std::marker::Model;

// What is kept of an incarnation that has ended: its epoch, what was accepted in it, what its lanes
// took, and how many requests there were at its end. Contracts see a record of these.
#[derive(Drop)]
pub(crate) struct Ended {
    pub(crate) epoch: u32,
    pub(crate) accepted: Vec<Accepted>,
    pub(crate) taken: Vec<Accepted>,
    pub(crate) sent: u64,
}

impl Model for Ended {
    ghost use Rattle.relay_world.specs.State.{Past};

    ghost Value = { Past };

    ghost view = { λ e. record
        { epoch = e.epoch; accepted = e.accepted.items; taken = e.taken.items; sent = e.sent } };
}

// What the lane of each desk took. There is room for these lists.
pub(crate) fn take_all(desks: Vec<Desk>, mut lists: Vec<Accepted>) -> Vec<Accepted>
    requires none { lists.items ≡ [] }
    requires room { vec_len desks ≤ vec_capacity lists }
    ensures { result.items ≡ map (λ d. d.taken) desks.items }
{
    for desk in desks {
        lists.push_reserved(Accepted::of(desk.into_taken()));
    }
    lists
}

impl Ended {
    // What was accepted from a producer; nothing if there was no such producer.
    pub(crate) fn accepted(&self, producer: u32) -> &[Op]
        ensures { result.now ≡ unwrap_or (slice_get self.now.accepted producer) [] }
    {
        match self.accepted.get(producer as usize) {
            Some(list) => list.as_slice(),
            None => &[],
        }
    }

    pub(crate) fn op_at(&self, lane: u32, place: u64) -> Option<&Op>
        ensures { option_map (λ o. o.now) result
            ≡ slice_get (unwrap_or (slice_get self.now.taken lane) []) place }
    {
        self.taken.get(lane as usize)?.op_at(place)
    }
}
