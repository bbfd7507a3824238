//! Each refusal of each event, in order.
use crate::world::script::{Row, Says, Script, THREE, lasts};
use relay_core::RelayConfig;
use relay_world::Refusal;

const SMALL: RelayConfig = RelayConfig {
    lanes: 2,
    producers: 2,
    capacity: 1,
    ..THREE
};

/// Events of senders and lanes that do not exist, without room, and after a close.
const OF_SENDERS: &[(Row<'static>, Says)] = &[
    (Row::Put(2, "0", ""), Says::No(Refusal::NoSuch)),
    (Row::Close(0, 2), Says::No(Refusal::NoSuch)),
    (Row::Close(3, 0), Says::No(Refusal::NoSuch)),
    (Row::Tick(2), Says::No(Refusal::NoSuch)),
    (Row::Flush(2), Says::No(Refusal::NoSuch)),
    (Row::Take(2), Says::No(Refusal::NoSuch)),
    (Row::Send(2), Says::No(Refusal::NoSuch)),
    (Row::Take(0), Says::No(Refusal::NothingQueued)),
    (Row::Send(0), Says::No(Refusal::NoRequest)),
    (Row::Flush(0), Says::Ok),
    (Row::Tick(0), Says::No(Refusal::QueueFull)),
    (Row::Flush(0), Says::No(Refusal::QueueFull)),
    (Row::Close(0, 0), Says::No(Refusal::QueueFull)),
    (Row::Close(0, 1), Says::Ok),
    (Row::Close(0, 1), Says::No(Refusal::Closed)),
    (Row::Put(0, "0", ""), Says::No(Refusal::Closed)),
    (Row::Take(1), Says::Ok),
    (Row::Close(2, 1), Says::Ok),
    (Row::Tick(0), Says::No(Refusal::Closed)),
    (Row::Flush(1), Says::No(Refusal::Closed)),
    (Row::Take(0), Says::Ok),
    (Row::Close(2, 0), Says::Ok),
];

/// Events of requests that were not sent, are no longer in flight, or have no such item.
const OF_REQUESTS: &[(Row<'static>, Says)] = &[
    (Row::Run(1, 1), Says::No(Refusal::NotSent)),
    (Row::Reply(1, &[]), Says::No(Refusal::NotSent)),
    (Row::Whole(1, 200), Says::No(Refusal::NotSent)),
    (Row::Lost(1), Says::No(Refusal::NotSent)),
    (Row::Put(0, "1", ""), Says::Named(1)),
    (Row::Take(0), Says::Ok),
    (Row::Send(0), Says::Request(1)),
    (Row::Run(0, 1), Says::No(Refusal::NotSent)),
    (Row::Run(1, 0), Says::No(Refusal::NotSent)),
    (Row::Run(1, 2), Says::No(Refusal::NotSent)),
    (Row::Refuse(1, 2, 409), Says::No(Refusal::NotSent)),
    (Row::Refuse(1, 1, 399), Says::No(Refusal::BadStatus)),
    (Row::Refuse(1, 1, 404), Says::No(Refusal::BadStatus)),
    (Row::Refuse(1, 1, 600), Says::No(Refusal::BadStatus)),
    (Row::Lost(0), Says::No(Refusal::NotSent)),
    (Row::Lost(2), Says::No(Refusal::NotSent)),
    (Row::Lost(1), Says::Counts([0, 0, 0, 1])),
    (Row::Lost(1), Says::No(Refusal::NotFlying)),
    (Row::Whole(1, 200), Says::No(Refusal::NotFlying)),
    (Row::Reply(1, &[7, 7]), Says::No(Refusal::NotFlying)),
    (Row::Run(1, 1), Says::Status(404)),
];

const CAUSES: &[Script] = &[
    (SMALL, [OF_SENDERS, &[]], (&[], &[]), false),
    (THREE, [OF_REQUESTS, &[]], (&[("1", &[1])], &[]), false),
];

#[test]
fn causes_in_order(rt: HostRuntime) {
    for script in CAUSES {
        assert!(rt; lasts(&rt, rt.alloc(), script));
    }
}
