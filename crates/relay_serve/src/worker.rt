//! A worker: a thread that serves one connection after another with its producer.
ghost use Rattle.std.specs.Prelude.{◌≡◌};
ghost use Rattle.relay_ndjson.specs.Metadata.{bytes_given};
ghost use Rattle.relay_serve.specs.Answering.{GoesOn, HasServed};
ghost use Rattle.relay_serve.specs.Remembering.{reached};
ghost use Rattle.relay_serve.specs.Workers.{given_as};

use crate::board::Shared;
use crate::clerk::Clerk;
use crate::entry::Spoken;
use crate::marks::Marks;
use crate::producing::{Making, MakingIds, Producing};
use crate::remembering::Remembering;
use crate::settler::Settler;
use crossbeam_channel::{Receiver, RecvTimeoutError};
use relay_clients::{Client, Parking, Signals, Turn};
use relay_front::{Face, Front};
use relay_producer::ClosedProducer;
use relay_receipts::ReceiptTake;
use relay_telling::Ending;
use std::alloc::Global;
use std::sync::Wait;
use std::time::{Clock, Duration};

/// What all workers of a server go by.
#[derive(Drop)]
pub(crate) struct Settings {
    pub(crate) face: Face,
    pub(crate) index: Option<String>,
    /// For how many milliseconds a connection may be idle.
    pub(crate) idle: u64,
}

/// What a worker is given.
#[derive(Drop)]
pub(crate) struct Worker {
    pub(crate) settings: Settings,
    pub(crate) settler: Settler,
    pub(crate) making: Making,
    pub(crate) clerk: Clerk,
    pub(crate) shared: Shared,
}

/// What a worker leaves: its producer, closed, its end of the channel of its receipts, and what it gave
/// to the memory and answered from it.
pub(crate) type Left = (ClosedProducer, ReceiptTake<Ending>, Spoken);

// For how many milliseconds a worker waits for a connection before it looks whether its term ends.
const SLICE: u64 = 50;

// Serves a connection for a turn.
fn serve_turn<R: Wait + Clock>(
    rt: &R,
    client: &mut Client,
    service: &mut Remembering<'_, R>,
    shared: &Shared,
    idle: u64,
) -> Turn
    ensures front { (service.new.front.face ≡ service.old.front.face)
        × (service.new.front.index ≡ service.old.front.index) }
    ensures on { GoesOn service.old.front.face (bytes_given service.old.front.index)
        (reached service.old.front service.old.spoken) (reached service.new.front service.new.spoken) }
{
    let turn = client.serve(rt, service, &**shared, idle);
    service.rest();
    turn
}

// Serves the next connection, if one comes within a slice. One that makes place goes behind those that
// wait, and one that waits for its client to the poller. Returns whether none comes any more.
fn serve_next<R: Wait + Clock>(
    rt: &R,
    connections: &Receiver<Client, Global>,
    parking: &Parking,
    service: &mut Remembering<'_, R>,
    shared: &Shared,
    idle: u64,
) -> bool
    ensures front { (service.new.front.face ≡ service.old.front.face)
        × (service.new.front.index ≡ service.old.front.index) }
    ensures on { GoesOn service.old.front.face (bytes_given service.old.front.index)
        (reached service.old.front service.old.spoken) (reached service.new.front service.new.spoken) }
{
    match connections.recv_timeout(rt, Duration::from_millis(SLICE)) {
        Ok(mut client) => {
            shared.take_waiting();
            shared.add_served();
            service.front.relay.clerk.meet(&client);
            let turn = serve_turn(rt, &mut client, service, shared, idle);
            shared.take_served();
            parking.pass_on(rt, &**shared, turn, client);
            false
        }
        Err(RecvTimeoutError::Timeout) => false,
        Err(RecvTimeoutError::Disconnected) => true,
    }
}

// Serves one connection after another until the term ends, or the server has ended.
fn serve_all<R: Wait + Clock>(
    rt: &R,
    connections: &Receiver<Client, Global>,
    parking: &Parking,
    service: &mut Remembering<'_, R>,
    shared: &Shared,
    idle: u64,
)
    ensures { GoesOn service.old.front.face (bytes_given service.old.front.index)
        (reached service.old.front service.old.spoken) (reached service.new.front service.new.spoken) }
{
    'clients: for _ in rt.forever() {
        if shared.has_ended() || shared.is_turning() {
            return;
        }
        if serve_next(rt, connections, parking, service, shared, idle) {
            return;
        }
    }
    unreachable!()
}

impl Worker {
    /// Serves one connection after another until the term ends, or the server ends and no connection
    /// is open, and closes. A connection that makes place goes behind those that wait, and one that
    /// waits for its client to the poller. Returns the producer, its end of the channel of its
    /// receipts, and what was given to the memory and answered from it.
    pub(crate) fn work<R: Wait + Clock>(
        self,
        rt: &R,
        connections: &Receiver<Client, Global>,
        parking: &Parking,
    ) -> Left
        ensures { HasServed (given_as self.settings self.settler.producer) result.0 result.1 result.2 }
    {
        let Worker {
            settings,
            settler,
            making,
            clerk,
            shared,
        } = self;
        let Settings { face, index, idle } = settings;
        let alloc = settler.alloc;
        let marks = Marks::none(alloc);
        let mut service = Remembering::new(Front {
            alloc,
            face,
            index: index.as_deref(),
            relay: Producing {
                rt,
                settler,
                clerk,
                marks,
            },
            ids: MakingIds { rt, making },
        });
        serve_all(rt, connections, parking, &mut service, &shared, idle);
        let Remembering { front, spoken, .. } = service;
        let Front { relay, .. } = front;
        let (producer, receipts) = relay.close();
        (producer, receipts, spoken)
    }
}
