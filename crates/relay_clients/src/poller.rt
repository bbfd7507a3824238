//! The poller: a thread that accepts connections, and holds those that wait for their peers or for room,
//! so that they keep no thread that serves. It asks the system alone which of them may be read or written;
//! what it reads itself is only what is dropped after the last answer.
use crate::client::{Client, is_past};
use crate::entrance::Entrance;
use crate::parking::{Parking, give};
use crate::places::{CONNECTIONS, Places};
use crate::room::Room;
use crate::signals::Signals;
use crossbeam_channel::{Receiver, Sender, TryRecvError, unbounded};
use mio::unix::SourceFd;
use mio::{Events, Interest, Poll, Registry, Token, Waker};
use slab::Slab;
use std::alloc::Global;
use std::collections::VecDeque;
use std::hash::RandomState;
use std::io;
use std::net::Net;
use std::sync::{Arc, Wait};
use std::time::{Clock, Duration, Instant};

// How long the poller sleeps at most, in milliseconds. As often it looks for connections whose time
// is over.
const TICK: u64 = 100;

// The same while connections wait for room, or once the server ends.
const SHORT_TICK: u64 = 5;

// How many connections that wait for room are handed on at a tick: each may find that others took it.
const GIVEN: usize = 16;

// For how many milliseconds connections are still held once the server ends.
const ENDING: u64 = 10_000;

// How many connections are looked at after one sleep.
const EVENTS: usize = 1_024;

// After so many sleeps each connection that is ready was looked at.
const ALL: usize = CONNECTIONS / EVENTS + 1;

// The length of the buffer for what is dropped.
const BUFFER: usize = 65_536;

// No connection has this token, nor that of an entrance, which are the ones below it.
const WAKER: Token = Token(usize::MAX);

/// What a poller needs of a server.
#[derive(Drop)]
pub struct PollerParts {
    /// Where connections come from.
    pub entrances: Vec<Entrance>,
    /// Keys for the tables of connections.
    pub keys: RandomState,
    /// How many connections are open.
    pub places: Places,
    /// How many bytes of requests are open.
    pub room: Room,
}

/// Accepts connections, and holds them until their peers have sent something, or take more, or there is
/// room for what they send.
#[derive(Drop)]
pub struct Poller {
    alloc: Global,
    poll: Poll,
    events: Events,
    parts: PollerParts,
    ready: Sender<Client, Global>,
    inbox: Receiver<Client, Global>,
    held: Slab<Client>,
    // Those that wait for room, in the order in which they came to wait.
    starved: VecDeque<Client>,
    buffer: Vec<u8>,
}

// Where a connection goes whose peer has sent something, or takes more.
#[derive(Drop)]
struct Floor<'a, R: Wait + Clock, G: Signals> {
    rt: &'a R,
    ready: &'a Sender<Client, Global>,
    signals: &'a G,
}

impl<'a, R: Wait + Clock, G: Signals> Floor<'a, R, G> {
    // Puts a connection behind those that wait for a thread that serves them.
    fn give(&self, client: Client) {
        give(self.rt, self.ready, self.signals, client);
    }
}

// The token of the entrance at this place.
fn token_of(place: usize) -> Token {
    Token((usize::MAX - 1).saturating_sub(place))
}

// Has each entrance reported once connections wait at it. `Err`: the system cannot.
fn watch_entrances(registry: &Registry, entrances: &[Entrance]) -> io::Result<()> {
    for (place, entrance) in entrances.iter().enumerate() {
        let descriptor = entrance.descriptor();
        registry.register(
            &mut SourceFd(&descriptor),
            token_of(place),
            Interest::READABLE,
        )?;
    }
    Ok(())
}

// Notes that connections wait at the entrance with this token, if it is one's.
fn note_ready(entrances: &mut [Entrance], token: Token) {
    let Token(value) = token;
    if let Some(entrance) = entrances.get_mut((usize::MAX - 1).saturating_sub(value)) {
        entrance.set_ready();
    }
}

// Has a connection reported under its key once it is ready. `Err`: the system cannot.
fn watch(registry: &Registry, client: &Client, key: usize) -> io::Result<()> {
    let descriptor = client.descriptor();
    registry.register(&mut SourceFd(&descriptor), Token(key), client.interest())
}

// Has a connection reported again, also if it is ready already.
fn watch_on(registry: &Registry, client: &Client, key: usize) -> io::Result<()> {
    let descriptor = client.descriptor();
    registry.reregister(&mut SourceFd(&descriptor), Token(key), client.interest())
}

fn watch_no_more(registry: &Registry, client: &Client) {
    let descriptor = client.descriptor();
    let _ = registry.deregister(&mut SourceFd(&descriptor));
}

// Drops what has come on a connection that has left. Returns whether it is held on.
fn drop_some<R: Clock>(
    rt: &R,
    registry: &Registry,
    client: &mut Client,
    key: usize,
    buffer: &mut [u8],
) -> bool {
    client.drop_some(rt, buffer) && watch_on(registry, client, key).is_ok()
}

// Hands on the connection with this key, which is ready. Of one that has left, what has come is
// dropped.
fn hand_on<R: Wait + Clock, G: Signals>(
    floor: &Floor<'_, R, G>,
    registry: &Registry,
    held: &mut Slab<Client>,
    key: usize,
    buffer: &mut [u8],
) {
    let Some(client) = held.get_mut(key) else {
        return;
    };
    let has_left = client.has_left();
    if has_left && drop_some(floor.rt, registry, client, key, buffer) {
        return;
    }
    let Some(client) = held.try_remove(key) else {
        return;
    };
    if !has_left {
        watch_no_more(registry, &client);
        floor.give(client);
    }
}

// Has a connection that waits for room wait behind the others. One that cannot wait is closed.
fn hold_starved(starved: &mut VecDeque<Client>, client: Client) {
    let _ = starved.push_back(client);
}

// Holds a connection. One that cannot be held is served at once, and one that has left is closed.
fn hold<R: Wait + Clock, G: Signals>(
    floor: &Floor<'_, R, G>,
    registry: &Registry,
    held: &mut Slab<Client>,
    client: Client,
) {
    let mut client = client;
    // It is idle from now on, if bytes have moved before.
    client.note(floor.rt, false);
    let key = held.vacant_key();
    let is_watched = watch(registry, &client, key).is_ok();
    if !is_watched {
        if !client.has_left() {
            floor.give(client);
        }
        return;
    }
    if let Err(failed) = held.insert(client) {
        let client = failed.value;
        watch_no_more(registry, &client);
        if !client.has_left() {
            floor.give(client);
        }
    }
}

// What is closed at a look at all connections.
#[derive(Clone, Copy)]
struct Sweep {
    // For how many milliseconds a connection may be idle.
    idle: u64,
    is_ending: bool,
    // Whether those that have not left are closed.
    is_over: bool,
}

impl Sweep {
    fn closes<R: Clock>(&self, rt: &R, client: &Client) -> bool {
        if client.has_left() {
            return client.is_over(rt, self.is_ending);
        }
        self.is_over || (self.is_ending && client.is_resting()) || client.is_idle(rt, self.idle)
    }
}

impl Poller {
    /// A poller that holds no connection, the handle by which it gets some, and where it puts those
    /// that are ready.
    pub fn new<N: Net>(
        net: &N,
        alloc: Global,
        parts: PollerParts,
    ) -> io::Result<(Poller, Parking, Receiver<Client, Global>)> {
        let poll = Poll::new(net)?;
        watch_entrances(poll.registry(), &parts.entrances)?;
        let waker = Arc::new(alloc, Waker::new(poll.registry(), WAKER)?)?;
        // Neither ever has more than the connections that are open. A channel with places for all of them
        // would come to take the memory of each place.
        let (sender, inbox) = unbounded::<Client, Global>(alloc)?;
        let (ready, next) = unbounded::<Client, Global>(alloc)?;
        let poller = Poller {
            alloc,
            poll,
            events: Events::with_capacity(alloc, EVENTS)?,
            parts,
            ready: ready.clone()?,
            inbox,
            held: Slab::new(alloc),
            starved: VecDeque::new(alloc),
            buffer: Vec::from_elem(alloc, 0u8, BUFFER)?,
        };
        let parking = Parking {
            ready,
            inbox: sender,
            waker,
        };
        Ok((poller, parking, next))
    }

    // Sleeps until connections are ready or are handed over, or for so many milliseconds, and hands
    // on those that are ready.
    fn turn<R: Wait + Clock, G: Signals>(&mut self, rt: &R, signals: &G, millis: u64) {
        let floor = Floor {
            rt,
            ready: &self.ready,
            signals,
        };
        let time = Duration::from_millis(millis);
        if self.poll.poll(&mut self.events, Some(time)).is_err() {
            return;
        }
        for event in &self.events {
            let Token(key) = event.token();
            note_ready(&mut self.parts.entrances, event.token());
            hand_on(
                &floor,
                self.poll.registry(),
                &mut self.held,
                key,
                self.buffer.as_mut_slice(),
            );
        }
    }

    // Accepts the connections that wait.
    fn accept<R: Wait + Clock, G: Signals>(&mut self, rt: &R, signals: &G) {
        let floor = Floor {
            rt,
            ready: &self.ready,
            signals,
        };
        for entrance in &mut self.parts.entrances {
            for _ in 0..CONNECTIONS {
                let Some(stream) = entrance.accept() else {
                    break;
                };
                let Some(place) = self.parts.places.take() else {
                    signals.add_refused();
                    continue;
                };
                let Some(share) = self.parts.room.part() else {
                    continue;
                };
                let (keys, origin) = (self.parts.keys, entrance.origin());
                if let Some(client) = Client::new(self.alloc, keys, stream, origin, share, place) {
                    hold(&floor, self.poll.registry(), &mut self.held, client);
                }
            }
        }
    }

    // Accepts what waits, and then nothing more.
    fn shut<R: Wait + Clock, G: Signals>(&mut self, rt: &R, signals: &G) {
        for entrance in &mut self.parts.entrances {
            entrance.set_ready();
        }
        self.accept(rt, signals);
        self.parts.entrances.clear();
        signals.shut();
    }

    // Hands on connections that wait for room, if there is some, and each that has waited for long
    // enough.
    fn feed<R: Wait + Clock, G: Signals>(&mut self, rt: &R, signals: &G) {
        let floor = Floor {
            rt,
            ready: &self.ready,
            signals,
        };
        let mut given = 0usize;
        for _ in 0..self.starved.len() {
            let Some(client) = self.starved.pop_front() else {
                return;
            };
            let may_have_room = given < GIVEN && self.parts.room.has_some();
            if may_have_room || client.has_starved(rt) || signals.is_ending() {
                given = given.saturating_add(1);
                floor.give(client);
            } else {
                hold_starved(&mut self.starved, client);
            }
        }
    }

    // Hands on each connection that is ready, also one that was just taken in.
    fn look_at_all<R: Wait + Clock, G: Signals>(&mut self, rt: &R, signals: &G) {
        for _ in 0..ALL {
            self.turn(rt, signals, 0);
        }
    }

    // Takes what was handed over. Returns whether nothing will be any more.
    fn take_in<R: Wait + Clock, G: Signals>(&mut self, rt: &R, signals: &G) -> bool {
        let floor = Floor {
            rt,
            ready: &self.ready,
            signals,
        };
        for _ in 0..CONNECTIONS {
            match self.inbox.try_recv(rt) {
                Ok(client) => {
                    if client.is_starved() {
                        hold_starved(&mut self.starved, client);
                    } else {
                        hold(&floor, self.poll.registry(), &mut self.held, client);
                    }
                }
                Err(TryRecvError::Empty) => return false,
                Err(TryRecvError::Disconnected) => return true,
            }
        }
        false
    }

    // Closes connections.
    fn close<R: Clock>(&mut self, rt: &R, sweep: Sweep) {
        for key in 0..self.held.capacity() {
            let closes = match self.held.get(key) {
                Some(client) => sweep.closes(rt, client),
                None => false,
            };
            if closes {
                let _closed = self.held.try_remove(key);
            }
        }
    }

    /// Accepts connections, and hands each on once it may be read or written. One that is more than
    /// may be open is closed. One that was idle for `idle` milliseconds is closed. Of one that has had
    /// its last answer, what its peer still sends is dropped, for at most 10 s and 536,870,912 bytes,
    /// until nothing comes for 1 s.
    ///
    /// Once the server ends, it accepts the connections that wait, and then no others. A connection on which
    /// no request has begun is closed, and the others after 10 s. It returns once each handle is
    /// dropped and no connection is left.
    pub fn run<R: Wait + Clock, G: Signals>(self, rt: &R, signals: &G, idle: u64) {
        let mut poller = self;
        let mut swept = None;
        let mut ending = None;
        let mut has_shut = false;
        'turns: for _ in rt.forever() {
            let is_ending = signals.is_ending();
            if is_ending && !has_shut {
                ending = Instant::now(rt).ok();
                poller.shut(rt, signals);
                has_shut = true;
            }
            let is_short = is_ending || !poller.starved.is_empty();
            let tick = if is_short { SHORT_TICK } else { TICK };
            poller.turn(rt, signals, tick);
            poller.accept(rt, signals);
            poller.feed(rt, signals);
            let is_last = poller.take_in(rt, signals);
            if is_ending {
                poller.look_at_all(rt, signals);
            }
            if is_last || is_past(rt, swept, tick) {
                swept = Instant::now(rt).ok();
                poller.close(
                    rt,
                    Sweep {
                        idle,
                        is_ending,
                        is_over: is_last || (is_ending && is_past(rt, ending, ENDING)),
                    },
                );
            }
            if is_last && poller.held.is_empty() && poller.starved.is_empty() {
                return;
            }
        }
        unreachable!()
    }
}
