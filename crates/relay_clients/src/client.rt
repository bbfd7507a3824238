//! A client's connection: the steps of `http_server` over its socket.
ghost use Rattle.std.specs.Prelude.{◌≡◌, IfSome};
ghost use Rattle.http_server.specs.Connection.{config_of, history};
ghost use Rattle.http_server.specs.Exchange.{Calls};
ghost use Rattle.http_server.specs.History.{new_history};
ghost use Rattle.relay_clients.specs.Intake.{HasTaken};
ghost use Rattle.relay_clients.specs.declared.client.Phase.TheVariants.{Serving};

use crate::entrance::Origin;
use crate::farewell::Farewell;
use crate::keeping::KeepsAnswers;
use crate::places::Place;
use crate::refusing::with_body;
use crate::room::{Intake, PIECE, Share};
use crate::signals::Signals;
use http_server::{Config, Connection, Reason, State};
use http1::Limits;
use mio::Interest;
use relay_front::refusal::refusal_message;
use std::alloc::{AllocError, Global};
use std::hash::RandomState;
use std::io;
use std::io::{ErrorKind, Read};
use std::marker::Model;
use std::net::{OpenStream, Shutdown, SocketAddr, TcpStream};
use std::os::fd::{AsRawFd, RawFd};
use std::snapshot::Snapshot;
use std::sync::Wait;
use std::time::{Clock, Duration, Instant};

/// The maximum length of a request's body, in bytes.
pub const BODY_LIMIT: usize = 104_857_600;

// For how many milliseconds a thread waits for a client to send something, or to take it, before it
// looks whether others wait.
const SLICE: u64 = 2;

// For how many milliseconds after its last answer a connection stays with its thread if nobody waits:
// most clients send their next request sooner.
const KEEP: u64 = 50;

// A client that was waited for in the middle of a request, and of which fewer bytes have come, is not
// waited for again.
const SMALL: usize = 256;

// For how many milliseconds a connection is served while others wait.
const TURN: u64 = 10;

// For how many milliseconds a connection is still served once the server ends: the rest of a request
// comes, and its answer goes.
const ENDING: u64 = 10_000;

// With these bytes an answer begins that is followed by another one to the same request.
const INTERIM: &[u8] = b"HTTP/1.1 100 ";

/// The limits of a connection.
pub const CONFIG: Config = Config {
    limits: Limits {
        max_head_len: 16 * 1024,
        max_extensions_len: 16 * 1024,
        max_trailers_len: 16 * 1024,
    },
    max_body_len: BODY_LIMIT,
    max_pending: 64 * 1024,
    read_size: PIECE as usize,
};

/// Whether so many milliseconds have gone since then.
pub(crate) fn is_past<R: Clock>(rt: &R, start: Option<Instant>, millis: u64) -> bool {
    let Some(start) = start else {
        return true;
    };
    match start.elapsed(rt) {
        Ok(spent) => spent >= Duration::from_millis(millis),
        Err(_) => true,
    }
}

fn is_timeout(error: &io::Error) -> bool {
    matches!(error.kind(), ErrorKind::WouldBlock | ErrorKind::TimedOut)
}

// How far a connection has come.
#[derive(Clone, Copy, Debug, PartialEq, Eq)]
enum Phase {
    // Requests are answered.
    Serving,
    // The last answers are sent, with a refusal.
    Parting,
    // All is sent, and its own side is shut.
    Leaving,
}

/// A client's connection, with what was read and not yet answered, and what was not yet sent. It
/// can wait for any thread. Contracts see the connection of `http_server`.
#[derive(Drop)]
pub struct Client {
    alloc: Global,
    stream: TcpStream,
    connection: Connection,
    phase: Phase,
    farewell: Farewell,
    // When bytes last moved. `None`: they have moved since it was looked at.
    moved: Option<Instant>,
    // Whether a request has begun that has not come whole.
    has_begun: bool,
    // Whether it has made place since it was served last.
    has_waited: bool,
    origin: Origin,
    // What was read of the request that has begun, and its share of the room.
    intake: Intake,
    // The connection as it was before these bytes, for clauses alone.
    since: Snapshot<Connection>,
    // Whether there is no room for what it has read, and since when, if the clock says so.
    is_starved: bool,
    starved: Option<Instant>,
    _place: Place,
    ghost counted: { phase ≡ Serving → HasTaken (history since.value) (history connection) intake.taken },
}

impl Model for Client {
    ghost use Rattle.http_server.specs.declared.connection.Connection.{Connection};

    ghost Value = { Connection };

    ghost view = { λ c. c.connection };
}

/// What became of a connection in a thread's hands.
#[derive(Clone, Copy, Debug, PartialEq, Eq)]
pub enum Turn {
    /// It has ended, or was idle for too long.
    Ended,
    /// It makes place for others after an answer: it goes behind those that wait for a thread.
    Waits,
    /// It waits for its client: it goes to the poller.
    Parks,
}

// What follows a step of a connection.
#[derive(Clone, Copy)]
enum Next {
    Step,
    // It makes place for others.
    Wait,
    // It goes to the poller.
    Park,
    End,
}

// What a step was.
#[derive(Clone, Copy)]
struct Step {
    // Whether it had bytes to send, and did not read.
    has_sent: bool,
    // Whether bytes moved.
    has_moved: bool,
    // Whether a few were read.
    is_small: bool,
}

// When a turn began, whether in the middle of a request, and when it first saw that the server ends.
#[derive(Clone, Copy)]
struct Watch {
    start: Option<Instant>,
    has_begun: bool,
    ending: Option<Instant>,
}

impl Watch {
    // What follows a step once the server ends, after which the connection has something to do or not.
    fn at_end<R: Clock>(&mut self, rt: &R, has_moved: bool, is_resting: bool) -> Next {
        if self.ending.is_none() {
            self.ending = Instant::now(rt).ok();
        }
        if is_past(rt, self.ending, ENDING) {
            Next::End
        } else if has_moved {
            Next::Step
        } else if is_resting {
            Next::End
        } else {
            Next::Park
        }
    }
}

// Sends what is pending. Returns how many bytes went. `Err`: the socket failed, or took nothing.
fn send(connection: &mut Connection, stream: &mut TcpStream) -> io::Result<usize>
    ensures calls { (history connection.new).calls ≡ (history connection.old).calls }
    ensures received { (history connection.new).received ≡ (history connection.old).received }
{
    match connection.write_to(stream) {
        Ok(0) => Err(ErrorKind::WriteZero.into()),
        Ok(count) => Ok(count),
        Err(error) => Err(error),
    }
}

// Whether what is sent next is followed by another answer to the same request.
fn is_interim(output: &[u8]) -> bool {
    output.starts_with(INTERIM)
}

impl Client {
    /// A connection on which nothing was read. `None`: its time limits could not be set.
    pub fn new(
        alloc: Global,
        keys: RandomState,
        stream: TcpStream,
        origin: Origin,
        share: Share,
        place: Place,
    ) -> Option<Client>
        ensures config { IfSome result (λ c. config_of c ≡ CONFIG) }
        ensures history { IfSome result (λ c. history c ≡ new_history) }
    {
        let slice = Some(Duration::from_millis(SLICE));
        if stream.set_read_timeout(slice).is_err()
            || stream.set_write_timeout(slice).is_err()
            || stream.set_nodelay(true).is_err()
        {
            return None;
        }
        let connection = Connection::new(alloc, keys, CONFIG);
        let since = Snapshot::of(&connection);
        Some(Client {
            alloc,
            stream,
            connection,
            phase: Phase::Serving,
            farewell: Farewell::new(Vec::new(alloc)),
            moved: None,
            has_begun: false,
            has_waited: false,
            origin,
            intake: Intake::new(share),
            since,
            is_starved: false,
            starved: None,
            _place: place,
        })
    }

    /// What is known of it by the listener that it came to.
    pub fn origin(&self) -> Origin {
        self.origin
    }

    /// The address of its peer, if the system says it.
    pub fn peer(&self) -> Option<SocketAddr> {
        self.stream.peer_addr().ok()
    }

    /// The descriptor of its socket.
    pub(crate) fn descriptor(&self) -> RawFd {
        self.stream.as_raw_fd()
    }

    /// What it waits for.
    pub(crate) fn interest(&self) -> Interest {
        if self.wants_write() {
            Interest::WRITABLE
        } else {
            Interest::READABLE
        }
    }

    /// Whether its own side is shut, and what still comes is dropped.
    pub(crate) fn has_left(&self) -> bool {
        self.phase == Phase::Leaving
    }

    /// Whether no request has begun, and all answers are sent.
    pub(crate) fn is_resting(&self) -> bool {
        self.phase == Phase::Serving && !self.has_begun && !self.connection.wants_write()
    }

    /// Whether no byte has moved for so many milliseconds.
    pub(crate) fn is_idle<R: Clock>(&self, rt: &R, idle: u64) -> bool {
        is_past(rt, self.moved, idle)
    }

    /// Whether it waits for room.
    pub(crate) fn is_starved(&self) -> bool {
        self.is_starved
    }

    /// Whether it has waited for room for as long as it may. If the clock does not say it, it has not.
    pub(crate) fn has_starved<R: Clock>(&self, rt: &R) -> bool {
        let (Some(wait), Some(start)) = (self.origin.wait, self.starved) else {
            return false;
        };
        match start.elapsed(rt) {
            Ok(spent) => spent >= Duration::from_millis(wait),
            Err(_) => false,
        }
    }

    /// Drops what has come since it left, by way of a buffer. Returns whether more may come.
    pub(crate) fn drop_some<R: Clock>(&mut self, rt: &R, buffer: &mut [u8]) -> bool {
        self.farewell.drop_some(rt, &mut self.stream, buffer)
    }

    /// Whether nothing came for a while since it left, or bytes came for long enough.
    pub(crate) fn is_over<R: Clock>(&self, rt: &R, is_ending: bool) -> bool {
        self.farewell.is_over(rt, is_ending)
    }

    fn wants_write(&self) -> bool {
        match self.phase {
            Phase::Serving => self.connection.wants_write(),
            Phase::Parting => !self.farewell.is_sent(),
            Phase::Leaving => false,
        }
    }

    // Whether all is sent, and nothing more will be.
    fn is_done(&self) -> bool {
        match self.phase {
            Phase::Serving => self.connection.is_done(),
            Phase::Parting => self.farewell.is_sent(),
            Phase::Leaving => true,
        }
    }

    // Whether the next request was refused by `http_server` itself, just now.
    fn is_refused(&self) -> bool {
        self.phase == Phase::Serving
            && matches!(self.connection.state(), State::Closing(Reason::Refused(_)))
    }

    // Whether the client has said that it sends nothing more.
    fn is_at_end(&self) -> bool {
        matches!(self.connection.state(), State::Closing(Reason::EndOfInput))
    }

    // Reads once, as much as there is room for. Returns how many bytes came.
    fn read(&mut self) -> io::Result<usize>
        ensures { (history self.new).calls ≡ (history self.old).calls }
    {
        let most = self.intake.ahead();
        match self.connection.read_from(&mut (&self.stream).take(most)) {
            Ok(count) if count as u64 > most => {
                // No more is read than that, but the prover does not see it.
                self.phase = Phase::Leaving;
                Err(ErrorKind::Other.into())
            }
            Ok(count) => {
                self.intake.add(count as u64);
                Ok(count)
            }
            Err(error) => Err(error),
        }
    }

    // Notes after a read whether a request has begun that has not come whole. If there is an answer to
    // send, its share of the room is free.
    fn note_read(&mut self)
        ensures { self.new ≡ self.old }
    {
        let has_answer = self.connection.wants_write() && !is_interim(self.connection.output());
        self.has_begun = !has_answer;
        if has_answer {
            self.since = Snapshot::of(&self.connection);
            self.intake.free();
        }
    }

    // Sends what is pending, or else reads once, and answers what was read. Returns how many bytes
    // moved.
    fn exchange<S: KeepsAnswers>(&mut self, service: &mut S) -> io::Result<usize>
        ensures { Calls S.answers service.old service.new (history self.old).calls
            (history self.new).calls }
    {
        if self.connection.wants_write() {
            return self.send_on(service);
        }
        let count = self.read()?;
        self.connection.advance(service);
        self.note_read();
        self.look(service);
        Ok(count)
    }

    // Sends what is pending, and answers what was read behind it. Returns how many bytes went.
    fn send_on<S: KeepsAnswers>(&mut self, service: &mut S) -> io::Result<usize>
        ensures { Calls S.answers service.old service.new (history self.old).calls
            (history self.new).calls }
    {
        match send(&mut self.connection, &mut self.stream) {
            Ok(count) => {
                self.connection.advance(service);
                self.look(service);
                Ok(count)
            }
            Err(error) => {
                if !is_timeout(&error) && service.may_keep() {
                    service.keep();
                }
                Err(error)
            }
        }
    }

    // Tells the service that its last answer was sent, or that its client has left before, if it may
    // keep that.
    fn look<S: KeepsAnswers>(&self, service: &S) {
        if !service.may_keep() {
            return;
        }
        if !self.connection.wants_write() {
            service.let_go();
        } else if self.has_gone() {
            service.keep();
        }
    }

    // Does a step. Returns what it was: no bytes moved if the client took none or sent none for a
    // slice. `Err`: the socket failed.
    fn step<S: KeepsAnswers>(&mut self, service: &mut S) -> io::Result<Step>
        ensures { Calls S.answers service.old service.new (history self.old).calls
            (history self.new).calls }
    {
        let has_sent = self.wants_write();
        let done = if self.phase == Phase::Serving {
            self.exchange(service)
        } else {
            self.farewell.send(&mut self.stream)
        };
        match done {
            Ok(count) => Ok(Step {
                has_sent,
                has_moved: true,
                is_small: !has_sent && count < SMALL,
            }),
            Err(error) if is_timeout(&error) => Ok(Step {
                has_sent,
                has_moved: false,
                is_small: false,
            }),
            Err(error) => Err(error),
        }
    }

    // Takes the answers that are pending, and a refusal with a body in place of the one without: these
    // are sent last. Returns whether allocation succeeded.
    fn part<G: Signals>(&mut self, signals: &G) -> bool
        ensures { (history self.new).calls ≡ (history self.old).calls }
    {
        let Ok(pending) = take_pending(self.alloc, &mut self.connection) else {
            return false;
        };
        let Ok((message, status)) = with_body(self.alloc, pending.as_slice()) else {
            return false;
        };
        signals.note_refusal(status, self.peer());
        self.say_last(message);
        true
    }

    // Refuses the request that has begun, with this status, and closes.
    fn refuse<G: Signals>(&mut self, signals: &G, status: u16) -> Next
        ensures { self.new ≡ self.old }
    {
        match refusal_message(self.alloc, status) {
            Ok(message) => {
                signals.note_refusal(status, self.peer());
                self.say_last(message);
                Next::Step
            }
            Err(_) => Next::End,
        }
    }

    // Sends this, and nothing after it.
    fn say_last(&mut self, message: Vec<u8>)
        ensures { self.new ≡ self.old }
    {
        self.farewell = Farewell::new(message);
        self.phase = Phase::Parting;
        self.intake.free();
    }

    // Whether it reads next.
    fn reads(&self) -> bool {
        self.phase == Phase::Serving && !self.connection.wants_write()
    }

    // It waits for room no more. Its client was not idle while it was not read.
    fn end_wait(&mut self)
        ensures { self.new ≡ self.old }
    {
        if self.is_starved {
            self.is_starved = false;
            self.starved = None;
            self.moved = None;
        }
    }

    // What follows if there is no room: it waits, and after a time its request is refused.
    fn starve<R: Clock, G: Signals>(&mut self, rt: &R, signals: &G) -> Next
        ensures { self.new ≡ self.old }
    {
        self.is_starved = true;
        if self.starved.is_none() {
            self.starved = Instant::now(rt).ok();
        }
        if !self.has_starved(rt) {
            return Next::Park;
        }
        self.is_starved = false;
        self.starved = None;
        let next = self.refuse(signals, 429);
        if let Next::Step = next {
            self.intake.refuse();
        }
        next
    }

    // Finds room for what was read, if it reads next. `Some`: what follows if there is none.
    fn find_room<R: Clock, G: Signals>(&mut self, rt: &R, signals: &G) -> Option<Next>
        ensures { self.new ≡ self.old }
    {
        if !self.reads() {
            return None;
        }
        if self.intake.is_too_large() {
            return Some(self.refuse(signals, 413));
        }
        if !self.intake.reach() {
            return Some(self.starve(rt, signals));
        }
        self.end_wait();
        None
    }

    // Ends the connection in good order: all is sent.
    fn leave<R: Clock>(&mut self, rt: &R) -> Next
        ensures { self.new ≡ self.old }
    {
        if self.is_at_end()
            || self.stream.shutdown(Shutdown::Write).is_err()
            || self.stream.set_nonblocking(true).is_err()
        {
            return Next::End;
        }
        self.farewell.begin(rt);
        self.phase = Phase::Leaving;
        Next::Park
    }

    /// Notes whether bytes have moved, and else when they last did.
    pub(crate) fn note<R: Clock>(&mut self, rt: &R, has_moved: bool)
        ensures { self.new ≡ self.old }
    {
        if has_moved {
            self.moved = None;
        } else if self.moved.is_none() {
            self.moved = Instant::now(rt).ok();
        }
    }

    // What follows a step.
    fn next<R: Clock, G: Signals>(
        &mut self,
        rt: &R,
        watch: &mut Watch,
        step: Step,
        signals: &G,
        idle: u64,
    ) -> Next
        ensures { self.new ≡ self.old }
    {
        self.note(rt, step.has_moved);
        if signals.is_ending() {
            return watch.at_end(rt, step.has_moved, self.is_resting());
        }
        if step.has_moved {
            self.after_bytes(rt, watch, step, signals)
        } else {
            self.after_none(rt, signals, idle)
        }
    }

    // What follows a step that has moved bytes.
    fn after_bytes<R: Clock, G: Signals>(
        &self,
        rt: &R,
        watch: &Watch,
        step: Step,
        signals: &G,
    ) -> Next {
        if self.is_slow(watch, step) {
            Next::Park
        } else if !signals.are_waiting() || !self.may_make_place(rt, watch, step) {
            Next::Step
        } else if self.is_resting() {
            Next::Wait
        } else {
            Next::Park
        }
    }

    // What follows a step that has not. If nobody waits, a client may send its next request for a while.
    fn after_none<R: Clock, G: Signals>(&self, rt: &R, signals: &G, idle: u64) -> Next {
        if self.is_idle(rt, idle) {
            Next::End
        } else if self.is_resting() && !signals.are_waiting() && !self.is_idle(rt, KEEP) {
            Next::Step
        } else {
            Next::Park
        }
    }

    // Whether once more a few bytes of a request have come, and not all of it.
    fn is_slow(&self, watch: &Watch, step: Step) -> bool {
        let is_part = self.has_begun && !self.wants_write() && !self.is_done();
        is_part && watch.has_begun && step.is_small
    }

    // Whether it may make place after a step that has moved bytes: its answer is sent, or it has had its
    // turn. It tries to send an answer before, and one that is done leaves.
    fn may_make_place<R: Clock>(&self, rt: &R, watch: &Watch, step: Step) -> bool {
        let has_tried = step.has_sent || !self.wants_write();
        let has_turned = self.is_resting() || is_past(rt, watch.start, TURN);
        has_tried && has_turned && !self.is_done()
    }

    // What its client has sent by now: how many bytes are there, of which one is looked at.
    fn peek(&self) -> io::Result<usize> {
        let mut byte = [0];
        self.stream.set_nonblocking(true)?;
        let peeked = self.stream.peek(&mut byte);
        self.stream.set_nonblocking(false)?;
        peeked
    }

    // Whether its client has sent something by now, or has ended: it is not waited for.
    fn has_come(&self) -> bool {
        match self.peek() {
            Ok(_) => true,
            Err(error) => !is_timeout(&error),
        }
    }

    // Whether its client has ended, and sends nothing more.
    fn has_gone(&self) -> bool {
        match self.peek() {
            Ok(count) => count == 0,
            Err(error) => !is_timeout(&error),
        }
    }

    // Whether it has made place, and its client has still sent nothing.
    fn is_early(&mut self) -> bool
        ensures { self.new ≡ self.old }
    {
        let has_waited = self.has_waited;
        self.has_waited = false;
        has_waited && !self.has_come()
    }

    // Makes place for others.
    fn wait(&mut self) -> Turn
        ensures { self.new ≡ self.old }
    {
        self.has_waited = true;
        Turn::Waits
    }

    // Does a step. Returns what follows.
    fn go_on<R: Clock, S: KeepsAnswers, G: Signals>(
        &mut self,
        rt: &R,
        service: &mut S,
        watch: &mut Watch,
        signals: &G,
        idle: u64,
    ) -> Next
        ensures { Calls S.answers service.old service.new (history self.old).calls
            (history self.new).calls }
    {
        if self.is_refused() && !self.part(signals) {
            return Next::End;
        }
        if self.is_done() {
            return self.leave(rt);
        }
        if let Some(next) = self.find_room(rt, signals) {
            return next;
        }
        match self.step(service) {
            Ok(step) => self.next(rt, watch, step, signals, idle),
            Err(_) => Next::End,
        }
    }

    /// Serves the connection until it ends or was idle for `idle` milliseconds, or leaves its thread.
    /// If others wait, it makes place after each answer. It goes to the poller once its client has sent
    /// nothing, or taken nothing, for 2 ms, or for 50 ms after an answer if nobody waits; after 10 ms of
    /// a request if others wait, or once more a few bytes of it; and once its last answer was sent. Once
    /// the server ends, it goes on only for the rest of a request and its answer, and for at most 10 s
    /// besides the time that the service takes. The service is told if the client has left before an
    /// answer that it may keep was sent.
    ///
    /// What it has called the service for, and what the service answered, is what the connection's
    /// history shows: the calls of this turn follow those of earlier ones, and lead from the
    /// service's state before to its state after.
    pub fn serve<R: Wait + Clock, S: KeepsAnswers, G: Signals>(
        &mut self,
        rt: &R,
        service: &mut S,
        signals: &G,
        idle: u64,
    ) -> Turn
        ensures { Calls S.answers service.old service.new (history self.old).calls
            (history self.new).calls }
    {
        let mut watch = Watch {
            start: Instant::now(rt).ok(),
            has_begun: self.has_begun,
            ending: None,
        };
        if self.moved.is_none() {
            self.moved = watch.start;
        }
        if self.is_early() {
            return Turn::Parks;
        }
        'steps: for _ in rt.forever() {
            match self.go_on(rt, service, &mut watch, signals, idle) {
                Next::Step => {}
                Next::Wait => return self.wait(),
                Next::Park => return Turn::Parks,
                Next::End => return Turn::Ended,
            }
        }
        unreachable!()
    }
}

// Takes what a connection has to send.
fn take_pending(alloc: Global, connection: &mut Connection) -> Result<Vec<u8>, AllocError>
    ensures calls { (history connection.new).calls ≡ (history connection.old).calls }
    ensures received { (history connection.new).received ≡ (history connection.old).received }
{
    let mut pending = Vec::new(alloc);
    'pieces: while connection.wants_write() {
        let count = connection.output().len();
        pending.extend_from_slice(connection.output())?;
        connection.sent(count);
    }
    Ok(pending)
}
