//! A listener in memory, which compares what was written on each connection.
ghost use Rattle.std.specs.Prelude.{◌≡◌};
ghost use Rattle.relay_http.specs.Listening.{unseen};

use relay_action::MemStream;
use relay_index::{Index, Script, may_refuse};
use relay_stub::{AcceptFailed, Listen, ServeError, stub_serve};
use std::alloc::Global;
use std::process::Abort;

/// A connection: what is read from it, how many bytes may be written to it, which of its calls
/// fails (0: none), and what should be written to it.
#[derive(Clone, Copy)]
pub struct Visit<'a> {
    pub input: &'a [u8],
    pub room: usize,
    pub fail_at: u64,
    pub wanted: &'a [u8],
}

/// A listener for these connections, whose streams move a few bytes per call. If none is left it
/// fails.
#[derive(Drop)]
pub struct Desk<'a> {
    alloc: Global,
    visits: &'a [Visit<'a>],
    piece: usize,
    handed: usize,
    closed: usize,
    wrong: usize,
    unanswered: usize,
    accepted: u64,
    failed: u64,
}

impl<'a> Desk<'a> {
    /// No connection was provided yet.
    pub fn new(alloc: Global, visits: &'a [Visit<'a>], piece: usize) -> Desk<'a> {
        Desk {
            alloc,
            visits,
            piece,
            handed: 0,
            closed: 0,
            wrong: 0,
            unanswered: 0,
            accepted: 0,
            failed: 0,
        }
    }

    /// Whether this many connections were provided and taken back, and what was written to each is
    /// as expected.
    pub fn served(&self, visits: usize) -> bool {
        self.handed == visits && self.closed == visits && self.wrong == 0
    }

    /// Whether that many connections were provided and taken back, and to each its answer or
    /// nothing was written.
    pub fn answered_or_dropped(&self, visits: usize) -> bool {
        self.handed == visits && self.closed == visits && self.wrong == self.unanswered
    }

    // The stream of the next connection, if there is one and it can be allocated.
    fn stream(&mut self) -> Option<MemStream>
        ensures accepted { self.new.accepted ≡ self.old.accepted }
        ensures failed { self.new.failed ≡ self.old.failed }
    {
        let visit = self.visits.get(self.handed)?;
        self.handed = self.handed.saturating_add(1);
        let input = visit.input.to_vec(self.alloc).ok()?;
        MemStream::new(
            self.alloc,
            input,
            visit.room,
            self.piece.max(1),
            visit.fail_at,
        )
        .ok()
    }

    // Whether what was written on the connection that is closed next is as expected.
    fn right(&self, written: &[u8]) -> bool {
        match self.visits.get(self.closed) {
            Some(visit) => visit.wanted == written,
            None => false,
        }
    }
}

impl Listen<MemStream> for Desk<'_> {
    ghost shows = { λ d. unseen d.accepted d.failed };

    fn accept(&mut self) -> Result<MemStream, AcceptFailed> {
        match self.stream() {
            Some(stream) => {
                self.accepted = self.accepted.saturating_add(1);
                Ok(stream)
            }
            None => {
                self.failed = self.failed.saturating_add(1);
                Err(AcceptFailed)
            }
        }
    }

    fn close(&mut self, stream: MemStream) {
        if !self.right(stream.written()) {
            self.wrong = self.wrong.saturating_add(1);
            if stream.written().is_empty() {
                self.unanswered = self.unanswered.saturating_add(1);
            }
        }
        self.closed = self.closed.saturating_add(1);
    }
}

/// A script of these refusals.
pub fn script_of(rt: &impl Abort, alloc: Global, refusals: &[(u64, u16)]) -> Script {
    let mut script = Script::new(alloc);
    for (place, status) in refusals {
        assert!(rt; may_refuse(*status));
        script.refuse(*place, *status).expect(rt, "memory");
    }
    script
}

/// Serves this many connections with an index, and returns the result. To each of them is written
/// what is expected, and each is taken back.
pub fn serves(
    rt: &impl Abort,
    alloc: Global,
    visits: &[Visit<'_>],
    piece: usize,
    requests: u64,
    index: &mut Index,
    script: &mut Script,
) -> Result<(), ServeError> {
    let mut desk = Desk::new(alloc, visits, piece);
    let result = stub_serve(alloc, &mut desk, requests, index, script);
    assert!(rt; desk.served(visits.len()));
    result
}
