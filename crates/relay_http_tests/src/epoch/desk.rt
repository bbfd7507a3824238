//! A dial to streams in memory, and a patience that is counted.
ghost use Rattle.std.specs.Prelude.{◌≡◌, [], IfSome};

use relay_action::MemStream;
use relay_epoch::{Dial, DialFault, EpochFault, Patience, take_epoch};
use std::alloc::Global;

/// What a connection does: it cannot be made, or it is answered with these bytes, while this call
/// of the stream fails (0: none).
#[derive(Clone, Copy)]
pub enum Answer<'a> {
    Refused,
    Says(&'a [u8], u64),
}

/// The body that is written.
pub const BODY: &str = "{\"to\":1}";

/// The request with this body.
pub const REQUEST: &[u8] =
    b"PUT /relay/_doc/epoch HTTP/1.1\r\nHost: h:9200\r\nContent-Type: application/json\r\nContent-Length: 8\r\n\r\n{\"to\":1}";

/// A dial whose connections get these answers in turn; after the last none can be made.
#[derive(Drop)]
pub struct Desk<'a> {
    alloc: Global,
    answers: &'a [Answer<'a>],
    dialled: u64,
    failed: u64,
}

/// A stream with these bytes, which moves a few bytes per call, and of which this call fails.
pub fn stream_of(alloc: Global, bytes: &[u8], fail_at: u64) -> Option<MemStream>
    ensures { IfSome result (λ s. s.written ≡ []) }
{
    let input = bytes.to_vec(alloc).ok()?;
    MemStream::new(alloc, input, 1_000, 50, fail_at).ok()
}

impl<'a> Desk<'a> {
    pub fn new(alloc: Global, answers: &'a [Answer<'a>]) -> Desk<'a> {
        Desk {
            alloc,
            answers,
            dialled: 0,
            failed: 0,
        }
    }

    // The stream of the connection at this place, if it can be made.
    fn stream(&self, place: usize) -> Option<MemStream>
        ensures { IfSome result (λ s. s.written ≡ []) }
    {
        match self.answers.get(place)? {
            Answer::Refused => None,
            Answer::Says(bytes, fail_at) => stream_of(self.alloc, bytes, *fail_at),
        }
    }
}

impl Dial<MemStream> for Desk<'_> {
    ghost failed = { λ d. d.failed };

    ghost dialled = { λ d. d.dialled };

    fn dial(&mut self) -> Result<MemStream, DialFault> {
        let place = self.dialled as usize;
        self.dialled = self.dialled.saturating_add(1);
        match self.stream(place) {
            Some(stream) => Ok(stream),
            None => {
                self.failed = self.failed.saturating_add(1);
                Err(DialFault::Refused)
            }
        }
    }
}

/// A number of further tries.
#[derive(Drop)]
pub struct Tries {
    pub left: u32,
}

impl Patience for Tries {
    ghost left = { λ t. t.left };

    ghost over = { λ t. t.left ≡ 0 };

    fn again(&mut self) -> bool {
        if self.left == 0 {
            return false;
        }
        self.left -= 1;
        true
    }
}

/// Asks a desk for an epoch with this number of further tries. Returns the result, how many
/// connections were dialled, and how many tries are left.
pub fn asks(
    alloc: Global,
    answers: &[Answer<'_>],
    tries: u32,
) -> (Result<u32, EpochFault>, u64, u32) {
    let mut desk = Desk::new(alloc, answers);
    let mut patience = Tries { left: tries };
    let result = take_epoch(
        alloc,
        &mut desk,
        &mut patience,
        "h:9200",
        "/relay/_doc/epoch",
        BODY,
    );
    (result, desk.dialled, patience.left)
}

/// The result that is wanted.
#[derive(Clone, Copy)]
pub enum Wanted {
    Epoch(u32),
    Unreachable,
    Status(u16),
    NoVersion,
    Spent,
}

/// Whether a result is as wanted, with no type of an error.
pub fn is_wanted(outcome: &Result<u32, EpochFault>, wanted: Wanted) -> bool {
    match (outcome, wanted) {
        (Ok(epoch), Wanted::Epoch(right)) => *epoch == right,
        (Err(EpochFault::Unreachable), Wanted::Unreachable) => true,
        (Err(EpochFault::Status { status, kind }), Wanted::Status(right)) => {
            *status == right && kind.as_str().is_empty()
        }
        (Err(EpochFault::NoVersion), Wanted::NoVersion) => true,
        (Err(EpochFault::Spent), Wanted::Spent) => true,
        _ => false,
    }
}
