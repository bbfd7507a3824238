//! Reading a source that may wait for long, by a run that may be told to stop meanwhile.
use crate::noting::NotedSource;
use crate::stopping::{SharedStop, is_stopped, share_stop};
use crossbeam_channel::{Receiver, RecvTimeoutError, Sender, bounded};
use std::alloc::{AllocError, Global};
use std::io::{ErrorKind, Read};
use std::sync::Wait;
use std::thread::Threads;
use std::time::{Clock, Duration};
use std::{io, thread};

// How many bytes a thread reads at a time, and how many pieces wait for the reader.
const PIECE: usize = 65_536;

const PIECES: usize = 4;

// The time between two looks at the stop, in milliseconds.
const LOOK: u64 = 100;

/// What a thread read next: some bytes, none at the end, or that a read failed.
type Piece = Result<Vec<u8>, ErrorKind>;

/// A source that a thread of its own reads, which may wait in a read for ever. Once the run is to stop,
/// a read of it fails as interrupted instead of waiting.
#[derive(Drop)]
pub(crate) struct Pumped<R: Wait> {
    rt: R,
    pieces: Receiver<Piece, Global>,
    stop: Option<SharedStop>,
    // What was received last, and how much of it was read.
    piece: Vec<u8>,
    taken: usize,
    has_ended: bool,
}

// Reads a source to its end, or until a read fails, nobody receives any more, or the run is to stop.
fn pump<R: Wait>(
    rt: &R,
    alloc: Global,
    mut source: NotedSource,
    stop: &Option<SharedStop>,
    pieces: &Sender<Piece, Global>,
) {
    for _ in rt.forever() {
        if is_stopped(stop) {
            return;
        }
        let piece = read_piece(alloc, &mut source);
        let is_last = !matches!(&piece, Ok(piece) if !piece.is_empty());
        if pieces.send(rt, piece).is_err() || is_last {
            return;
        }
    }
}

fn read_piece(alloc: Global, source: &mut NotedSource) -> Piece {
    let Ok(mut piece) = Vec::from_elem(alloc, 0u8, PIECE) else {
        return Err(ErrorKind::OutOfMemory);
    };
    for _ in 0..u64::MAX {
        match source.read(&mut piece) {
            Ok(count) => {
                piece.truncate(count);
                return Ok(piece);
            }
            Err(error) if error.kind() == ErrorKind::Interrupted => {}
            Err(error) => return Err(error.kind()),
        }
    }
    Err(ErrorKind::Interrupted)
}

impl<R: Threads + Wait + Clock + Copy + Send + 'static> Pumped<R> {
    /// Starts the thread. `AllocError`: allocation failed, or it could not be started.
    pub(crate) fn start(
        rt: R,
        alloc: Global,
        source: NotedSource,
        stop: Option<SharedStop>,
    ) -> Result<Pumped<R>, AllocError> {
        let (sender, pieces) = bounded(alloc, PIECES)?;
        let own = share_stop(&stop)?;
        thread::spawn(&rt, move || pump(&rt, alloc, source, &own, &sender))?;
        Ok(Pumped {
            rt,
            pieces,
            stop,
            piece: Vec::new(alloc),
            taken: 0,
            has_ended: false,
        })
    }
}

impl<R: Wait + Clock> Pumped<R> {
    // Waits for the next piece, unless the run is to stop.
    fn receive(&mut self) -> Result<(), io::Error> {
        for _ in self.rt.forever() {
            if is_stopped(&self.stop) {
                return Err(io::Error::from(ErrorKind::Interrupted));
            }
            match self
                .pieces
                .recv_timeout(&self.rt, Duration::from_millis(LOOK))
            {
                Ok(Ok(piece)) => {
                    self.has_ended = piece.is_empty();
                    self.piece = piece;
                    self.taken = 0;
                    return Ok(());
                }
                Ok(Err(kind)) => return Err(io::Error::from(kind)),
                Err(RecvTimeoutError::Timeout) => {}
                Err(RecvTimeoutError::Disconnected) => {
                    self.has_ended = true;
                    return Ok(());
                }
            }
        }
        unreachable!()
    }
}

impl<R: Wait + Clock> Read for Pumped<R> {
    fn read(&mut self, buffer: &mut [u8]) -> Result<usize, io::Error> {
        if self.taken >= self.piece.len() && !self.has_ended {
            self.receive()?;
        }
        let rest = &self.piece[self.taken.min(self.piece.len())..];
        let count = rest.len().min(buffer.len());
        buffer[..count].copy_from_slice(&rest[..count]);
        self.taken = self.taken.saturating_add(count);
        Ok(count)
    }
}

/// A source of a run.
#[derive(Drop)]
pub(crate) enum Flow<R: Wait> {
    /// It is read as it is.
    Direct(NotedSource),
    /// A thread of its own reads it.
    Pumped(Pumped<R>),
}

impl<R: Threads + Wait + Clock + Copy + Send + 'static> Flow<R> {
    /// A source that may wait is read by a thread of its own if the run may be told to stop meanwhile.
    /// `AllocError`: allocation failed, or that could not be started.
    pub(crate) fn new(
        rt: R,
        alloc: Global,
        source: NotedSource,
        waits: bool,
        stop: Option<SharedStop>,
    ) -> Result<Flow<R>, AllocError> {
        if waits && source.size().is_none() {
            return Ok(Flow::Pumped(Pumped::start(rt, alloc, source, stop)?));
        }
        Ok(Flow::Direct(source))
    }
}

impl<R: Wait + Clock> Read for Flow<R> {
    fn read(&mut self, buffer: &mut [u8]) -> Result<usize, io::Error> {
        match self {
            Flow::Direct(source) => source.read(buffer),
            Flow::Pumped(source) => source.read(buffer),
        }
    }
}
