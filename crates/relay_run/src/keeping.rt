//! Keeping the state of a run while it works, and looking for the file that ends it.
ghost use Rattle.std.specs.Prelude.{◌≡◌, ◌&&◌, IfOk, IfSome, None, is_some};
ghost use Rattle.relay_run.specs.Marks.{EndsBy, fixed, fixed_of, held_by};
ghost use Rattle.relay_run.specs.Written.{AreBegun, IsKeptOf};

use crate::resuming::Resumed;
use crate::saving::say_saved;
use crate::stopping::SharedStop;
use crossbeam_channel::{Receiver, RecvTimeoutError, Sender, bounded};
use relay_action::ByteOut;
use relay_keeping::MarkKeeper;
use relay_words::Exit;
use std::alloc::{AllocError, Global};
use std::marker::Model;
use std::snapshot::Snapshot;
use std::sync::Wait;
use std::thread::{Promise, PromisedHandle, Threads};
use std::time::{Clock, Duration, Instant};
use std::{fs, thread};

// The time between two turns, in each of which is taken what was told, between two looks for the
// file, and between two writes of the state, in milliseconds.
const TURN: u64 = 20;

const LOOK: u64 = 100;

const WRITE: u64 = 1_000;

// How many messages are taken in a turn, so that the state is written however fast others tell.
const MESSAGES: u32 = 65_536;

// Whether it is so long ago, in milliseconds, or the clock cannot be read.
fn has_passed<R: Clock>(rt: &R, since: &Option<Instant>, limit: u64) -> bool {
    let limit = Duration::from_millis(limit);
    match since {
        Some(since) => since.elapsed(rt).unwrap_or(limit) >= limit,
        None => true,
    }
}

/// A state that is kept, and the keeper of its marks: each mark in each state that was written is one
/// that the keeper had given by then, or the one that its input is read from. Contracts see the
/// keeper, who reads the inputs, and what was written.
#[derive(Drop)]
pub(crate) struct Kept {
    state: Resumed,
    marks: MarkKeeper,
}

impl Model for Kept {
    ghost use Rattle.relay_run.specs.Written.{GoesBy, StateKeeping};

    ghost Value = { StateKeeping };

    ghost view = { λ k. record {
      marks = k.marks;
      reads = k.state.reads;
      written = k.state.written;
    } };

    ghost invariant = { λ k. GoesBy k.marks k.state };
}

/// A state that is kept by what the threads of a run tell, if there are both.
pub(crate) fn kept_of(resumed: Option<Resumed>, marks: Option<MarkKeeper>) -> Option<Kept>
    requires { AreBegun resumed marks }
    ensures kept { IfSome result (λ k. IsKeptOf k resumed marks) }
    ensures both { is_some result ≡ (is_some resumed && is_some marks) }
{
    match (resumed, marks) {
        (Some(state), Some(marks)) => Some(Kept { state, marks }),
        _ => None,
    }
}

impl Kept {
    // Takes the first of what was told, if there is something. Returns whether it did.
    fn follow_one<R: Wait>(&mut self, rt: &R) -> bool
        ensures { fixed self.new ≡ fixed self.old }
    {
        match self.marks.try_follow(rt) {
            Ok(took) => took,
            Err(_) => false,
        }
    }

    // Takes what was told, at most so many messages.
    fn follow<R: Wait>(&mut self, rt: &R, most: u32)
        ensures { fixed self.new ≡ fixed self.old }
    {
        'notices: for _ in 0..most {
            if !self.follow_one(rt) {
                return;
            }
        }
    }

    // Writes the state if it has changed. Returns whether it is written.
    fn save(&mut self, alloc: Global) -> bool
        ensures { fixed self.new ≡ fixed self.old }
    {
        self.state.save(alloc, &mut self.marks).is_ok()
    }
}

/// What a thread does beside a run: it keeps the state, if there is one, and tells the stop once the
/// file that ends the run is there, if one was named.
#[derive(Drop)]
pub(crate) struct Keeper {
    host: HostRuntime,
    kept: Option<Kept>,
    until: Option<String>,
    stop: Option<SharedStop>,
    // Whether a write of the state failed, and none succeeded after it.
    has_failed: bool,
}

impl Keeper {
    pub(crate) fn new(
        host: HostRuntime,
        kept: Option<Kept>,
        until: Option<String>,
        stop: Option<SharedStop>,
    ) -> Keeper
        ensures { result.kept ≡ kept }
    {
        Keeper {
            host,
            kept,
            until,
            stop,
            has_failed: false,
        }
    }

    // Tells the stop if the file is there.
    fn look(&self) {
        let (Some(path), Some(stop)) = (&self.until, &self.stop) else {
            return;
        };
        if let Ok(true) = fs::exists(&self.host, path.as_str()) {
            stop.ask();
        }
    }

    // Takes what was told, at most so many messages.
    fn follow<R: Wait>(&mut self, rt: &R, most: u32)
        ensures { fixed_of self.new.kept ≡ fixed_of self.old.kept }
    {
        if let Some(kept) = &mut self.kept {
            kept.follow(rt, most);
        }
    }

    // Writes the state, if there is one and it has changed.
    fn save(&mut self, alloc: Global)
        ensures { fixed_of self.new.kept ≡ fixed_of self.old.kept }
    {
        if let Some(kept) = &mut self.kept {
            self.has_failed = !kept.save(alloc);
        }
    }

    // Does so until every sender of `ended` is gone.
    fn keep<R: Wait + Clock>(&mut self, rt: &R, alloc: Global, ended: &Receiver<(), Global>)
        ensures { fixed_of self.new.kept ≡ fixed_of self.old.kept }
    {
        let mut looked = None;
        let mut written = Instant::now(rt).ok();
        'turns: for _ in rt.forever() {
            if has_passed(rt, &looked, LOOK) {
                self.look();
                looked = Instant::now(rt).ok();
            }
            let waited = ended.recv_timeout(rt, Duration::from_millis(TURN));
            if let Err(RecvTimeoutError::Disconnected) = waited {
                return;
            }
            self.follow(rt, MESSAGES);
            if has_passed(rt, &written, WRITE) {
                self.save(alloc);
                written = Instant::now(rt).ok();
            }
        }
    }
}

/// The state that a thread beside a run keeps, for proofs: as it was at the start.
#[derive(Drop)]
pub(crate) struct KeptPromise {
    kept: Snapshot<Option<Kept>>,
}

impl Promise<Keeper> for KeptPromise {
    ghost use Rattle.std.specs.Prelude.{◌≡◌};
    ghost use Rattle.relay_run.specs.Marks.{fixed_of};

    ghost kept_by = { λ p end. fixed_of end.kept ≡ fixed_of p.kept.value };
}

/// Such a thread. Contracts see what the state that it keeps is bound to, if it keeps one.
#[derive(Drop)]
pub(crate) struct Keeping {
    ended: Sender<(), Global>,
    thread: PromisedHandle<Keeper, KeptPromise>,
}

impl Model for Keeping {
    ghost use Rattle.std.specs.Prelude.{Option};
    ghost use Rattle.relay_run.specs.Marks.{Fixed, fixed_of};

    ghost Value = { Option Fixed };

    ghost view = { λ k. fixed_of k.thread.promise.kept.value };
}

/// Starts it, after a first look for the file that ends the run: if that is there, no input is taken.
/// `AllocError`: allocation failed, or it could not be started.
pub(crate) fn start_keeping<R>(rt: R, alloc: Global, keeper: Keeper) -> Result<Keeping, AllocError>
where
    R: Threads + Wait + Clock + Copy + Send + 'static,
    ensures { IfOk result (λ k. k ≡ fixed_of keeper.kept) }
{
    let (ended, waiting) = bounded(alloc, 1)?;
    let promise = KeptPromise {
        kept: Snapshot::of(&keeper.kept),
    };
    keeper.look();
    let mut keeper = keeper;
    let thread = thread::spawn_with(&rt, promise, move || {
        keeper.keep(&rt, alloc, &waiting);
        keeper
    })?;
    Ok(Keeping { ended, thread })
}

/// A state that was kept, if there is one.
#[derive(Drop)]
pub(crate) struct Ended {
    /// The run that went on by it.
    pub(crate) state: Option<Resumed>,
    // Whether its last write failed.
    has_failed: bool,
}

impl Ended {
    // There is none.
    fn none() -> Ended
        ensures { result.state ≡ None }
    {
        Ended {
            state: None,
            has_failed: false,
        }
    }

    /// Says if the last write of the state failed. Returns the exit status of a program that would
    /// otherwise have ended with `exit`.
    pub(crate) fn say<E: ByteOut>(
        &self,
        alloc: Global,
        exit: Exit,
        err: &mut E,
    ) -> Result<Exit, AllocError> {
        match &self.state {
            Some(state) => say_saved(alloc, exit, state.path(), self.has_failed, err),
            None => Ok(exit),
        }
    }
}

// The state and the keeper of its marks.
fn part(kept: Option<Kept>) -> (Option<Resumed>, Option<MarkKeeper>)
    ensures { EndsBy (fixed_of kept) result.0 result.1 }
{
    match kept {
        Some(kept) => {
            let Kept { state, marks } = kept;
            (Some(state), Some(marks))
        }
        None => (None, None),
    }
}

// Waits until such a thread has ended, and writes the state once more.
fn join_keeping<R: Threads + Wait>(rt: &R, alloc: Global, keeping: Keeping) -> Keeper
    ensures { fixed_of result.kept ≡ keeping }
{
    let Keeping { ended, thread } = keeping;
    drop(ended);
    let mut keeper = thread.join(rt);
    keeper.follow(rt, u32::MAX);
    keeper.save(alloc);
    keeper
}

/// Ends it after the run, if there is one, and writes the state once more. Returns the state, and the
/// keeper of its marks, if there is one.
pub(crate) fn end_keeping<R: Threads + Wait>(
    rt: &R,
    alloc: Global,
    keeping: Option<Keeping>,
) -> (Ended, Option<MarkKeeper>)
    ensures { EndsBy (held_by keeping) result.0.state result.1 }
{
    let Some(keeping) = keeping else {
        return (Ended::none(), None);
    };
    let Keeper {
        kept,
        has_failed,
        ..
    } = join_keeping(rt, alloc, keeping);
    let (state, marks) = part(kept);
    (Ended { state, has_failed }, marks)
}
