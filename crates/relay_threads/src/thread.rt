//! The thread of a lane, and what is known of its end.
ghost use Rattle.std.specs.Prelude.{◌≡◌, ◌+◌, ◌≤◌, [], IfOk, map, vec_len, vec_capacity};
ghost use Rattle.relay_core.specs.State.{fresh};
ghost use Rattle.relay_threads.specs.Promises.{KeepsCourse, KeepsTold};
ghost use Rattle.relay_threads.specs.Lanes.{tells_of, EndAsPromised, ToldAsPromised};

use crate::lane_end::LaneEnd;
use crate::run::run_lane;
use crate::tell::Tell;
use relay_lane::{Lane, Pace, RelayConfig, Wire};
use relay_queue::LaneTake;
use std::alloc::AllocError;
use std::snapshot::Snapshot;
use std::sync::Wait;
use std::thread;
use std::thread::{Promise, PromisedHandle, Threads};

/// What a lane's thread was given, for proofs only: its config, its end of the queue, its wire, and
/// its `Tell`.
#[derive(Drop)]
pub struct LanePromise<W, T> {
    /// Its config.
    pub config: Snapshot<RelayConfig>,
    /// Its end of the queue, as it was at the start.
    pub take: Snapshot<LaneTake>,
    /// Its wire, as it was at the start.
    pub wire: Snapshot<W>,
    /// Its `Tell`, as it was at the start.
    pub tell: Snapshot<T>,
}

impl<W: Wire, T: Tell> Promise<(LaneEnd<W>, T)> for LanePromise<W, T> {
    ghost kept_by = { λ p r. KeepsCourse W.describes W.fits W.carries
        p.config.value p.take.value p.wire.value r.0
        × KeepsTold W.describes W.fits W.carries T.told
        p.config.value p.wire.value p.tell.value r.1 r.0
        × (T.destination r.1 ≡ T.destination p.tell.value) };
}

/// A lane in its thread, which returns its end, and the `Tell` after its last call.
pub type LaneThread<W, T> = PromisedHandle<(LaneEnd<W>, T), LanePromise<W, T>>;

// Starts the thread of a lane. `AllocError`: it could not be started.
pub(crate) fn spawn_lane<R, W, P, T>(
    rt: R,
    config: RelayConfig,
    take: LaneTake,
    lane: Lane,
    wire: W,
    pace: P,
    tell: T,
) -> Result<LaneThread<W, T>, AllocError>
where
    R: Threads + Wait + Copy + Send + 'static,
    W: Wire + Drop + Send + 'static,
    P: Pace + Drop + Send + 'static,
    T: Tell + Drop + Send + 'static,
    requires fresh { lane.state ≡ fresh config }
    requires senders { take.senders ≡ config.producers + 1 }
    requires none_taken { take.taken ≡ [] }
    requires out { W.out wire ≡ [] }
    ensures config { IfOk result (λ h. h.promise.config.value ≡ config) }
    ensures take { IfOk result (λ h. h.promise.take.value ≡ take) }
    ensures wire { IfOk result (λ h. h.promise.wire.value ≡ wire) }
    ensures tell { IfOk result (λ h. h.promise.tell.value ≡ tell) }
{
    let promise = LanePromise {
        config: Snapshot::of(&config),
        take: Snapshot::of(&take),
        wire: Snapshot::of(&wire),
        tell: Snapshot::of(&tell),
    };
    Ok(thread::spawn_with(&rt, promise, move || {
        let mut tell = tell;
        let end = run_lane(&rt, take, lane, wire, pace, &mut tell);
        (end, tell)
    })?)
}

// Waits until each lane has ended, and returns their ends and what they told by. There is room for
// all of them.
pub(crate) fn join_all<R: Threads, W, T>(
    rt: &R,
    lanes: Vec<LaneThread<W, T>>,
    places: Vec<LaneEnd<W>>,
    tell_places: Vec<T>,
) -> (Vec<LaneEnd<W>>, Vec<T>)
where
    W: Wire + Drop + Send + 'static,
    T: Tell + Drop + Send + 'static,
    requires none { (places.items ≡ []) × (tell_places.items ≡ []) }
    requires places { (vec_len lanes ≤ vec_capacity places)
        × (vec_len lanes ≤ vec_capacity tell_places) }
    ensures ends { EndAsPromised W.describes W.fits W.carries lanes.items result.0.items }
    ensures told { ToldAsPromised W.describes W.fits W.carries T.told
        lanes.items result.0.items result.1.items }
    ensures destinations { map T.destination result.1.items
        ≡ map T.destination (tells_of lanes.items) }
{
    let mut ends = places;
    let mut tells = tell_places;
    for lane in lanes {
        let (end, tell) = lane.join(rt);
        ends.push_reserved(end);
        tells.push_reserved(tell);
    }
    (ends, tells)
}
