//! Starting a relay whose lanes tell how operations ended.
ghost use Rattle.std.specs.Prelude.{◌≡◌, ◌≢◌, ◌⊎◌, ◌↔◌, true, false, IfOk, IsErrAnd, vec_len};
ghost use Rattle.relay_core.specs.Limits.{is_valid};
ghost use Rattle.relay_threads.specs.Relay.{NoneOut, AreNew, new_control};

use crate::fault::StartFault;
use crate::relay::Relay;
use crate::start::start_all;
use crate::tell::Tell;
use relay_lane::{Pace, RelayConfig, Wire};
use relay_producer::{Control, Producer};
use std::alloc::Global;
use std::sync::Wait;
use std::thread::Threads;

impl<W: Wire + Drop + Send + 'static, T: Tell + Drop + Send + 'static> Relay<W, T> {
    /// The same as [`Relay::start`], with a `Tell` for each lane, by which its thread tells how the
    /// operations that it took ended; [`Relay::finish_telling`] returns it. `WireCount` also if
    /// there is not one for each lane.
    pub fn start_telling<R, P>(
        rt: R,
        alloc: Global,
        config: RelayConfig,
        wires: Vec<W>,
        paces: Vec<P>,
        tells: Vec<T>,
    ) -> Result<(Relay<W, T>, Vec<Producer>, Control), StartFault>
    where
        R: Threads + Wait + Copy + Send + 'static,
        P: Pace + Drop + Send + 'static,
        requires { NoneOut W.out wires.items }
        ensures config { IfOk result (λ r. r.0.config ≡ config) }
        ensures wires { IfOk result (λ r. r.0.wires ≡ wires.items) }
        ensures tells { IfOk result (λ r. r.0.tells ≡ tells.items) }
        ensures producers { IfOk result (λ r. AreNew r.0.queues config.epoch 0 r.1.items) }
        ensures count { IfOk result (λ r. vec_len r.1 ≡ config.producers) }
        ensures control { IfOk result (λ r. r.2 ≡ new_control r.0.queues config.producers) }
        ensures bad_config { IsErrAnd result (λ e. e ≡ StartFault.BadConfig)
            ↔ (is_valid config ≡ false) }
        ensures wire_count { IsErrAnd result (λ e. e ≡ StartFault.WireCount)
            ↔ ((is_valid config ≡ true)
            × ((vec_len wires ≢ config.lanes) ⊎ ((vec_len paces ≢ config.lanes)
            ⊎ (vec_len tells ≢ config.lanes)))) }
    {
        if !config.valid() {
            return Err(StartFault::BadConfig);
        }
        let lanes = config.lanes as usize;
        if wires.len() != lanes || paces.len() != lanes || tells.len() != lanes {
            return Err(StartFault::WireCount);
        }
        start_all(rt, alloc, config, wires, paces, tells)
    }
}
