//! A running relay.
use crate::lane_end::LaneEnd;
use crate::tell::{Tell, TellNobody};
use crate::thread::LaneThread;
use relay_lane::{RelayConfig, Wire};
use relay_producer::ClosedEnd;
use std::alloc::Global;
use std::marker::Model;

/// A running relay: a thread for each lane. Contracts see its config, its lanes' queues, and, as
/// they were at the start, their wires and what they tell by, by lane.
///
/// If it is dropped, the lanes end by themselves once each handle has closed or is dropped.
#[derive(Drop)]
pub struct Relay<W: Wire, T: Tell = TellNobody> {
    pub(crate) alloc: Global,
    pub(crate) config: RelayConfig,
    pub(crate) lanes: Vec<LaneThread<W, T>>,
    // Room for what they end with, and for the handles that are passed back.
    pub(crate) ends: Vec<LaneEnd<W>>,
    pub(crate) tells: Vec<T>,
    pub(crate) rows: Vec<Vec<ClosedEnd>>,
}

impl<W: Wire, T: Tell> Model for Relay<W, T> {
    ghost use Rattle.std.specs.Prelude.{◌≡◌, ◌+◌, ◌≤◌, [], true, length, vec_capacity};
    ghost use Rattle.relay_core.specs.Limits.{is_valid};
    ghost use Rattle.relay_threads.specs.Lanes.{queues_of, wires_of, tells_of, AreLanesOf};
    ghost use Rattle.relay_threads.specs.Relay.{RelayState};

    ghost Value = { RelayState W T };

    ghost view = { λ a. record {
      config = a.config;
      queues = queues_of a.lanes.items;
      wires = wires_of a.lanes.items;
      tells = tells_of a.lanes.items;
    } };

    ghost invariant = { λ a. (is_valid a.config ≡ true)
        × (length a.lanes.items ≡ a.config.lanes)
        × AreLanesOf a.config a.lanes.items
        × (a.ends.items ≡ [])
        × (length a.lanes.items ≤ vec_capacity a.ends)
        × (a.tells.items ≡ [])
        × (length a.lanes.items ≤ vec_capacity a.tells)
        × (a.rows.items ≡ [])
        × (a.config.producers + 1 ≤ vec_capacity a.rows) };
}
