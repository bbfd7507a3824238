//! The threads of the running relay. `Relay::start` starts a thread for each lane, which takes
//! messages from a queue and works on a wire until each sender has closed and nothing is held, and
//! returns the handles of the senders; `Relay::finish` takes them back, waits until every lane has
//! ended, and returns what each has done. It depends on `relay_queue`, `relay_lane` and
//! `relay_producer`, and takes no lock.
//!
//! What is proved: if `finish` returns `Ok`, each lane took exactly what the producers put to it,
//! each of these operations was applied or is reported, and for each outside that the lane's wire
//! describes, their delivery is sound and complete.
#![tactic(auto)]

pub mod fault;
pub mod finish;
pub mod lane_end;
pub mod relay;
mod rows;
pub mod run;
pub mod start;
pub mod summary;
pub mod tell;
pub mod telling;
pub mod thread;

pub use fault::{FinishFault, FinishFaultKind, StartFault};
pub use finish::fault_of;
pub use lane_end::{LaneEnd, LaneEndKind};
pub use relay::Relay;
pub use run::run_lane;
pub use summary::{LaneSummary, Summary};
pub use tell::{Tell, TellNobody};
