//! What a relay has done.
use relay_lane::Report;

/// What a lane has done. The numbers are numbers of operations, except `requests`.
#[derive(Drop)]
pub struct LaneSummary<W> {
    /// The number of operations that it took: those that the producers put to it.
    pub taken: u64,
    /// The number that ended as applied by the answered request.
    pub applied: u64,
    /// The number that ended as applied by an earlier request.
    pub already: u64,
    /// The number of requests that it sent.
    pub requests: u64,
    /// The reports on the other operations, in the order in which they arose.
    pub reports: Vec<Report>,
    /// Its wire, on which no number is outstanding.
    pub wire: W,
}

/// What a relay has done.
#[derive(Drop)]
pub struct Summary<W> {
    /// What each lane has done, by lane.
    pub lanes: Vec<LaneSummary<W>>,
}
