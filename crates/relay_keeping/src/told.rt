//! What the threads of a run tell.
use relay_action::OpName;
use relay_resume::Place;

/// What a thread of a run tells the keeper of its marks. The producers tell by the first ends of the
/// channel, each by the one at its position, and the lanes by the others.
#[derive(Debug, Drop)]
pub enum Told {
    /// The producer puts these operations next: where each ends in its input, in order.
    Put(Vec<Place>),
    /// These operations are settled: the index applied them, or their reports were saved.
    Settled(Vec<OpName>),
}
