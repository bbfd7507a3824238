//! What is promised of worlds that are tied to the machines of delivery. These functions do
//! nothing; their contracts are the laws.
ghost use Rattle.relay_world.specs.Ties.{FreshIsWorld, StepsKeepTied, WorldsDeliver, FreshIsBelow};
ghost use Rattle.relay_world.specs.Ties.{HighestIsBelow};

/// A fresh world is tied to machines of delivery which share one outside, whatever its index has; each
/// event keeps a world tied; and a tied world delivers.
pub fn tied_worlds_deliver()
    ensures fresh { FreshIsWorld }
    ensures steps { StepsKeepTied }
    ensures deliver { WorldsDeliver }
{}

/// A condition on an index under which nothing is lost: an index to which nothing was applied is below every
/// version, and any other index is below a version if its highest version is.
pub fn indexes_are_below()
    ensures fresh { FreshIsBelow }
    ensures highest { HighestIsBelow }
{}
