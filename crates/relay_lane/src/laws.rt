//! What follows from the definitions. These functions do nothing; their contracts are the laws.
ghost use Rattle.relay_core.specs.Ties.{FreshFits, TakeFits};
ghost use Rattle.relay_lane.specs.Reach.{FreshIsReached, TakeIsReached, TurnIsReached};
ghost use Rattle.relay_lane.specs.Reach.{WorkIsReached, ReachedIsOrderly};
ghost use Rattle.relay_lane.specs.Laws.{NothingIsOut, TakeKeepsOut, TurnsKeep, WorksOn, LeftAtMost};
ghost use Rattle.relay_lane.specs.Laws.{LeftIsTries};
ghost use Rattle.relay_lane.specs.Calls.{TurnIsCalls};
ghost use Rattle.relay_lane.specs.Exchanges.{RequestsAreGiven, AnswersAreReturned};
ghost use Rattle.relay_lane.specs.Once.{FreshHasNone, TakeAddsOne, TurnKeepsTimes};
ghost use Rattle.relay_lane.specs.Once.{WorkKeepsTimes, ForgettingPassesOn};

use crate::wire::Wire;

/// A new lane has nothing outstanding, and it fits every opening, in which nothing was sent and
/// every stored version is below the first one assigned; whatever message it takes, what is
/// outstanding is unchanged, and it still fits. So a lane that only took messages and worked with
/// [`crate::pump`], [`crate::collect`], [`crate::make_room`] and [`crate::drain`] satisfies their
/// conditions, and what they promise holds for it.
pub fn lanes_begin()
    ensures fresh { NothingIsOut }
    ensures opening { FreshFits }
    ensures take { TakeKeepsOut }
    ensures fits { TakeFits }
{}

/// What turns add up to: their requests and ticks. A call that is repeated after a failed
/// allocation continues from where the first one stopped.
pub fn turns_add_up()
    ensures keep { TurnsKeep }
    ensures on { WorksOn }
{}

/// How many requests a lane may still send: the tries that are left to what it holds, so at most
/// `attempts + 14` for each operation held.
pub fn requests_are_bounded()
    ensures most { LeftAtMost }
    ensures tries { LeftIsTries }
{}

/// Whatever the wire returns, even if it does not describe the outside: a new lane is reachable,
/// and so is the lane after each message and each turn, so a lane that only took messages and
/// worked is reachable. Then what is held and in flight is what was taken, with the versions
/// assigned; no document is in flight twice; and the counts add up.
pub fn lanes_stay_orderly()
    ensures fresh { FreshIsReached }
    ensures take { TakeIsReached }
    ensures turn { TurnIsReached }
    ensures work { WorkIsReached }
    ensures orderly { ReachedIsOrderly }
{}

/// What a lane does on a wire are calls of its core that may be made: the calls of each turn lead to
/// the core after it.
pub fn turns_are_calls()
    ensures { TurnIsCalls }
{}

/// Calls that are what passed over a wire, as those of a lane's turns are: the wire was given each of
/// their requests, and returned each of their answers, or could not send the request that is lost.
/// So nothing is settled that the wire did not return.
pub fn answers_are_returned<W: Wire>()
    ensures requests { RequestsAreGiven W.carries }
    ensures answers { AnswersAreReturned W.carries }
{}

/// Each operation that a lane takes ends once, whatever the wire returns: it is held, noted as
/// applied or reported, and only one of these, until its success is forgotten. So if each success
/// is passed on before it is forgotten, then of each name as many operations are held, reported,
/// and noted or passed on as were taken.
pub fn operations_end_once()
    ensures fresh { FreshHasNone }
    ensures take { TakeAddsOne }
    ensures turn { TurnKeepsTimes }
    ensures work { WorkKeepsTimes }
    ensures forget { ForgettingPassesOn }
{}
