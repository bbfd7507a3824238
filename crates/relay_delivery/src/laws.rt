//! Worked schedules satisfy the definitions, and excluded ones do not. These functions do nothing;
//! their contracts are the laws.
ghost use Rattle.relay_delivery.specs.Schedules.{LostThenAlready, LateRunChangesNothing, RunTwice};
ghost use Rattle.relay_delivery.specs.Schedules.{RefusedOrRejected, NoVersionLeft, BusyThenNext};
ghost use Rattle.relay_delivery.specs.Schedules.{GivenUpAndApplied, ThreeThenOne, HalvedThenAlone};
ghost use Rattle.relay_delivery.specs.Examples.{MachineWorks, StoredVersionsBelow};
ghost use Rattle.relay_delivery.specs.Examples.{EarlierOnesFirst};
ghost use Rattle.relay_delivery.specs.Examples.{OneVersionForAllTries};
ghost use Rattle.relay_delivery.specs.Counts.{CountsAlways, CountsWhereItFits};
ghost use Rattle.relay_delivery.specs.Reach.{FreshReached, CallReached, ReachedHolds};
ghost use Rattle.relay_delivery.specs.Laws.{NoneTwice, NoneOutOfOrder, NoneOfOtherAction};
ghost use Rattle.relay_delivery.specs.Laws.{NoneOfOtherDocument, NoneUnaccepted, NoneLeftOut};
ghost use Rattle.relay_delivery.specs.Laws.{NotGivenUpAfterOne, NotGivenUpWhenSettled};
ghost use Rattle.relay_delivery.specs.Laws.{NoConflictAfterTwo, NotRefusedWithoutStatus};
ghost use Rattle.relay_delivery.specs.Laws.{NotRefusedWithoutError, NotRefusedWithoutReason};
ghost use Rattle.relay_delivery.specs.Laws.{NotSpentWithinLimit, NoConflictWithUnstated};
ghost use Rattle.relay_delivery.specs.Laws.{NotRefusedWhenBusy, NotReportedUnsent};
ghost use Rattle.relay_delivery.specs.Laws.{NotRejectedWithoutAnswer, NotRejectedWithoutReason};
ghost use Rattle.relay_delivery.specs.Laws.{NotRejectedWhenRetried};
ghost use Rattle.relay_delivery.specs.Laws.{NotGivenUpForHalves, NotRejectedWhenHalved};
ghost use Rattle.relay_delivery.specs.Laws.{NoConflictWithoutRun, NoneReportedTwice};
ghost use Rattle.relay_delivery.specs.Laws.{NoneReportedUntaken, AssignsTwo, NotAssignedTwice};
ghost use Rattle.relay_delivery.specs.Laws.{PlaysFromOpening};

/// Worked schedules of one operation satisfy the definitions: applied and lost, then a conflict
/// with its own version; run late, after its repeat; run twice; refused, or rejected with its whole
/// request; spent.
pub fn schedules_of_one()
    ensures already { LostThenAlready }
    ensures late { LateRunChangesNothing }
    ensures twice { RunTwice }
    ensures refused { RefusedOrRejected }
    ensures spent { NoVersionLeft }
{}

/// Worked schedules of several operations satisfy the definitions: retried before the next
/// operation of its document is sent; given up, and nevertheless applied before the next one; three
/// documents in one request; a request that is too large and is halved.
pub fn schedules_of_several()
    ensures busy { BusyThenNext }
    ensures given_up { GivenUpAndApplied }
    ensures three { ThreeThenOne }
    ensures halved { HalvedThenAlone }
{}

/// A schedule begins with nothing sent.
pub fn schedules_begin()
    ensures opening { PlaysFromOpening }
{}

/// A schedule of a lane: an operation is applied and its reply lost, it is sent again, and it ends
/// by a conflict with its own version.
pub fn machine_works()
    ensures { MachineWorks }
{}

/// Every condition is needed. A stored version at or above the first one assigned, or a second
/// operation of a document in flight, loses an operation; a fresh version for a repeat applies an
/// operation twice.
pub fn conditions_are_needed()
    ensures stored { StoredVersionsBelow }
    ensures eligible { EarlierOnesFirst }
    ensures version { OneVersionForAllTries }
{}

/// No attribution has an operation twice, a producer's operations out of order, an operation with
/// another action, of another document or that was not accepted, or a write without an operation.
pub fn attributions_exclude()
    ensures twice { NoneTwice }
    ensures order { NoneOutOfOrder }
    ensures action { NoneOfOtherAction }
    ensures document { NoneOfOtherDocument }
    ensures unaccepted { NoneUnaccepted }
    ensures left_out { NoneLeftOut }
{}

/// A cause is true only if the requests, the runs and the answers support it.
pub fn causes_exclude()
    ensures one_lost { NotGivenUpAfterOne }
    ensures settled { NotGivenUpWhenSettled }
    ensures two_sends { NoConflictAfterTwo }
    ensures status { NotRefusedWithoutStatus }
    ensures error { NotRefusedWithoutError }
    ensures reason { NotRefusedWithoutReason }
    ensures within_limit { NotSpentWithinLimit }
    ensures busy { NotRefusedWhenBusy }
    ensures unsent { NotReportedUnsent }
    ensures unanswered { NotRejectedWithoutAnswer }
    ensures without_given { NotRejectedWithoutReason }
    ensures retried { NotRejectedWhenRetried }
    ensures halves { NotGivenUpForHalves }
    ensures halved { NotRejectedWhenHalved }
    ensures no_conflict { NoConflictWithoutRun }
    ensures unstated { NoConflictWithUnstated }
{}

/// If delivery is sound, only operations that were taken are reported, and none of them twice.
pub fn reports_exclude()
    ensures twice { NoneReportedTwice }
    ensures untaken { NoneReportedUntaken }
{}

/// A version assignment may assign versions, but never the same one to two operations of one
/// document.
pub fn assignments_differ()
    ensures deals { AssignsTwo }
    ensures twice { NotAssignedTwice }
{}

/// What a lane counts as applied, and as already applied, is what the answers to its requests say:
/// the items answered with success, and those answered with a conflict after at least two requests
/// had carried the write.
pub fn counts_follow_answers()
    ensures always { CountsAlways }
    ensures fits { CountsWhereItFits }
{}

/// What holds of a lane whatever the answers, from an index or from anything else: held operations
/// have ascending versions; each of them, and the operation of each write in flight, was taken, and
/// has the version assigned for its place; no document is in flight twice; and each operation that
/// was taken is held, counted as applied or reported.
pub fn any_answers_keep_order()
    ensures fresh { FreshReached }
    ensures call { CallReached }
    ensures holds { ReachedHolds }
{}
