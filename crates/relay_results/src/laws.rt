//! What the definitions of `specs/` rule out, and what follows from them. These functions do
//! nothing; their contracts are the laws.
ghost use Rattle.relay_results.specs.Laws.{NotHonestWithoutRun, HonestEntryWasRun, FateSays};
ghost use Rattle.relay_results.specs.Laws.{StatesWhatIsStored, OwnIsSame};
ghost use Rattle.relay_results.specs.Laws.{AnswersEndFlight, RetriedHasTries};
ghost use Rattle.relay_results.specs.Laws.{RefusedWhateverSent, OneReply, NoFaultOfReply};
ghost use Rattle.relay_results.specs.Laws.{OneFault, MayAlwaysRun, NotAppliedAgain, StepRunsItem};
ghost use Rattle.relay_results.specs.Laws.{ContinuesItself, ContinuesOn, EventContinues};
ghost use Rattle.relay_results.specs.Laws.{LaneOfKey, NamesEqual, NumbersFromOne};

/// Any item of any sent request may be run at any time; a write that was applied is not applied
/// again; and a step of the outside records its run and applies at most the item's own write.
pub fn runs_apply_once()
    ensures always { MayAlwaysRun }
    ensures once { NotAppliedAgain }
    ensures item { StepRunsItem }
{}

/// The outside continues itself; each event that may happen continues it; and so does a sequence of
/// events.
pub fn events_continue()
    ensures itself { ContinuesItself }
    ensures event { EventContinues }
    ensures on { ContinuesOn }
{}

/// No answer is honest if it has a matching entry that no run gave, and each matching entry of an
/// honest answer comes from a run. A run that ends in a conflict and states a stored version states
/// the one that is stored.
pub fn answers_exclude()
    ensures without_run { NotHonestWithoutRun }
    ensures entry { HonestEntryWasRun }
    ensures stated { StatesWhatIsStored }
{}

/// The fate of an operation says which answer it got. An answer ends its flight, and an operation
/// that is retried has attempts left, unless its request was too large and is halved. A stored
/// version that is stated counts as the operation's own only if it is equal to it.
pub fn fates_say()
    ensures answer { FateSays }
    ensures ends { AnswersEndFlight }
    ensures tries { RetriedHasTries }
    ensures own { OwnIsSame }
{}

/// A text has one list of outcomes or one fault, and not both. So the result of
/// [`crate::read_reply`] is determined, unless an allocation fails.
pub fn replies_exclude()
    ensures one { OneReply }
    ensures no_fault { NoFaultOfReply }
    ensures one_fault { OneFault }
{}

/// The verdict Refused does not depend on what was sent before.
pub fn refusals_stay()
    ensures { RefusedWhateverSent }
{}

/// The lane of a document is that of its key; the test of names decides whether they are equal; and
/// numbers from 1 are places from 0.
pub fn words_agree()
    ensures lane { LaneOfKey }
    ensures names { NamesEqual }
    ensures numbers { NumbersFromOne }
{}
