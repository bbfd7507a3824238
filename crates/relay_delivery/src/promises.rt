//! The promises. These functions do nothing; their contracts are the theorems.
ghost use Rattle.relay_delivery.specs.Delivery.{SoundAlways, CompleteAtTheEnd, TotalAlways};
ghost use Rattle.relay_delivery.specs.Delivery.{WritesAreDealt, EarliestFlies, OneFlies};
ghost use Rattle.relay_delivery.specs.Delivery.{ContinuesAlways, FreshCameAbout, StepCameAbout};
ghost use Rattle.relay_delivery.specs.Bound.{WithinTriesLeft, FewRequests};
ghost use Rattle.relay_delivery.specs.Lane.{FreshFits, ClockFits, TakeFits, SendFits, RunFits};
ghost use Rattle.relay_delivery.specs.Lane.{AnswerFits, SoundWhereItFits, CompleteWhereItFits};
ghost use Rattle.relay_delivery.specs.Lane.{TotalWhereItFits, WritesWhereItFits};
ghost use Rattle.relay_delivery.specs.Lane.{EarliestWhereItFits, OneFliesWhereItFits, SendTakesTry};
ghost use Rattle.relay_delivery.specs.Lane.{EndedIsApplied};
ghost use Rattle.relay_delivery.specs.Lane.{AnswerGivesNoTry};
ghost use Rattle.relay_delivery.specs.Explained.{ExplainedFits, ExplainedIsSound};
ghost use Rattle.relay_delivery.specs.Explained.{ExplainedIsComplete};
ghost use Rattle.relay_delivery.specs.Stating.{SoundIfStated, CompleteIfStated};
ghost use Rattle.relay_delivery.specs.Stating.{ExplainedIsSoundIfStated};
ghost use Rattle.relay_delivery.specs.Stating.{ExplainedIsCompleteIfStated};
ghost use Rattle.relay_delivery.specs.Lanes.{NothingAfterClose};
ghost use Rattle.relay_delivery.specs.Renumbering.{TakesOn, CandidatesOn, SendsOn, WritesOn};
ghost use Rattle.relay_delivery.specs.Renumbering.{SettlesOn, FliesOn, AnswersOn};
ghost use Rattle.relay_delivery.specs.Restarts.{EpochsAreAbove};
ghost use Rattle.relay_delivery.specs.Incarnations.{SoundTogether, CompleteTogether};
ghost use Rattle.relay_delivery.specs.Incarnations.{CompleteTogetherIfStated, FreshTogether};
ghost use Rattle.relay_delivery.specs.Incarnations.{ActTogether, RestartTogether, TogetherMay};
ghost use Rattle.relay_delivery.specs.Incarnations.{TogetherRuns, TogetherContinues, ActsKeepNames};
ghost use Rattle.relay_delivery.specs.Incarnations.{RestartsKeepNames};

/// After any steps of a lane and the outside, starting from a fresh lane: the writes that the index
/// applied are those of distinct operations that the lane took, each producer's in order; each
/// report has a true cause; and no operation is reported twice. If nothing is held, each operation
/// that the lane took was applied or is reported, by the same attribution. The only condition is
/// that no two operations that it took have the same name.
pub fn delivery_is_exact()
    ensures sound { SoundAlways }
    ensures complete { CompleteAtTheEnd }
    ensures totals { TotalAlways }
    ensures outside { ContinuesAlways }
{}

/// Each write that was sent is that of an operation that was taken, with the version assigned when
/// it was taken; and at most one operation of a document is in flight at a time, the earliest that
/// is held.
pub fn one_is_in_flight()
    ensures writes { WritesAreDealt }
    ensures earliest { EarliestFlies }
    ensures one { OneFlies }
{}

/// A fresh lane is reachable, and each step from a reachable state leads to one.
pub fn steps_lead_on()
    ensures fresh { FreshCameAbout }
    ensures step { StepCameAbout }
{}

/// A lane that takes nothing more sends at most as many requests as its held operations have tries
/// and halvings left, so at most `max + 14` for each operation that it holds.
pub fn requests_are_bounded()
    ensures left { WithinTriesLeft }
    ensures held { FewRequests }
{}

/// Each call of a lane is a step of its core and the outside, so a lane that fits an outside before
/// the call fits the outside after it.
pub fn calls_are_steps()
    ensures fresh { FreshFits }
    ensures clock { ClockFits }
    ensures take { TakeFits }
    ensures send { SendFits }
    ensures run { RunFits }
    ensures answer { AnswerFits }
{}

/// A lane that numbers its requests from 1 again after a restart makes the same calls as one that
/// continues the numbers.
pub fn requests_are_numbered_on()
    ensures take { TakesOn }
    ensures candidates { CandidatesOn }
    ensures send { SendsOn }
    ensures writes { WritesOn }
    ensures settle { SettlesOn }
    ensures flies { FliesOn }
    ensures answer { AnswersOn }
{}

/// What is promised about a lane and an outside that it fits: delivery, the counts, what is sent,
/// that at most one operation of a document is in flight at a time, and that what ends as applied
/// was applied.
pub fn lanes_deliver()
    ensures sound { SoundWhereItFits }
    ensures complete { CompleteWhereItFits }
    ensures totals { TotalWhereItFits }
    ensures writes { WritesWhereItFits }
    ensures earliest { EarliestWhereItFits }
    ensures one { OneFliesWhereItFits }
    ensures ended { EndedIsApplied }
{}

/// What is promised about a lane and an outside that explains its calls, whatever wire carried them:
/// its requests were sent there, items of them were run meanwhile, and the answers that it was given
/// are honest.
pub fn explained_lanes_deliver()
    ensures fits { ExplainedFits }
    ensures sound { ExplainedIsSound }
    ensures complete { ExplainedIsComplete }
{}

/// What is promised about a lane whose index states the stored version in each conflict, if no
/// version that was stored at the start is one that the lane assigns: what it counts as applied was
/// applied by one of its own requests, each report has a true cause, and nothing else is lost. The
/// stored versions may be higher than those that it assigns, as in an old epoch; without such
/// statements they have to be lower.
pub fn stated_versions_deliver()
    ensures sound { SoundIfStated }
    ensures complete { CompleteIfStated }
    ensures explained_sound { ExplainedIsSoundIfStated }
    ensures explained_complete { ExplainedIsCompleteIfStated }
{}

/// Each request that a lane sends uses up a try or a halving of what it holds, and no answer gives
/// one back: so those that are left bound the number of requests.
pub fn requests_take_tries()
    ensures send { SendTakesTry }
    ensures answer { AnswerGivesNoTry }
{}

/// Several lanes over one index, each with its own documents: after any puts, closes, takes and
/// steps, and after any number of restarts with requests of earlier incarnations still arriving,
/// the writes that the index applied are those of distinct accepted operations, in each incarnation
/// each producer's in order, and those of an earlier incarnation before those of every later one.
/// In the last incarnation each report has a true cause. All this holds whatever the index had stored
/// at the start. When nothing is queued or held, each operation accepted in the last incarnation was
/// applied or is reported, if each version that was stored at the start is below the first one that a
/// lane assigned; or if none is one that a lane of this incarnation assigns, and each conflict states
/// the stored version.
pub fn lanes_together_deliver()
    ensures sound { SoundTogether }
    ensures complete { CompleteTogether }
    ensures stated { CompleteTogetherIfStated }
{}

/// Fresh lanes are reachable, and so is every state after an act or a restart. What may happen
/// outside all lanes may happen outside one of them; a run of a lane's item is one step of the
/// common outside, and changes nothing for any other document; the common outside came about from
/// an opening by events that may happen; and nothing is accepted from a producer that has closed.
pub fn acts_lead_on()
    ensures fresh { FreshTogether }
    ensures act { ActTogether }
    ensures restart { RestartTogether }
    ensures above { EpochsAreAbove }
    ensures may { TogetherMay }
    ensures runs { TogetherRuns }
    ensures outside { TogetherContinues }
    ensures closed { NothingAfterClose }
{}

/// The attribution of the writes applied to a document is changed only by a run that applies one
/// more write, not by any other act or by a restart.
pub fn names_stay()
    ensures act { ActsKeepNames }
    ensures restart { RestartsKeepNames }
{}
