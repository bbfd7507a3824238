//! How a lane's calls are steps of delivery. These functions do nothing; their contracts are the
//! laws.
ghost use Rattle.relay_core.specs.Ties.{FreshFits, TakeFits, RequestFits, RunFits, AnswerFits};
ghost use Rattle.relay_core.specs.Endings.{EachEndsOnce, SuccessesAreTrue};
ghost use Rattle.relay_core.specs.Flights.{EarlierOnesSettled, ItemsAreOfOperations};
ghost use Rattle.relay_core.specs.Flights.{RequestsKeepLimits};

/// A new lane fits an opening, and if a lane fits an outside before a call, it fits the outside
/// after it.
pub fn calls_keep_fitting()
    ensures fresh { FreshFits }
    ensures take { TakeFits }
    ensures request { RequestFits }
    ensures run { RunFits }
    ensures answer { AnswerFits }
{}

/// Which operations the next request carries: each is held, waits and is due, and no operation of
/// its document that was taken before it is still held; its items are theirs, in the order of its
/// writes; and it keeps the limits of a batch, in bytes of the text that is sent.
pub fn requests_are_formed()
    ensures earlier { EarlierOnesSettled }
    ensures items { ItemsAreOfOperations }
    ensures limits { RequestsKeepLimits }
{}

/// How operations end: after an answer each one that was held is held, or it is one of the new
/// successes, or of the new reports, and only one of these; and if the answer is honest, each new
/// success names an operation that was held, with its version, whose write the index has applied.
pub fn operations_end_once()
    ensures once { EachEndsOnce }
    ensures successes { SuccessesAreTrue }
{}
