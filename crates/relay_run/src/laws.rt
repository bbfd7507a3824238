//! Laws of runs that go on with their inputs.
ghost use Rattle.relay_run.specs.GoingOn.{PlacesDivide, RunsGoOn, RunsTogether, SafeMarksDivide};

/// Laws of a run that goes on with an input, of which all bytes are given, at a mark of an earlier run.
/// The mark after the first places that the earlier run's producer told comes after the operations that
/// it read first; of a mark that was given, each of these was settled. The run that goes on is fed
/// exactly the others of the input, in order: those that the earlier one read after the mark, and then
/// the rest. A fault names its line in the whole input, and the operations are named by their numbers
/// there.
pub fn runs_go_on()
    ensures places { PlacesDivide }
    ensures safe { SafeMarksDivide }
    ensures others { RunsGoOn }
    ensures together { RunsTogether }
{}
