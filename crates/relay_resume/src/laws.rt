//! Laws of the definitions.
ghost use Rattle.relay_resume.specs.Contents.{FirstOnes, HoldOnce, HoldTheOthers, HoldTogether};
ghost use Rattle.relay_resume.specs.Contents.{LinesAreFirst, ReadFromTheFront, ReadOn};
ghost use Rattle.relay_resume.specs.Contents.{ReadToTheEnd, ReadToTheFault};
ghost use Rattle.relay_resume.specs.GoingOn.{HistoriesComeAfter, HoldFromMarks, HoldWithMarks};
ghost use Rattle.relay_resume.specs.GoingOn.{MarksChain, MarksComeAfter, ReadersKnowPlaces};
ghost use Rattle.relay_resume.specs.Trails.{MarksAreOne};
ghost use Rattle.relay_resume.specs.Values.{StatesAreJson};

/// A law: the line of a state within its limits is JSON, and has the value that is expected.
pub fn state_texts_are_json()
    ensures { StatesAreJson }
{}

/// A law: what was put and settled determines the mark.
pub fn marks_are_one()
    ensures { MarksAreOne }
{}

/// Laws of the text of a producer's input. It holds one list of operations, and there is one reason
/// why it holds no more. Operations at its front are the first of these; what follows them is what
/// follows their lines, and holds exactly the others, and then ends, or has a fault, where the whole
/// does.
pub fn texts_go_on()
    ensures once { HoldOnce }
    ensures first { FirstOnes }
    ensures lines { LinesAreFirst }
    ensures others { HoldTheOthers }
    ensures together { HoldTogether }
{}

/// Laws of what is read of such a text. Operations that were read from its start on are at its front,
/// in as many lines as the reader counted; if the reader then ended, or returned the fault of a line,
/// the text holds these and ends so. What is read from after the first operations on is, behind them,
/// at the front of the whole.
pub fn readers_go_on()
    ensures front { ReadFromTheFront }
    ensures end { ReadToTheEnd }
    ensures fault { ReadToTheFault }
    ensures on { ReadOn }
{}

/// Laws of marks. The mark after the places of operations of an input, and so that of a history in which
/// these were put, comes after exactly these operations: what follows it in the input is what follows
/// them, and it counts their lines and them. So from the mark on the input holds exactly the others, and
/// then ends, or has a fault at the same line of the input, as the whole does. A mark of what is read
/// from there on comes after all of them.
pub fn marks_go_on()
    ensures after { MarksComeAfter }
    ensures history { HistoriesComeAfter }
    ensures from { HoldFromMarks }
    ensures with_marks { HoldWithMarks }
    ensures chain { MarksChain }
{}

/// A law of readers: the bytes that one has used of a text are those of the lines of the operations
/// that it returned, if it has returned nothing else.
pub fn readers_know_places()
    ensures { ReadersKnowPlaces }
{}
