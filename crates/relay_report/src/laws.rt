//! How the lines of a report and of an operation relate to the other formats.
ghost use Rattle.relay_report.specs.Operations.{LinesAreOperations};
ghost use Rattle.relay_report.specs.Laws.{NamesReadBack};

/// Laws. The line written for a report names its operation. What is taken from the front of an
/// input with its lines is an operation of the producer grammar.
pub fn lines_agree()
    ensures names { NamesReadBack }
    ensures operations { LinesAreOperations }
{}
