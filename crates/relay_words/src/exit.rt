//! Exit statuses.
ghost use Rattle.std.specs.Prelude.{◌≡◌};
ghost use Rattle.relay_words.specs.Exits.{exit_of_kind, status_of};

use relay_ndjson::LineKind;

/// The exit status of the program.
#[derive(Clone, Copy, Debug, PartialEq, Eq)]
pub enum Exit {
    /// Success.
    Done,
    /// The command line is invalid.
    Usage,
    /// The input is invalid.
    Input,
    /// A device failed: a read or a write.
    Device,
    /// An allocation failed.
    Memory,
    /// Operations could not be settled, and were reported.
    Reported,
}

impl Exit {
    /// The number of the exit status.
    pub fn status(self) -> u8
        ensures { result ≡ status_of self }
    {
        match self {
            Exit::Done => 0,
            Exit::Usage => 1,
            Exit::Input => 2,
            Exit::Device => 3,
            Exit::Memory => 4,
            Exit::Reported => 5,
        }
    }
}

/// The exit status after a fault of a producer's input.
pub fn exit_of_kind(kind: LineKind) -> Exit
    ensures { result ≡ exit_of_kind kind }
{
    match kind {
        LineKind::Read => Exit::Device,
        LineKind::Memory => Exit::Memory,
        _ => Exit::Input,
    }
}
