//! How the program ends after a fault of `lines` or `apply`.
ghost use Rattle.std.specs.Prelude.{◌≡◌};
ghost use Rattle.relay_commands.specs.Exits.{exit_of, exit_of_apply};

use crate::apply::ApplyFault;
use crate::lines::LinesFault;
use relay_words::{Exit, exit_of_kind};

/// The exit status of `relay lines` after a fault.
pub fn exit_of(fault: LinesFault) -> Exit
    ensures { result ≡ exit_of fault }
{
    match fault {
        LinesFault::Input(fault) => exit_of_kind(fault.kind),
        LinesFault::VersionsSpent { .. } => Exit::Input,
        LinesFault::Write { .. } => Exit::Device,
        LinesFault::Memory => Exit::Memory,
    }
}

/// The exit status of `relay apply` after a fault.
pub fn exit_of_apply(fault: ApplyFault) -> Exit
    ensures { result ≡ exit_of_apply fault }
{
    match fault {
        ApplyFault::BodyLong => Exit::Input,
        ApplyFault::Read | ApplyFault::Write { .. } => Exit::Device,
        ApplyFault::Memory => Exit::Memory,
    }
}
