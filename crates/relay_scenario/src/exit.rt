//! The exit status after a script.
ghost use Rattle.std.specs.Prelude.{◌≡◌};
ghost use Rattle.relay_scenario.specs.Exits.{exit_of_script};

use crate::script::ScriptFault;
use relay_words::Exit;

/// The exit status of `relay world` after a fault.
pub fn exit_of_script(fault: ScriptFault) -> Exit
    ensures { result ≡ exit_of_script fault }
{
    match fault {
        ScriptFault::BadLine { .. } => Exit::Input,
        ScriptFault::Read | ScriptFault::Write { .. } => Exit::Device,
        ScriptFault::Memory => Exit::Memory,
    }
}
