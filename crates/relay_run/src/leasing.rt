//! The epoch of a run: the one that was given, or one from the counter that the index keeps.
ghost use Rattle.std.specs.Prelude.{◌≡◌, string_bytes, IfOk, IsTrue, OnOk, None, Ok};
ghost use Rattle.relay_epoch.specs.Faults.{fault_text};
ghost use Rattle.relay_run.specs.Leasing.{exit_of_epoch};
ghost use Rattle.relay_run.specs.Saying.{IsSaid};
ghost use Rattle.relay_http.specs.WrittenRequest.{is_host};

use crate::options::RunOptions;
use crate::saying::say;
use relay_action::ByteOut;
use relay_common::leasing::lease;
use relay_epoch::{EpochFault, fault_text};
use relay_lane::RelayConfig;
use relay_words::Exit;
use std::alloc::{AllocError, Global};

/// The config of a run, in its epoch: that of the options, or one from the counter document if they
/// name one.
pub(crate) fn config_of(
    rt: HostRuntime,
    alloc: Global,
    options: &RunOptions,
) -> Result<RelayConfig, EpochFault>
    requires { IsTrue (is_host (string_bytes options.now.to)) }
    ensures rest { IfOk result (λ c. c ≡ record options.now.config { epoch = c.epoch }) }
    ensures producers { IfOk result (λ c. c.producers ≡ options.now.config.producers) }
    ensures given { options.now.epoch_from ≡ None → result ≡ Ok options.now.config }
{
    let Some(counter) = &options.epoch_from else {
        return Ok(options.config);
    };
    let epoch = lease(
        rt,
        alloc,
        counter,
        options.to.as_str(),
        options.timeout,
        options.patience,
    )?;
    Ok(RelayConfig {
        epoch,
        ..options.config
    })
}

/// Writes why there is no epoch, and returns the exit status.
pub(crate) fn say_no_epoch<E: ByteOut>(
    alloc: Global,
    fault: &EpochFault,
    err: &mut E,
) -> Result<Exit, AllocError>
    ensures said { OnOk result (IsSaid (fault_text fault.now)
        (E.written err.old, E.failed err.old) (E.written err.new, E.failed err.new)) }
    ensures exit { IfOk result (λ end. end ≡ exit_of_epoch fault.now) }
{
    let text = fault_text(alloc, fault)?;
    let _ = say(err, &text);
    match fault {
        EpochFault::Memory => Ok(Exit::Memory),
        _ => Ok(Exit::Device),
    }
}
