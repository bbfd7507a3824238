//! The first line of a script, which is the config.
ghost use Rattle.std.specs.Prelude.{◌≡◌, ◌<◌, Some, true};
ghost use Rattle.std.specs.Prelude.{IfOk, IfErr, IfSome, IfNone};
ghost use Rattle.relay_core.specs.Limits.{is_valid};
ghost use Rattle.relay_scenario.specs.Config.{IsConfigFault, IsConfigLine, config_of};

use crate::event_line::LineFault;
use crate::numbers::numbers_of;
use crate::words::cut;
use relay_batch::Limits;
use relay_core::RelayConfig;
use relay_core::config::ATTEMPT_LIMIT;
use std::alloc::Global;

/// The config in a line `world LANES PRODUCERS CAPACITY HELD COUNT BYTES LINGER ATTEMPTS FLYING
/// EPOCH DEAL`, with eleven decimal numbers. `Bad`: the line has another form, or the config is not
/// valid. `Memory`: allocation failed.
pub fn read_config(alloc: Global, line: &[u8]) -> Result<RelayConfig, LineFault>
    ensures ok { IfOk result (IsConfigLine line.now) }
    ensures err { IfErr result (IsConfigFault line.now) }
{
    let Ok(text) = str::from_utf8(line) else {
        return Err(LineFault::Bad);
    };
    let Some((word, rest)) = cut(text) else {
        return Err(LineFault::Bad);
    };
    if word != "world" {
        return Err(LineFault::Bad);
    }
    let numbers = numbers_of(alloc, rest)?;
    match valid_config(numbers.as_slice()) {
        Some(config) => Ok(config),
        None => Err(LineFault::Bad),
    }
}

// The config with these eleven numbers, if it is valid.
fn valid_config(numbers: &[u64]) -> Option<RelayConfig>
    ensures some { IfSome result (λ c. (config_of numbers.now ≡ Some c) × (is_valid c ≡ true)) }
    ensures none { IfNone result ((c : RelayConfig) → config_of numbers.now ≡ Some c
        → is_valid c ≡ true → ⊥) }
{
    match config_of(numbers) {
        Some(config) if config.valid() => Some(config),
        _ => None,
    }
}

// The config with these eleven numbers, if each fits its type.
fn config_of(numbers: &[u64]) -> Option<RelayConfig>
    ensures { result ≡ config_of numbers.now }
{
    match numbers {
        [
            lanes,
            producers,
            capacity,
            held,
            count,
            bytes,
            linger,
            attempts,
            flying,
            epoch,
            deal,
        ] => {
            if *attempts > u64::from(ATTEMPT_LIMIT) {
                return None;
            }
            Some(RelayConfig {
                lanes: u32::try_from(*lanes).ok()?,
                producers: u32::try_from(*producers).ok()?,
                capacity: u32::try_from(*capacity).ok()?,
                max_held: u32::try_from(*held).ok()?,
                limits: Limits {
                    count: u32::try_from(*count).ok()?,
                    bytes: *bytes,
                    linger: u32::try_from(*linger).ok()?,
                },
                attempts: u32::try_from(*attempts).ok()?,
                give_up_after: None,
                in_flight: u32::try_from(*flying).ok()?,
                epoch: u32::try_from(*epoch).ok()?,
                deal: *deal,
            })
        }
        _ => None,
    }
}
