//! Epochs: the versions that a lane assigns in one, and a config for another.
ghost use Rattle.std.specs.Prelude.{◌≡◌};
ghost use Rattle.relay_world.specs.State.{place_dealt};
ghost use Rattle.relay_world.specs.Changes.{in_new_epoch};

use relay_core::RelayConfig;
use relay_core::config::DEAL_LIMIT;

// The distance between the first versions of two consecutive epochs, 2^40. It has 128 bits, so that
// no epoch is too high.
const EPOCH_STRIDE: u128 = DEAL_LIMIT as u128 + 1;

// The place of a version among the first `deal` ones of an epoch, if it is one of them.
pub(crate) fn place_dealt(deal: u64, epoch: u32, version: u64) -> Option<u64>
    ensures { result ≡ place_dealt deal epoch version }
{
    let first = u128::from(epoch) * EPOCH_STRIDE + 1;
    let version = u128::from(version);
    if first <= version && version < first + u128::from(deal) {
        Some((version - first) as u64)
    } else {
        None
    }
}

pub(crate) fn in_new_epoch(config: RelayConfig, epoch: u32) -> RelayConfig
    ensures { result ≡ in_new_epoch config epoch }
{
    RelayConfig { epoch, ..config }
}
