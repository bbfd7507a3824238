//! The state of a run.
ghost use Rattle.std.specs.Prelude.{◌≡◌};
ghost use Rattle.std.specs.List.{list_all};
ghost use Rattle.relay_resume.specs.States.{fits, input_fits};

use crate::mark::Mark;
use relay_action::{List, Text};

/// The last epoch.
pub const LAST_EPOCH: u32 = 4_194_303;

/// The maximum number of inputs in a state.
pub const INPUT_LIMIT: usize = 16;

/// The maximum length of an input's path, in bytes.
pub const PATH_LIMIT: usize = 4_096;

/// The maximum number of bytes by which an input is recognized.
pub const CHECKED_LIMIT: u64 = 1_024;

/// How far an input is settled, and how to recognize it.
#[derive(Debug, Drop)]
pub struct InputState {
    /// Its path.
    pub path: Text,
    /// The number of its device.
    pub device: u64,
    /// The number of its inode.
    pub inode: u64,
    /// The number of bytes at its start that the digest is of.
    pub checked: u64,
    /// The SHA-256 digest of these bytes (FIPS 180-4).
    pub digest: [u8; 32],
    /// The place before which every operation is settled.
    pub mark: Mark,
}

/// The state of a run.
#[derive(Debug, Drop)]
pub struct State {
    /// The epoch.
    pub epoch: u32,
    /// Its inputs, in their order.
    pub inputs: List<InputState>,
}

// Whether an input is within its limits.
fn input_fits(input: &InputState) -> bool
    ensures { result ≡ input_fits input.now }
{
    let length = input.path.as_str().len();
    1 <= length && length <= PATH_LIMIT && input.checked <= CHECKED_LIMIT
}

fn all_fit(inputs: &[InputState]) -> bool
    ensures { result ≡ list_all input_fits inputs.now }
{
    'inputs: for input in inputs {
        if !input_fits(input) {
            return false;
        }
    }
    true
}

/// Whether a state is within its limits: its epoch is at most the last epoch, it has at most 16
/// inputs, each path has 1 to 4,096 bytes, and each digest is of at most 1,024 bytes.
pub fn fits(state: &State) -> bool
    ensures { result ≡ fits state.now }
{
    let inputs = state.inputs.as_slice();
    state.epoch <= LAST_EPOCH && inputs.len() <= INPUT_LIMIT && all_fit(inputs)
}
