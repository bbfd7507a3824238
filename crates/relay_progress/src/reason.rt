//! Why a request was lost, as a number that an atomic holds.
ghost use Rattle.std.specs.Prelude.{◌≡◌};
ghost use Rattle.relay_progress.specs.Reasons.{code_of, loss_of};

use relay_lane::Loss;

/// The code of a reason.
pub(crate) fn code_of(reason: Loss) -> u64
    ensures { result ≡ code_of reason }
{
    match reason {
        Loss::Closed => 0,
        Loss::Refused => 1,
        Loss::Unreachable => 2,
        Loss::TimedOut => 3,
        Loss::Unreadable => 4,
        Loss::Memory => 5,
    }
}

/// The reason with this code.
pub(crate) fn loss_of(code: u64) -> Loss
    ensures { result ≡ loss_of code }
{
    match code {
        0 => Loss::Closed,
        1 => Loss::Refused,
        2 => Loss::Unreachable,
        3 => Loss::TimedOut,
        4 => Loss::Unreadable,
        _ => Loss::Memory,
    }
}
