//! Ticks to the lanes.
ghost use Rattle.std.specs.Prelude.{◌≡◌};
ghost use Rattle.relay_producer.specs.Ends.{identities, open_puts};

use crossbeam_channel::{Receiver, RecvTimeoutError};
use relay_pace::TICK;
use relay_producer::Control;
use std::alloc::Global;
use std::sync::Wait;
use std::time::{Clock, Duration};

/// Sends a tick to each lane every 100 ms, until every producer's thread has dropped its sender. It
/// waits for no lane.
pub fn tick_until_ended<R: Wait + Clock>(
    rt: &R,
    ended: &Receiver<(), Global>,
    control: &mut Control,
)
    ensures sender { control.new.sender ≡ control.old.sender }
    ensures same { identities (open_puts control.new.ends)
        ≡ identities (open_puts control.old.ends) }
{
    'ticks: for _ in rt.forever() {
        match ended.recv_timeout(rt, Duration::from_millis(TICK)) {
            Err(RecvTimeoutError::Timeout) => {
                control.tick(rt);
            }
            Err(RecvTimeoutError::Disconnected) => return,
            Ok(()) => {}
        }
    }
    unreachable!()
}
