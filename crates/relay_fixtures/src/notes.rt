//! A pace that records its pauses.
use relay_lane::Pace;

/// A pace that does not wait, and records the ticks of its first pauses, how many there were, and
/// the ticks of all of them.
#[derive(Clone, Copy, Debug, PartialEq, Eq)]
pub struct Notes {
    pub first: [u64; 8],
    pub pauses: u64,
    pub ticks: u64,
}

/// A pace that has not paused.
pub const NO_PAUSES: Notes = Notes {
    first: [0; 8],
    pauses: 0,
    ticks: 0,
};

impl Pace for Notes {
    ghost use Rattle.std.specs.Prelude.{Some};

    ghost paused = { λ n. Some n.ticks };

    fn pause(&mut self, ticks: u64) {
        if self.pauses < 8 {
            self.first[self.pauses as usize] = ticks;
        }
        self.pauses = self.pauses.saturating_add(1);
        self.ticks = self.ticks.saturating_add(ticks);
    }

    fn passed(&mut self) -> u64 {
        0
    }

    fn begin(&mut self) {}

    fn rest(&mut self) {}
}
