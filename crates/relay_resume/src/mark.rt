//! Places in an input.
ghost use Rattle.std.specs.Prelude.{◌≡◌};
ghost use Rattle.relay_resume.specs.Places.{place_behind};

/// A place in an input, between two lines.
#[derive(Clone, Copy, Debug, PartialEq, Eq)]
pub struct Place {
    /// The number of bytes before it.
    pub offset: u64,
    /// The number of lines before it.
    pub line: u64,
}

/// A place in an input before which every operation is settled.
#[derive(Clone, Copy, Debug, PartialEq, Eq)]
pub struct Mark {
    /// The number of bytes before it.
    pub offset: u64,
    /// The number of lines before it.
    pub line: u64,
    /// The number of operations before it, from the start of the input. It saturates at `u64::MAX`.
    pub count: u64,
}

impl Mark {
    /// The place so many lines behind it, which have so many bytes. Both numbers saturate at
    /// `u64::MAX`.
    pub fn place_behind(&self, line: u64, used: u64) -> Place
        ensures { result ≡ place_behind self.now line used }
    {
        Place {
            offset: self.offset.saturating_add(used),
            line: self.line.saturating_add(line),
        }
    }
}
