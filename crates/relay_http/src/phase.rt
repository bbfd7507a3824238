//! What a connection may still carry.
ghost use Rattle.std.specs.Prelude.{◌≡◌};
ghost use Rattle.relay_http.specs.Connection.{is_open, is_broken, phase_of, phase_with};

/// What a connection may still carry.
#[derive(Clone, Copy, Debug, PartialEq, Eq)]
pub enum Phase {
    /// Further messages.
    Open,
    /// The answer to the last request, and nothing after it.
    Closing,
    /// Nothing.
    Broken,
}

impl Phase {
    /// Whether the connection may carry further messages.
    pub fn is_open(self) -> bool
        ensures { result ≡ is_open self }
    {
        match self {
            Phase::Open => true,
            _ => false,
        }
    }

    /// Whether the connection carries nothing more.
    pub fn is_broken(self) -> bool
        ensures { result ≡ is_broken self }
    {
        match self {
            Phase::Broken => true,
            _ => false,
        }
    }

    // The phase after a message that keeps the connection, or does not.
    pub(crate) fn after(keep: bool) -> Phase
        ensures { result ≡ phase_of keep }
    {
        if keep { Phase::Open } else { Phase::Broken }
    }

    // The phase after a request that keeps the connection, or does not.
    pub(crate) fn after_request(keep: bool) -> Phase
        ensures { result ≡ phase_with keep }
    {
        if keep { Phase::Open } else { Phase::Closing }
    }
}
