//! The options of a server.
ghost use Rattle.std.specs.Prelude.{◌≡◌, ◌⊎◌, IsTrue, false, string_bytes, true};
ghost use Rattle.relay_core.specs.Limits.{is_valid};
ghost use Rattle.relay_http.specs.WrittenRequest.{is_host};
ghost use Rattle.relay_serve.specs.Configs.{config_in};

use crate::epoch::EpochSource;
use crate::wiring::config_of;
use relay_front::Face;
use relay_http::is_host;
use relay_lane::RelayConfig;

/// What a server says on standard error while it works.
#[derive(Clone, Copy, Debug, PartialEq, Eq)]
pub enum ServeLog {
    /// Nothing.
    None,
    /// What goes wrong with the index.
    Errors,
    /// That, and the start and the end.
    Events,
    /// That, and each request.
    Requests,
}

impl ServeLog {
    /// The log with this name on the command line. `None`: no log has it.
    pub fn named(name: &str) -> Option<ServeLog> {
        match name {
            "none" => Some(ServeLog::None),
            "errors" => Some(ServeLog::Errors),
            "events" => Some(ServeLog::Events),
            "requests" => Some(ServeLog::Requests),
            _ => None,
        }
    }

    pub(crate) fn has_requests(self) -> bool {
        self == ServeLog::Requests
    }
}

/// Where to listen.
#[derive(Drop)]
pub struct Listening {
    /// The address, `HOST:PORT`.
    pub address: String,
    /// For how many milliseconds a request waits for room before it is refused with 429. `None`: without
    /// end.
    pub wait: Option<u64>,
}

/// The options of a server.
#[derive(Drop)]
pub struct ServeOptions {
    /// Where to listen.
    pub listen: Vec<Listening>,
    /// The address of the index, `HOST:PORT`, 1 to 255 visible ASCII characters.
    pub to: String,
    /// The index of operations that do not name one, if neither does the path.
    pub index: Option<String>,
    /// What the relay says that it is.
    pub face: Face,
    /// The config of the relay: its producers are the workers; its capacity, the number of
    /// operations that a lane holds and its epoch are set by the server.
    pub config: RelayConfig,
    /// Where the epoch comes from.
    pub epoch: EpochSource,
    /// For how many seconds connecting to the index may take, and reading or writing a whole
    /// message; 0 means no limit.
    pub timeout: u32,
    /// For how many seconds to ask for an epoch from the index.
    pub patience: u32,
    /// How long a request may take, in milliseconds.
    pub within: u64,
    /// For how many milliseconds a client's connection may be idle.
    pub idle: u64,
    /// After how many operations the next term begins.
    pub longest: u64,
    /// How many bytes of requests may be open: read and not yet answered, beyond the first 16,384 of each.
    pub room: u64,
    /// For how many milliseconds an answer is kept whose client has left before it was sent. `None`: none
    /// is.
    pub remember: Option<u64>,
    /// The file to which operations that are reported are added, if they are.
    pub report: Option<String>,
    /// What is said on standard error while it works.
    pub log: ServeLog,
}

impl ServeOptions {
    /// Whether the config is valid, and the address may be the host of a request.
    pub fn is_valid(&self) -> bool
        ensures valid { IsTrue result → is_valid (config_in 0 self.now.config) ≡ true }
        ensures host { IsTrue result → IsTrue (is_host (string_bytes self.now.to)) }
        ensures refused { result ≡ false → (is_valid (config_in 0 self.now.config) ≡ false)
            ⊎ (is_host (string_bytes self.now.to) ≡ false) }
    {
        config_of(self.config, 0).valid() && is_host(self.to.as_str())
    }
}
