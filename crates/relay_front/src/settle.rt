//! What is behind the front.
ghost use Rattle.std.specs.Prelude.{◌≡◌, List, length, IfOk, OnErr};
ghost use Rattle.relay_action.specs.declared.action.Action.{Action};
ghost use Rattle.relay_action.specs.declared.key.DocKey.{DocKey};
ghost use Rattle.relay_front.specs.declared.ending.End.{End};

use crate::ending::End;
use bytes::Bytes;
use http::Request;
use http_server::Response;
use relay_action::{Action, DocKey, Text};
use std::alloc::{AllocError, Global};
use std::time::Instant;

/// How the writes of a request ended.
#[derive(Drop)]
pub struct Settled {
    /// An end for each write, in their order.
    pub ends: Vec<End>,
    /// How long that took, in milliseconds.
    pub took: u64,
}

/// Settles writes.
pub trait Settle {
    /// From the first state these writes ended so, one after another, which leaves the second state.
    ghost settles: { Self → List (DocKey × Action) → List End → Self → Type 0 };

    /// Puts the writes in their order, waits until each has ended or the time of the request is
    /// over, and returns how each ended. `AllocError`: allocation failed, and nothing was put.
    fn settle(&mut self, writes: Vec<(DocKey, Action)>) -> Result<Settled, AllocError>
        ensures ok { IfOk result (λ s. settles self.old writes.items s.ends.items self.new) }
        ensures each { IfOk result (λ s. length s.ends.items ≡ length writes.items) }
        ensures err { OnErr result (self.new ≡ self.old) };

    /// Whether the relay takes no further request.
    fn is_ending(&self) -> bool;

    /// Why no writes can be settled now, if so, as an operator is told. `AllocError`: allocation failed.
    fn trouble(&self, alloc: Global) -> Result<Option<String>, AllocError>;

    /// What the relay counts, in the text format of Prometheus. `AllocError`: allocation failed.
    fn metrics(&self, alloc: Global) -> Result<Vec<u8>, AllocError>;

    /// Has the relay take no further request, if whoever asks for it now may. Returns whether that is so.
    fn stop(&self) -> bool;

    /// Whether operations that are reported are set aside.
    fn sets_aside(&self) -> bool;

    /// Sets operations aside, as lines of a bulk request. `None`: memory ran out for them.
    fn set_aside(&self, lines: Option<Vec<u8>>);

    /// A request has come. Returns when, if it is noted how long requests take.
    fn begin(&self) -> Option<Instant>;

    /// A request that came then is answered so.
    fn note(&self, start: Option<Instant>, request: &Request<Bytes>, response: &Response);
}

/// Makes ids for documents.
pub trait Ids {
    /// An id that was not used before. `AllocError`: allocation failed, or there is no clock.
    fn next_id(&mut self) -> Result<Text, AllocError>;
}
