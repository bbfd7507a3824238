//! Requests (RFC 9112, section 3).
ghost use Rattle.std.specs.Prelude.{◌≡◌, ◌<◌, ℕ, List, [], IfErr, MatchResult, Some};
ghost use Rattle.std.specs.Prelude.{None, if◌then◌else◌};
ghost use Rattle.relay_action.specs.Streams.{one_more};
ghost use Rattle.relay_http.specs.Forms.{Begins, Fails, IsOutside, IsThatOrOutside};
ghost use Rattle.relay_http.specs.Refusals.{RequestFault};
ghost use Rattle.relay_http.specs.Steps.{pending};
ghost use Rattle.relay_http.specs.Connection.{is_read};
ghost use Rattle.relay_http.specs.Request.{IsFound, IsRequest, RequestPasses, RequestStates};
ghost use Rattle.relay_http.specs.Request.{TookRequest};
ghost use Rattle.relay_http.specs.declared.fault.HttpFault.{HttpFault};

use crate::buffered::Buffered;
use crate::fault::HttpFault;
use crate::request_head::RequestInfo;
use relay_action::ByteIn;
use std::alloc::Global;

/// The maximum length of a request's body, in bytes.
pub const REQUEST_LIMIT: usize = 16_777_216;

/// A request.
#[derive(Debug, Drop)]
pub struct HttpRequest {
    /// Whether it is a POST to `/_bulk`.
    pub bulk: bool,
    /// The body, of at most 16,777,216 bytes.
    pub body: Vec<u8>,
    /// Whether the connection may carry a further message: not for HTTP/1.0, or if the head says
    /// `close`.
    pub keep: bool,
}

impl<S: ByteIn + Drop> Buffered<S> {
    // Reads a request, or finds the end of the stream.
    pub(crate) fn next_request(&mut self, alloc: Global) -> Result<Option<HttpRequest>, HttpFault>
        ensures answer { MatchResult result
            (TookRequest (pending S.left self.old) (pending S.left self.new))
            (Fails IsRequest (pending S.left self.old) (S.left self.new.stream)) }
        ensures found { (stream : List ℕ) (there : Begins IsRequest stream)
            → pending S.left self.old ≡ Some stream
            → MatchResult result (IsFound there (pending S.left self.new)) IsOutside }
        ensures why { (stream : List ℕ) → pending S.left self.old ≡ Some stream
            → IfErr result (RequestFault stream) }
        ensures stated { (stream : List ℕ) (f : HttpFault) → RequestStates stream f
            → pending S.left self.old ≡ Some stream
            → MatchResult result (λ request. ⊥) (IsThatOrOutside f) }
        ensures long { (stream : List ℕ) → RequestPasses stream
            → pending S.left self.old ≡ Some stream
            → MatchResult result (λ request. ⊥) (IsThatOrOutside HttpFault.BodyLong) }
        ensures none { pending S.left self.old ≡ Some []
            → MatchResult result (λ request. request ≡ None) IsOutside }
        ensures count { S.failed self.new.stream
            ≡ (if is_read result then one_more (S.failed self.old.stream) else S.failed
            self.old.stream) }
        ensures written { S.written self.new.stream ≡ S.written self.old.stream }
    {
        self.ready()?;
        if self.window.as_slice().is_empty() {
            return Ok(None);
        }
        let request = self.read_whole_request(alloc)?;
        Ok(Some(request))
    }

    fn read_whole_request(&mut self, alloc: Global) -> Result<HttpRequest, HttpFault>
        ensures answer { MatchResult result
            (λ request. TookRequest (pending S.left self.old) (pending S.left self.new)
            (Some request)) (Fails IsRequest (pending S.left self.old) (S.left self.new.stream)) }
        ensures why { (stream : List ℕ) → pending S.left self.old ≡ Some stream
            → IfErr result (RequestFault stream) }
        ensures stated { (stream : List ℕ) (f : HttpFault) → RequestStates stream f
            → pending S.left self.old ≡ Some stream
            → MatchResult result (λ request. ⊥) (IsThatOrOutside f) }
        ensures long { (stream : List ℕ) → RequestPasses stream
            → pending S.left self.old ≡ Some stream
            → MatchResult result (λ request. ⊥) (IsThatOrOutside HttpFault.BodyLong) }
        ensures count { S.failed self.new.stream
            ≡ (if is_read result then one_more (S.failed self.old.stream) else S.failed
            self.old.stream) }
        ensures written { S.written self.new.stream ≡ S.written self.old.stream }
    {
        let info = self.read_piece::<RequestInfo>()?;
        let framing = info.framing?;
        let body = self.read_body(alloc, framing, REQUEST_LIMIT)?;
        Ok(HttpRequest {
            bulk: info.bulk,
            body,
            keep: info.lasting,
        })
    }
}
