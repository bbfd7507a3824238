//! The method and the target of a request (RFC 9112, section 3).
ghost use Rattle.std.specs.Prelude.{◌≡◌, ◌<◌, ◌≤◌, ◌++◌, ℕ, List, IfOk, IfErr, MatchResult, length};
ghost use Rattle.std.specs.Prelude.{false, Ok, None, Some, OnOk, if◌then◌else◌, option_map};
ghost use Rattle.httparse.specs.Grammar.{NeverHasRequest};
ghost use Rattle.httparse.specs.Spans.{span_bytes};
ghost use Rattle.relay_action.specs.Streams.{one_more};
ghost use Rattle.relay_http.specs.Connection.{is_read};
ghost use Rattle.relay_http.specs.Forms.{Fails, IsOutside};
ghost use Rattle.relay_http.specs.Refusals.{OverrunsRequestHead, PieceFault};
ghost use Rattle.relay_http.specs.Reply.{head_limit};
ghost use Rattle.relay_http.specs.RequestLine.{HeadAt, IsRequestLine, put_by, put_target};
ghost use Rattle.relay_http.specs.Steps.{Finds, pending};

use crate::buffered::Buffered;
use crate::fault::HttpFault;
use crate::head::{FIELD_LIMIT, HEAD_LIMIT};
use crate::piece::Piece;
use httparse::spans::{EMPTY_HEADER_SPAN, Span, parse_request};
use httparse::{Error, Status};
use relay_action::ByteIn;
use std::alloc::{AllocError, Global};

/// Where a head has its method and its target.
#[derive(Clone, Copy, Debug)]
pub struct RequestLine {
    /// The method.
    pub method: Span,
    /// The target.
    pub target: Span,
}

impl Piece for RequestLine {
    ghost form = { IsRequestLine };

    ghost breaks = { NeverHasRequest };

    ghost overruns = { OverrunsRequestHead };

    ghost size = { head_limit };

    fn most() -> usize {
        HEAD_LIMIT
    }

    fn find(buf: &[u8]) -> Result<Option<(RequestLine, usize)>, HttpFault> {
        find_request_line(buf)
    }
}

// Looks for a whole head at the front of the bytes, and returns where its method and its target
// are, with its length.
fn find_request_line(buf: &[u8]) -> Result<Option<(RequestLine, usize)>, HttpFault>
    requires { length buf.now ≤ head_limit }
    ensures found { Finds IsRequestLine buf.now result }
    ensures why { IfErr result
        (λ f. (more : List ℕ)
        → PieceFault NeverHasRequest OverrunsRequestHead (buf.now ++ more) f) }
    ensures none { result ≡ Ok None → length buf.now < head_limit }
{
    let mut headers = [EMPTY_HEADER_SPAN; FIELD_LIMIT];
    match parse_request(buf, &mut headers) {
        Ok(Status::Complete(head)) => {
            let line = RequestLine {
                method: head.method,
                target: head.path,
            };
            Ok(Some((line, head.len)))
        }
        Ok(Status::Partial) if buf.len() < HEAD_LIMIT => Ok(None),
        Ok(Status::Partial) => Err(HttpFault::HeadLong),
        Err(Error::TooManyHeaders) => Err(HttpFault::HeadLong),
        Err(_) => Err(HttpFault::Malformed),
    }
}

// The target in a head, if its method is PUT.
fn put_in(alloc: Global, head: &[u8], line: RequestLine) -> Result<Option<Vec<u8>>, AllocError>
    requires { IsRequestLine head.now false line }
    ensures { IfOk result (λ put. option_map (λ v. v.items) put
        ≡ put_by (span_bytes head.now line.method) (span_bytes head.now line.target)) }
{
    if line.method.of(head) != b"PUT".as_slice() {
        return Ok(None);
    }
    let target = Vec::from_slice(alloc, line.target.of(head))?;
    Ok(Some(target))
}

impl<S: ByteIn + Drop> Buffered<S> {
    // The target of the request at the front, if its method is PUT. Nothing is taken.
    pub(crate) fn peek_put(&mut self, alloc: Global) -> Result<Option<Vec<u8>>, HttpFault>
        ensures stands { OnOk result (pending S.left self.old ≡ pending S.left self.new) }
        ensures found { (stream : List ℕ) (there : HeadAt stream)
            → pending S.left self.old ≡ Some stream
            → MatchResult result (λ put. option_map (λ v. v.items) put ≡ put_target there.head)
            IsOutside }
        ensures why { (stream : List ℕ) → pending S.left self.old ≡ Some stream
            → IfErr result (PieceFault NeverHasRequest OverrunsRequestHead stream) }
        ensures count { S.failed self.new.stream
            ≡ (if is_read result then one_more (S.failed self.old.stream) else S.failed
            self.old.stream) }
        ensures written { S.written self.new.stream ≡ S.written self.old.stream }
    {
        let found = self.await_piece::<RequestLine>()?;
        match put_in(alloc, &self.window.as_slice()[..found.1], found.0) {
            Ok(put) => Ok(put),
            Err(_) => Err(HttpFault::Memory),
        }
    }
}
