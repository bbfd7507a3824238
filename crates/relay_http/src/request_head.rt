//! The head of a request (RFC 9112, sections 3 and 5).
ghost use Rattle.std.specs.Prelude.{◌≡◌, ◌<◌, ◌≤◌, ◌++◌, ℕ, List, IfErr, length, Ok, None, codes};
ghost use Rattle.std.specs.Prelude.{◌&&◌, bytes_eq};
ghost use Rattle.httparse.specs.Grammar.{NeverHasRequest};
ghost use Rattle.relay_http.specs.Refusals.{OverrunsRequestHead, PieceFault};
ghost use Rattle.relay_http.specs.Steps.{Finds};
ghost use Rattle.relay_http.specs.Reply.{head_limit};
ghost use Rattle.relay_http.specs.Request.{IsRequestInfo};

use crate::fault::HttpFault;
use crate::fields;
use crate::framing::Framing;
use crate::head::{FIELD_LIMIT, HEAD_LIMIT};
use crate::piece::Piece;
use httparse::spans::{EMPTY_HEADER_SPAN, parse_request};
use httparse::{Error, Status};

/// What the head of a request says.
#[derive(Clone, Copy, Debug, PartialEq, Eq)]
pub struct RequestInfo {
    /// Whether it is a POST to `/_bulk`.
    pub bulk: bool,
    /// Where the body ends, or why no request has this head.
    pub framing: Result<Framing, HttpFault>,
    /// Whether the connection may carry a further message.
    pub lasting: bool,
}

impl Piece for RequestInfo {
    ghost form = { IsRequestInfo };

    ghost breaks = { NeverHasRequest };

    ghost overruns = { OverrunsRequestHead };

    ghost size = { head_limit };

    fn most() -> usize {
        HEAD_LIMIT
    }

    fn find(buf: &[u8]) -> Result<Option<(RequestInfo, usize)>, HttpFault> {
        find_request_head(buf)
    }
}

// Whether a request with this method and target is for the bulk API.
fn is_bulk(method: &[u8], target: &[u8]) -> bool
    ensures { result
        ≡ (bytes_eq method.now (codes "POST") && bytes_eq target.now (codes "/_bulk")) }
{
    method == b"POST".as_slice() && target == b"/_bulk".as_slice()
}

/// Looks for a whole head at the front of the bytes, and returns it with its length. The faults:
/// `Malformed`, and `HeadLong` if it has more than 64 fields or more than 16,384 bytes.
pub fn find_request_head(buf: &[u8]) -> Result<Option<(RequestInfo, usize)>, HttpFault>
    requires { length buf.now ≤ head_limit }
    ensures found { Finds IsRequestInfo buf.now result }
    ensures why { IfErr result
        (λ f. (more : List ℕ)
        → PieceFault NeverHasRequest OverrunsRequestHead (buf.now ++ more) f) }
    ensures none { result ≡ Ok None → length buf.now < head_limit }
{
    let mut headers = [EMPTY_HEADER_SPAN; FIELD_LIMIT];
    match parse_request(buf, &mut headers) {
        Ok(Status::Complete(head)) => {
            let fields = &headers[..head.headers];
            let info = RequestInfo {
                bulk: is_bulk(head.method.of(buf), head.path.of(buf)),
                framing: fields::request_framing(buf, fields),
                lasting: fields::keeps(head.version, buf, fields),
            };
            Ok(Some((info, head.len)))
        }
        Ok(Status::Partial) if buf.len() < HEAD_LIMIT => Ok(None),
        Ok(Status::Partial) => Err(HttpFault::HeadLong),
        Err(Error::TooManyHeaders) => Err(HttpFault::HeadLong),
        Err(_) => Err(HttpFault::Malformed),
    }
}
