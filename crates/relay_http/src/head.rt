//! The head of a reply (RFC 9112, sections 4 and 5).
ghost use Rattle.std.specs.Prelude.{◌≡◌, ◌<◌, ◌≤◌, ◌++◌, ℕ, List, IfErr, length, Ok, None};
ghost use Rattle.httparse.specs.Grammar.{NeverHasResponse};
ghost use Rattle.relay_http.specs.Refusals.{OverrunsHead, PieceFault};
ghost use Rattle.relay_http.specs.Steps.{Finds};
ghost use Rattle.relay_http.specs.Reply.{IsHead, head_limit};

use crate::fault::HttpFault;
use crate::fields;
use crate::framing::Framing;
use crate::piece::Piece;
use httparse::spans::{EMPTY_HEADER_SPAN, parse_response};
use httparse::{Error, Status};

/// The maximum length of a head, including its empty line.
pub const HEAD_LIMIT: usize = 16_384;

/// The maximum number of fields of a head or a trailer.
pub const FIELD_LIMIT: usize = 64;

/// What the head of a reply says.
#[derive(Clone, Copy, Debug, PartialEq, Eq)]
pub struct HeadInfo {
    /// The status.
    pub status: u16,
    /// Where the body ends, or why this is not the final head of a reply.
    pub framing: Result<Framing, HttpFault>,
    /// Whether the connection may carry a further message.
    pub lasting: bool,
}

impl Piece for HeadInfo {
    ghost form = { IsHead };

    ghost breaks = { NeverHasResponse };

    ghost overruns = { OverrunsHead };

    ghost size = { head_limit };

    fn most() -> usize {
        HEAD_LIMIT
    }

    fn find(buf: &[u8]) -> Result<Option<(HeadInfo, usize)>, HttpFault> {
        find_head(buf)
    }
}

/// Looks for a whole head at the front of the bytes, and returns it with its length. The faults:
/// `Malformed`, and `HeadLong` if it has more than 64 fields or more than 16,384 bytes.
pub fn find_head(buf: &[u8]) -> Result<Option<(HeadInfo, usize)>, HttpFault>
    requires { length buf.now ≤ head_limit }
    ensures found { Finds IsHead buf.now result }
    ensures why { IfErr result
        (λ f. (more : List ℕ) → PieceFault NeverHasResponse OverrunsHead (buf.now ++ more) f) }
    ensures none { result ≡ Ok None → length buf.now < head_limit }
{
    let mut headers = [EMPTY_HEADER_SPAN; FIELD_LIMIT];
    match parse_response(buf, &mut headers) {
        Ok(Status::Complete(head)) => {
            let fields = &headers[..head.headers];
            let info = HeadInfo {
                status: head.code,
                framing: fields::framing(head.code, buf, fields),
                lasting: fields::keeps(head.version, buf, fields),
            };
            Ok(Some((info, head.len)))
        }
        Ok(Status::Partial) if buf.len() < HEAD_LIMIT => Ok(None),
        Ok(Status::Partial) => Err(HttpFault::HeadLong),
        Err(Error::TooManyHeaders) => Err(HttpFault::HeadLong),
        Err(_) => Err(HttpFault::Malformed),
    }
}
