//! Replies (RFC 9112, section 4).
ghost use Rattle.std.specs.Prelude.{◌≡◌, ◌<◌, ℕ, List, IfErr, MatchResult, Some, ◌&&◌};
ghost use Rattle.std.specs.Prelude.{not, if◌then◌else◌};
ghost use Rattle.relay_action.specs.Streams.{one_more};
ghost use Rattle.relay_http.specs.Forms.{Took, Fails, Begins, IsOutside, IsThatOrOutside};
ghost use Rattle.httparse.specs.Grammar.{NeverHasResponse};
ghost use Rattle.relay_http.specs.Refusals.{AfterInterim, OverrunsHead, PieceFault, ReplyFault};
ghost use Rattle.relay_http.specs.Steps.{Answers, pending};
ghost use Rattle.relay_http.specs.Connection.{is_read};
ghost use Rattle.relay_http.specs.Framing.{is_to_end};
ghost use Rattle.relay_http.specs.declared.fault.HttpFault.{HttpFault};
ghost use Rattle.relay_http.specs.Reply.{IsHeads, IsReplyMessage, ReplyPasses, ReplyStates};
ghost use Rattle.relay_http.specs.Reply.{reply_view};

use crate::buffered::Buffered;
use crate::fault::HttpFault;
use crate::fields::is_interim;
use crate::framing::Framing;
use crate::head::HeadInfo;
use relay_action::ByteIn;
use std::alloc::Global;

/// The maximum number of interim heads before the final one.
pub const INTERIM_LIMIT: u8 = 8;

/// The maximum length of a reply's body, in bytes.
pub const REPLY_LIMIT: usize = 67_108_864;

/// A reply.
#[derive(Debug, Drop)]
pub struct HttpReply {
    /// The final status, from 200 to 599.
    pub status: u16,
    /// The body, of at most 67,108,864 bytes.
    pub body: Vec<u8>,
    /// Whether the connection may carry a further message: not for HTTP/1.0, if the head says
    /// `close`, or if the body extends to the end of the stream.
    pub keep: bool,
}

// Whether a message with this framing keeps the connection.
fn keeps(lasting: bool, framing: Framing) -> bool
    ensures { result ≡ (lasting && not (is_to_end framing)) }
{
    match framing {
        Framing::ToEnd => false,
        _ => lasting,
    }
}

impl<S: ByteIn + Drop> Buffered<S> {
    // Reads the heads of a reply, and returns what the last of them says.
    fn read_heads(&mut self) -> Result<HeadInfo, HttpFault>
        ensures why { (stream : List ℕ) → pending S.left self.old ≡ Some stream
            → IfErr result
            (PieceFault (AfterInterim NeverHasResponse) (AfterInterim OverrunsHead) stream) }
        ensures answer { Answers IsHeads (pending S.left self.old) (pending S.left self.new)
            (S.left self.new.stream) result }
        ensures count { S.failed self.new.stream
            ≡ (if is_read result then one_more (S.failed self.old.stream) else S.failed
            self.old.stream) }
        ensures written { S.written self.new.stream ≡ S.written self.old.stream }
    {
        let mut passed = 0;
        'heads: loop {
            let info = self.read_piece::<HeadInfo>()?;
            if !is_interim(info.status) || passed == INTERIM_LIMIT {
                return Ok(info);
            }
            passed += 1;
        }
    }

    // Reads a reply. A reply at the front is found, and so is a fault in its heads.
    pub(crate) fn next_reply(&mut self, alloc: Global) -> Result<HttpReply, HttpFault>
        ensures answer { MatchResult result
            (λ reply. Took IsReplyMessage (pending S.left self.old) (pending S.left self.new)
            (reply_view reply)) (Fails IsReplyMessage (pending S.left self.old)
            (S.left self.new.stream)) }
        ensures why { (stream : List ℕ) → pending S.left self.old ≡ Some stream
            → IfErr result (ReplyFault stream) }
        ensures found { (stream : List ℕ) (there : Begins IsReplyMessage stream)
            → pending S.left self.old ≡ Some stream
            → MatchResult result
            (λ reply. (reply_view reply ≡ there.value)
            × (pending S.left self.new ≡ Some there.rest)) IsOutside }
        ensures stated { (stream : List ℕ) (f : HttpFault) → ReplyStates stream f
            → pending S.left self.old ≡ Some stream
            → MatchResult result (λ reply. ⊥) (IsThatOrOutside f) }
        ensures long { (stream : List ℕ) → ReplyPasses stream
            → pending S.left self.old ≡ Some stream
            → MatchResult result (λ reply. ⊥) (IsThatOrOutside HttpFault.BodyLong) }
        ensures count { S.failed self.new.stream
            ≡ (if is_read result then one_more (S.failed self.old.stream) else S.failed
            self.old.stream) }
        ensures written { S.written self.new.stream ≡ S.written self.old.stream }
    {
        let info = self.read_heads()?;
        let framing = info.framing?;
        let body = self.read_body(alloc, framing, REPLY_LIMIT)?;
        Ok(HttpReply {
            status: info.status,
            body,
            keep: keeps(info.lasting, framing),
        })
    }
}
