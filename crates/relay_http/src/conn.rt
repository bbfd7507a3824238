//! A connection that carries one message after another (RFC 9112, section 9).
ghost use Rattle.std.specs.Prelude.{◌≡◌, ◌≤◌, ◌&&◌, ℕ, List, [], length, true, false};
ghost use Rattle.std.specs.Prelude.{IfOk, IfErr, MatchResult, Some, Err, None, IsTrue, IsFalse};
ghost use Rattle.std.specs.Prelude.{OnOk, is_ok, option_map};
ghost use Rattle.httparse.specs.Grammar.{NeverHasRequest};
ghost use Rattle.relay_ndjson.specs.Bulk.{text_of};
ghost use Rattle.relay_http.specs.Forms.{Took, Fails, Begins, IsOutside, IsThatOrOutside};
ghost use Rattle.relay_http.specs.Framing.{reply_limit, request_limit};
ghost use Rattle.relay_http.specs.Refusals.{OverrunsRequestHead, PieceFault};
ghost use Rattle.relay_http.specs.Refusals.{ReplyFault, RequestFault};
ghost use Rattle.relay_http.specs.Reply.{IsReplyMessage, ReplyPasses, ReplyStates, reply_view};
ghost use Rattle.relay_http.specs.Request.{IsRequest, RequestPasses, RequestStates, TookRequest};
ghost use Rattle.relay_http.specs.Request.{IsFound};
ghost use Rattle.relay_http.specs.Window.{window_size};
ghost use Rattle.relay_http.specs.WrittenAnswer.{IsAnswerStatus, answer};
ghost use Rattle.relay_http.specs.WrittenRequest.{is_host, request, WritesText, SendsRequest};
ghost use Rattle.relay_http.specs.Connection.{ahead, fresh, IsQuiet, is_open, is_broken};
ghost use Rattle.relay_http.specs.Connection.{after_reply, after_request, after_write};
ghost use Rattle.relay_http.specs.Connection.{failed_reading, failed_writing, phase_of};
ghost use Rattle.relay_http.specs.RequestLine.{HeadAt, put_target};
ghost use Rattle.relay_http.specs.declared.fault.HttpFault.{HttpFault};

use crate::buffered::Buffered;
use crate::fault::HttpFault;
use crate::message::{gather_answer, send};
use crate::outgoing::write_bulk;
use crate::peek::Peek;
use crate::phase::Phase;
use crate::reply::HttpReply;
use crate::request::HttpRequest;
use crate::window::Window;
use relay_action::{ByteIn, ByteOut, ByteStream, Write};
use std::alloc::{AllocError, Global};
use std::marker::Model;

/// A connection over a stream. It allocates a window of 16,384 bytes in `new`, and a buffer for
/// writing, which holds a piece of a request and the lines of one write, or the longest answer so
/// far.
///
/// After a call that returns a fault, and after a message that does not keep the connection, it is
/// broken: then each call returns `Broken` and changes nothing.
#[derive(Drop)]
pub struct Conn<S: ByteStream> {
    bytes: Buffered<S>,
    phase: Phase,
    /// The answer or the piece of a request that is being written. Its room is kept.
    text: Vec<u8>,
}

impl<S: ByteStream> Model for Conn<S> {
    ghost use Rattle.relay_http.specs.Connection.{Connection};

    ghost Value = { Connection };

    ghost view = { λ c. record {
      held = c.bytes.window;
      left = S.left c.bytes.stream;
      written = S.written c.bytes.stream;
      failed = S.failed c.bytes.stream;
      phase = c.phase;
    } };
}

impl<S: ByteStream> Conn<S> {
    /// A connection over a stream that nothing was read from. If allocating the window fails, the
    /// stream is returned unchanged.
    pub fn new(alloc: Global, stream: S) -> Result<Conn<S>, (AllocError, S)>
        ensures fresh { IfOk result
            (λ c. c ≡ fresh (S.left stream) (S.written stream) (S.failed stream)) }
        ensures handed_back { IfErr result (λ refused. refused.1 ≡ stream) }
    {
        match Window::new(alloc) {
            Ok(window) => Ok(Conn {
                bytes: Buffered { stream, window },
                phase: Phase::Open,
                text: Vec::new(alloc),
            }),
            Err(failed) => Err((failed, stream)),
        }
    }

    /// Whether the connection may carry further messages.
    pub fn is_open(&self) -> bool
        ensures { result ≡ is_open self.now.phase }
    {
        matches!(self.phase, Phase::Open)
    }

    /// The number of bytes that were read beyond the messages so far.
    pub fn held(&self) -> usize
        ensures count { result ≡ length self.now.held }
        ensures bound { result ≤ window_size }
    {
        self.bytes.window.as_slice().len()
    }

    /// The stream. Bytes that were read ahead are dropped.
    pub fn into_stream(self) -> S
        ensures left { S.left result ≡ self.left }
        ensures written { S.written result ≡ self.written }
        ensures failed { S.failed result ≡ self.failed }
    {
        self.bytes.stream
    }
}

/// A connection without its stream.
#[derive(Drop)]
pub struct Rest {
    window: Window,
    phase: Phase,
    text: Vec<u8>,
}

impl Model for Rest {
    ghost use Rattle.relay_http.specs.Connection.{Rest};

    ghost Value = { Rest };

    ghost view = { λ r. record { held = r.window; phase = r.phase } };
}

impl Rest {
    /// The connection over this stream.
    pub fn over<S: ByteStream>(self, stream: S) -> Conn<S>
        ensures { result ≡ record {
          held = self.held;
          left = S.left stream;
          written = S.written stream;
          failed = S.failed stream;
          phase = self.phase;
        } }
    {
        Conn {
            bytes: Buffered {
                stream,
                window: self.window,
            },
            phase: self.phase,
            text: self.text,
        }
    }
}

impl<S: ByteStream> Conn<S> {
    /// The stream, and the rest of the connection.
    pub fn apart(self) -> (S, Rest)
        ensures stream { (S.left result.0 ≡ self.left) × (S.written result.0 ≡ self.written)
            × (S.failed result.0 ≡ self.failed) }
        ensures rest { result.1 ≡ record { held = self.held; phase = self.phase } }
    {
        let Conn { bytes, phase, text } = self;
        let Buffered { stream, window } = bytes;
        let rest = Rest {
            window,
            phase,
            text,
        };
        (stream, rest)
    }
}

impl<S: Peek> Conn<S> {
    /// Whether nothing unrequested has arrived: no byte was read beyond the messages so far, and
    /// neither a byte nor the end of the stream has arrived since. It does not wait, and it reads
    /// nothing.
    pub fn is_quiet(&self) -> bool
        ensures { IsTrue result → IsQuiet self.now }
    {
        self.held() == 0 && self.bytes.stream.is_quiet()
    }

    /// Whether the call of the stream that failed last ran out of time.
    pub fn has_timed_out(&self) -> bool {
        self.bytes.stream.has_timed_out()
    }
}

impl<S: ByteIn + Drop> Conn<S> {
    /// Reads the next reply. The faults are those of [`HttpFault`] except `Write`; after a reply
    /// with `keep` false the connection is broken.
    pub fn read_reply(&mut self, alloc: Global) -> Result<HttpReply, HttpFault>
        // A connection that carries no further message returns Broken, and is unchanged.
        ensures broken { IsFalse (is_open self.old.phase) → (result ≡ Err HttpFault.Broken)
            × (self.new ≡ self.old) }
        // A reply that is returned was at the front, and each fault has its cause.
        ensures answer { IsTrue (is_open self.old.phase)
            → MatchResult result
            (λ reply. Took IsReplyMessage (ahead self.old) (ahead self.new) (reply_view reply))
            (Fails IsReplyMessage (ahead self.old) self.new.left) }
        // A reply at the front is returned, and the bytes after it are left.
        ensures found { (stream : List ℕ) (there : Begins IsReplyMessage stream)
            → IsTrue (is_open self.old.phase) → ahead self.old ≡ Some stream
            → MatchResult result
            (λ reply. (reply_view reply ≡ there.value) × (ahead self.new ≡ Some there.rest))
            IsOutside }
        // Each fault says what is at the front.
        ensures why { (stream : List ℕ) → IsTrue (is_open self.old.phase)
            → ahead self.old ≡ Some stream → IfErr result (ReplyFault stream) }
        // A fault in the heads at the front is returned.
        ensures stated { (stream : List ℕ) (f : HttpFault) → ReplyStates stream f
            → IsTrue (is_open self.old.phase) → ahead self.old ≡ Some stream
            → MatchResult result (λ reply. ⊥) (IsThatOrOutside f) }
        // A body that exceeds its limit is refused as too long.
        ensures long { (stream : List ℕ) → ReplyPasses stream → IsTrue (is_open self.old.phase)
            → ahead self.old ≡ Some stream
            → MatchResult result (λ reply. ⊥) (IsThatOrOutside HttpFault.BodyLong) }
        ensures phase { IsTrue (is_open self.old.phase) → self.new.phase ≡ after_reply result }
        // At most one call of the stream failed: a read, if the fault says so.
        ensures failed { IsTrue (is_open self.old.phase)
            → self.new.failed ≡ failed_reading result self.old.failed }
        ensures written { self.new.written ≡ self.old.written }
    {
        if !self.phase.is_open() {
            return Err(HttpFault::Broken);
        }
        let result = self.bytes.next_reply(alloc);
        self.phase = match &result {
            Ok(reply) => Phase::after(reply.keep),
            Err(_) => Phase::Broken,
        };
        result
    }

    /// The target of the next request, if its method is PUT: reads ahead until a whole head is at
    /// the front, and takes nothing. `None`: the method is another one. The faults are those of
    /// [`HttpFault`] except `Write`; after one the connection is broken.
    pub fn peek_put(&mut self, alloc: Global) -> Result<Option<Vec<u8>>, HttpFault>
        // A connection that carries no further message returns Broken, and is unchanged.
        ensures broken { IsFalse (is_open self.old.phase) → (result ≡ Err HttpFault.Broken)
            × (self.new ≡ self.old) }
        // Nothing is taken.
        ensures ahead { OnOk result (ahead self.new ≡ ahead self.old) }
        // If the head of a request is at the front, its target is returned if its method is PUT.
        ensures found { (stream : List ℕ) (there : HeadAt stream)
            → IsTrue (is_open self.old.phase) → ahead self.old ≡ Some stream
            → MatchResult result (λ put. option_map (λ v. v.items) put ≡ put_target there.head)
            IsOutside }
        // Each fault says what is at the front.
        ensures why { (stream : List ℕ) → IsTrue (is_open self.old.phase)
            → ahead self.old ≡ Some stream
            → IfErr result (PieceFault NeverHasRequest OverrunsRequestHead stream) }
        ensures phase { IsTrue (is_open self.old.phase)
            → self.new.phase ≡ phase_of (is_ok result) }
        // At most one call of the stream failed: a read, if the fault says so.
        ensures failed { IsTrue (is_open self.old.phase)
            → self.new.failed ≡ failed_reading result self.old.failed }
        ensures written { self.new.written ≡ self.old.written }
    {
        if !self.phase.is_open() {
            return Err(HttpFault::Broken);
        }
        let result = self.bytes.peek_put(alloc);
        if result.is_err() {
            self.phase = Phase::Broken;
        }
        result
    }

    /// Reads the next request. `None`: the stream ended before its first byte. The faults are those
    /// of [`HttpFault`] except `Write` and `TooManyInterim`. After a request with `keep` false its
    /// answer may be written, and nothing else.
    pub fn read_request(&mut self, alloc: Global) -> Result<Option<HttpRequest>, HttpFault>
        // A connection that carries no further message returns Broken, and is unchanged.
        ensures broken { IsFalse (is_open self.old.phase) → (result ≡ Err HttpFault.Broken)
            × (self.new ≡ self.old) }
        // A request that is returned was at the front, and each fault has its cause.
        ensures answer { IsTrue (is_open self.old.phase)
            → MatchResult result (TookRequest (ahead self.old) (ahead self.new))
            (Fails IsRequest (ahead self.old) self.new.left) }
        // A request at the front is returned, and the bytes after it are left.
        ensures found { (stream : List ℕ) (there : Begins IsRequest stream)
            → IsTrue (is_open self.old.phase) → ahead self.old ≡ Some stream
            → MatchResult result (IsFound there (ahead self.new)) IsOutside }
        // Each fault says what is at the front.
        ensures why { (stream : List ℕ) → IsTrue (is_open self.old.phase)
            → ahead self.old ≡ Some stream → IfErr result (RequestFault stream) }
        // A fault in the head at the front is returned.
        ensures stated { (stream : List ℕ) (f : HttpFault) → RequestStates stream f
            → IsTrue (is_open self.old.phase) → ahead self.old ≡ Some stream
            → MatchResult result (λ request. ⊥) (IsThatOrOutside f) }
        // A body that exceeds its limit is refused as too long.
        ensures long { (stream : List ℕ) → RequestPasses stream → IsTrue (is_open self.old.phase)
            → ahead self.old ≡ Some stream
            → MatchResult result (λ request. ⊥) (IsThatOrOutside HttpFault.BodyLong) }
        // At the end of the stream there is no request.
        ensures none { IsTrue (is_open self.old.phase) → ahead self.old ≡ Some []
            → MatchResult result (λ request. request ≡ None) IsOutside }
        ensures phase { IsTrue (is_open self.old.phase) → self.new.phase ≡ after_request result }
        // At most one call of the stream failed: a read, if the fault says so.
        ensures failed { IsTrue (is_open self.old.phase)
            → self.new.failed ≡ failed_reading result self.old.failed }
        ensures written { self.new.written ≡ self.old.written }
    {
        if !self.phase.is_open() {
            return Err(HttpFault::Broken);
        }
        let result = self.bytes.next_request(alloc);
        self.phase = match &result {
            Ok(Some(request)) => Phase::after_request(request.keep),
            Ok(None) => Phase::Open,
            Err(_) => Phase::Broken,
        };
        result
    }
}

impl<S: ByteOut + Drop> Conn<S> {
    /// Writes the request with these writes, at most 10,000, to this host; its body is their bulk
    /// text. It is sent in pieces of about 64 KiB, so the whole body is never in memory. The
    /// faults: `Broken`, `Memory` and `Write`. After the last two part of the request may have been
    /// sent.
    pub fn write_request(
        &mut self,
        alloc: Global,
        host: &str,
        writes: &[Write],
    ) -> Result<(), HttpFault>
        requires host { IsTrue (is_host host.now) }
        requires few { length writes.now ≤ 10000 }
        requires size { length (text_of writes.now) ≤ request_limit }
        // A connection that carries no further message returns Broken, and is unchanged.
        ensures broken { IsFalse (is_open self.old.phase) → (result ≡ Err HttpFault.Broken)
            × (self.new ≡ self.old) }
        // The request was sent; after Write a prefix of it, and after Memory nothing, or the head
        // and the lines of the first writes.
        ensures sent { IsTrue (is_open self.old.phase)
            → SendsRequest host.now writes.now self.old.written self.new.written result }
        // That text is the request with these writes.
        ensures message { IsRequest (request host.now (text_of writes.now)) false
            (record { bulk = true; body = text_of writes.now; keep = true }) }
        ensures phase { IsTrue (is_open self.old.phase) → self.new.phase ≡ after_write true result }
        // At most one call of the stream failed: a write, if the fault says so.
        ensures failed { IsTrue (is_open self.old.phase)
            → self.new.failed ≡ failed_writing result self.old.failed }
        ensures left { self.new.left ≡ self.old.left }
        ensures held { self.new.held ≡ self.old.held }
    {
        if !self.phase.is_open() {
            return Err(HttpFault::Broken);
        }
        let result = write_bulk(alloc, &mut self.bytes.stream, &mut self.text, host, writes);
        self.phase = Phase::after(result.is_ok());
        result
    }

    /// Writes an answer with this status and this body. `keep`: whether the connection may carry a
    /// further message; if not, or if the last request said so, the answer says `close` and the
    /// connection is broken after it. The faults: `Broken`, `Memory` (nothing was sent) and
    /// `Write`.
    pub fn write_answer(
        &mut self,
        alloc: Global,
        status: u16,
        body: &str,
        keep: bool,
    ) -> Result<(), HttpFault>
        requires status { IsAnswerStatus status }
        requires size { length body.now ≤ reply_limit }
        // A connection that carries nothing more returns Broken, and is unchanged.
        ensures broken { IsTrue (is_broken self.old.phase) → (result ≡ Err HttpFault.Broken)
            × (self.new ≡ self.old) }
        // The answer was sent; after Write part of it, and after Memory nothing.
        ensures sent { IsFalse (is_broken self.old.phase)
            → WritesText (answer status body.now (keep && is_open self.old.phase)) self.old.written
            self.new.written result }
        // That text is the reply with this status and this body.
        ensures message { IsReplyMessage (answer status body.now (keep && is_open self.old.phase))
            false (record
            { status = status; body = body.now; keep = keep && is_open self.old.phase }) }
        ensures phase { IsFalse (is_broken self.old.phase)
            → self.new.phase ≡ after_write (keep && is_open self.old.phase) result }
        // At most one call of the stream failed: a write, if the fault says so.
        ensures failed { IsFalse (is_broken self.old.phase)
            → self.new.failed ≡ failed_writing result self.old.failed }
        ensures left { self.new.left ≡ self.old.left }
        ensures held { self.new.held ≡ self.old.held }
    {
        if self.phase.is_broken() {
            return Err(HttpFault::Broken);
        }
        let lasts = keep && self.phase.is_open();
        let result = write_text(&mut self.bytes.stream, &mut self.text, status, body, lasts);
        self.phase = Phase::after(result.is_ok() && lasts);
        result
    }
}

// Writes an answer, with or without `close`, after composing it in the text.
fn write_text<S: ByteOut>(
    stream: &mut S,
    text: &mut Vec<u8>,
    status: u16,
    body: &str,
    keep: bool,
) -> Result<(), HttpFault>
    ensures sent { WritesText (answer status body.now keep) (S.written stream.old)
        (S.written stream.new) result }
    ensures failed { S.failed stream.new ≡ failed_writing result (S.failed stream.old) }
    ensures left { S.left stream.new ≡ S.left stream.old }
{
    match gather_answer(text, status, body, keep) {
        Err(_) => Err(HttpFault::Memory),
        Ok(()) => send(stream, text.as_slice()),
    }
}
