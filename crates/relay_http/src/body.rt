//! Bodies of messages (RFC 9112, section 6).
ghost use Rattle.std.specs.Prelude.{◌≡◌, ◌<◌, ℕ, List, Some, IfOk, IfErr, MatchResult};
ghost use Rattle.std.specs.Prelude.{if◌then◌else◌};
ghost use Rattle.relay_action.specs.Streams.{one_more};
ghost use Rattle.relay_http.specs.Body.{IsSized, IsRest, IsBody, IsLongBody, IsLongRest};
ghost use Rattle.relay_http.specs.Refusals.{BodyFault};
ghost use Rattle.relay_http.specs.declared.framing.Framing.TheVariants as framing;
ghost use Rattle.relay_http.specs.Steps.{Moved, TookData, pending};
ghost use Rattle.relay_http.specs.Connection.{is_read};
ghost use Rattle.relay_http.specs.Forms.{Took, Fails, IsOutside, IsThatOrOutside};
ghost use Rattle.relay_http.specs.declared.fault.HttpFault.{HttpFault};

use crate::buffered::Buffered;
use crate::content::Content;
use crate::fault::HttpFault;
use crate::framing::Framing;
use crate::window::WINDOW_SIZE;
use relay_action::ByteIn;
use std::alloc::Global;

impl<S: ByteIn + Drop> Buffered<S> {
    // Moves up to `most` bytes to the end of a content, and returns how many. 0 means the end of
    // the stream. Large amounts are read straight into the content, small ones through the window.
    fn take_some(&mut self, most: usize, into: &mut Content) -> Result<usize, HttpFault>
        requires { 0 < most }
        ensures moved { IfOk result
            (Moved (pending S.left self.old) (pending S.left self.new) (S.left self.new.stream)
            into.old into.new most) }
        ensures err { IfErr result IsOutside }
        ensures count { S.failed self.new.stream
            ≡ (if is_read result then one_more (S.failed self.old.stream) else S.failed
            self.old.stream) }
        ensures written { S.written self.new.stream ≡ S.written self.old.stream }
    {
        if most < WINDOW_SIZE || !self.window.as_slice().is_empty() {
            return self.take_held(most, into);
        }
        into.fill(&mut self.stream, most)
    }

    // The same through the window.
    fn take_held(&mut self, most: usize, into: &mut Content) -> Result<usize, HttpFault>
        requires { 0 < most }
        ensures moved { IfOk result
            (Moved (pending S.left self.old) (pending S.left self.new) (S.left self.new.stream)
            into.old into.new most) }
        ensures err { IfErr result IsOutside }
        ensures count { S.failed self.new.stream
            ≡ (if is_read result then one_more (S.failed self.old.stream) else S.failed
            self.old.stream) }
        ensures written { S.written self.new.stream ≡ S.written self.old.stream }
    {
        self.ready()?;
        let count = self.window.as_slice().len().min(most);
        into.append(&self.window.as_slice()[..count])
            .map_err(|_| HttpFault::Memory)?;
        self.window.skip(count);
        Ok(count)
    }

    // Moves exactly `size` bytes to the end of a content.
    pub(crate) fn read_data(&mut self, size: usize, into: &mut Content) -> Result<(), HttpFault>
        ensures why { IfErr result (IsThatOrOutside HttpFault.Ended) }
        ensures answer { MatchResult result
            (λ u. TookData size (pending S.left self.old) (pending S.left self.new) into.old
            into.new) (Fails (IsSized size) (pending S.left self.old) (S.left self.new.stream)) }
        ensures count { S.failed self.new.stream
            ≡ (if is_read result then one_more (S.failed self.old.stream) else S.failed
            self.old.stream) }
        ensures written { S.written self.new.stream ≡ S.written self.old.stream }
    {
        let mut left = size;
        'reading: while left > 0 {
            match self.take_some(left, into)? {
                0 => return Err(HttpFault::Ended),
                count => left -= count,
            }
        }
        Ok(())
    }

    pub(crate) fn read_sized(&mut self, alloc: Global, size: usize) -> Result<Vec<u8>, HttpFault>
        ensures why { IfErr result (IsThatOrOutside HttpFault.Ended) }
        ensures answer { MatchResult result
            (λ body. Took (IsSized size) (pending S.left self.old) (pending S.left self.new)
            body.items) (Fails (IsSized size) (pending S.left self.old) (S.left self.new.stream)) }
        ensures count { S.failed self.new.stream
            ≡ (if is_read result then one_more (S.failed self.old.stream) else S.failed
            self.old.stream) }
        ensures written { S.written self.new.stream ≡ S.written self.old.stream }
    {
        let mut body = Content::new(alloc);
        self.read_data(size, &mut body)?;
        Ok(body.into_vec())
    }

    // Reads to the end of the stream.
    pub(crate) fn read_rest(&mut self, alloc: Global, limit: usize) -> Result<Vec<u8>, HttpFault>
        requires { limit < 4294967296 }
        ensures long { (stream : List ℕ) → IsLongRest limit stream
            → pending S.left self.old ≡ Some stream
            → MatchResult result (λ body. ⊥) (IsThatOrOutside HttpFault.BodyLong) }
        ensures why { (stream : List ℕ) → pending S.left self.old ≡ Some stream
            → IfErr result (BodyFault limit framing.ToEnd stream) }
        ensures answer { MatchResult result
            (λ body. Took (IsRest limit) (pending S.left self.old) (pending S.left self.new)
            body.items) (Fails (IsRest limit) (pending S.left self.old) (S.left self.new.stream)) }
        ensures count { S.failed self.new.stream
            ≡ (if is_read result then one_more (S.failed self.old.stream) else S.failed
            self.old.stream) }
        ensures written { S.written self.new.stream ≡ S.written self.old.stream }
    {
        let mut body = Content::new(alloc);
        'reading: while body.len() <= limit {
            if self.take_some(limit + 1 - body.len(), &mut body)? == 0 {
                return Ok(body.into_vec());
            }
        }
        Err(HttpFault::BodyLong)
    }

    pub(crate) fn read_body(
        &mut self,
        alloc: Global,
        framing: Framing,
        limit: usize,
    ) -> Result<Vec<u8>, HttpFault>
        requires { limit < 4294967296 }
        ensures long { (stream : List ℕ) → IsLongBody limit framing stream
            → pending S.left self.old ≡ Some stream
            → MatchResult result (λ body. ⊥) (IsThatOrOutside HttpFault.BodyLong) }
        ensures why { (stream : List ℕ) → pending S.left self.old ≡ Some stream
            → IfErr result (BodyFault limit framing stream) }
        ensures answer { MatchResult result
            (λ body. Took (IsBody limit framing) (pending S.left self.old)
            (pending S.left self.new) body.items) (Fails (IsBody limit framing)
            (pending S.left self.old) (S.left self.new.stream)) }
        ensures count { S.failed self.new.stream
            ≡ (if is_read result then one_more (S.failed self.old.stream) else S.failed
            self.old.stream) }
        ensures written { S.written self.new.stream ≡ S.written self.old.stream }
    {
        match framing {
            Framing::Absent => self.read_sized(alloc, 0),
            Framing::Sized(size) => self.read_sized(alloc, size as usize),
            Framing::Chunked => self.read_chunked(alloc, limit),
            Framing::ToEnd => self.read_rest(alloc, limit),
        }
    }
}
