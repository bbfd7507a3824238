//! Chunked bodies (RFC 9112, section 7.1).
ghost use Rattle.std.specs.Prelude.{◌≡◌, ◌<◌, ℕ, List, [], Some, IfErr};
ghost use Rattle.std.specs.Prelude.{MatchResult, if◌then◌else◌};
ghost use Rattle.relay_action.specs.Streams.{one_more};
ghost use Rattle.relay_http.specs.Refusals.{BodyFault, HasNoChunkEnd, OverrunsNever, PieceFault};
ghost use Rattle.relay_http.specs.declared.framing.Framing.TheVariants as framing;
ghost use Rattle.relay_http.specs.Steps.{IsChunkThere, IsDataAfter, TookChunk, pending};
ghost use Rattle.relay_http.specs.Connection.{is_read};
ghost use Rattle.relay_http.specs.ChunkedBody.{IsChunked, IsLongChunked};
ghost use Rattle.relay_http.specs.Forms.{Took, Fails, IsOutside, IsThatOrOutside};
ghost use Rattle.relay_http.specs.declared.fault.HttpFault.{HttpFault};

use crate::buffered::Buffered;
use crate::chunk::{ChunkEnd, SizeLine, Trailer};
use crate::content::Content;
use crate::fault::HttpFault;
use relay_action::ByteIn;
use std::alloc::Global;

impl<S: ByteIn + Drop> Buffered<S> {
    // Moves the content of a chunk to the end of a content, and passes the CRLF after it.
    fn read_chunk(&mut self, size: usize, limit: usize, into: &mut Content) -> Result<(), HttpFault>
        ensures whole { (stream : List ℕ) → IsChunkThere size stream
            → pending S.left self.old ≡ Some stream → IfErr result IsOutside }
        ensures why { (stream : List ℕ) → pending S.left self.old ≡ Some stream
            → IfErr result (PieceFault (HasNoChunkEnd size) OverrunsNever stream) }
        ensures answer { MatchResult result
            (λ u. TookChunk size (pending S.left self.old) (pending S.left self.new) into.old
            into.new) (Fails (IsDataAfter limit into.old size) (pending S.left self.old)
            (S.left self.new.stream)) }
        ensures count { S.failed self.new.stream
            ≡ (if is_read result then one_more (S.failed self.old.stream) else S.failed
            self.old.stream) }
        ensures written { S.written self.new.stream ≡ S.written self.old.stream }
    {
        self.read_data(size, into)?;
        self.read_piece::<ChunkEnd>()?;
        Ok(())
    }

    pub(crate) fn read_chunked(&mut self, alloc: Global, limit: usize) -> Result<Vec<u8>, HttpFault>
        requires { limit < 4294967296 }
        ensures long { (stream : List ℕ) → IsLongChunked limit [] stream
            → pending S.left self.old ≡ Some stream
            → MatchResult result (λ body. ⊥) (IsThatOrOutside HttpFault.BodyLong) }
        ensures why { (stream : List ℕ) → pending S.left self.old ≡ Some stream
            → IfErr result (BodyFault limit framing.Chunked stream) }
        ensures answer { MatchResult result
            (λ body. Took (IsChunked limit) (pending S.left self.old) (pending S.left self.new)
            body.items) (Fails (IsChunked limit) (pending S.left self.old)
            (S.left self.new.stream)) }
        ensures count { S.failed self.new.stream
            ≡ (if is_read result then one_more (S.failed self.old.stream) else S.failed
            self.old.stream) }
        ensures written { S.written self.new.stream ≡ S.written self.old.stream }
    {
        let mut body = Content::new(alloc);
        'chunks: loop {
            let size = self.read_piece::<SizeLine>()?.size;
            if size == 0 {
                self.read_piece::<Trailer>()?;
                return Ok(body.into_vec());
            }
            if size > (limit - body.len()) as u64 {
                return Err(HttpFault::BodyLong);
            }
            self.read_chunk(size as usize, limit, &mut body)?;
        }
    }
}
