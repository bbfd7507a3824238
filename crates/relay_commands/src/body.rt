//! Reading the body of a bulk request to its end.
ghost use Rattle.std.specs.Prelude.{◌≡◌, ◌<◌, ◌≤◌, [], vec_len, IfOk, IfErr, OnOk};
ghost use Rattle.relay_commands.specs.Applies.{GivesBody, body_limit};
ghost use Rattle.relay_commands.specs.Pieces.{IsBodyFault, IsPieceFault, TakesPiece, failed_by};

use crate::apply::{ApplyFault, BODY_LIMIT};
use relay_action::ByteIn;
use std::alloc::Global;

// The number of bytes to read at a time.
const PIECE: usize = 65_536;

// The result of a read.
#[derive(Clone, Copy, Debug, PartialEq, Eq)]
enum Part {
    // Some bytes.
    More,
    // The end.
    End,
}

/// Reads a body to its end. The fault is `BodyLong`, `Read` or `Memory`.
pub fn read_body<R: ByteIn>(alloc: Global, reader: &mut R) -> Result<Vec<u8>, ApplyFault>
    ensures body { IfOk result (λ body. GivesBody
        (R.left reader.old) (R.left reader.new) body.items) }
    ensures err { IfErr result (IsBodyFault (R.left reader.old) (R.left reader.new)) }
    ensures failed { R.failed reader.new ≡ failed_by result (R.failed reader.old) }
{
    let mut piece = match vec![in alloc; 0; PIECE] {
        Ok(piece) => piece,
        Err(_) => return Err(ApplyFault::Memory),
    };
    let mut body = Vec::new(alloc);
    read_pieces(reader, &mut piece, &mut body)?;
    Ok(body)
}

// Reads a body to its end, piece by piece.
fn read_pieces<R: ByteIn>(
    reader: &mut R,
    piece: &mut Vec<u8>,
    body: &mut Vec<u8>,
) -> Result<(), ApplyFault>
    requires body { body.old.items ≡ [] }
    requires piece { 0 < vec_len piece.old }
    ensures body { OnOk result (GivesBody (R.left reader.old) (R.left reader.new) body.new.items) }
    ensures err { IfErr result (IsBodyFault (R.left reader.old) (R.left reader.new)) }
    ensures failed { R.failed reader.new ≡ failed_by result (R.failed reader.old) }
{
    'pieces: loop {
        match read_piece(reader, piece, body)? {
            Part::More => {}
            Part::End => return Ok(()),
        }
        if body.len() > BODY_LIMIT {
            return Err(ApplyFault::BodyLong);
        }
    }
}

// Reads more bytes of a body, if there are any, and no more than it takes to see that the body is
// too long.
fn read_piece<R: ByteIn>(
    reader: &mut R,
    piece: &mut Vec<u8>,
    body: &mut Vec<u8>,
) -> Result<Part, ApplyFault>
    requires room { vec_len body.old ≤ body_limit }
    requires piece { 0 < vec_len piece.old }
    ensures takes { IfOk result (TakesPiece (R.left reader.old) (R.left reader.new)
        body.old.items body.new.items) }
    ensures err { IfErr result (IsPieceFault (R.left reader.old) (R.left reader.new)
        body.old.items) }
    ensures piece { 0 < vec_len piece.new }
    ensures failed { R.failed reader.new ≡ failed_by result (R.failed reader.old) }
{
    piece.truncate(BODY_LIMIT + 1 - body.len());
    match reader.read(piece.as_mut_slice()) {
        Ok(0) => Ok(Part::End),
        Ok(count) => match body.extend_from_slice(&piece[..count]) {
            Ok(()) => Ok(Part::More),
            Err(_) => Err(ApplyFault::Memory),
        },
        Err(_) => Err(ApplyFault::Read),
    }
}
