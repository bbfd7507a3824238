//! The body of a bulk request, as the index reads it.
ghost use Rattle.std.specs.Prelude.{◌≡◌, ◌≢◌, ◌⊎◌, ◌≤◌, [], IfOk, IfErr};
ghost use Rattle.relay_ndjson.specs.Lines.{IsRaw};
ghost use Rattle.relay_ndjson.specs.Operations.{line_count};
ghost use Rattle.relay_ndjson.specs.Bodies.{BeginsWithLine, LacksLine, IsNoSource};
ghost use Rattle.relay_ndjson.specs.Bodies.{BreaksWriteAt, IsBulk, IsBulkFault, ReadsBack};
ghost use Rattle.relay_ndjson.specs.Steps.{BeginsWithSource, BeginsWithWrite};

use crate::action_line::read_source;
use crate::kind::{BulkFault, LineKind};
use crate::lines::LINE_LIMIT;
use crate::versioned_line::{ActionLine, read_versioned};
use memchr::memchr;
use relay_action::{Action, ActionKind, Write};
use relay_json::Scratch;
use std::alloc::Global;

/// The writes of a body. Each line ends with a line feed, one carriage return before it is dropped,
/// and no line is blank; an action line has the members `_index`, `_id`, `version` and
/// `version_type`, and an index action is followed by its source. An empty body has no writes. The
/// fault names the first bad line, or says that an allocation failed; no writes are returned then.
pub fn read_bulk(alloc: Global, body: &[u8]) -> Result<Vec<Write>, BulkFault>
    ensures ok { IfOk result (λ ws. IsBulk body.now ws.items) }
    ensures err { IfErr result (IsBulkFault body.now) }
    ensures round_trip { ReadsBack body.now result }
{
    let mut scratch = Scratch::new(alloc);
    let mut writes = Vec::new(alloc);
    let mut rest = body;
    let mut lines = 0;
    'writes: while !rest.is_empty() {
        prove!(lines < body.len() as u64);
        let (write, later) = match take_write(alloc, rest, &mut scratch) {
            Ok(taken) => taken,
            Err(fault) => {
                return Err(BulkFault {
                    line: lines + fault.line,
                    kind: fault.kind,
                });
            }
        };
        let count = line_count(&write.action);
        match writes.push(write) {
            Ok(()) => {}
            Err(_) => {
                return Err(BulkFault {
                    line: lines + 1,
                    kind: LineKind::Memory,
                });
            }
        }
        lines += count;
        rest = later;
    }
    Ok(writes)
}

// The line before its line feed, without one carriage return at its end.
fn without_return(raw: &[u8]) -> &[u8]
    ensures { IsRaw result.now raw.now }
{
    match raw.last() {
        Some(&b'\r') => &raw[..raw.len() - 1],
        _ => raw,
    }
}

// The text of the first line, and the bytes after it.
fn front_line(bytes: &[u8]) -> Result<(&[u8], &[u8]), LineKind>
    requires { bytes.now ≢ [] }
    ensures ok { IfOk result (λ l. BeginsWithLine bytes.now l.1.now l.0.now) }
    ensures err { IfErr result (LacksLine bytes.now) }
{
    let Some(end) = memchr(b'\n', bytes) else {
        if bytes.len() > LINE_LIMIT {
            return Err(LineKind::LineLong);
        }
        return Err(LineKind::NoFinalNewline);
    };
    let text = without_return(&bytes[..end]);
    if text.len() > LINE_LIMIT {
        return Err(LineKind::LineLong);
    }
    Ok((text, &bytes[end + 1..]))
}

// The source after an index action, and the bytes after its line. A fault's line is relative to the
// action line.
fn take_source(alloc: Global, bytes: &[u8]) -> Result<(Action, &[u8]), BulkFault>
    ensures ok { IfOk result (λ t. BeginsWithSource bytes.now t.1.now t.0) }
    ensures err { IfErr result
        (λ e. (e.kind ≡ LineKind.Memory) ⊎ IsNoSource bytes.now e.line e.kind) }
    ensures place { IfErr result (λ e. e.line ≤ 2) }
{
    if bytes.is_empty() {
        return Err(BulkFault {
            line: 1,
            kind: LineKind::SourceMissing,
        });
    }
    let (text, rest) = match front_line(bytes) {
        Ok(front) => front,
        Err(kind) => return Err(BulkFault { line: 2, kind }),
    };
    match read_source(alloc, text) {
        Ok(action) => Ok((action, rest)),
        Err(kind) => Err(BulkFault { line: 2, kind }),
    }
}

// The first write, and the bytes after its lines. A fault's line is relative to the first.
fn take_write<'b>(
    alloc: Global,
    bytes: &'b [u8],
    scratch: &mut Scratch,
) -> Result<(Write, &'b [u8]), BulkFault>
    requires { bytes.now ≢ [] }
    ensures ok { IfOk result (λ t. BeginsWithWrite bytes.now t.1.now t.0) }
    ensures err { IfErr result
        (λ e. (e.kind ≡ LineKind.Memory) ⊎ BreaksWriteAt bytes.now e.line e.kind) }
    ensures place { IfErr result (λ e. e.line ≤ 2) }
{
    let (text, rest) = match front_line(bytes) {
        Ok(front) => front,
        Err(kind) => return Err(BulkFault { line: 1, kind }),
    };
    let ActionLine { kind, key, version } = match read_versioned(alloc, text, scratch) {
        Ok(asked) => asked,
        Err(kind) => return Err(BulkFault { line: 1, kind }),
    };
    match kind {
        ActionKind::Delete => Ok((
            Write {
                key,
                version,
                action: Action::delete(),
            },
            rest,
        )),
        ActionKind::Index => {
            let (action, rest) = take_source(alloc, rest)?;
            Ok((
                Write {
                    key,
                    version,
                    action,
                },
                rest,
            ))
        }
    }
}

fn line_count(action: &Action) -> u64
    ensures { result ≡ line_count action.now }
{
    match action {
        Action::Index(_) => 2,
        Action::Delete => 1,
    }
}
