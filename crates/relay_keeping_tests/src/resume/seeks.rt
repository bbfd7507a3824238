//! Going on with an input at its mark.
ghost use Rattle.std.specs.Prelude.{◌≡◌, IfSome, Some};
ghost use Rattle.std.specs.Io.Cursor.{cursor_inner, cursor_position};
ghost use Rattle.relay_resume.specs.GoingOn.{bytes_from, text_from};

use relay_resume::{Mark, Trail, seek_to};
use std::alloc::Global;
use std::io::{Cursor, Read};

// Lines of 3, 1, 6 and 2 bytes, and 4 bytes of a line that has not ended.
const TEXT: &[u8] = b"ab\n\nabcde\n1\nopen";

// Of its operations the line of the last one, and how many bytes there are up to its end.
const ENDS: [(u64, u64); 3] = [(2, 4), (4, 12), (5, 16)];

// How many of them are settled, and what follows these.
const RESTS: [(u64, &[u8]); 4] = [(0, TEXT), (1, b"abcde\n1\nopen"), (2, b"open"), (3, b"")];

// The mark after so many of these operations.
fn mark_after(alloc: Global, settled: u64) -> Option<Mark> {
    let start = Mark {
        offset: 0,
        line: 0,
        count: 0,
    };
    let mut trail = Trail::new(alloc, start);
    for (line, used) in ENDS {
        trail.put(start.place_behind(line, used)).ok()?;
    }
    for number in 0..settled.min(3) {
        trail.settle(number + 1).ok()?;
    }
    Some(trail.mark())
}

// A source of bytes that goes on at a mark.
fn source_from<'a>(bytes: &'a [u8], mark: Mark) -> Option<Cursor<&'a [u8]>>
    ensures { IfSome result (λ c. bytes_from (Some (cursor_position c))
        (Some (cursor_inner c).now) ≡ Some (text_from mark bytes.now)) }
{
    let mut source = Cursor::new(bytes);
    seek_to(&mut source, mark).ok()?;
    Some(source)
}

// Whether exactly this is read from a mark on.
fn is_rest(mark: Mark, rest: &[u8]) -> bool {
    let mut bytes = [0u8; 32];
    let Some(mut source) = source_from(TEXT, mark) else {
        return false;
    };
    match source.read(&mut bytes) {
        Ok(count) => bytes.get(..count) == Some(rest),
        Err(_) => false,
    }
}

fn follows(alloc: Global, settled: u64, rest: &[u8]) -> bool {
    match mark_after(alloc, settled) {
        Some(mark) => mark.count == settled && is_rest(mark, rest),
        None => false,
    }
}

#[test]
fn what_follows_a_mark(rt: HostRuntime) {
    for (settled, rest) in RESTS {
        assert!(rt; follows(rt.alloc(), settled, rest));
    }
}
