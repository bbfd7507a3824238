//! How the last line of a report ends.
ghost use Rattle.std.specs.Prelude.{IfOk};
ghost use Rattle.relay_report.specs.Mending.{BeginsLast, EndsLike};

use crate::line::read_name;
use memchr::memrchr;
use std::alloc::{AllocError, Global};

/// How the text of a report ends, to which lines are to be added.
#[derive(Clone, Copy, Debug, PartialEq, Eq)]
pub enum LastLine {
    /// With a line feed, or it is empty.
    Ended,
    /// With a line that names an operation, without its line feed.
    Unended,
    /// With a part of a line, which names nothing.
    Torn {
        /// How many bytes come before that part.
        whole: usize,
    },
}

/// How the text of a report ends. A line that was being written when its run was killed lacks its
/// end. `AllocError`: allocation failed.
pub fn last_line(alloc: Global, text: &[u8]) -> Result<LastLine, AllocError>
    ensures { IfOk result (EndsLike text.now) }
{
    let whole = last_begin(text);
    if whole == text.len() {
        return Ok(LastLine::Ended);
    }
    match read_name(alloc, &text[whole..])? {
        Some(_) => Ok(LastLine::Unended),
        None => Ok(LastLine::Torn { whole }),
    }
}

// Where the last line begins.
fn last_begin(text: &[u8]) -> usize
    ensures { BeginsLast text.now result }
{
    match memrchr(b'\n', text) {
        Some(place) => place + 1,
        None => 0,
    }
}
