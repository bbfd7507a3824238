//! The progress line.
ghost use Rattle.std.specs.Prelude.{◌≡◌, ◌++◌, IfOk, OnOk, true, decimal};
ghost use Rattle.relay_progress.specs.Lines.{ago_text, answer_text, counts_text};
ghost use Rattle.relay_progress.specs.Lines.{progress_text, read_text, share};
ghost use Rattle.relay_progress.specs.Lines.{trouble_name, trouble_text, written_text};

use crate::counts::Trouble;
use relay_words::add_number;
use std::alloc::{AllocError, Global};

/// The progress of a run.
#[derive(Clone, Copy, Debug, PartialEq, Eq)]
pub struct Progress {
    /// The number of bytes of the files that were read.
    pub read: u64,
    /// The size of the files, if that of each is known.
    pub size: Option<u64>,
    /// The number of requests that were sent.
    pub requests: u64,
    /// The number of operations in them.
    pub operations: u64,
    /// The number of operations that answers settled as applied.
    pub settled: u64,
    /// The number of operations that answers refused for good.
    pub refused: u64,
    /// The number of times that a request did not settle one of its operations.
    pub repeats: u64,
    /// The number of requests outstanding.
    pub out: u64,
    /// How many seconds ago the last answer arrived, if one did.
    pub idle: Option<u64>,
}

/// The progress line without a line end. `AllocError`: allocation failed.
pub fn progress_text(alloc: Global, progress: &Progress) -> Result<Vec<u8>, AllocError>
    ensures { IfOk result (λ text. text.items ≡ progress_text progress.now) }
{
    let mut text = Vec::new(alloc);
    text.extend_from_slice(b"read ")?;
    add_read(&mut text, progress.read, progress.size)?;
    add_counts(&mut text, progress)?;
    text.extend_from_slice(b", ")?;
    add_answer(&mut text, progress.idle)?;
    Ok(text)
}

/// The progress line: with `over`, on a terminal, it overwrites the previous line and is cut at the
/// right edge, otherwise it is a line of its own. `AllocError`: allocation failed.
pub fn written_text(alloc: Global, progress: &Progress, over: bool) -> Result<Vec<u8>, AllocError>
    ensures { IfOk result (λ text. text.items ≡ written_text over (progress_text progress.now)) }
{
    let mut line = progress_text(alloc, progress)?;
    if over {
        return text_over(alloc, &line);
    }
    line.extend_from_slice(b"\n")?;
    Ok(line)
}

// The line for a terminal.
fn text_over(alloc: Global, line: &[u8]) -> Result<Vec<u8>, AllocError>
    ensures { IfOk result (λ text. text.items ≡ written_text true line.now) }
{
    let mut text = Vec::new(alloc);
    text.extend_from_slice(b"\r\x1b[?7l")?;
    text.extend_from_slice(line)?;
    text.extend_from_slice(b"\x1b[K\x1b[?7h")?;
    Ok(text)
}

/// The line about connections to an address, for when that changes: `ADDR: connection refused,
/// trying again`, or `ADDR: connected`. With `over`, on a terminal, it overwrites the previous
/// line. `AllocError`: allocation failed.
pub fn trouble_text(
    alloc: Global,
    address: &str,
    trouble: Trouble,
    over: bool,
) -> Result<Vec<u8>, AllocError>
    ensures { IfOk result (λ text. text.items ≡ trouble_text over address.now trouble) }
{
    let mut text = Vec::new(alloc);
    if over {
        text.extend_from_slice(b"\r\x1b[K")?;
    }
    text.extend_from_slice(address.as_bytes())?;
    text.extend_from_slice(b": ")?;
    text.extend_from_slice(trouble_name(trouble))?;
    text.extend_from_slice(b"\n")?;
    Ok(text)
}

fn trouble_name(trouble: Trouble) -> &'static [u8]
    ensures { result.now ≡ trouble_name trouble }
{
    match trouble {
        Trouble::None => b"connected",
        Trouble::Refused => b"connection refused, trying again",
        Trouble::TimedOut => b"connection timed out, trying again",
        Trouble::Other => b"no connection, trying again",
    }
}

// The percentage that was read.
fn share(read: u64, size: u64) -> u64
    ensures { result ≡ share read size }
{
    if size == 0 {
        return 100;
    }
    let parts = read.min(size) as u128 * 100;
    (parts / size as u128) as u64
}

// Adds the part about what was read.
fn add_read(text: &mut Vec<u8>, read: u64, size: Option<u64>) -> Result<(), AllocError>
    ensures { OnOk result (text.new.items ≡ text.old.items ++ read_text read size) }
{
    add_number(text, read)?;
    match size {
        Some(size) => {
            text.extend_from_slice(b" of ")?;
            add_number(text, size)?;
            text.extend_from_slice(b" bytes (")?;
            add_number(text, share(read, size))?;
            text.extend_from_slice(b" %)")
        }
        None => text.extend_from_slice(b" bytes"),
    }
}

// Adds these words and a number.
pub(crate) fn add_count(text: &mut Vec<u8>, words: &[u8], number: u64) -> Result<(), AllocError>
    ensures { OnOk result (text.new.items ≡ text.old.items ++ (words.now ++ decimal number)) }
{
    text.extend_from_slice(words)?;
    add_number(text, number)
}

// Adds the part about requests and operations.
fn add_counts(text: &mut Vec<u8>, progress: &Progress) -> Result<(), AllocError>
    ensures { OnOk result (text.new.items ≡ text.old.items ++ counts_text progress.now) }
{
    add_count(text, b", sent ", progress.operations)?;
    add_count(text, b" operations in ", progress.requests)?;
    add_count(text, b" requests, settled ", progress.settled)?;
    add_count(text, b", refused ", progress.refused)?;
    add_count(text, b", repeats ", progress.repeats)?;
    add_count(text, b", out ", progress.out)
}

// Adds how long ago the last answer arrived.
fn add_ago(text: &mut Vec<u8>, seconds: u64) -> Result<(), AllocError>
    ensures { OnOk result (text.new.items ≡ text.old.items ++ ago_text seconds) }
{
    text.extend_from_slice(b"last answer ")?;
    add_number(text, seconds)?;
    text.extend_from_slice(b" s ago")
}

// Adds the part about the last answer.
fn add_answer(text: &mut Vec<u8>, idle: Option<u64>) -> Result<(), AllocError>
    ensures { OnOk result (text.new.items ≡ text.old.items ++ answer_text idle) }
{
    match idle {
        Some(seconds) => add_ago(text, seconds),
        None => text.extend_from_slice(b"no answer yet"),
    }
}
