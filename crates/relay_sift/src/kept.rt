//! The last bytes of an input, kept so that the line of a fault can be found.
ghost use Rattle.std.specs.Prelude.{◌≡◌, ◌++◌, ◌≤◌, ◌⊎◌, ℕ, List, drop, length, true, false, IfOk, option_map};
ghost use Rattle.relay_action.specs.Streams.{most};
ghost use Rattle.relay_sift.specs.Keeping.{IsLineKept, KeepsUnlessLost, is_some_byte, lines_before};
ghost use Rattle.relay_sift.specs.Keeping.{nothing_kept, turned, with_room};
ghost use Rattle.relay_sift.specs.Texts.{line_feeds, lines_of};

use crate::lines::first_text;
use memchr::memchr;
use std::alloc::{AllocError, Global};
use std::marker::Model;
use std::mem;

/// The number of bytes that are kept before older ones are dropped.
const ROOM: usize = 65_536;

/// The last bytes of an input, at least 64 KiB of them and at most twice as many if each piece has
/// at most 64 KiB, and the number of lines before them.
#[derive(Drop)]
pub struct Kept {
    older: Vec<u8>,
    newer: Vec<u8>,
    // How many line feeds came before them.
    before: u64,
    // Whether other bytes came before them.
    is_cut: bool,
    // Whether an allocation failed, so that nothing is known any more.
    is_lost: bool,
}

impl Model for Kept {
    ghost use Rattle.relay_sift.specs.Keeping.{Keeping};

    ghost Value = { Keeping };

    ghost view = { λ k. record {
      before = k.before;
      older = k.older.items;
      newer = k.newer.items;
      is_cut = k.is_cut;
      is_lost = k.is_lost;
    } };
}

impl Kept {
    /// Nothing yet. It does not allocate.
    pub fn new(alloc: Global) -> Kept
        ensures { result ≡ nothing_kept }
    {
        Kept {
            older: Vec::new(alloc),
            newer: Vec::new(alloc),
            before: 0,
            is_cut: false,
            is_lost: false,
        }
    }

    /// Adds bytes, which come next. If an allocation fails, nothing is found any more.
    pub fn add(&mut self, piece: &[u8])
        ensures { (text : List ℕ) → length (text ++ piece.now) ≤ most
            → KeepsUnlessLost text self.old → KeepsUnlessLost (text ++ piece.now) self.new }
    {
        self.make_room(piece.len());
        self.push(piece);
    }

    // Drops the older bytes, unless there is room for this many more.
    fn make_room(&mut self, count: usize)
        ensures { self.new ≡ with_room count self.old }
    {
        if self.newer.len().saturating_add(count) > ROOM {
            self.turn();
        }
    }

    // Adds bytes at the end.
    fn push(&mut self, piece: &[u8])
        ensures { (self.new ≡ record self.old { newer = self.old.newer ++ piece.now })
            ⊎ (self.new.is_lost ≡ true) }
    {
        if self.newer.extend_from_slice(piece).is_err() {
            self.is_lost = true;
        }
    }

    // Drops the older bytes.
    fn turn(&mut self)
        ensures { self.new ≡ turned self.old }
    {
        let feeds = count_feeds(&self.older);
        self.before = self.before.saturating_add(feeds);
        self.is_cut = self.is_cut || has_any(&self.older);
        mem::swap(&mut self.older, &mut self.newer);
        self.newer.clear();
    }

    // How many lines of what is kept come before the line with this number, from 1. `None`: it is not
    // kept whole.
    fn lines_before(&self, number: u64) -> Option<u64>
        ensures { result ≡ lines_before number self.now }
    {
        if self.is_lost || number == 0 || number - 1 < self.before {
            return None;
        }
        let feeds = number - 1 - self.before;
        if self.is_cut && feeds == 0 {
            return None;
        }
        Some(feeds)
    }

    /// The line with this number, from 1, without what ends it. `None`: it is not kept whole.
    /// `AllocError`: allocation failed.
    pub(crate) fn line(&self, alloc: Global, number: u64) -> Result<Option<Vec<u8>>, AllocError>
        ensures { IfOk result (λ found. IsLineKept number self.now
            (option_map (λ line. line.items) found)) }
    {
        let Some(feeds) = self.lines_before(number) else {
            return Ok(None);
        };
        let mut all = Vec::new(alloc);
        all.extend_from_slice(&self.older)?;
        all.extend_from_slice(&self.newer)?;
        let mut text = Vec::new(alloc);
        text.extend_from_slice(first_text(after_lines(&all, feeds)))?;
        Ok(Some(text))
    }
}

fn has_any(bytes: &[u8]) -> bool
    ensures { result ≡ is_some_byte bytes.now }
{
    !bytes.is_empty()
}

/// The number of line feeds in these bytes.
pub fn count_feeds(bytes: &[u8]) -> u64
    ensures { result ≡ length (line_feeds bytes.now) }
{
    let mut count = 0u64;
    let mut rest = bytes;
    while let Some(end) = memchr(b'\n', rest) {
        count += 1;
        rest = &rest[end + 1..];
    }
    count
}

// What follows this many lines; nothing if there are not as many.
fn after_lines(bytes: &[u8], count: u64) -> &[u8]
    ensures { lines_of result.now ≡ drop count (lines_of bytes.now) }
{
    let mut rest = bytes;
    'lines: for _line in 0..count {
        if rest.is_empty() {
            return rest;
        }
        rest = after_line(rest);
    }
    rest
}

// What follows the first line.
fn after_line(bytes: &[u8]) -> &[u8]
    ensures { lines_of result.now ≡ drop 1 (lines_of bytes.now) }
{
    match memchr(b'\n', bytes) {
        Some(end) => &bytes[end + 1..],
        None => &[],
    }
}
