//! Field values that are lists.
ghost use Rattle.std.specs.Prelude.{◌≡◌};
ghost use Rattle.std.specs.List.{list_all, list_any};
ghost use Rattle.std.specs.Iterator.{YieldsFirstRef, item_count};
ghost use Rattle.relay_http.specs.Fields.{elements, same_word, agrees};
ghost use Rattle.relay_http.specs.Lists.{elements_left};

use crate::word::{agrees, same_word, trim_ows};

/// The elements of a comma-separated value, without the white space around each.
#[derive(Drop)]
pub struct Elements<'a> {
    rest: Option<&'a [u8]>,
}

impl<'a> Elements<'a> {
    pub fn new(value: &'a [u8]) -> Elements<'a>
        ensures { elements_left result ≡ elements value.now }
    {
        Elements { rest: Some(value) }
    }
}

impl<'a> Iterator for Elements<'a> {
    type Item = &'a [u8];

    ghost next_gives = { YieldsFirstRef elements_left };

    ghost remaining = { item_count elements_left };

    fn next(&mut self) -> Option<&'a [u8]> {
        let rest = self.rest?;
        match rest.iter().position(|b| *b == b',') {
            Some(comma) => {
                self.rest = Some(&rest[comma + 1..]);
                Some(trim_ows(&rest[..comma]))
            }
            None => {
                self.rest = None;
                Some(trim_ows(rest))
            }
        }
    }
}

/// Whether one of the elements is this word.
pub fn lists_word(value: &[u8], word: &[u8]) -> bool
    ensures { result ≡ list_any (λ e. same_word e word.now) (elements value.now) }
{
    Elements::new(value).any(|e| same_word(e, word))
}

/// Whether each element is the same number as `first`.
pub fn all_agree(value: &[u8], first: &[u8]) -> bool
    ensures { result ≡ list_all (agrees first.now) (elements value.now) }
{
    Elements::new(value).all(|e| agrees(first, e))
}
