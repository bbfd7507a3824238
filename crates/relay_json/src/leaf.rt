//! The top level of a value.
ghost use Rattle.std.specs.Prelude.{◌≡◌, option_map, option_and_then, is_some};
ghost use Rattle.serde_json.specs.Data.{Data};
ghost use Rattle.serde_json.specs.Find.{as_null, as_number, as_str, as_i64, as_u64};
ghost use Rattle.relay_json.specs.Leaves.{shows_null, text_shown, number_shown};
ghost use Rattle.relay_json.specs.Walks.{IsLeaf};

use crate::number::{to_i64, to_u64};

/// The top level of a value: nothing is kept of what is inside an array or an object.
#[derive(Clone, Copy, Debug, PartialEq, Eq)]
pub enum Leaf<'t> {
    Null,
    Bool(bool),
    /// A number, as it is written in the text.
    Number(&'t str),
    /// A string, unescaped.
    String(&'t str),
    Array,
    Object,
}

impl<'t> Leaf<'t> {
    /// Whether it is null.
    #[inline(always)]
    pub fn is_null(self) -> bool
        ensures value { (d : Data) → IsLeaf self.entry d → result ≡ is_some (as_null d) }
        ensures variant { result ≡ shows_null self.entry }
    {
        matches!(self, Leaf::Null)
    }

    /// The string, if it is one.
    #[inline(always)]
    pub fn as_str(self) -> Option<&'t str>
        ensures value { (d : Data) → IsLeaf self.entry d
            → option_map (λ s. s.now) result ≡ as_str d }
        ensures variant { option_map (λ s. s.now) result ≡ text_shown self.entry }
    {
        match self {
            Leaf::String(text) => Some(text),
            _ => None,
        }
    }

    /// The integer, if it is from 0 to 2^64 - 1 and written without a point and an exponent.
    pub fn as_u64(self) -> Option<u64>
        ensures value { (d : Data) → IsLeaf self.entry d
            → result ≡ option_and_then as_u64 (as_number d) }
        ensures variant { result ≡ option_and_then as_u64 (number_shown self.entry) }
    {
        match self {
            Leaf::Number(text) => to_u64(text),
            _ => None,
        }
    }

    /// The integer, if it is from -2^63 to 2^63 - 1 and written without a point and an exponent.
    /// `-0` is not an integer.
    pub fn as_i64(self) -> Option<i64>
        ensures value { (d : Data) → IsLeaf self.entry d
            → result ≡ option_and_then as_i64 (as_number d) }
        ensures variant { result ≡ option_and_then as_i64 (number_shown self.entry) }
    {
        match self {
            Leaf::Number(text) => to_i64(text),
            _ => None,
        }
    }
}
