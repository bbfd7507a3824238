//! Objects with a single member.
ghost use Rattle.std.specs.Prelude.{◌≡◌};
ghost use Rattle.serde_json.specs.Data.{no_members};
ghost use Rattle.relay_json.specs.Sole.{and_member, found_object};

use crate::walk::Gather;

/// The members to look for.
pub trait Fields<'t>: Gather<'t> {
    /// Before any member.
    fn none() -> Self
        ensures { Self.Holds result no_members };
}

// What was found in an object so far.
#[derive(Drop)]
pub(crate) enum Found<'t, F> {
    Nothing,
    // One member, and what was gathered from its value if that is an object.
    One(&'t str, Option<F>),
    Several,
}

impl<'t, F: Drop> Found<'t, F> {
    // After one more member.
    pub(crate) fn and_member(self, name: &'t str, value: Option<F>) -> Found<'t, F>
        ensures { result ≡ and_member self.entry name.entry value }
    {
        match self {
            Found::Nothing => Found::One(name, value),
            Found::One(first, _) if first == name => Found::One(name, value),
            _ => Found::Several,
        }
    }

    // The name of the only member, and what was gathered from its value, if that is an object.
    pub(crate) fn object(self) -> Option<(&'t str, F)>
        ensures { result ≡ found_object self.entry }
    {
        match self {
            Found::One(name, Some(fields)) => Some((name, fields)),
            _ => None,
        }
    }
}
