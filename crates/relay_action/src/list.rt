//! A list that contracts see as the list of its items.
ghost use Rattle.std.specs.Prelude.{◌≡◌};

use std::marker::Model;

/// An owned list, in the order of its vector.
#[derive(Debug, Drop)]
pub struct List<T> {
    held: Vec<T>,
}

impl<T> Model for List<T> {
    ghost use Rattle.std.specs.Prelude.{List as Items};

    ghost Value = { Items T };

    ghost view = { λ l. l.held.items };
}

impl<T> List<T> {
    /// A list of the vector's items. It does not allocate.
    pub fn of(items: Vec<T>) -> List<T>
        ensures { result ≡ items.items }
    {
        List { held: items }
    }

    /// The items.
    pub fn as_slice(&self) -> &[T]
        ensures { result.now ≡ self.now }
    {
        self.held.as_slice()
    }

    /// The items as a vector. It does not allocate.
    pub fn into_vec(self) -> Vec<T>
        ensures { result.items ≡ self }
    {
        let List { held } = self;
        held
    }
}
