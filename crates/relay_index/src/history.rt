//! The writes that were applied to one document.
ghost use Rattle.std.specs.Prelude.{◌≡◌, [], ◌∷◌, ◌++◌, OnOk, OnErr};

use relay_action::Write;
use std::alloc::{AllocError, Global};
use std::marker::Model;

// The writes that were applied to a document, in order. Contracts see it as their list.
#[derive(Drop)]
pub(crate) struct History {
    writes: Vec<Write>,
}

impl Model for History {
    ghost use Rattle.std.specs.Prelude.{List};
    ghost use Rattle.relay_action.specs.declared.write.Write.{Write};

    ghost Value = { List Write };

    ghost view = { λ h. h.writes.items };
}

impl History {
    pub(crate) fn new(alloc: Global) -> History
        ensures { result ≡ [] }
    {
        History {
            writes: Vec::new(alloc),
        }
    }

    pub(crate) fn as_slice(&self) -> &[Write]
        ensures { result.now ≡ self.now }
    {
        self.writes.as_slice()
    }

    // Adds a write. `AllocError`: allocation failed, and the history is unchanged.
    pub(crate) fn push(&mut self, write: Write) -> Result<(), AllocError>
        ensures ok { OnOk result (self.new ≡ self.old ++ write ∷ []) }
        ensures err { OnErr result (self.new ≡ self.old) }
    {
        self.writes.push(write)?;
        Ok(())
    }
}
