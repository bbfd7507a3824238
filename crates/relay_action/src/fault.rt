//! Why a document or an action is refused.
ghost use Rattle.std.specs.Prelude.{◌≡◌};

use std::fmt;

/// Why a document or an action is refused, in the order in which the causes are checked. A fault is
/// printed as the name of its variant.
#[derive(Clone, Copy, Debug, PartialEq, Eq)]
pub enum ActionFault {
    /// The index name is empty.
    IndexEmpty,
    /// The index name has more than 255 bytes.
    IndexLong,
    /// The id is empty.
    IdEmpty,
    /// The id has more than 512 bytes.
    IdLong,
    /// The source is empty.
    SourceEmpty,
    /// The source has more than 1,048,576 bytes.
    SourceLong,
    /// The source contains a line feed or a carriage return.
    SourceNewline,
    /// An allocation for the copy failed.
    Memory,
}

impl ActionFault {
    ghost use Rattle.relay_action.specs.Faults.{fault_name};

    /// The name of the variant, as the programs print it.
    pub fn name(self) -> &'static str
        ensures { result.now ≡ fault_name self }
    {
        match self {
            ActionFault::IndexEmpty => "IndexEmpty",
            ActionFault::IndexLong => "IndexLong",
            ActionFault::IdEmpty => "IdEmpty",
            ActionFault::IdLong => "IdLong",
            ActionFault::SourceEmpty => "SourceEmpty",
            ActionFault::SourceLong => "SourceLong",
            ActionFault::SourceNewline => "SourceNewline",
            ActionFault::Memory => "Memory",
        }
    }
}

impl fmt::Display for ActionFault {
    fn fmt<W: fmt::Write>(&self, f: &mut fmt::Formatter<W>) -> fmt::Result {
        f.write_str(self.name())
    }
}

impl std::error::Error for ActionFault {}
