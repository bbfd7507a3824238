//! Faults of lines.
ghost use Rattle.std.specs.Prelude.{◌≡◌};
ghost use Rattle.relay_ndjson.specs.Kinds.{kind_of, name_of};

use relay_action::ActionFault;
use std::fmt;
use thiserror::Error;

/// What is wrong with a line. A kind is printed as its name.
#[derive(Clone, Copy, Debug, PartialEq, Eq)]
pub enum LineKind {
    /// The line is not UTF-8, or an action line is not JSON or is nested more than 127 deep.
    NotJson,
    /// The action line is not an object with one member whose value is an object.
    NotOneAction,
    /// The member is named neither `index` nor `delete`.
    UnsupportedAction,
    /// The metadata has a member other than `_index`, `_id`, `version` and `version_type`.
    UnsupportedField,
    /// `_index` is absent and there is no default, or it is not a string.
    MissingIndex,
    /// `_id` is absent, or neither a string nor a 64-bit integer.
    MissingId,
    /// A producer's line has `version` or `version_type`, which the relay assigns.
    VersionGiven,
    /// On the index side, `version` or `version_type` is absent or invalid.
    VersionMissing,
    /// The input ended after an index action, before its source.
    SourceMissing,
    /// The document or the source is refused.
    Action(ActionFault),
    /// On the index side, the last line has no line end.
    NoFinalNewline,
    /// The line has more than 1,114,112 bytes without its end, or is the blank line after 65,536
    /// consecutive ones.
    LineLong,
    /// A read failed. It is not retried.
    Read,
    /// An allocation for the line or for its contents failed.
    Memory,
    /// An earlier call returned a fault, on the line that is named.
    Failed,
}

impl LineKind {
    /// The name, as the programs print it: that of the variant, or for `Action` that of the fault
    /// inside.
    pub fn name(self) -> &'static str
        ensures { result.now ≡ name_of self }
    {
        match self {
            LineKind::NotJson => "NotJson",
            LineKind::NotOneAction => "NotOneAction",
            LineKind::UnsupportedAction => "UnsupportedAction",
            LineKind::UnsupportedField => "UnsupportedField",
            LineKind::MissingIndex => "MissingIndex",
            LineKind::MissingId => "MissingId",
            LineKind::VersionGiven => "VersionGiven",
            LineKind::VersionMissing => "VersionMissing",
            LineKind::SourceMissing => "SourceMissing",
            LineKind::Action(fault) => fault.name(),
            LineKind::NoFinalNewline => "NoFinalNewline",
            LineKind::LineLong => "LineLong",
            LineKind::Read => "Read",
            LineKind::Memory => "Memory",
            LineKind::Failed => "Failed",
        }
    }
}

impl fmt::Display for LineKind {
    fn fmt<W: fmt::Write>(&self, f: &mut fmt::Formatter<W>) -> fmt::Result {
        f.write_str(self.name())
    }
}

impl std::error::Error for LineKind {}

/// The fault of an input: its line, and what is wrong with it.
#[derive(Clone, Copy, Debug, PartialEq, Eq, Error)]
#[error("line {line}: {kind}")]
pub struct InputFault {
    /// The line, from 1, including blank lines; it saturates at 2^64 - 1.
    pub line: u64,
    /// What is wrong with it.
    pub kind: LineKind,
}

/// The fault of a body: its line, and what is wrong with it.
#[derive(Clone, Copy, Debug, PartialEq, Eq, Error)]
#[error("line {line}: {kind}")]
pub struct BulkFault {
    /// The line, from 1.
    pub line: u64,
    /// What is wrong with it. A body never has `Read`, `Failed` or `VersionGiven`.
    pub kind: LineKind,
}

/// The kind for a fault of a document or a source. A failed allocation has its own kind.
pub fn kind_of(fault: ActionFault) -> LineKind
    ensures { result ≡ kind_of fault }
{
    match fault {
        ActionFault::Memory => LineKind::Memory,
        fault => LineKind::Action(fault),
    }
}
