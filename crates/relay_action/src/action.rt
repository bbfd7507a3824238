//! What is done to a document.
ghost use Rattle.std.specs.Prelude.{IsUtf8, ◌≡◌, IfOk, IfErr, OnOk, None, unwrap_or};
ghost use Rattle.std.specs.List.{list_any};
ghost use Rattle.relay_action.specs.Limits.{HasLength, IsOneLine, is_line_end, source_limit};

use crate::fault::ActionFault;
use crate::long::LongText;
use memchr::memchr2;
use std::alloc::{AllocError, Global};

/// The maximum size of a source, in bytes.
pub const SOURCE_LIMIT: usize = 1_048_576;

/// What an index action stores: 1 to 1,048,576 bytes of UTF-8 on one line, so without line feeds
/// and carriage returns. It is not parsed.
#[derive(Debug, Drop)]
pub struct Source {
    text: LongText,
    pub ghost length_ok: { HasLength source_limit text },
    pub ghost line_ok: { IsOneLine text },
    pub ghost utf8: { ∥ IsUtf8 text ∥₁ },
}

impl Source {
    /// The text.
    pub fn text(&self) -> &str
        ensures { result.now ≡ self.now.text }
    {
        self.text.as_str()
    }

    /// A copy of the source. `AllocError`: allocation failed.
    pub fn copy(&self) -> Result<Source, AllocError>
        ensures { IfOk result (λ s. s ≡ self.now) }
    {
        Ok(Source {
            text: self.text.copy()?,
        })
    }
}

// Whether one of the bytes is a line feed or a carriage return.
#[tactic(auto, using(crate::proofs::LineEnds::found_line_end))]
fn holds_line_end(bytes: &[u8]) -> bool
    ensures { result ≡ list_any is_line_end bytes.now }
{
    memchr2(b'\n', b'\r', bytes).is_some()
}

/// The kind of an action, under the name that the bulk API has for it.
#[derive(Clone, Copy, Debug, PartialEq, Eq)]
pub enum ActionKind {
    /// `index`: the source becomes the document.
    Index,
    /// `delete`: the document is removed.
    Delete,
}

impl ActionKind {
    ghost use Rattle.relay_action.specs.Actions.{kind_named};

    /// The kind with this name in the bulk API. `None`: no kind has this name.
    pub fn named(name: &str) -> Option<ActionKind>
        ensures { result ≡ kind_named name.now }
    {
        match name {
            "index" => Some(ActionKind::Index),
            "delete" => Some(ActionKind::Delete),
            _ => None,
        }
    }
}

/// What is done to a document.
#[derive(Debug, Drop)]
pub enum Action {
    /// The source becomes the document.
    Index(Source),
    /// The document is removed.
    Delete,
}

impl Action {
    ghost use Rattle.relay_action.specs.Faults.{source_fault};
    ghost use Rattle.relay_action.specs.Actions.{IsIndexOf, kind_of};

    /// An action that stores a copy of the source. The fault is the first that applies, in the
    /// order of [`ActionFault`] from `SourceEmpty` to `SourceNewline`, and then `Memory`.
    pub fn index(alloc: Global, source: &str) -> Result<Action, ActionFault>
        ensures ok { IfOk result (IsIndexOf source.now) }
        ensures accepted { OnOk result (source_fault source.now ≡ None) }
        ensures refused { IfErr result
            (λ e. e ≡ unwrap_or (source_fault source.now) ActionFault.Memory) }
    {
        if source.is_empty() {
            return Err(ActionFault::SourceEmpty);
        }
        if source.len() > SOURCE_LIMIT {
            return Err(ActionFault::SourceLong);
        }
        if holds_line_end(source.as_bytes()) {
            return Err(ActionFault::SourceNewline);
        }
        Ok(Action::Index(Source {
            text: LongText::new(alloc, source).map_err(|_| ActionFault::Memory)?,
        }))
    }

    /// The action that removes a document.
    pub fn delete() -> Action
        ensures { result ≡ Action.Delete }
    {
        Action::Delete
    }

    /// The kind of the action.
    pub fn kind(&self) -> ActionKind
        ensures { result ≡ kind_of self.now }
    {
        match self {
            Action::Index(_) => ActionKind::Index,
            Action::Delete => ActionKind::Delete,
        }
    }

    /// A copy of the action. `AllocError`: allocation failed.
    pub fn copy(&self) -> Result<Action, AllocError>
        ensures { IfOk result (λ a. a ≡ self.now) }
    {
        match self {
            Action::Index(source) => Ok(Action::Index(source.copy()?)),
            Action::Delete => Ok(Action::Delete),
        }
    }
}
