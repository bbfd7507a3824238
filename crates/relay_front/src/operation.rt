//! The operations of a request.
ghost use Rattle.std.specs.Prelude.{◌≡◌};
ghost use Rattle.relay_front.specs.Kinds.{kind_named, name_of, has_source};

use relay_action::{Action, ActionFault, DocKey, Text};

/// The action that a client asks for, under the name that the bulk API has for it.
#[derive(Clone, Copy, Debug, PartialEq, Eq)]
pub enum AskedKind {
    /// `index`: the source becomes the document.
    Index,
    /// `create`: the source becomes a document that does not exist. The relay does it only if it
    /// makes the id itself, since such a document cannot exist.
    Create,
    /// `update`, which the relay does not do.
    Update,
    /// `delete`: the document is removed.
    Delete,
}

impl AskedKind {
    /// The kind with this name in the bulk API. `None`: no kind has it.
    pub fn named(name: &str) -> Option<AskedKind>
        ensures { result ≡ kind_named name.now }
    {
        match name {
            "index" => Some(AskedKind::Index),
            "create" => Some(AskedKind::Create),
            "update" => Some(AskedKind::Update),
            "delete" => Some(AskedKind::Delete),
            _ => None,
        }
    }

    /// The name of the kind in the bulk API.
    pub fn name(self) -> &'static str
        ensures { result.now ≡ name_of self }
    {
        match self {
            AskedKind::Index => "index",
            AskedKind::Create => "create",
            AskedKind::Update => "update",
            AskedKind::Delete => "delete",
        }
    }

    /// Whether a line with a source follows the action line.
    pub fn has_source(self) -> bool
        ensures { result ≡ has_source self }
    {
        !matches!(self, AskedKind::Delete)
    }
}

/// Why an operation of a request is refused, before anything is put.
#[derive(Debug, Drop)]
pub enum ItemFault {
    /// An update.
    Update,
    /// A `create` with an id.
    CreateWithId,
    /// A member of the action line that the relay does not support: its name, or the front of it.
    Member(Text),
    /// `_index` is neither given nor in the path.
    NoIndex,
    /// `_index` is not a string.
    IndexForm,
    /// A delete without `_id`.
    NoId,
    /// `_id` is neither a string nor a 64-bit integer.
    IdForm,
    /// The source is not UTF-8.
    SourceForm,
    /// The document or the source is not within its limits.
    Action(ActionFault),
}

/// An operation of a request, as its item in the answer names it.
#[derive(Debug, Drop)]
pub enum Item {
    /// It is put as a write.
    Asked {
        /// What the client asked for.
        kind: AskedKind,
        /// The document.
        key: DocKey,
        /// Whether the relay made its id.
        made: bool,
    },
    /// It is refused.
    Refused {
        /// What the client asked for.
        kind: AskedKind,
        /// The index name, if one was given.
        index: Option<Text>,
        /// The id, if one was given as a string.
        id: Option<Text>,
        /// Why.
        fault: ItemFault,
    },
}

/// The operations of a request: an item for each, in order, and the writes of those that are not
/// refused, in the same order.
#[derive(Drop)]
pub struct Operations {
    /// The items.
    pub items: Vec<Item>,
    /// The writes, as they are put.
    pub writes: Vec<(DocKey, Action)>,
}
