//! The names of the operations whose writes were applied, by document.
ghost use Rattle.std.specs.Prelude.{◌≡◌, [], ◌∷◌, ◌++◌, ◌&&◌, OnOk, OnErr, IfOk, length};
ghost use Rattle.std.specs.Prelude.{if◌then◌else◌};
ghost use Rattle.relay_results.specs.Documents.{Document, document_of, same_document};
ghost use Rattle.relay_index.specs.Choices.{MayChoose};
ghost use Rattle.relay_index.specs.States.{applied_writes};
ghost use Rattle.relay_index.specs.Runs.{is_run, done_of, outcome_of_run, Effect};
ghost use Rattle.relay_world.specs.State.{kept_among, names_of, before_of};
ghost use Rattle.relay_world.specs.Changes.{with_outcome};

use crate::request::SentItem;
use indexmap::IndexMap;
use relay_action::{DocKey, OpName, Write};
use relay_index::{Choice, Index};
use std::alloc::{AllocError, Global};
use std::marker::Model;

// What is kept of a document: how many writes the index had of it at the start, and the names of
// the operations whose writes were applied since.
#[derive(Drop)]
pub(crate) struct Named {
    before: usize,
    names: Vec<OpName>,
}

impl Model for Named {
    ghost use Rattle.relay_world.specs.State.{Named};

    ghost Value = { Named };

    ghost view = { λ n. record { before = n.before; names = n.names.items } };
}

impl Named {
    fn new(alloc: Global, before: usize) -> Named
        ensures { result ≡ record { before = before; names = [] } }
    {
        Named {
            before,
            names: Vec::new(alloc),
        }
    }

    fn before(&self) -> usize
        ensures { result ≡ self.now.before }
    {
        self.before
    }

    fn as_slice(&self) -> &[OpName]
        ensures { result.now ≡ self.now.names }
    {
        self.names.as_slice()
    }

    // Runs the write of an item on the index, and records the name if it was applied. `AllocError`:
    // allocation failed; nothing changed.
    fn run(
        &mut self,
        index: &mut Index,
        item: &mut SentItem,
        name: OpName,
        write: &Write,
        choice: Choice,
    ) -> Result<u16, AllocError>
        requires { MayChoose choice }
        ensures status { IfOk result (λ s. s ≡ (done_of index.old write.now choice).status) }
        ensures item { OnOk result
            (item.new ≡ with_outcome (outcome_of_run (done_of index.old write.now choice))
            item.old) }
        ensures effect { OnOk result (Effect index.old write.now choice index.new) }
        ensures names { OnOk result (self.new ≡ record self.old {
          names = self.old.names
              ++ (if is_run index.old write.now choice then name ∷ [] else []);
        }) }
        ensures same_item { OnErr result (item.new ≡ item.old) }
        ensures same_index { OnErr result (index.new ≡ index.old) }
        ensures same_names { OnErr result (self.new ≡ self.old) }
    {
        item.run(index, &mut self.names, name, write, choice)
    }
}

// What is kept of the documents for which something was run. Contracts see it as the entries.
#[derive(Drop)]
pub(crate) struct Names {
    documents: IndexMap<DocKey, Named>,
}

impl Model for Names {
    ghost use Rattle.std.specs.Prelude.{List};
    ghost use Rattle.relay_action.specs.declared.key.DocKey.{DocKey};
    ghost use Rattle.relay_world.specs.State.{Named};

    ghost Value = { List (DocKey × Named) };

    ghost view = { λ n. n.documents.entries };
}

impl Names {
    pub(crate) fn new(alloc: Global) -> Names
        ensures { result ≡ [] }
    {
        Names {
            documents: IndexMap::new(alloc),
        }
    }

    pub(crate) fn names(&self, key: &DocKey) -> &[OpName]
        ensures { result.now ≡ names_of (kept_among self.now (document_of key.now)) }
    {
        match self.documents.get(key) {
            Some(named) => named.as_slice(),
            None => &[],
        }
    }

    // How many writes a document had at the start, given how many it has now.
    pub(crate) fn before(&self, key: &DocKey, now: usize) -> usize
        ensures { result ≡ before_of now (kept_among self.now (document_of key.now)) }
    {
        match self.documents.get(key) {
            Some(named) => named.before(),
            None => now,
        }
    }

    // Runs the write of an item on the index, and records the name if it was applied. `AllocError`:
    // allocation failed; nothing changed.
    pub(crate) fn run(
        &mut self,
        index: &mut Index,
        item: &mut SentItem,
        name: OpName,
        write: &Write,
        choice: Choice,
    ) -> Result<u16, AllocError>
        requires { MayChoose choice }
        ensures status { IfOk result (λ s. s ≡ (done_of index.old write.now choice).status) }
        ensures item { OnOk result
            (item.new ≡ with_outcome (outcome_of_run (done_of index.old write.now choice))
            item.old) }
        ensures effect { OnOk result (Effect index.old write.now choice index.new) }
        ensures names { OnOk result ((k : Document) → names_of (kept_among self.new k)
            ≡ names_of (kept_among self.old k) ++ (if is_run index.old write.now choice
            && same_document k (document_of write.now.key) then name ∷ [] else [])) }
        ensures before { OnOk result ((k : Document) →
            before_of (length (applied_writes index.new k)) (kept_among self.new k)
            ≡ before_of (length (applied_writes index.old k)) (kept_among self.old k)) }
        ensures same_item { OnErr result (item.new ≡ item.old) }
        ensures same_index { OnErr result (index.new ≡ index.old) }
        ensures same_names { OnErr result (self.new ≡ self.old) }
    {
        if let Some(named) = self.documents.get_mut(&write.key) {
            return named.run(index, item, name, write, choice);
        }
        let key = write.key.copy()?;
        self.documents.reserve(1)?;
        let before = index.applied(&write.key).len();
        let mut named = Named::new(*self.documents.allocator(), before);
        let status = named.run(index, item, name, write, choice)?;
        let _ = self.documents.insert(key, named);
        Ok(status)
    }
}
