//! The index.
ghost use Rattle.std.specs.Prelude.{◌≡◌, [], Some, true, IsTrue, option_map, unwrap_or, max, IfOk};
ghost use Rattle.std.specs.Prelude.{OnOk, OnErr};
ghost use Rattle.std.specs.List.{IsDistinct};
ghost use Rattle.relay_results.specs.Documents.{document_of};
ghost use Rattle.relay_results.specs.Outside.{Outside, Ran, IsOutcomeOf, ran_of};
ghost use Rattle.relay_index.specs.States.{fresh, applied_writes, stored_version, live};
ghost use Rattle.relay_index.specs.States.{IsHighest};
ghost use Rattle.relay_index.specs.States.{IsIndex};
ghost use Rattle.relay_index.specs.Choices.{MayChoose};
ghost use Rattle.relay_index.specs.Keys.{document_order, same_key, AreKeys};
ghost use Rattle.indexmap.specs.IndexMap.{keys as keys_of};
ghost use Rattle.relay_index.specs.Lists.{with_write, index_after, after_run};
ghost use Rattle.relay_index.specs.Runs.{is_newer, stated, conflict_by, status_by, result_of};
ghost use Rattle.relay_index.specs.Runs.{applied_result};
ghost use Rattle.relay_results.specs.Done.{IsStatable};
ghost use Rattle.relay_index.specs.Runs.{status_of, done_of, outcome_of_run, Effect, Shows};

use crate::choice::Choice;
use crate::history::History;
use indexmap::IndexMap;
use relay_action::{Action, ActionKind, DocKey, Write};
use relay_results::{DoneResult, ItemDone, VersionConflict};
use std::alloc::{AllocError, Global};
use std::cmp::Ordering;
use std::marker::Model;

/// An index in memory. Contracts see it as the writes that it applied to each document, in order,
/// and their number.
#[derive(Drop)]
pub struct Index {
    documents: IndexMap<DocKey, History>,
    count: u64,
    highest: Option<u64>,
    states: bool,
}

impl Model for Index {
    ghost use Rattle.relay_index.specs.States.{State, IsIndex, IsHighest};

    ghost Value = { State };

    ghost view = { λ i. record { documents = i.documents.entries; count = i.count; states = i.states } };

    ghost invariant = { λ i. record {
      index : IsIndex (record { documents = i.documents.entries; count = i.count; states = i.states });
      highest : IsHighest (record { documents = i.documents.entries; count = i.count; states = i.states }) i.highest;
    } };
}

// Adds a copy of a write at the end of its document's list. `AllocError`: allocation failed, and
// the lists are unchanged.
fn append(documents: &mut IndexMap<DocKey, History>, write: &Write) -> Result<(), AllocError>
    ensures ok { OnOk result (documents.new.entries ≡ with_write documents.old.entries write.now) }
    ensures err { OnErr result (documents.new.entries ≡ documents.old.entries) }
{
    let copy = write.copy()?;
    if let Some(history) = documents.get_mut(&write.key) {
        history.push(copy)?;
        return Ok(());
    }
    let mut history = History::new(*documents.allocator());
    history.push(copy)?;
    documents.insert(write.key.copy()?, history)?;
    Ok(())
}

// The result and the status of an applied write.
fn applied_answer(kind: ActionKind, live: bool) -> (u16, DoneResult)
    ensures { result ≡ (status_of (applied_result kind live), applied_result kind live) }
{
    match (kind, live) {
        (ActionKind::Index, false) => (201, DoneResult::Created),
        (ActionKind::Index, true) => (200, DoneResult::Updated),
        (ActionKind::Delete, true) => (200, DoneResult::Deleted),
        (ActionKind::Delete, false) => (404, DoneResult::NotFound),
    }
}

// The conflict of a write with the stored version.
fn conflict_of(stored: u64, provided: u64) -> VersionConflict
    ensures value { result ≡ record { stored = stored; provided = provided } }
    ensures statable { IsStatable (Some result) }
{
    VersionConflict { stored, provided }
}

// Copies of the keys of the map, in its order. `AllocError`: allocation failed.
fn copied_keys(
    alloc: Global,
    documents: &IndexMap<DocKey, History>,
) -> Result<Vec<DocKey>, AllocError>
    ensures copied { IfOk result (λ keys. keys.items ≡ keys_of documents.now) }
    ensures distinct { IsDistinct same_key (keys_of documents.now) }
{
    let mut keys = Vec::new(alloc);
    for place in 0..documents.len() {
        let (key, _) = documents.get_index(place).unwrap();
        keys.push(key.copy()?)?;
    }
    Ok(keys)
}

// The order of documents.
fn compare(a: &DocKey, b: &DocKey) -> Ordering
    ensures { result ≡ document_order (document_of a.now) (document_of b.now) }
{
    a.index().cmp(&b.index()).then_with(|| a.id().cmp(&b.id()))
}

impl Index {
    /// An empty index. It does not allocate.
    pub fn new(alloc: Global) -> Index
        ensures { result ≡ fresh }
    {
        Index {
            documents: IndexMap::new(alloc),
            count: 0,
            highest: None,
            states: false,
        }
    }

    /// From now on each version conflict states the stored version and that of the write, in the
    /// reason of its error.
    pub fn state_versions(&mut self)
        ensures { self.new ≡ record self.old { states = true } }
    {
        self.states = true;
    }

    /// The stored version of a document, even if it was deleted, or `None` if no write was applied
    /// to it.
    pub fn version(&self, key: &DocKey) -> Option<u64>
        ensures { result ≡ stored_version self.now (document_of key.now) }
    {
        Some(self.applied(key).last()?.version)
    }

    /// The source of a document, or `None` if it does not exist: it was deleted, or no write was
    /// applied to it.
    pub fn source(&self, key: &DocKey) -> Option<&str>
        ensures { option_map (λ t. t.now) result ≡ live self.now (document_of key.now) }
    {
        match &self.applied(key).last()?.action {
            Action::Index(source) => Some(source.text()),
            Action::Delete => None,
        }
    }

    /// The writes that were applied to a document, in order.
    pub fn applied(&self, key: &DocKey) -> &[Write]
        ensures applied { result.now ≡ applied_writes self.now (document_of key.now) }
        ensures kept { IsIndex self.now }
    {
        match self.documents.get(key) {
            Some(history) => history.as_slice(),
            None => &[],
        }
    }

    /// The highest stored version, or `None` if no write was applied.
    pub fn highest(&self) -> Option<u64>
        ensures { IsHighest self.now result }
    {
        self.highest
    }

    /// The documents to which a write was applied, including deleted ones, in byte order of their
    /// index names and then of their ids. `AllocError`: allocation failed.
    pub fn keys(&self, alloc: Global) -> Result<Vec<DocKey>, AllocError>
        ensures { IfOk result (λ keys. AreKeys self.now keys.items) }
    {
        let mut keys = copied_keys(alloc, &self.documents)?;
        keys.sort_by(compare)?;
        Ok(keys)
    }

    // Whether no version of the write's document is stored, or a lower one.
    fn is_newer(&self, write: &Write) -> bool
        ensures { result ≡ is_newer self.now write.now }
    {
        self.version(&write.key)
            .is_none_or(|stored| stored < write.version)
    }

    // The status and the result of a write.
    fn answer(&self, write: &Write, choice: Choice) -> (u16, DoneResult)
        ensures { result
            ≡ (status_by self.now write.now choice, result_of self.now write.now choice) }
    {
        match choice {
            Choice::Refuse(status) => (status, DoneResult::Refused),
            Choice::Run if self.is_newer(write) => {
                applied_answer(write.action.kind(), self.source(&write.key).is_some())
            }
            Choice::Run => (409, DoneResult::Conflict),
        }
    }

    // The versions of a conflict.
    fn stated(&self, write: &Write) -> Option<VersionConflict>
        ensures value { result ≡ stated self.now write.now }
        ensures statable { IsStatable result }
    {
        if !self.states {
            return None;
        }
        let stored = self.version(&write.key)?;
        Some(conflict_of(stored, write.version))
    }

    // The versions of a conflict, if the write meets one, and if they are to be stated.
    fn conflict(&self, write: &Write, choice: Choice) -> Option<VersionConflict>
        ensures value { result ≡ conflict_by self.now write.now choice }
        ensures statable { IsStatable result }
    {
        match choice {
            Choice::Run if !self.is_newer(write) => self.stated(write),
            _ => None,
        }
    }

    // Applies a write whose version is new. `AllocError`: allocation failed, and the index is
    // unchanged.
    fn apply(&mut self, write: &Write) -> Result<(), AllocError>
        requires { IsTrue (is_newer self.old write.now) }
        ensures ok { OnOk result (self.new ≡ index_after self.old write.now) }
        ensures err { OnErr result (self.new ≡ self.old) }
    {
        append(&mut self.documents, write)?;
        self.count = self.count.saturating_add(1);
        self.highest = Some(self.highest.unwrap_or(0).max(write.version));
        Ok(())
    }

    /// What [`Index::run`] would return for a write now. `AllocError`: allocation failed.
    pub fn preview(&self, write: &Write, choice: Choice) -> Result<ItemDone, AllocError>
        ensures item { IfOk result (λ done. done ≡ done_of self.now write.now choice) }
        ensures statable { IfOk result (λ done. IsStatable done.conflict) }
    {
        let (status, outcome) = self.answer(write, choice);
        let mut done = ItemDone {
            key: write.key.copy()?,
            kind: write.action.kind(),
            status,
            result: outcome,
            version: 0,
            seq: 0,
            conflict: self.conflict(write, choice),
        };
        if choice == Choice::Run && self.is_newer(write) {
            done.version = write.version;
            done.seq = self.count;
        }
        Ok(done)
    }

    // Runs or refuses a write, as `run` does.
    fn carry_out(&mut self, write: &Write, choice: Choice) -> Result<ItemDone, AllocError>
        ensures item { IfOk result (λ done. done ≡ done_of self.old write.now choice) }
        ensures statable { IfOk result (λ done. IsStatable done.conflict) }
        ensures after { OnOk result (self.new ≡ after_run self.old write.now choice) }
        ensures err { OnErr result (self.new ≡ self.old) }
    {
        let done = self.preview(write, choice)?;
        if choice == Choice::Run && self.is_newer(write) {
            self.apply(write)?;
        }
        Ok(done)
    }

    /// Runs or refuses a write, and returns its result.
    ///
    /// `Refuse` returns its status and changes nothing; the status must be one that [`may_refuse`]
    /// accepts. `Run` returns 409 and `Conflict`, and changes nothing, if the version is not above
    /// the stored one of the document. Otherwise the write is applied and its version stored
    /// (OpenSearch, index document API, `version_type` `external`): an index action returns 201 and
    /// `Created` if there was no such document, otherwise 200 and `Updated`; a delete returns 200
    /// and `Deleted` if there was one, otherwise 404 and `NotFound`. The sequence number of an
    /// applied write is the number of writes applied before it, over all documents; it saturates at
    /// 2^64 - 1.
    ///
    /// [`may_refuse`]: crate::may_refuse
    ///
    /// `AllocError`: allocation failed, and the index is unchanged.
    pub fn run(&mut self, write: &Write, choice: Choice) -> Result<ItemDone, AllocError>
        requires { MayChoose choice }
        ensures item { IfOk result (λ done. done ≡ done_of self.old write.now choice) }
        ensures statable { IfOk result (λ done. IsStatable done.conflict) }
        ensures effect { OnOk result (Effect self.old write.now choice self.new) }
        ensures err { OnErr result (self.new ≡ self.old) }
        ensures versioned { IfOk result (λ done.
            IsOutcomeOf (stored_version self.old (document_of write.now.key)) write.now
            (outcome_of_run done)) }
        ensures outside { IfOk result (λ done. (o : Outside) (r : Ran) → Shows o self.old
            → r.outcome ≡ outcome_of_run done → Shows (ran_of o r (Some write.now)) self.new) }
        ensures kept { OnOk result (IsIndex self.new) }
    {
        let done = self.carry_out(write, choice)?;
        // Reading a field makes the index's invariant available to the contract.
        let _ = &self.documents;
        Ok(done)
    }
}
