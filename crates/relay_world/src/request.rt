//! Sent requests.
ghost use Rattle.std.specs.Prelude.{◌≡◌, ◌-◌, ◌<◌, [], ◌∷◌, ◌++◌, ◌&&◌, option_map, OnOk, OnErr};
ghost use Rattle.std.specs.Prelude.{IfOk, length, if◌then◌else◌};
ghost use Rattle.relay_results.specs.Documents.{Document, document_of, same_document};
ghost use Rattle.relay_results.specs.Outside.{Unanswered};
ghost use Rattle.relay_index.specs.Choices.{MayChoose};
ghost use Rattle.relay_index.specs.States.{applied_writes};
ghost use Rattle.relay_index.specs.Runs.{is_run, done_of, outcome_of_run, Effect};
ghost use Rattle.relay_world.specs.State.{kept_among, names_of, before_of};
ghost use Rattle.relay_world.specs.Refusals.{run_by};
ghost use Rattle.relay_world.specs.Changes.{with_outcome, ran_item, with_answer as sent_answer};
ghost use Rattle.relay_world.specs.Memory.{run_outcome, answer_of};

use crate::names::Names;
use relay_action::{OpName, Write};
use relay_index::{Choice, Index};
use relay_results::{ItemError, Outcome};
use std::alloc::{AllocError, Global};
use std::marker::Model;

/// The result of running an item.
#[derive(Debug, Drop)]
pub struct RunDone {
    /// The status of the item.
    pub status: u16,
    /// The error of the item, if it has one.
    pub error: Option<ItemError>,
}

/// The answer to a request.
#[derive(Drop)]
pub enum Given {
    /// None yet.
    Nothing,
    /// The entries of a reply.
    Entries(Vec<Outcome>),
    /// A status for the request as a whole.
    Status(u16),
    /// The reply was lost.
    Loss,
}

// Whether the index applies a write.
fn applies(index: &Index, write: &Write, choice: Choice) -> bool
    ensures { result ≡ is_run index.now write.now choice }
{
    match choice {
        Choice::Refuse(_) => false,
        Choice::Run => index
            .version(&write.key)
            .is_none_or(|stored| stored < write.version),
    }
}

// The result of running a write on the index as it is.
fn run_done(
    alloc: Global,
    index: &Index,
    write: &Write,
    choice: Choice,
) -> Result<RunDone, AllocError>
    ensures outcome { IfOk result
        (λ r. run_outcome r ≡ outcome_of_run (done_of index.now write.now choice)) }
    ensures status { IfOk result (λ r. r.status ≡ (done_of index.now write.now choice).status) }
{
    let outcome = index.preview(write, choice)?.outcome(alloc)?;
    Ok(RunDone {
        status: outcome.status,
        error: outcome.error,
    })
}

// An item of a sent request. Contracts see it as the version of its operation and the outcomes of
// its runs.
#[derive(Drop)]
pub(crate) struct SentItem {
    version: u64,
    runs: Vec<RunDone>,
}

impl Model for SentItem {
    ghost use Rattle.std.specs.Prelude.{map};
    ghost use Rattle.relay_world.specs.State.{Item};
    ghost use Rattle.relay_world.specs.Memory.{run_outcome};

    ghost Value = { Item };

    ghost view = { λ i. record { version = i.version; runs = map run_outcome i.runs.items } };
}

impl SentItem {
    pub(crate) fn new(alloc: Global, version: u64) -> SentItem
        ensures { result ≡ record { version = version; runs = [] } }
    {
        SentItem {
            version,
            runs: Vec::new(alloc),
        }
    }

    pub(crate) fn version(&self) -> u64
        ensures { result ≡ self.now.version }
    {
        self.version
    }

    // Its last run, or the one with this number, from 1.
    pub(crate) fn run_by(&self, pick: Option<u64>) -> Option<&RunDone>
        ensures { option_map (λ r. run_outcome r.now) result ≡ run_by self.now.runs pick }
    {
        match pick {
            None => self.runs.last(),
            Some(0) => None,
            Some(number) => self.runs.get((number - 1) as usize),
        }
    }

    // Runs the write of this item on the index, and records its name if it was applied.
    // `AllocError`: allocation failed; nothing changed.
    pub(crate) fn run(
        &mut self,
        index: &mut Index,
        names: &mut Vec<OpName>,
        name: OpName,
        write: &Write,
        choice: Choice,
    ) -> Result<u16, AllocError>
        requires { MayChoose choice }
        ensures status { IfOk result (λ s. s ≡ (done_of index.old write.now choice).status) }
        ensures item { OnOk result
            (self.new ≡ with_outcome (outcome_of_run (done_of index.old write.now choice))
            self.old) }
        ensures effect { OnOk result (Effect index.old write.now choice index.new) }
        ensures names { OnOk result
            (names.new.items
            ≡ names.old.items ++ (if is_run index.old write.now choice then name ∷ [] else [])) }
        ensures same_item { OnErr result (self.new ≡ self.old) }
        ensures same_index { OnErr result (index.new ≡ index.old) }
        ensures same_names { OnErr result (names.new.items ≡ names.old.items) }
    {
        self.runs.reserve(1)?;
        names.reserve(1)?;
        let applied = applies(index, write, choice);
        let run = run_done(*self.runs.allocator(), index, write, choice)?;
        let status = run.status;
        let _ = index.run(write, choice)?;
        self.runs.push_reserved(run);
        if applied {
            names.push_reserved(name);
        }
        Ok(status)
    }
}

// A sent request. Contracts see it as its epoch, its lane, its number there, its items and its
// answer.
#[derive(Drop)]
pub(crate) struct SentRequest {
    epoch: u32,
    lane: u32,
    number: u64,
    items: Vec<SentItem>,
    given: Given,
}

impl Model for SentRequest {
    ghost use Rattle.relay_world.specs.State.{Sent};
    ghost use Rattle.relay_world.specs.Memory.{answer_of};

    ghost Value = { Sent };

    ghost view = { λ s. record {
      epoch = s.epoch;
      lane = s.lane;
      number = s.number;
      items = s.items.items;
      answer =
          answer_of s.given;
    } };
}

impl SentRequest {
    pub(crate) fn new(epoch: u32, lane: u32, number: u64, items: Vec<SentItem>) -> SentRequest
        ensures { result ≡ record {
          epoch = epoch;
          lane = lane;
          number = number;
          items = items.items;
          answer = Unanswered;
        } }
    {
        SentRequest {
            epoch,
            lane,
            number,
            items,
            given: Given::Nothing,
        }
    }

    pub(crate) fn epoch(&self) -> u32
        ensures { result ≡ self.now.epoch }
    {
        self.epoch
    }

    pub(crate) fn lane(&self) -> u32
        ensures { result ≡ self.now.lane }
    {
        self.lane
    }

    pub(crate) fn number(&self) -> u64
        ensures { result ≡ self.now.number }
    {
        self.number
    }

    pub(crate) fn items(&self) -> &[SentItem]
        ensures { result.now ≡ self.now.items }
    {
        self.items.as_slice()
    }

    pub(crate) fn note(&mut self, given: Given)
        ensures { self.new ≡ sent_answer (answer_of given) self.old }
    {
        self.given = given;
    }

    // Runs an item on the index, and records its name if the write was applied. `AllocError`:
    // allocation failed; nothing changed.
    pub(crate) fn run(
        &mut self,
        item: u64,
        names: &mut Names,
        index: &mut Index,
        name: OpName,
        write: &Write,
        choice: Choice,
    ) -> Result<u16, AllocError>
        requires choice { MayChoose choice }
        requires item { item - 1 < length self.old.items }
        ensures status { IfOk result (λ s. s ≡ (done_of index.old write.now choice).status) }
        ensures sent { OnOk result (self.new
            ≡ ran_item item (outcome_of_run (done_of index.old write.now choice)) self.old) }
        ensures effect { OnOk result (Effect index.old write.now choice index.new) }
        ensures names { OnOk result ((k : Document) → names_of (kept_among names.new k)
            ≡ names_of (kept_among names.old k) ++ (if is_run index.old write.now choice
            && same_document k (document_of write.now.key) then name ∷ [] else [])) }
        ensures before { OnOk result ((k : Document) →
            before_of (length (applied_writes index.new k)) (kept_among names.new k)
            ≡ before_of (length (applied_writes index.old k)) (kept_among names.old k)) }
        ensures same_sent { OnErr result (self.new ≡ self.old) }
        ensures same_index { OnErr result (index.new ≡ index.old) }
        ensures same_names { OnErr result (names.new ≡ names.old) }
    {
        names.run(
            index,
            &mut self.items[item.saturating_sub(1) as usize],
            name,
            write,
            choice,
        )
    }
}
