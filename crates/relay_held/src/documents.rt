//! The queues of all documents.
ghost use Rattle.std.specs.Prelude.{◌≡◌, ◌+◌, ◌^◌, ◌++◌, ◌∷◌, [], ◌<◌, ◌≤◌, Some, None, false};
ghost use Rattle.std.specs.Prelude.{drop, length, slice_get, option_map, OnOk, OnErr, IfErr, IfOk};
ghost use Rattle.std.specs.Prelude.{IfSome, IfNone};
ghost use Rattle.std.specs.Option.{option_copied};
ghost use Rattle.std.specs.List.{IsDistinct};
ghost use Rattle.std.specs.Map.{keys_of, lookup};
ghost use Rattle.indexmap.specs.IndexMap.{spare};
ghost use Rattle.slab.specs.Slab.{HasRoomFor};
ghost use Rattle.relay_action.specs.declared.key.DocKey.{DocKey};
ghost use Rattle.relay_held.specs.declared.kept.Kept.{Kept};
ghost use Rattle.relay_held.specs.declared.documents.Taken.{Taken};
ghost use Rattle.relay_held.specs.Operations.{launch_one, back_at, halved_at, candidate_of};
ghost use Rattle.relay_held.specs.Queues.{same_key, on_first, first_name, queue_of, Changes};
ghost use Rattle.relay_held.specs.Queues.{NoneEmpty};
ghost use Rattle.relay_held.specs.Shelf.{queue_in, queues_in, IsShelf, Sets, slot_of, KeepsSlots};
ghost use Rattle.relay_held.specs.Shelf.{entry_at, entry_after, IsPlaceOf};

use crate::held::NotHeld;
use crate::kept::{Candidate, Kept, candidate_of};
use crate::queue::Queue;
use indexmap::IndexMap;
use relay_action::{DocKey, OpName, Write};
use relay_delay::Entry;
use slab::Slab;
use std::alloc::{AllocError, Global};
use std::marker::Model;

/// The queues of all documents. A document keeps its slot as long as it has held operations.
#[derive(Debug, Drop)]
pub struct Documents {
    slots: IndexMap<DocKey, usize>,
    queues: Slab<Queue>,
}

impl Model for Documents {
    ghost use Rattle.relay_held.specs.Shelf.{Shelf, queues_in, IsShelf};

    ghost Value = { Shelf };

    ghost view = { λ d. record
        { queues = queues_in d.queues d.slots.entries; slots = d.slots.entries } };

    ghost invariant = { λ d. IsShelf d.slots.entries d.queues };
}

// Where the entry of a document is, and the slot of its queue.
#[derive(Clone, Copy)]
struct Place {
    at: usize,
    slot: usize,
}

/// The first operation of a document, which was taken out.
#[derive(Debug, Drop)]
pub struct Taken {
    /// Its name.
    pub name: OpName,
    /// The entry of the next operation, which is now the first, if there is one.
    pub next: Option<Entry>,
}

// The first operation of the queue in a slot.
fn head_in(queues: &Slab<Queue>, slot: usize) -> Option<&Kept>
    ensures { option_copied result ≡ slice_get (queue_in queues.now slot) 0 }
{
    Some(queues.get(slot)?.head())
}

// The name of the first operation of the queue in a slot.
fn name_in(queues: &Slab<Queue>, slot: usize) -> Option<OpName>
    ensures { result ≡ first_name (queue_in queues.now slot) }
{
    Some(head_in(queues, slot)?.name)
}

// Sends the first operation of the queue in a slot, and takes its write out.
fn launch_in(
    queues: &mut Slab<Queue>,
    slot: usize,
    clock: u64,
    number: u64,
    place: u64,
) -> Option<Write>
    ensures sent { Sets queues.old queues.new slot
        (on_first (launch_one clock number place) (queue_in queues.old slot)) }
    ensures write { IfSome (slice_get (queue_in queues.old slot) 0) (λ h. result ≡ h.write) }
{
    queues.get_mut(slot)?.launch(clock, number, place)
}

// Lets the first operation of the queue in a slot wait again.
fn land_in(queues: &mut Slab<Queue>, slot: usize, due: u64, write: Write) -> Option<Entry>
    ensures landed { Sets queues.old queues.new slot
        (on_first (back_at due write) (queue_in queues.old slot)) }
    ensures entry { result ≡ option_map (entry_at slot) (slice_get (queue_in queues.new slot) 0) }
{
    let queue = queues.get_mut(slot)?;
    queue.land(due, write);
    Some(queue.entry(slot))
}

// Lets the first operation of the queue in a slot wait again under this cap.
fn halve_in(
    queues: &mut Slab<Queue>,
    slot: usize,
    due: u64,
    cap: u32,
    write: Write,
) -> Option<Entry>
    ensures halved { Sets queues.old queues.new slot
        (on_first (halved_at due cap write) (queue_in queues.old slot)) }
    ensures entry { result ≡ option_map (entry_at slot) (slice_get (queue_in queues.new slot) 0) }
{
    let queue = queues.get_mut(slot)?;
    queue.halve(due, cap, write);
    Some(queue.entry(slot))
}

// Adds an operation at the end of the queue in a slot.
#[inline(always)]
fn push_in(queues: &mut Slab<Queue>, slot: usize, one: Kept) -> Result<(), NotHeld>
    requires held { 0 < length (queue_in queues.old slot) }
    ensures ok { OnOk result (Sets queues.old queues.new slot
        (queue_in queues.old slot ++ one ∷ [])) }
    ensures err { OnErr result (queues.new ≡ queues.old) }
    ensures back { IfErr result (λ e. e.one ≡ one) }
{
    match queues.get_mut(slot) {
        Some(queue) => queue.push(one),
        None => unreachable!(),
    }
}

// Takes out the first operation of the queue in a slot, unless it is the only one.
fn next_in(queues: &mut Slab<Queue>, slot: usize) -> Option<Taken>
    ensures left { Sets queues.old queues.new slot (queue_in queues.new slot) }
    ensures name { IfSome result (λ t. Some t.name ≡ first_name (queue_in queues.old slot)) }
    ensures rest { IfSome result (λ _.
        queue_in queues.new slot ≡ drop 1 (queue_in queues.old slot)) }
    ensures next { IfSome result (λ t. t.next
        ≡ option_map (entry_at slot) (slice_get (queue_in queues.new slot) 0)) }
    ensures some { IfSome result (λ t. 0 < length (queue_in queues.new slot)) }
    ensures last { IfNone result (drop 1 (queue_in queues.old slot) ≡ []) }
    ensures unchanged { IfNone result (queues.new ≡ queues.old) }
{
    let queue = queues.get_mut(slot)?;
    let name = queue.next()?;
    let next = Some(queue.entry(slot));
    Some(Taken { name, next })
}

// Adds a document with its first operation. There is room for both.
#[inline(always)]
fn add(
    slots: &mut IndexMap<DocKey, usize>,
    queues: &mut Slab<Queue>,
    key: DocKey,
    one: Kept,
) -> Entry
    requires room { 1 ≤ spare slots.old }
    requires slot { HasRoomFor queues.old 1 }
    requires none { lookup (same_key key) slots.old.entries ≡ None }
    requires shelf { IsShelf slots.old.entries queues.old }
    ensures added { Changes (queues_in queues.old slots.old.entries)
        (queues_in queues.new slots.new.entries) key (one ∷ []) }
    ensures shelf { IsShelf slots.new.entries queues.new }
    ensures entry { result ≡ entry_at (slot_of slots.new.entries key) one }
    ensures others { (k : DocKey) → same_key key k ≡ false
        → lookup (same_key k) slots.new.entries ≡ lookup (same_key k) slots.old.entries }
    ensures more { length slots.new.entries ≤ length slots.old.entries + 1 }
{
    let queue = Queue::of(*slots.allocator(), one);
    let entry = queue.entry(queues.vacant_key());
    let slot = queues.insert_reserved(queue);
    let _ = slots.insert(key, slot);
    entry
}

// Makes room for one more document.
fn reserve_one(
    slots: &mut IndexMap<DocKey, usize>,
    queues: &mut Slab<Queue>,
) -> Result<(), AllocError>
    ensures room { OnOk result (1 ≤ spare slots.new) }
    ensures slot { OnOk result (HasRoomFor queues.new 1) }
    ensures slots { slots.new.entries ≡ slots.old.entries }
    ensures queues { queues.new ≡ record queues.old { capacity = queues.new.capacity } }
{
    slots.reserve(1)?;
    queues.reserve(1)
}

// Adds the document of an operation, of which nothing is held yet.
#[inline(always)]
fn push_new(
    slots: &mut IndexMap<DocKey, usize>,
    queues: &mut Slab<Queue>,
    one: Kept,
) -> Result<Entry, NotHeld>
    requires none { lookup (same_key one.key) slots.old.entries ≡ None }
    requires shelf { IsShelf slots.old.entries queues.old }
    ensures ok { OnOk result (Changes (queues_in queues.old slots.old.entries)
        (queues_in queues.new slots.new.entries) one.key (one ∷ [])) }
    ensures entry { IfOk result (λ e. e ≡ entry_at (slot_of slots.new.entries one.key) one) }
    ensures shelf { IsShelf slots.new.entries queues.new }
    ensures others { OnOk result ((k : DocKey) → same_key one.key k ≡ false
        → lookup (same_key k) slots.new.entries ≡ lookup (same_key k) slots.old.entries) }
    ensures more { OnOk result (length slots.new.entries ≤ length slots.old.entries + 1) }
    ensures slots { OnErr result (slots.new.entries ≡ slots.old.entries) }
    ensures queues { OnErr result (
        queues.new ≡ record queues.old { capacity = queues.new.capacity }) }
    ensures back { IfErr result (λ e. e.one ≡ one) }
{
    let Ok(key) = one.key.copy() else {
        return Err(NotHeld { one });
    };
    if reserve_one(slots, queues).is_err() {
        return Err(NotHeld { one });
    }
    Ok(add(slots, queues, key, one))
}

// Removes a document with a single held operation.
fn remove(
    slots: &mut IndexMap<DocKey, usize>,
    queues: &mut Slab<Queue>,
    key: &DocKey,
    place: Place,
) -> Option<Taken>
    requires place { IsPlaceOf slots.old.entries key.now place.at place.slot }
    requires last { drop 1 (queue_in queues.old place.slot) ≡ [] }
    requires shelf { IsShelf slots.old.entries queues.old }
    ensures removed { Changes (queues_in queues.old slots.old.entries)
        (queues_in queues.new slots.new.entries) key.now [] }
    ensures shelf { IsShelf slots.new.entries queues.new }
    ensures name { option_map (λ (t : Taken). t.name) result
        ≡ first_name (queue_in queues.old place.slot) }
    ensures next { IfSome result (λ t. t.next ≡ None) }
    ensures others { (k : DocKey) → same_key key.now k ≡ false
        → lookup (same_key k) slots.new.entries ≡ lookup (same_key k) slots.old.entries }
    ensures fewer { length slots.new.entries ≤ length slots.old.entries }
{
    let name = name_in(queues, place.slot);
    let _ = slots.swap_remove_index(place.at);
    let _ = queues.try_remove(place.slot);
    Some(Taken {
        name: name?,
        next: None,
    })
}

// Takes out the first operation of the document at a place. A document without further operations is
// removed.
fn take_in(
    slots: &mut IndexMap<DocKey, usize>,
    queues: &mut Slab<Queue>,
    key: &DocKey,
    place: Place,
) -> Option<Taken>
    requires place { IsPlaceOf slots.old.entries key.now place.at place.slot }
    requires shelf { IsShelf slots.old.entries queues.old }
    ensures taken { Changes (queues_in queues.old slots.old.entries)
        (queues_in queues.new slots.new.entries) key.now (drop 1 (queue_in queues.old place.slot)) }
    ensures shelf { IsShelf slots.new.entries queues.new }
    ensures name { option_map (λ (t : Taken). t.name) result
        ≡ first_name (queue_in queues.old place.slot) }
    ensures next { IfSome result (λ t. t.next ≡ option_map (entry_at place.slot)
        (slice_get (drop 1 (queue_in queues.old place.slot)) 0)) }
    ensures kept { (k : DocKey) (h : Kept)
        → slice_get (queue_of (queues_in queues.new slots.new.entries) k) 0 ≡ Some h
        → lookup (same_key k) slots.new.entries ≡ lookup (same_key k) slots.old.entries }
    ensures fewer { length slots.new.entries ≤ length slots.old.entries }
{
    let taken = next_in(queues, place.slot);
    if taken.is_some() {
        return taken;
    }
    remove(slots, queues, key, place)
}

impl Documents {
    /// No queues. It does not allocate.
    pub(crate) fn new(alloc: Global) -> Documents
        ensures { result ≡ record { queues = []; slots = [] } }
    {
        Documents {
            slots: IndexMap::new(alloc),
            queues: Slab::new(alloc),
        }
    }

    /// The number of documents.
    pub(crate) fn len(&self) -> usize
        ensures len { result ≡ length (keys_of self.now.queues) }
        ensures small { result < 2 ^ 63 }
        ensures unique { IsDistinct same_key (keys_of self.now.queues) }
        ensures filled { NoneEmpty self.now.queues }
    {
        self.slots.len()
    }

    // The slot of a document's queue.
    fn slot(&self, key: &DocKey) -> Option<usize>
        ensures found { result ≡ lookup (same_key key.now) self.now.slots }
        ensures none { IfNone result (queue_of self.now.queues key.now ≡ []) }
    {
        self.slots.get(key).copied()
    }

    // Where a document's entry is, and the slot of its queue.
    fn place(&self, key: &DocKey) -> Option<Place>
        ensures place { IfSome result
            (λ p. IsPlaceOf self.now.slots key.now p.at p.slot) }
        ensures none { IfNone result (queue_of self.now.queues key.now ≡ []) }
    {
        let (at, _, slot) = self.slots.get_full(key)?;
        Some(Place { at, slot: *slot })
    }

    /// What a batch needs to know of the first operation of the document in a slot.
    pub(crate) fn candidate(&self, slot: usize) -> Option<Candidate>
        ensures { (k : DocKey) (h : Kept) → slice_get (queue_of self.now.queues k) 0 ≡ Some h
            → slot_of self.now.slots k ≡ slot
            → result ≡ Some (candidate_of h) }
    {
        let one = head_in(&self.queues, slot)?;
        Some(candidate_of(one))
    }

    /// The first operation of a document.
    pub(crate) fn first(&self, key: &DocKey) -> Option<&Kept>
        ensures { option_copied result ≡ slice_get (queue_of self.now.queues key.now) 0 }
    {
        let slot = self.slot(key)?;
        head_in(&self.queues, slot)
    }

    /// Adds an operation of its document after those that are there, and returns its entry if it is
    /// the first. All allocations come first.
    #[inline(always)]
    pub(crate) fn push(&mut self, one: Kept) -> Result<Option<Entry>, NotHeld>
        ensures ok { OnOk result (Changes self.old.queues self.new.queues one.key
            (queue_of self.old.queues one.key ++ one ∷ [])) }
        ensures entry { IfOk result (λ e. e
            ≡ entry_after (queue_of self.old.queues one.key) (slot_of self.new.slots one.key) one) }
        ensures err { OnErr result (self.new ≡ self.old) }
        ensures back { IfErr result (λ e. e.one ≡ one) }
        ensures slots { KeepsSlots self.old self.new }
        ensures more { length (keys_of self.new.queues) ≤ length (keys_of self.old.queues) + 1 }
        ensures unique { IsDistinct same_key (keys_of self.new.queues) }
    {
        if let Some(slot) = self.slot(&one.key) {
            push_in(&mut self.queues, slot, one)?;
            return Ok(None);
        }
        let entry = push_new(&mut self.slots, &mut self.queues, one)?;
        Ok(Some(entry))
    }

    /// Sends the first operation of the document in a slot, and takes its write out.
    pub(crate) fn launch(
        &mut self,
        slot: usize,
        clock: u64,
        number: u64,
        place: u64,
    ) -> Option<Write>
        ensures sent { (k : DocKey) (h : Kept) → slice_get (queue_of self.old.queues k) 0 ≡ Some h
            → slot_of self.old.slots k ≡ slot
            → Changes self.old.queues self.new.queues k
            (on_first (launch_one clock number place) (queue_of self.old.queues k)) }
        ensures write { (k : DocKey) (h : Kept) → slice_get (queue_of self.old.queues k) 0 ≡ Some h
            → slot_of self.old.slots k ≡ slot
            → result ≡ h.write }
        ensures slots { self.new.slots ≡ self.old.slots }
        ensures keys { keys_of self.new.queues ≡ keys_of self.old.queues }
        ensures unique { IsDistinct same_key (keys_of self.new.queues) }
    {
        launch_in(&mut self.queues, slot, clock, number, place)
    }

    /// Lets the first operation of a write's document wait again, and returns its entry, if there
    /// is one.
    pub(crate) fn land(&mut self, due: u64, write: Write) -> Option<Entry>
        ensures landed { Changes self.old.queues self.new.queues write.key
            (on_first (back_at due write) (queue_of self.old.queues write.key)) }
        ensures entry { result ≡ option_map (entry_at (slot_of self.old.slots write.key))
            (slice_get (queue_of self.new.queues write.key) 0) }
        ensures slots { self.new.slots ≡ self.old.slots }
        ensures keys { keys_of self.new.queues ≡ keys_of self.old.queues }
        ensures unique { IsDistinct same_key (keys_of self.new.queues) }
    {
        let slot = self.slot(&write.key)?;
        land_in(&mut self.queues, slot, due, write)
    }

    /// Lets the first operation of a write's document wait again under this cap, and returns its
    /// entry, if there is one.
    pub(crate) fn halve(&mut self, due: u64, cap: u32, write: Write) -> Option<Entry>
        ensures halved { Changes self.old.queues self.new.queues write.key
            (on_first (halved_at due cap write) (queue_of self.old.queues write.key)) }
        ensures entry { result ≡ option_map (entry_at (slot_of self.old.slots write.key))
            (slice_get (queue_of self.new.queues write.key) 0) }
        ensures slots { self.new.slots ≡ self.old.slots }
        ensures keys { keys_of self.new.queues ≡ keys_of self.old.queues }
        ensures unique { IsDistinct same_key (keys_of self.new.queues) }
    {
        let slot = self.slot(&write.key)?;
        halve_in(&mut self.queues, slot, due, cap, write)
    }

    /// Takes out the first operation of a document. A document without further operations is
    /// removed.
    pub(crate) fn take(&mut self, key: &DocKey) -> Option<Taken>
        ensures taken { Changes self.old.queues self.new.queues key.now
            (drop 1 (queue_of self.old.queues key.now)) }
        ensures name { option_map (λ (t : Taken). t.name) result
            ≡ first_name (queue_of self.old.queues key.now) }
        ensures next { IfSome result (λ t. t.next
            ≡ option_map (entry_at (slot_of self.old.slots key.now))
            (slice_get (drop 1 (queue_of self.old.queues key.now)) 0)) }
        ensures slots { KeepsSlots self.old self.new }
        ensures fewer { length (keys_of self.new.queues) ≤ length (keys_of self.old.queues) }
        ensures unique { IsDistinct same_key (keys_of self.new.queues) }
    {
        let place = self.place(key)?;
        take_in(&mut self.slots, &mut self.queues, key, place)
    }
}
