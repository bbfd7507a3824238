//! Which of the operations that a report names are still the last word on their documents.
ghost use Rattle.std.specs.Prelude.{◌≡◌, ◌≢◌, ◌++◌, ◌∷◌, [], ℕ, List, Option, Some, None, IfOk, OnOk, map};
ghost use Rattle.std.specs.Prelude.{if◌then◌else◌, nat_le};
ghost use Rattle.std.specs.BTreeMap.{get as get_number};
ghost use Rattle.std.specs.Ordering.{nat_cmp};
ghost use Rattle.relay_ndjson.specs.Metadata.{bytes_given};
ghost use Rattle.relay_ndjson.specs.Operations.{Operation};
ghost use Rattle.relay_ndjson.specs.declared.parser.Phase.TheVariants as phase;
ghost use Rattle.relay_report.specs.Current.{AreRead, Keeps, ReadsOperations, Seen, current, name_at};
ghost use Rattle.relay_report.specs.Current.{seen, seen_in};
ghost use Rattle.relay_report.specs.Keeping.{GivesMark, Notes, alive, mark_of};

use crate::names::Named;
use indexmap::IndexMap;
use relay_action::{ByteIn, DocKey};
use relay_ndjson::{Input, InputFault, LineKind};
use std::alloc::{AllocError, Global};
use std::collections::BTreeMap;

/// The highest number of an operation: a run puts no more of one file.
pub const NUMBER_LIMIT: u64 = 1 << 40;

/// How far an input was read.
#[derive(Clone, Copy, Debug, PartialEq, Eq)]
pub struct InputEnd {
    /// How many operations it has up to there.
    pub count: u64,
    /// The line that breaks the producer grammar, or the failed read. `None`: the input has ended,
    /// or has 2^40 operations up to there.
    pub fault: Option<InputFault>,
}

/// The operations that a report names and that are still current.
#[derive(Drop)]
pub struct Kept {
    /// Their names, in the order of the inputs.
    pub names: Vec<Named>,
    /// How many operations that the report names the inputs have.
    pub found: usize,
    /// How far each input was read, in order.
    pub ends: Vec<InputEnd>,
}

/// Reads all inputs of a run, in order, and returns which of the named operations are current: each
/// later operation of the same document, in its input or in a later one, is named too. The others
/// are superseded, since a later operation of their document was submitted and not reported.
///
/// An input is read to its end, or to its first fault, where the run stopped too. If a read failed,
/// it is not known what follows, so nothing should be submitted. `AllocError`: allocation failed.
pub fn current_names<S: ByteIn + Drop>(
    alloc: Global,
    names: &[Named],
    inputs: Vec<S>,
    default_index: Option<&str>,
) -> Result<Kept, AllocError>
    ensures { IfOk result (λ kept. Keeps S.left S.failed names.now
        (bytes_given default_index.entry) inputs.items kept.names.items kept.found
        kept.ends.items) }
{
    let mut keeping = Keeping::new(alloc);
    let ends = keeping.read_all(alloc, names, inputs, default_index)?;
    Ok(Kept {
        names: keeping.current(alloc)?,
        found: keeping.found.len(),
        ends,
    })
}

// The names of a producer's operations, by number.
fn names_by_number(
    alloc: Global,
    names: &[Named],
    producer: usize,
) -> Result<BTreeMap<u64, Named>, AllocError>
    ensures { IfOk result
        (λ m. (k : ℕ) → get_number nat_cmp m k ≡ name_at names.now producer k) }
{
    let mut numbers = BTreeMap::new(alloc);
    'names: for name in names {
        if name.producer as usize == producer {
            numbers.insert(name.number, *name)?;
        }
    }
    Ok(numbers)
}

// What was read so far: the named operations, each with its document; and for each of their
// documents how many of those had been found when an operation that is not named came last.
#[derive(Drop)]
struct Keeping {
    found: Vec<(DocKey, Named)>,
    marks: IndexMap<DocKey, usize>,
}

impl Keeping {
    fn new(alloc: Global) -> Keeping
        ensures { Notes result.marks result.found.items [] }
    {
        Keeping {
            found: Vec::new(alloc),
            marks: IndexMap::new(alloc),
        }
    }

    // Reads all inputs, in order, and returns how far.
    fn read_all<S: ByteIn + Drop>(
        &mut self,
        alloc: Global,
        names: &[Named],
        inputs: Vec<S>,
        default_index: Option<&str>,
    ) -> Result<Vec<InputEnd>, AllocError>
        requires { Notes self.old.marks self.old.found.items [] }
        ensures { IfOk result (λ ends. (ops : List (List Operation))
            × AreRead S.left S.failed (bytes_given default_index.entry) inputs.items ops ends.items
            × Notes self.new.marks self.new.found.items (seen_in names.now 0 ops)) }
    {
        let mut ends = Vec::new(alloc);
        'inputs: for input in inputs {
            let numbers = names_by_number(alloc, names, ends.len())?;
            let mut input = Input::new(alloc, input, default_index);
            ends.push(self.read_input(&numbers, &mut input)?)?;
        }
        Ok(ends)
    }

    // Reads an input, given the names of its operations, and returns how far.
    fn read_input<S: ByteIn>(
        &mut self,
        numbers: &BTreeMap<u64, Named>,
        input: &mut Input<'_, S>,
    ) -> Result<InputEnd, AllocError>
        requires { input.old.phase ≡ phase.Open }
        ensures { IfOk result (λ end. (ops : List Operation) × ReadsOperations input.old ops end
            × ((before : List Seen) → Notes self.old.marks self.old.found.items before →
            Notes self.new.marks self.new.found.items
            (before ++ seen (get_number nat_cmp numbers.now) 1 ops))) }
    {
        'operations: for taken in 0..NUMBER_LIMIT {
            match input.next() {
                Ok(Some((key, _action))) => {
                    self.note(numbers.get(&(taken + 1)).copied(), key)?;
                }
                Ok(None) => return Ok(ended(taken)),
                Err(fault) => return stopped(taken, fault),
            }
        }
        Ok(ended(NUMBER_LIMIT))
    }

    // Notes an operation: its name, if the report names it, and its document.
    fn note(&mut self, name: Option<Named>, key: DocKey) -> Result<(), AllocError>
        ensures { OnOk result ((before : List Seen) → Notes self.old.marks self.old.found.items
            before → Notes self.new.marks self.new.found.items (before ++ (name, key) ∷ [])) }
    {
        match name {
            Some(name) => self.add(name, key),
            None => {
                self.supersede(&key);
                Ok(())
            }
        }
    }

    // Notes an operation that is named.
    fn add(&mut self, name: Named, key: DocKey) -> Result<(), AllocError>
        ensures { OnOk result ((before : List Seen) → Notes self.old.marks self.old.found.items
            before → Notes self.new.marks self.new.found.items (before ++ (Some name, key) ∷ [])) }
    {
        self.give_mark(&key)?;
        self.found.push((key, name))?;
        Ok(())
    }

    // Gives a document a mark, unless it has one.
    fn give_mark(&mut self, key: &DocKey) -> Result<(), AllocError>
        ensures marks { OnOk result (GivesMark self.old.marks self.new.marks key.now) }
        ensures found { self.new.found ≡ self.old.found }
    {
        if !self.marks.contains_key(key) {
            self.marks.insert(key.copy()?, 0)?;
        }
        Ok(())
    }

    // Notes an operation that is not named: what was found of its document is superseded.
    fn supersede(&mut self, key: &DocKey)
        ensures { (before : List Seen) → Notes self.old.marks self.old.found.items before →
            Notes self.new.marks self.new.found.items (before ++ (None, key.now) ∷ []) }
    {
        let count = self.found.len();
        if let Some(mark) = self.marks.get_mut(key) {
            *mark = count;
        }
    }

    // The names of the operations that are not superseded.
    fn current(&self, alloc: Global) -> Result<Vec<Named>, AllocError>
        ensures { IfOk result (λ v. v.items
            ≡ map (λ p. p.1) (alive (mark_of self.now.marks) 0 self.now.found.items)) }
    {
        let mut names = Vec::new(alloc);
        for place in 0..self.found.len() {
            let (key, name) = &self.found[place];
            self.add_unless_superseded(&mut names, place, key, *name)?;
        }
        Ok(names)
    }

    // Adds a name, unless the operation that was found at this place is superseded.
    fn add_unless_superseded(
        &self,
        names: &mut Vec<Named>,
        place: usize,
        key: &DocKey,
        name: Named,
    ) -> Result<(), AllocError>
        ensures { OnOk result (names.new.items ≡ names.old.items
            ++ (if nat_le (mark_of self.now.marks key.now) place then name ∷ [] else [])) }
    {
        if place < self.mark(key) {
            return Ok(());
        }
        names.push(name)?;
        Ok(())
    }

    // How many operations were found when one of this document that is not named came last.
    fn mark(&self, key: &DocKey) -> usize
        ensures { result ≡ mark_of self.now.marks key.now }
    {
        match self.marks.get(key) {
            Some(mark) => *mark,
            None => 0,
        }
    }
}

// An input that was read without a fault.
fn ended(count: u64) -> InputEnd
    ensures { result ≡ record { count = count; fault = None } }
{
    InputEnd { count, fault: None }
}

// An input that was read up to a fault. A failed allocation is an error.
fn stopped(count: u64, fault: InputFault) -> Result<InputEnd, AllocError>
    ensures { IfOk result (λ end. (end ≡ record { count = count; fault = Some fault })
        × (fault.kind ≢ LineKind.Memory)) }
{
    match fault.kind {
        LineKind::Memory => Err(AllocError),
        _ => Ok(InputEnd {
            count,
            fault: Some(fault),
        }),
    }
}
