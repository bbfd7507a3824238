//! Extracting the operations of an input that a report names.
ghost use Rattle.std.specs.Prelude.{◌≡◌, ◌≤◌, ℕ, [], IsTrue, IfOk, IfErr, OnOk, OnErr};
ghost use Rattle.std.specs.BTreeSet.{contains};
ghost use Rattle.std.specs.Ordering.{nat_cmp};
ghost use Rattle.relay_action.specs.Streams.{FailedSince};
ghost use Rattle.relay_ndjson.specs.Metadata.{bytes_given};
ghost use Rattle.relay_ndjson.specs.Operations.{position};
ghost use Rattle.relay_report.specs.Picks.{Picks, ReadsFail, WritesFail, WritesFront, is_named};
ghost use Rattle.relay_report.specs.Picking.{Closes, Moves, PicksNext, PicksTo, fault_of, is_over};

use crate::names::Named;
use crate::operations::OperationReader;
use relay_action::{ByteIn, ByteOut, write_all};
use relay_ndjson::{InputFault, LineKind};
use std::alloc::{AllocError, Global};
use std::collections::BTreeSet;
use thiserror::Error;

/// What was gathered is written once it has this many bytes.
const FULL: usize = 262_144;

/// Why not all operations were extracted.
#[derive(Clone, Copy, Debug, PartialEq, Eq, Error)]
pub enum PickFault {
    /// A line breaks the producer grammar, or a read failed. The operations before it were written.
    /// The kind is neither `Memory` nor `Failed`.
    #[error("{0}")]
    Input(InputFault),
    /// A write failed. A prefix of the text was written.
    #[error("write failed")]
    Write,
    /// An allocation failed. A prefix of the text was written.
    #[error("out of memory")]
    Memory,
}

/// Writes the named operations of a producer's input, each with its lines, in order, and returns
/// how many operations of the input were read: up to the last one named, or all. A last line
/// without an end gets a line feed. Operations without an index name get the default index, if one
/// is given.
pub fn pick<R: ByteIn, W: ByteOut>(
    alloc: Global,
    names: &[Named],
    producer: u32,
    input: &mut R,
    default_index: Option<&str>,
    writer: &mut W,
) -> Result<u64, PickFault>
    ensures picks { Picks names.now producer (bytes_given default_index.entry) (R.left input.old)
        (W.written writer.old) (W.written writer.new) result }
    ensures reads { ReadsFail (R.failed input.old) (R.failed input.new) result }
    ensures writes { WritesFail (W.failed writer.old) (W.failed writer.new) result }
{
    let numbers = match numbers_of(alloc, names, producer) {
        Ok(numbers) => numbers,
        Err(_) => return Err(PickFault::Memory),
    };
    let last = last_of(names, producer);
    let mut picking = Picking {
        operations: OperationReader::new(alloc),
        text: Vec::new(alloc),
    };
    let result = picking.pick_to(alloc, &numbers, last, input, default_index, writer);
    close(writer, picking.text.as_slice(), result)
}

// The numbers of a producer's operations that are named.
fn numbers_of(alloc: Global, names: &[Named], producer: u32) -> Result<BTreeSet<u64>, AllocError>
    ensures { IfOk result (λ s. (k : ℕ) → contains nat_cmp s k ≡ is_named names.now producer k) }
{
    let mut numbers = BTreeSet::new(alloc);
    'names: for name in names {
        if name.producer == producer {
            numbers.insert(name.number)?;
        }
    }
    Ok(numbers)
}

// The highest number of a producer's operations that are named, or 0 if none is.
fn last_of(names: &[Named], producer: u32) -> u64
    ensures { (k : ℕ) → IsTrue (is_named names.now producer k) → k ≤ result }
{
    let mut last = 0u64;
    'names: for name in names {
        if name.producer == producer {
            last = last.max(name.number);
        }
    }
    last
}

// What was read of an input, and the lines that are still to be written.
#[derive(Drop)]
struct Picking {
    operations: OperationReader,
    text: Vec<u8>,
}

impl Picking {
    // Takes the next operation, and adds its lines if its number is named. Returns whether there
    // was one.
    fn pick_next<R: ByteIn>(
        &mut self,
        alloc: Global,
        numbers: &BTreeSet<u64>,
        number: u64,
        input: &mut R,
        default_index: Option<&str>,
    ) -> Result<bool, PickFault>
        ensures next { PicksNext (contains nat_cmp numbers.now) number
            (bytes_given default_index.entry)
            (position (R.left input.old) self.old.operations.lines.held
            self.old.operations.lines.count)
            (position (R.left input.new) self.new.operations.lines.held
            self.new.operations.lines.count)
            self.old.text.items self.new.text.items result }
        ensures reads { ReadsFail (R.failed input.old) (R.failed input.new) result }
    {
        match self.operations.next(alloc, input, default_index) {
            Ok(true) => {}
            Ok(false) => return Ok(false),
            Err(fault) => return Err(fault_of(fault)),
        }
        if numbers.contains(&number) {
            match self
                .text
                .extend_from_slice(self.operations.taken.as_slice())
            {
                Ok(()) => {}
                Err(_) => return Err(PickFault::Memory),
            }
        }
        Ok(true)
    }

    // Writes what was gathered, if it is enough.
    fn make_way<W: ByteOut>(&mut self, writer: &mut W) -> Result<(), PickFault>
        ensures ok { OnOk result
            (Moves self.old.text.items self.new.text.items (W.written writer.old)
            (W.written writer.new)) }
        ensures err { IfErr result (λ e. e ≡ PickFault.Write) }
        ensures front { OnErr result
            (WritesFront (W.written writer.old) (W.written writer.new) self.old.text.items) }
        ensures operations { self.new.operations ≡ self.old.operations }
        ensures failed { OnErr result (FailedSince (W.failed writer.old) (W.failed writer.new)) }
        ensures succeeded { OnOk result (W.failed writer.new ≡ W.failed writer.old) }
    {
        if self.text.len() < FULL {
            return Ok(());
        }
        match write_all(writer, self.text.as_slice()) {
            Ok(()) => {}
            Err(_) => return Err(PickFault::Write),
        }
        self.text.clear();
        Ok(())
    }

    // Takes operations up to the last number, or to the end, and returns how many there were. Those
    // that are named were written, except for what was gathered last.
    fn pick_to<R: ByteIn, W: ByteOut>(
        &mut self,
        alloc: Global,
        numbers: &BTreeSet<u64>,
        last: u64,
        input: &mut R,
        default_index: Option<&str>,
        writer: &mut W,
    ) -> Result<u64, PickFault>
        requires held { self.old.operations.lines.held ≡ [] }
        requires count { self.old.operations.lines.count ≡ 0 }
        requires text { self.old.text.items ≡ [] }
        ensures picks { PicksTo (contains nat_cmp numbers.now) last
            (bytes_given default_index.entry)
            (R.left input.old)
            (W.written writer.old) (W.written writer.new) self.new.text.items result }
        ensures reads { ReadsFail (R.failed input.old) (R.failed input.new) result }
        ensures writes { WritesFail (W.failed writer.old) (W.failed writer.new) result }
    {
        'operations: for taken in 0..last {
            if !self.pick_next(alloc, numbers, taken + 1, input, default_index)? {
                return Ok(taken);
            }
            self.make_way(writer)?;
        }
        Ok(last)
    }
}

// Whether nothing more is to be written.
fn is_over(result_so_far: Result<u64, PickFault>) -> bool
    ensures { result ≡ is_over result_so_far }
{
    match result_so_far {
        Err(PickFault::Write) | Err(PickFault::Memory) => true,
        Err(PickFault::Input(_)) | Ok(_) => false,
    }
}

// Writes the text, unless a write or an allocation failed before, and returns the result.
fn close<W: ByteOut>(
    writer: &mut W,
    text: &[u8],
    result_so_far: Result<u64, PickFault>,
) -> Result<u64, PickFault>
    ensures { Closes result_so_far text.now (W.written writer.old) (W.failed writer.old)
        (W.written writer.new) (W.failed writer.new) result }
{
    if is_over(result_so_far) {
        return result_so_far;
    }
    match write_all(writer, text) {
        Ok(()) => result_so_far,
        Err(_) => Err(PickFault::Write),
    }
}

fn fault_of(fault: InputFault) -> PickFault
    ensures { result ≡ fault_of fault }
{
    match fault.kind {
        LineKind::Memory => PickFault::Memory,
        _ => PickFault::Input(fault),
    }
}
