//! Listing the faults of an input.
ghost use Rattle.std.specs.Prelude.{◌≡◌, ◌++◌, ◌≤◌, ◌≢◌, ℕ, List, [], Option, Some, drop, length, take, true, false};
ghost use Rattle.std.specs.Prelude.{IfOk, OnOk, IsTrue};
ghost use Rattle.std.specs.Io.KnownBytes.{IsAtEnd};
ghost use Rattle.relay_action.specs.Streams.{one_more};
ghost use Rattle.relay_ndjson.specs.Metadata.{bytes_given};
ghost use Rattle.relay_sift.specs.Fronts.{IsFront};
ghost use Rattle.relay_sift.specs.Listing.{FailsIn, FailsToRead, FailsToWrite, IsFindingText, Lists};
ghost use Rattle.relay_sift.specs.Listing.{StepsTo, Writes, fault_line, findings_in, findings_of};
ghost use Rattle.relay_sift.specs.Listing.{survey_of, with_faults};
ghost use Rattle.relay_sift.specs.Portions.{fault_at};
ghost use Rattle.relay_sift.specs.Texts.{line_text};

use crate::about::say_subject;
use crate::fault::SiftFault;
use crate::front::{Front, front_of};
use crate::lines::line_text;
use crate::pending::Pending;
use relay_action::{ByteIn, ByteOut, write_all};
use relay_json::Scratch;
use relay_ndjson::{BLANK_LIMIT, InputFault, LineKind};
use relay_words::add_number;
use std::alloc::{AllocError, Global};
use std::marker::Model;

/// The number of bytes to read at a time.
const PIECE: usize = 65_536;

/// Why an input was not checked to its end.
#[derive(Clone, Copy, Debug, PartialEq, Eq)]
pub enum CheckFault {
    /// A read failed.
    Read,
    /// A fault could not be written.
    Write,
    /// An allocation failed.
    Memory,
    /// It has no end: it went on after 2^64 - 1 steps.
    Endless,
}

impl From<AllocError> for CheckFault {
    ghost use Rattle.relay_sift.specs.declared.checking.CheckFault.{CheckFault};

    ghost from_gives = { λ _ fault. fault ≡ CheckFault.Memory };

    fn from(_error: AllocError) -> CheckFault {
        CheckFault::Memory
    }
}

// An input that is being checked.
#[derive(Drop)]
struct Checking<'a> {
    alloc: Global,
    default_index: Option<&'a str>,
    held: Pending,
    ended: bool,
    // The number of lines before what is held, and of the blank ones at their end.
    count: u64,
    blank: u64,
    // The number of faults.
    faults: u64,
}

impl<'a> Model for Checking<'a> {
    ghost use Rattle.relay_ndjson.specs.Metadata.{bytes_given};
    ghost use Rattle.relay_sift.specs.Listing.{Survey};

    ghost Value = { Survey };

    ghost view = { λ c. record {
      default = bytes_given c.default_index;
      held = c.held;
      ended = c.ended;
      count = c.count;
      blank = c.blank;
      faults = c.faults;
    } };
}

/// Writes a line for each invalid operation of the reader, `line N: KIND`, with a line beneath it that
/// says what it is about, if it is about something that has a name; and returns how many there are. An
/// operation is invalid, and an input ends with its last fault, as [`Sifted`](crate::Sifted) says:
/// from the first line on of which it cannot be told what belongs to it, nothing more is looked at,
/// and the fault of that line is the last; so it is with too many blank lines. Operations without an
/// index name have the default index, if one is given. It reads 64 KiB at a time, and holds at most
/// two lines and 64 KiB more.
///
/// `CheckFault`: a read, a write or an allocation failed. The faults before that were written.
pub fn check<S: ByteIn, W: ByteOut>(
    alloc: Global,
    reader: &mut S,
    default_index: Option<&str>,
    out: &mut W,
) -> Result<u64, CheckFault>
    ensures ok { IfOk result (λ n. (text : List ℕ) → S.left reader.old ≡ Some text
        → Lists (findings_in (bytes_given default_index.entry) text) (W.written out.old)
        (W.written out.new) n) }
    ensures failed { FailsIn result (S.failed reader.old) (S.failed reader.new)
        (W.failed out.old) (W.failed out.new) }
{
    let mut checking = Checking {
        alloc,
        default_index,
        held: Pending::new(alloc),
        ended: false,
        count: 0,
        blank: 0,
        faults: 0,
    };
    checking.run(reader, out)
}

impl<'a> Checking<'a> {
    // Checks a whole input, of which nothing was read.
    fn run<S: ByteIn, W: ByteOut>(&mut self, reader: &mut S, out: &mut W) -> Result<u64, CheckFault>
        requires { self.old ≡ survey_of self.old.default }
        ensures ok { IfOk result (λ n. (text : List ℕ) → S.left reader.old ≡ Some text
            → Lists (findings_in self.old.default text) (W.written out.old) (W.written out.new) n) }
        ensures failed { FailsIn result (S.failed reader.old) (S.failed reader.new)
            (W.failed out.old) (W.failed out.new) }
    {
        'steps: for _step in 0..u64::MAX {
            match self.step(reader, out) {
                Ok(more) => {
                    if !more {
                        return Ok(self.faults);
                    }
                }
                Err(fault) => return Err(fault),
            }
        }
        Err(CheckFault::Endless)
    }

    // Checks what is at the front, or reads more. Returns whether there may be more.
    fn step<S: ByteIn, W: ByteOut>(
        &mut self,
        reader: &mut S,
        out: &mut W,
    ) -> Result<bool, CheckFault>
        requires { IsTrue self.old.ended → IsAtEnd (S.left reader.old) }
        ensures ok { IfOk result (λ more. StepsTo more (S.left reader.old) (S.left reader.new)
            (W.written out.old) (W.written out.new) self.old self.new) }
        ensures failed { FailsIn result (S.failed reader.old) (S.failed reader.new)
            (W.failed out.old) (W.failed out.new) }
    {
        let front = match self.look() {
            Ok(front) => front,
            Err(_) => return Err(CheckFault::Memory),
        };
        if front == Front::Partial {
            return self.read_on(reader);
        }
        self.take(front, out)
    }

    // Looks at what is at the front of what is held.
    fn look(&self) -> Result<Front, AllocError>
        ensures { IfOk result (λ front. IsFront self.now.default self.now.count self.now.held
            self.now.ended front) }
    {
        let mut scratch = Scratch::new(self.alloc);
        match front_of(
            self.alloc,
            self.default_index,
            self.held.held(),
            self.ended,
            self.count,
            &mut scratch,
        ) {
            Ok(front) => Ok(front),
            Err(error) => Err(error),
        }
    }

    // Reads more, or finds that the reader has ended.
    fn read_on<S: ByteIn>(&mut self, reader: &mut S) -> Result<bool, CheckFault>
        ensures ok { IfOk result (λ more. (written : Option (List ℕ)) → StepsTo more
            (S.left reader.old) (S.left reader.new) written written self.old self.new) }
        ensures failed { FailsToRead result (S.failed reader.old) (S.failed reader.new) }
    {
        let mut piece = vec![in self.alloc; 0; PIECE]?;
        match self.held.fill(reader, piece.as_mut_slice()) {
            Ok(count) => {
                self.ended = count == 0;
                Ok(true)
            }
            Err(SiftFault::Memory) => Err(CheckFault::Memory),
            Err(SiftFault::Read) => Err(CheckFault::Read),
            Err(SiftFault::Write) => Err(CheckFault::Write),
        }
    }

    // Takes what is at the front. Returns whether there may be more.
    fn take<W: ByteOut>(&mut self, front: Front, out: &mut W) -> Result<bool, CheckFault>
        requires front { IsFront self.old.default self.old.count self.old.held self.old.ended front }
        requires whole { front ≢ Front.Partial }
        ensures ok { IfOk result (λ more. (left : Option (List ℕ))
            → (IsTrue self.old.ended → IsAtEnd left)
            → StepsTo more left left (W.written out.old) (W.written out.new) self.old self.new) }
        ensures failed { FailsToWrite result (W.failed out.old) (W.failed out.new) }
    {
        match front {
            Front::Portion {
                first,
                end,
                count,
                fault,
            } => self.take_portion(first, end, count, fault, out),
            Front::Rest { first, fault } => match self.list_one(first, fault, out) {
                Ok(()) => Ok(false),
                Err(fault) => Err(fault),
            },
            Front::Absent => Ok(false),
            Front::Partial => Ok(true),
        }
    }

    // Takes the portion that is held up to `end`, whose first line ends at `first`.
    fn take_portion<W: ByteOut>(
        &mut self,
        first: usize,
        end: usize,
        count: u64,
        fault: Option<InputFault>,
        out: &mut W,
    ) -> Result<bool, CheckFault>
        requires { IsFront self.old.default self.old.count self.old.held self.old.ended
            (Front.Portion first end count fault) }
        ensures ok { IfOk result (λ more. (left : Option (List ℕ))
            → (IsTrue self.old.ended → IsAtEnd left)
            → StepsTo more left left (W.written out.old) (W.written out.new) self.old self.new) }
        ensures failed { FailsToWrite result (W.failed out.old) (W.failed out.new) }
    {
        if self.first_line(first).is_empty() {
            return self.take_blank(first, end, count, fault, out);
        }
        match self.list(first, fault, out) {
            Ok(()) => {
                self.move_on(end, count, 0);
                Ok(true)
            }
            Err(fault) => Err(fault),
        }
    }

    // The text of the line that ends here.
    fn first_line(&self, first: usize) -> &[u8]
        requires { first ≤ length self.now.held }
        ensures { result.now ≡ line_text (take first self.now.held) }
    {
        line_text(&self.held.held()[..first])
    }

    // Uses what is held up to `end`, so that this many lines come before the rest, of which so many at
    // their end are blank.
    fn move_on(&mut self, end: usize, count: u64, blank: u64)
        requires { end ≤ length self.old.held }
        ensures { self.new ≡ record self.old {
          held = drop end self.old.held;
          count = count;
          blank = blank;
        } }
    {
        self.held.skip(end);
        self.count = count;
        self.blank = blank;
    }

    // How many lines at the end of those that were used are blank.
    fn blank_count(&self) -> u64
        ensures { result ≡ self.now.blank }
    {
        self.blank
    }

    // Takes a blank line, unless there are too many.
    fn take_blank<W: ByteOut>(
        &mut self,
        first: usize,
        end: usize,
        count: u64,
        fault: Option<InputFault>,
        out: &mut W,
    ) -> Result<bool, CheckFault>
        requires front { IsFront self.old.default self.old.count self.old.held self.old.ended
            (Front.Portion first end count fault) }
        requires blank { line_text (take first self.old.held) ≡ [] }
        ensures ok { IfOk result (λ more. (left : Option (List ℕ))
            → (IsTrue self.old.ended → IsAtEnd left)
            → StepsTo more left left (W.written out.old) (W.written out.new) self.old self.new) }
        ensures failed { FailsToWrite result (W.failed out.old) (W.failed out.new) }
    {
        // They only say what the portion is.
        let (_first, _fault) = (first, fault);
        let blank = self.blank_count();
        if blank >= BLANK_LIMIT {
            return self.list_blank(out);
        }
        self.move_on(end, count, blank + 1);
        Ok(true)
    }

    // Writes that there are too many blank lines. There is no more.
    fn list_blank<W: ByteOut>(&mut self, out: &mut W) -> Result<bool, CheckFault>
        ensures ok { IfOk result (λ more. (more ≡ false)
            × Writes (findings_of [] (Some (fault_at (one_more self.old.count) LineKind.LineLong)))
            (W.written out.old) (W.written out.new)
            × (self.new ≡ with_faults 1 self.old)) }
        ensures failed { FailsToWrite result (W.failed out.old) (W.failed out.new) }
    {
        let fault = InputFault {
            line: self.next_line(),
            kind: LineKind::LineLong,
        };
        match write_fault(self.alloc, fault, b"", out) {
            Ok(()) => {
                self.add_fault();
                Ok(false)
            }
            Err(fault) => Err(fault),
        }
    }

    // The number of the first line that is held.
    fn next_line(&self) -> u64
        ensures { result ≡ one_more self.now.count }
    {
        self.count.saturating_add(1)
    }

    // Counts a fault.
    fn add_fault(&mut self)
        ensures { self.new ≡ with_faults 1 self.old }
    {
        self.faults = self.faults.saturating_add(1);
    }

    // Writes a fault, if there is one, of what begins with the line that ends here.
    fn list<W: ByteOut>(
        &mut self,
        first: usize,
        fault: Option<InputFault>,
        out: &mut W,
    ) -> Result<(), CheckFault>
        requires { first ≤ length self.old.held }
        ensures ok { OnOk result (
            Writes (findings_of (line_text (take first self.old.held)) fault) (W.written out.old)
            (W.written out.new)
            × (self.new ≡ with_faults (length (findings_of (line_text (take first self.old.held)) fault))
            self.old)) }
        ensures failed { FailsToWrite result (W.failed out.old) (W.failed out.new) }
    {
        match fault {
            Some(fault) => self.list_one(first, fault, out),
            None => Ok(()),
        }
    }

    // Writes a fault of what begins with the line that ends here.
    fn list_one<W: ByteOut>(
        &mut self,
        first: usize,
        fault: InputFault,
        out: &mut W,
    ) -> Result<(), CheckFault>
        requires { first ≤ length self.old.held }
        ensures ok { OnOk result (
            Writes (findings_of (line_text (take first self.old.held)) (Some fault))
            (W.written out.old) (W.written out.new) × (self.new ≡ with_faults 1 self.old)) }
        ensures failed { FailsToWrite result (W.failed out.old) (W.failed out.new) }
    {
        match write_fault(self.alloc, fault, self.first_line(first), out) {
            Ok(()) => {
                self.add_fault();
                Ok(())
            }
            Err(fault) => Err(fault),
        }
    }
}

// Writes a fault, given its action line.
fn write_fault<W: ByteOut>(
    alloc: Global,
    fault: InputFault,
    line: &[u8],
    out: &mut W,
) -> Result<(), CheckFault>
    ensures ok { OnOk result (Writes (findings_of line.now (Some fault)) (W.written out.old)
        (W.written out.new)) }
    ensures failed { FailsToWrite result (W.failed out.old) (W.failed out.new) }
{
    let text = match fault_text(alloc, fault, line) {
        Ok(text) => text,
        Err(_) => return Err(CheckFault::Memory),
    };
    match write_all(out, &text) {
        Ok(()) => Ok(()),
        Err(_) => Err(CheckFault::Write),
    }
}

// Adds the line of a fault.
fn add_fault(text: &mut Vec<u8>, fault: InputFault) -> Result<(), AllocError>
    ensures { OnOk result (text.new.items ≡ text.old.items ++ fault_line fault) }
{
    text.extend_from_slice(b"line ")?;
    add_number(text, fault.line)?;
    text.extend_from_slice(b": ")?;
    text.extend_from_slice(fault.kind.name().as_bytes())?;
    text.extend_from_slice(b"\n")
}

// What is written of a fault, given its action line.
fn fault_text(alloc: Global, fault: InputFault, line: &[u8]) -> Result<Vec<u8>, AllocError>
    ensures { IfOk result (λ text. IsFindingText fault line.now text.items) }
{
    let mut text = Vec::new(alloc);
    add_fault(&mut text, fault)?;
    let about = say_subject(alloc, fault.kind, line)?;
    text.extend_from_slice(&about)?;
    Ok(text)
}
