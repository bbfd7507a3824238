//! A reader that leaves out the invalid operations of an input.
ghost use Rattle.std.specs.Prelude.{◌≡◌, ◌++◌, ◌<◌, ◌≤◌, [], length, min, drop, take, true, false};
ghost use Rattle.std.specs.Prelude.{IfOk, OnOk, OnErr, None, Some, is_ok, if◌then◌else◌};
ghost use Rattle.std.specs.Prelude.{option_map, string_bytes};
ghost use Rattle.std.specs.Bool.{OnFalse};
ghost use Rattle.std.specs.Io.KnownBytes.{prepend_known, IsAtEnd};
ghost use Rattle.relay_action.specs.Streams.{one_more};
ghost use Rattle.relay_ndjson.specs.Metadata.{bytes_given};
ghost use Rattle.relay_sift.specs.Fronts.{FrontsAt, IsWithin};
ghost use Rattle.relay_sift.specs.Portions.{kind_part, left_out_by, place_part};
ghost use Rattle.relay_sift.specs.Sifting.{Advances, Holds, IsOver, Pays, after_failure, after_text};
ghost use Rattle.relay_sift.specs.Sifting.{after_out, after_portion, after_writing, coming, owed, start};
ghost use Rattle.relay_sift.specs.Texts.{line_feeds};

use crate::fault::SiftFault;
use crate::front::{Front, front_of};
use crate::lines::closing;
use crate::notes::SharedNotes;
use crate::pending::Pending;
use relay_action::{ByteIn, ByteOut, ByteStream, StreamFailed, write_all};
use relay_json::Scratch;
use relay_ndjson::InputFault;
use relay_words::add_number;
use std::alloc::{AllocError, Global};
use std::marker::Model;

/// The number of bytes to read at a time.
const PIECE: usize = 65_536;

/// A reader of a producer's input in which the lines of each invalid operation are blank. These lines
/// are written to a file of their own, after a line that says what is wrong with which of them. An
/// operation is invalid if it has a fault by the producer grammar, but its action line still tells
/// how many lines it has: it is an action line of the bulk API, of whatever action and metadata. From
/// the first line on of which that cannot be told, everything is passed on as it is, so that who
/// reads it finds the fault there. So an input without invalid operations is passed on unchanged.
///
/// It reads 64 KiB at a time, holds at most two lines and 64 KiB more, and passes on what belongs
/// together as soon as it has been read. After a call that failed, the file may have part of the
/// lines of the next invalid operation.
#[derive(Drop)]
pub struct Sifted<S: ByteStream, F: ByteStream> {
    alloc: Global,
    reader: S,
    file: F,
    producer: u32,
    default_index: Option<String>,
    // Room for one read.
    piece: Vec<u8>,
    held: Pending,
    ended: bool,
    // Whether all that follows is passed on.
    passing: bool,
    out: Pending,
    count: u64,
    failed: u64,
    notes: Option<SharedNotes>,
}

impl<S: ByteStream, F: ByteStream> Model for Sifted<S, F> {
    ghost use Rattle.std.specs.Prelude.{◌<◌, IsTrue, option_map, string_bytes, vec_len};
    ghost use Rattle.std.specs.Io.KnownBytes.{IsAtEnd};
    ghost use Rattle.relay_sift.specs.Sifting.{Sifting};

    ghost Value = { Sifting };

    ghost view = { λ s. record {
      left = S.left s.reader;
      given = F.written s.file;
      producer = s.producer;
      default = option_map string_bytes s.default_index;
      held = s.held;
      ended = s.ended;
      passing = s.passing;
      out = s.out;
      count = s.count;
      failed = s.failed;
    } };

    ghost invariant = { λ s. (IsTrue s.ended → IsAtEnd (S.left s.reader))
        × (0 < vec_len s.piece) };
}

impl<S: ByteIn + Drop, F: ByteOut + Drop> Sifted<S, F> {
    /// It reads from `reader`, of which nothing was read, and writes what it leaves out to `file`.
    /// `producer` is the position of the input among several, from 0. Operations without an index
    /// name have the default index, if one is given. It notes what it leaves out, if it has notes.
    /// It allocates room for 64 KiB, and more by the calls that read. `AllocError`: allocation failed.
    pub fn new(
        alloc: Global,
        reader: S,
        file: F,
        producer: u32,
        default_index: Option<String>,
        notes: Option<SharedNotes>,
    ) -> Result<Sifted<S, F>, AllocError>
        ensures { IfOk result (λ s. s ≡ start (S.left reader) (F.written file) producer
            (option_map string_bytes default_index)) }
    {
        let piece = vec![in alloc; 0; PIECE]?;
        Ok(Sifted {
            alloc,
            reader,
            file,
            producer,
            default_index,
            piece,
            held: Pending::new(alloc),
            ended: false,
            passing: false,
            out: Pending::new(alloc),
            count: 0,
            failed: 0,
            notes,
        })
    }
}

impl<S: ByteIn, F: ByteOut> Sifted<S, F> {
    /// The file that has what was left out.
    pub fn file(&self) -> &F
        ensures { F.written result.now ≡ self.now.given }
    {
        &self.file
    }

    // Reads more, or finds that the reader has ended.
    fn read_on(&mut self) -> Result<(), SiftFault>
        ensures ok { OnOk result (Advances self.old self.new) }
        ensures err { OnErr result (self.new ≡ self.old) }
        ensures out { self.new.out ≡ self.old.out }
        ensures passing { self.new.passing ≡ self.old.passing }
        ensures end { OnOk result (self.new.held ≡ [] → IsAtEnd self.new.left) }
    {
        let piece = self.piece.as_mut_slice();
        match self.held.fill(&mut self.reader, piece) {
            Ok(count) => {
                self.ended = count == 0;
                Ok(())
            }
            Err(fault) => Err(fault),
        }
    }

    // Passes on all that is held.
    fn pass_held(&mut self) -> Result<(), SiftFault>
        requires passing { self.old.passing ≡ true }
        ensures ok { OnOk result (Advances self.old self.new) }
        ensures err { OnErr result (self.new ≡ self.old) }
    {
        match self.out.add(self.held.held()) {
            Ok(()) => {
                let count = self.held.held().len();
                self.held.skip(count);
                Ok(())
            }
            Err(_) => Err(SiftFault::Memory),
        }
    }

    // Passes on all that is held, or reads more. Returns whether there is to be more.
    fn pass_on(&mut self) -> Result<bool, SiftFault>
        requires passing { self.old.passing ≡ true }
        requires out { self.old.out ≡ [] }
        ensures ok { OnOk result (Advances self.old self.new) }
        ensures err { OnErr result (self.new ≡ self.old) }
        ensures end { IfOk result (λ more. OnFalse more (IsOver self.new)) }
    {
        if !self.held.is_empty() {
            return match self.pass_held() {
                Ok(()) => Ok(true),
                Err(fault) => Err(fault),
            };
        }
        match self.read_on() {
            Ok(()) => Ok(!self.held.is_empty()),
            Err(fault) => Err(fault),
        }
    }

    // Writes a text.
    fn write_out(&mut self, text: &[u8]) -> Result<(), SiftFault>
        ensures ok { OnOk result (self.new ≡ after_text text.now self.old) }
        ensures err { OnErr result (self.new ≡ after_writing self.old self.new.given) }
    {
        match write_all(&mut self.file, text) {
            Ok(()) => Ok(()),
            Err(_) => Err(SiftFault::Write),
        }
    }

    // Writes the lines of an invalid operation, those held up to `end`.
    fn leave_out(&mut self, end: usize, fault: InputFault) -> Result<(), SiftFault>
        requires { end ≤ length self.old.held }
        ensures ok { OnOk result (self.new ≡ after_text
            (left_out_by self.old.producer (take end self.old.held) (Some fault)) self.old) }
        ensures err { OnErr result (self.new ≡ after_writing self.old self.new.given) }
    {
        let lines = &self.held.held()[..end];
        match left_out_text(self.alloc, self.producer, fault, lines) {
            Ok(text) => self.write_out(&text),
            Err(_) => Err(SiftFault::Memory),
        }
    }

    // Passes on the line feeds of an invalid operation, and writes its lines, those held up to `end`.
    fn blank_lines(&mut self, end: usize, fault: InputFault) -> Result<(), SiftFault>
        requires { end ≤ length self.old.held }
        ensures ok { OnOk result
            (self.new ≡ after_portion (take end self.old.held) (Some fault) self.old) }
        ensures err { OnErr result (self.new ≡ after_writing self.old self.new.given) }
    {
        let feeds = match line_feeds(self.alloc, &self.held.held()[..end]) {
            Ok(feeds) => feeds,
            Err(_) => return Err(SiftFault::Memory),
        };
        if let Err(fault) = self.leave_out(end, fault) {
            return Err(fault);
        }
        match self.out.add(&feeds) {
            Ok(()) => Ok(()),
            Err(_) => Err(SiftFault::Memory),
        }
    }

    // Passes on what becomes of the lines held up to `end`, which are left out if they have a fault.
    #[tactic(auto, using(crate::proofs::Sifting::append_nothing))]
    fn pass_lines(&mut self, end: usize, fault: Option<InputFault>) -> Result<(), SiftFault>
        requires { end ≤ length self.old.held }
        ensures ok { OnOk result
            (self.new ≡ after_portion (take end self.old.held) fault self.old) }
        ensures err { OnErr result (self.new ≡ after_writing self.old self.new.given) }
    {
        match fault {
            Some(fault) => self.blank_lines(end, fault),
            None => match self.out.add(&self.held.held()[..end]) {
                Ok(()) => Ok(()),
                Err(_) => Err(SiftFault::Memory),
            },
        }
    }

    // Takes the portion that is held up to `end`.
    fn take_portion(
        &mut self,
        first: usize,
        end: usize,
        count: u64,
        fault: Option<InputFault>,
    ) -> Result<(), SiftFault>
        requires end { end ≤ length self.old.held }
        requires passing { self.old.passing ≡ false }
        requires front { FrontsAt self.old.left self.old.default self.old.count self.old.held
            (Front.Portion first end count fault) }
        ensures ok { OnOk result (Advances self.old self.new) }
        ensures err { OnErr result (Holds self.old self.new) }
    {
        // It only says what the portion is.
        let _first = first;
        match self.pass_lines(end, fault) {
            Ok(()) => {
                self.held.skip(end);
                self.count = count;
                Ok(())
            }
            Err(fault) => Err(fault),
        }
    }

    // The default index, if there is one.
    fn index(&self) -> Option<&str>
        ensures { bytes_given result ≡ self.now.default }
    {
        match &self.default_index {
            Some(index) => Some(index.as_str()),
            None => None,
        }
    }

    // Looks at what is at the front of what is held.
    fn look(&self) -> Result<Front, AllocError>
        ensures front { IfOk result (λ front. FrontsAt self.now.left self.now.default self.now.count
            self.now.held front) }
        ensures within { IfOk result (λ front. IsWithin self.now.held front) }
    {
        let mut scratch = Scratch::new(self.alloc);
        let index = self.index();
        let held = self.held.held();
        match front_of(
            self.alloc,
            index,
            held,
            self.ended,
            self.count,
            &mut scratch,
        ) {
            Ok(front) => Ok(front),
            Err(error) => Err(error),
        }
    }

    // Takes the portion at the front, or reads more. Returns whether there is to be more.
    fn take_front(&mut self, front: Front) -> Result<bool, SiftFault>
        requires out { self.old.out ≡ [] }
        requires passing { self.old.passing ≡ false }
        requires front { FrontsAt self.old.left self.old.default self.old.count self.old.held front }
        requires within { IsWithin self.old.held front }
        ensures ok { OnOk result (Advances self.old self.new) }
        ensures err { OnErr result (Holds self.old self.new) }
        ensures end { IfOk result (λ more. OnFalse more (IsOver self.new)) }
    {
        match front {
            Front::Portion {
                first,
                end,
                count,
                fault,
            } => match self.take_portion(first, end, count, fault) {
                Ok(()) => {
                    self.note(fault.is_some());
                    Ok(true)
                }
                Err(fault) => Err(fault),
            },
            Front::Rest { first: _, fault: _ } => {
                self.passing = true;
                Ok(true)
            }
            Front::Absent => Ok(false),
            Front::Partial => match self.read_on() {
                Ok(()) => Ok(true),
                Err(fault) => Err(fault),
            },
        }
    }

    // Notes that an operation was left out, if one was.
    fn note(&self, left_out: bool) {
        if let Some(notes) = &self.notes {
            if left_out {
                notes.add();
            }
        }
    }

    // Takes one portion, or reads once. Returns whether there is to be more.
    fn step(&mut self) -> Result<bool, SiftFault>
        requires { self.old.out ≡ [] }
        ensures ok { OnOk result (Advances self.old self.new) }
        ensures err { OnErr result (Holds self.old self.new) }
        ensures end { IfOk result (λ more. OnFalse more (IsOver self.new)) }
    {
        if self.passing {
            return self.pass_on();
        }
        match self.look() {
            Ok(front) => self.take_front(front),
            Err(_) => Err(SiftFault::Memory),
        }
    }

    // Prepares what is passed on next, unless there is some, or the end was reached.
    #[tactic(auto, using(crate::proofs::Sifting::holds_more, crate::proofs::Sifting::holds_advanced, crate::proofs::Sifting::advances_more))]
    fn prepare(&mut self) -> Result<(), SiftFault>
        ensures ok { OnOk result (Advances self.old self.new) }
        ensures err { OnErr result (Holds self.old self.new) }
        ensures end { OnOk result (self.new.out ≡ [] → IsOver self.new) }
    {
        // There is no end to a stream that gives no line end, or nothing but invalid operations.
        'steps: for step in 0..u64::MAX {
            if !self.out.is_empty() {
                return Ok(());
            }
            match self.step() {
                Ok(more) => {
                    if !more {
                        return Ok(());
                    }
                }
                Err(fault) => return Err(fault),
            }
        }
        Err(SiftFault::Read)
    }

    // Copies what is passed on next to the front of the buffer.
    fn give(&mut self, buffer: &mut [u8]) -> usize
        ensures count { result ≡ min (length buffer.old) (length self.old.out) }
        ensures bytes { buffer.new ≡ take result self.old.out ++ drop result buffer.old }
        ensures after { self.new ≡ after_out result self.old }
    {
        let count = buffer.len().min(self.out.held().len());
        buffer[..count].copy_from_slice(&self.out.held()[..count]);
        self.out.skip(count);
        count
    }

    fn fail(&mut self, fault: SiftFault) -> StreamFailed
        ensures { self.new ≡ after_failure self.old }
    {
        self.failed = self.failed.saturating_add(1);
        if let Some(notes) = &self.notes {
            match fault {
                SiftFault::Read => {}
                SiftFault::Write => notes.add_unwritten(),
                SiftFault::Memory => notes.add_refused(),
            }
        }
        StreamFailed
    }
}

impl<S: ByteStream, F: ByteStream> ByteStream for Sifted<S, F> {
    ghost use Rattle.relay_sift.specs.Sifting.{coming};

    ghost left = { λ s. coming s };

    ghost written = { λ s. None };

    ghost failed = { λ s. s.failed };
}

impl<S: ByteIn, F: ByteOut> ByteIn for Sifted<S, F> {
    fn read(&mut self, buffer: &mut [u8]) -> Result<usize, StreamFailed>
        ensures bound { IfOk result (λ n. n ≤ length buffer.new) }
        ensures bytes { IfOk result
            (λ n. coming self.old ≡ prepend_known (take n buffer.new) (coming self.new)) }
        ensures end { IfOk result
            (λ n. n ≡ 0 → 0 < length buffer.new → IsAtEnd (coming self.old)) }
        ensures err { OnErr result (coming self.new ≡ coming self.old) }
        ensures count { self.new.failed ≡
            (if is_ok result then self.old.failed else one_more self.old.failed) }

        // What was left out meanwhile was written, at the end all of it.
        ensures pays { OnOk result (Pays self.old self.new) }
        ensures paid { IfOk result
            (λ n. n ≡ 0 → 0 < length buffer.new → IsAtEnd (owed self.new)) }
    {
        match self.prepare() {
            Ok(()) => Ok(self.give(buffer)),
            Err(fault) => Err(self.fail(fault)),
        }
    }
}

// The line feeds of a text.
fn line_feeds(alloc: Global, text: &[u8]) -> Result<Vec<u8>, AllocError>
    ensures { IfOk result (λ feeds. feeds.items ≡ line_feeds text.now) }
{
    let mut feeds = Vec::new(alloc);
    'bytes: for byte in text {
        if *byte == b'\n' {
            feeds.push(b'\n')?;
        }
    }
    Ok(feeds)
}

// Adds the kind of a fault.
fn add_kind(text: &mut Vec<u8>, fault: InputFault) -> Result<(), AllocError>
    ensures { OnOk result (text.new.items ≡ text.old.items ++ kind_part fault) }
{
    text.extend_from_slice(b"{\"invalid\":{\"kind\":\"")?;
    text.extend_from_slice(fault.kind.name().as_bytes())?;
    text.extend_from_slice(b"\",\"line\":")?;
    Ok(())
}

// Adds where a fault is.
fn add_place(text: &mut Vec<u8>, producer: u32, fault: InputFault) -> Result<(), AllocError>
    ensures { OnOk result (text.new.items ≡ text.old.items ++ place_part producer fault) }
{
    add_number(text, fault.line)?;
    text.extend_from_slice(b",\"producer\":")?;
    add_number(text, producer as u64)?;
    text.extend_from_slice(b"}}\n")?;
    Ok(())
}

// What is written of an invalid operation with these lines.
fn left_out_text(
    alloc: Global,
    producer: u32,
    fault: InputFault,
    lines: &[u8],
) -> Result<Vec<u8>, AllocError>
    ensures { IfOk result (λ text. text.items ≡ left_out_by producer lines.now (Some fault)) }
{
    let mut text = Vec::new(alloc);
    add_kind(&mut text, fault)?;
    add_place(&mut text, producer, fault)?;
    text.extend_from_slice(lines)?;
    text.extend_from_slice(closing(lines))?;
    Ok(text)
}
