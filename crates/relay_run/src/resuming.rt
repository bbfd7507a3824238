//! Going on with the files of a run where its state says.
ghost use Rattle.std.specs.Prelude.{◌≡◌, ◌<◌, ◌≤◌, [], ℕ, IfOk, IfSome, List, OnOk, length, map};
ghost use Rattle.std.specs.Prelude.{slice_get, string_bytes, vec_len};
ghost use Rattle.relay_run.specs.Marks.{bound};
ghost use Rattle.relay_run.specs.Written.{AreRead, GivesMore, GoesBy, IsBegun, MovesOne, OpensOne};
ghost use Rattle.relay_run.specs.Written.{StillRead};

use crate::noting::{NotedSource, Opened, reason_line};
use crate::options::RunOptions;
use crate::saying::say;
use crate::state_file::{StateFile, StateFileFault};
use relay_action::{ByteOut, List, Text};
use relay_core::config::EPOCH_LIMIT;
use relay_keeping::MarkKeeper;
use relay_resume::{
    CHECKED_LIMIT, Changed, Found, InputState, Mark, PATH_LIMIT, State, resumes, seek_to,
};
use relay_words::{Exit, add_number};
use sha2::{Digest, Sha256};
use std::alloc::{AllocError, Global};
use std::fs::File;
use std::io::ErrorKind;
use std::marker::Model;
use std::mem;
use std::os::unix::fs::{FileExt, MetadataExt};
use std::snapshot::Snapshot;

/// The place before the first line of an input.
pub(crate) const START: Mark = Mark {
    offset: 0,
    line: 0,
    count: 0,
};

/// Why a run does not go on. Nothing was sent.
#[derive(Clone, Copy, Debug, PartialEq, Eq)]
pub(crate) enum ResumeFault {
    /// The state cannot be used.
    State(StateFileFault),
    /// The files that are regular ones are not those of the state, in their order.
    Places,
    /// The file at this place has another content, or is another one.
    Changed(usize, Changed),
    /// The file at this place could not be opened, or read.
    Device(usize),
    /// The path of the file at this place is too long for a state.
    LongPath(usize),
}

impl From<AllocError> for ResumeFault {
    fn from(_error: AllocError) -> ResumeFault {
        ResumeFault::State(StateFileFault::Memory)
    }
}

impl From<StateFileFault> for ResumeFault {
    fn from(fault: StateFileFault) -> ResumeFault {
        ResumeFault::State(fault)
    }
}

/// A run that goes on: its state, and where its inputs are read from. Contracts see who reads the
/// inputs of its state, and what was written to the file of the state.
#[derive(Drop)]
pub struct Resumed {
    file: StateFile,
    state: State,
    // The file of the reports, if it is a regular one.
    report: Option<File>,
    // The producer of each input of the state.
    producers: Vec<u32>,
    // Whether the file has the state.
    is_written: bool,
    // The mark of each producer's input, as the run started.
    starts: Vec<Mark>,
    // The paths of the files, for proofs only.
    files: Snapshot<Vec<String>>,
}

impl Model for Resumed {
    ghost use Rattle.std.specs.Prelude.{map, string_bytes};
    ghost use Rattle.relay_run.specs.Written.{Resuming};

    ghost Value = { Resuming };

    ghost view = { λ r. record {
      reads = record {
        producers = r.producers.items;
        files = map string_bytes r.files.value.items;
      };
      inputs = r.state.inputs;
      starts = r.starts.items;
      written = r.file;
    } };
}

// The bytes at the start of a file that its digest is of.
fn digest_of(file: &File, checked: u64) -> Result<[u8; 32], ErrorKind> {
    let mut bytes = [0u8; CHECKED_LIMIT as usize];
    let length = (checked as usize).min(bytes.len());
    match file.read_exact_at(&mut bytes[..length], 0) {
        Ok(()) => Ok(Sha256::digest(&bytes[..length])),
        Err(error) => Err(error.kind()),
    }
}

// A file as it is now, with the digest of as many bytes as it has of these.
fn found_of(file: &File, checked: u64) -> Result<Found, ErrorKind> {
    let metadata = file.metadata().map_err(|error| error.kind())?;
    Ok(Found {
        device: metadata.dev(),
        inode: metadata.ino(),
        length: metadata.len(),
        digest: digest_of(file, checked.min(metadata.len()))?,
    })
}

// What the state says of a file that is read from this mark on.
fn input_of(
    alloc: Global,
    place: usize,
    path: &str,
    file: &File,
    mark: Mark,
) -> Result<InputState, ResumeFault>
    ensures { IfOk result (λ i. (i.path ≡ path.now) × (i.mark ≡ mark)) }
{
    let Ok(found) = found_of(file, CHECKED_LIMIT) else {
        return Err(ResumeFault::Device(place));
    };
    if path.len() > PATH_LIMIT {
        return Err(ResumeFault::LongPath(place));
    }
    Ok(InputState {
        path: Text::new(alloc, path)?,
        device: found.device,
        inode: found.inode,
        checked: CHECKED_LIMIT.min(found.length),
        digest: found.digest,
        mark,
    })
}

// The mark of a file, given what the state says of the file at its position, and the file goes on
// there.
fn mark_of(
    place: usize,
    path: &str,
    file: &mut File,
    then: Option<&InputState>,
) -> Result<Mark, ResumeFault>
    ensures { IfOk result (λ m. IfSome then.entry (λ t. (t.now.path ≡ path.now) × (m ≡ t.now.mark))) }
{
    let Some(then) = then else {
        return Ok(START);
    };
    if then.path.as_str() != path {
        return Err(ResumeFault::Places);
    }
    let Ok(now) = found_of(file, then.checked) else {
        return Err(ResumeFault::Device(place));
    };
    let mark = match resumes(&now, then) {
        Ok(mark) => mark,
        Err(changed) => return Err(ResumeFault::Changed(place, changed)),
    };
    match seek_to(file, mark) {
        Ok(()) => Ok(mark),
        Err(_) => Err(ResumeFault::Device(place)),
    }
}

// The inputs of a state, their producers, and where each producer's input is read from.
#[derive(Drop)]
struct Inputs {
    inputs: Vec<InputState>,
    producers: Vec<u32>,
    starts: Vec<Mark>,
}

impl Inputs {
    // The source at this place goes on where the old state says, if it is a regular file.
    fn add(
        &mut self,
        alloc: Global,
        place: usize,
        path: &str,
        source: &mut NotedSource,
        old: Option<&State>,
    ) -> Result<(), ResumeFault>
        requires { vec_len self.old.starts ≡ place }
        ensures { OnOk result (OpensOne place path.now self.old.producers.items self.new.producers.items
            self.old.inputs.items self.new.inputs.items self.old.starts.items self.new.starts.items) }
    {
        let Some(file) = source.regular_file() else {
            return Ok(self.push_start(START)?);
        };
        let then = match old {
            Some(old) => match old.inputs.as_slice().get(self.inputs.len()) {
                Some(then) => Some(then),
                None => return Err(ResumeFault::Places),
            },
            None => None,
        };
        let Ok(producer) = u32::try_from(place) else {
            return Err(ResumeFault::Places);
        };
        let mark = mark_of(place, path, file, then)?;
        let input = input_of(alloc, place, path, file, mark)?;
        Ok(self.push(input, producer)?)
    }

    // The input of this producer is one of the state.
    fn push(&mut self, input: InputState, producer: u32) -> Result<(), AllocError>
        requires { vec_len self.old.starts ≡ producer }
        ensures { OnOk result (OpensOne producer input.path self.old.producers.items
            self.new.producers.items self.old.inputs.items self.new.inputs.items
            self.old.starts.items self.new.starts.items) }
    {
        self.starts.push(input.mark)?;
        self.producers.push(producer)?;
        Ok(self.inputs.push(input)?)
    }

    // The next input is not.
    fn push_start(&mut self, start: Mark) -> Result<(), AllocError>
        ensures { OnOk result ((path : List ℕ) → OpensOne (vec_len self.old.starts) path
            self.old.producers.items self.new.producers.items
            self.old.inputs.items self.new.inputs.items self.old.starts.items
            self.new.starts.items) }
    {
        Ok(self.starts.push(start)?)
    }
}

// All sources go on where the old state says.
fn inputs_of(
    alloc: Global,
    paths: &[String],
    sources: &mut [Opened],
    old: Option<&State>,
) -> Result<Inputs, ResumeFault>
    ensures count { IfOk result (λ i. vec_len i.starts ≤ length paths.now) }
    ensures read { IfOk result (λ i. AreRead (record {
      producers = i.producers.items;
      files = map string_bytes paths.now;
    }) i.starts.items [] i.inputs.items) }
{
    let mut inputs = Inputs {
        inputs: Vec::new(alloc),
        producers: Vec::new(alloc),
        starts: Vec::new(alloc),
    };
    for place in 0..sources.len().min(paths.len()) {
        let Some(source) = &mut sources[place].source else {
            return Err(ResumeFault::Device(place));
        };
        inputs.add(alloc, place, paths[place].as_str(), source, old)?;
    }
    match old {
        Some(old) if old.inputs.as_slice().len() != inputs.inputs.len() => Err(ResumeFault::Places),
        _ => Ok(inputs),
    }
}

fn is_regular(file: &File) -> bool {
    match file.metadata() {
        Ok(metadata) => metadata.is_file(),
        Err(_) => false,
    }
}

// The epoch after that of the old state, and at least this one.
fn next_epoch(old: Option<&State>, least: u32) -> Result<u32, StateFileFault>
    ensures least { IfOk result (λ e. least ≤ e) }
    ensures rises { IfOk result (λ e. IfSome old.entry (λ s. s.now.epoch < e)) }
{
    let last = match old {
        Some(old) => old.epoch,
        None => 0,
    };
    if last >= EPOCH_LIMIT {
        return Err(StateFileFault::Spent);
    }
    Ok(least.max(last + 1))
}

/// Goes on with these sources, which have these paths, where the state in the file says, in the epoch
/// after it and at least in this one. The new state is in the file when this returns.
pub(crate) fn resume(
    alloc: Global,
    file: StateFile,
    report: Option<File>,
    paths: &Vec<String>,
    sources: &mut [Opened],
    least: u32,
) -> Result<Resumed, ResumeFault>
    requires { file ≡ [] }
    ensures begun { IfOk result IsBegun }
    ensures files { IfOk result (λ r. r.reads.files ≡ map string_bytes paths.now.items) }
    ensures written { IfOk result (λ r. length r.written ≡ 1) }
{
    let mut file = file;
    let old = file.read(alloc)?;
    let inputs = inputs_of(alloc, paths, sources, old.as_ref())?;
    let Inputs {
        inputs,
        producers,
        starts,
    } = inputs;
    let state = State {
        epoch: next_epoch(old.as_ref(), least)?,
        inputs: List::of(inputs),
    };
    file.replace(alloc, &state, &None)?;
    Ok(Resumed {
        file,
        state,
        report: report.filter(is_regular),
        producers,
        is_written: true,
        starts,
        files: Snapshot::of(paths),
    })
}

impl Resumed {
    /// The epoch.
    pub(crate) fn epoch(&self) -> u32 {
        self.state.epoch
    }

    /// The path of the state.
    pub(crate) fn path(&self) -> &str {
        self.file.path()
    }

    /// Where the input of the producer at this place is read from, if it is known.
    pub(crate) fn start(&self, place: usize) -> Option<Mark>
        ensures { result ≡ slice_get self.now.starts place }
    {
        match self.starts.get(place) {
            Some(start) => Some(*start),
            None => None,
        }
    }

    // Sets the marks to how far the inputs are settled.
    fn move_marks(&mut self, alloc: Global, marks: &mut MarkKeeper)
        requires { GoesBy marks.old self.old }
        ensures goes { GoesBy marks.new self.new }
        ensures same { self.new ≡ record self.old { inputs = self.new.inputs } }
        ensures bound { bound marks.new ≡ bound marks.old }
    {
        let none = List::of(Vec::new(alloc));
        let mut inputs = mem::replace(&mut self.state.inputs, none).into_vec();
        let stay = move_all(&mut inputs, &self.producers, marks);
        self.is_written = self.is_written && stay;
        self.state.inputs = List::of(inputs);
    }

    /// Writes how far the inputs are settled to the file of the state, unless it says so. The reports are
    /// synchronized before that.
    pub(crate) fn save(
        &mut self,
        alloc: Global,
        marks: &mut MarkKeeper,
    ) -> Result<(), StateFileFault>
        requires { GoesBy marks.old self.old }
        ensures goes { GoesBy marks.new self.new }
        ensures same { (self.new.reads ≡ self.old.reads) × (self.new.starts ≡ self.old.starts) }
        ensures bound { bound marks.new ≡ bound marks.old }
    {
        self.move_marks(alloc, marks);
        if self.is_written {
            return Ok(());
        }
        self.sync_report()?;
        self.write(alloc, marks)
    }

    // Synchronizes the reports.
    fn sync_report(&self) -> Result<(), StateFileFault> {
        let Some(report) = &self.report else {
            return Ok(());
        };
        match report.sync_data() {
            Ok(()) => Ok(()),
            Err(error) => Err(StateFileFault::Device(error.kind())),
        }
    }

    // Writes the state, by what the keeper has given.
    fn write(&mut self, alloc: Global, marks: &MarkKeeper) -> Result<(), StateFileFault>
        requires { GoesBy marks.now self.old }
        ensures goes { GoesBy marks.now self.new }
        ensures same { (self.new.reads ≡ self.old.reads) × (self.new.starts ≡ self.old.starts) }
    {
        let then = Some(Snapshot::of(marks));
        self.file.replace(alloc, &self.state, &then)?;
        self.is_written = true;
        Ok(())
    }
}

// Sets the mark of the input that this producer reads to how far it is settled, if the keeper knows
// that. Returns whether it stays.
fn move_one(input: &mut InputState, producer: u32, marks: &mut MarkKeeper) -> bool
    ensures moves { MovesOne producer input.old.mark input.new.mark marks.old marks.new }
    ensures path { input.new.path ≡ input.old.path }
{
    match marks.mark(producer) {
        Some(mark) => {
            let stays = mark == input.mark;
            input.mark = mark;
            stays
        }
        None => true,
    }
}

// Does so for all inputs that these producers read. Returns whether all marks stay.
fn move_all(inputs: &mut Vec<InputState>, producers: &[u32], marks: &mut MarkKeeper) -> bool
    ensures read { StillRead producers.now marks.old marks.new inputs.old.items inputs.new.items }
    ensures marks { GivesMore marks.old marks.new }
{
    let mut stay = true;
    for place in 0..inputs.len().min(producers.len()) {
        let stays = move_one(&mut inputs[place], producers[place], marks);
        stay = stay && stays;
    }
    stay
}

// What is said of a fault, after the name of the file that it is about.
fn fault_text(fault: ResumeFault) -> &'static [u8] {
    match fault {
        ResumeFault::State(StateFileFault::Form) => b": not a state of a run\n",
        ResumeFault::State(StateFileFault::Spent) => b": holds the last epoch, 4194303\n",
        ResumeFault::State(StateFileFault::Locked(_)) => b": another run has it\n",
        ResumeFault::State(_) => b": could not be used\n",
        ResumeFault::Places => b": is the state of other files, or of these in another order\n",
        ResumeFault::Changed(_, Changed::Device | Changed::Inode) => {
            b": is not the file that its state is of\n"
        }
        ResumeFault::Changed(_, Changed::Shorter) => b": is shorter than it was\n",
        ResumeFault::Changed(_, Changed::Start) => b": begins with other bytes than it did\n",
        ResumeFault::Device(_) => b": open or read failed\n",
        ResumeFault::LongPath(_) => b": its path is too long for a state\n",
    }
}

// The place among the files that are read of the one that a fault is about, if it is one of them.
fn place_of(fault: ResumeFault) -> Option<usize> {
    match fault {
        ResumeFault::Changed(place, _)
        | ResumeFault::Device(place)
        | ResumeFault::LongPath(place) => Some(place),
        ResumeFault::State(_) | ResumeFault::Places => None,
    }
}

fn exit_of(fault: ResumeFault) -> Exit {
    match fault {
        ResumeFault::State(StateFileFault::Memory) => Exit::Memory,
        ResumeFault::State(StateFileFault::Device(_) | StateFileFault::Locked(_)) => Exit::Device,
        ResumeFault::Device(_) => Exit::Device,
        ResumeFault::State(StateFileFault::Form | StateFileFault::Spent) => Exit::Input,
        ResumeFault::Places | ResumeFault::Changed(..) | ResumeFault::LongPath(_) => Exit::Input,
    }
}

/// Writes why the run does not go on, with the name of the file that this is about and beneath it the
/// process that has it, or the system's reason. Returns the exit status.
pub(crate) fn say_not_resumed<E: ByteOut>(
    alloc: Global,
    options: &RunOptions,
    fault: ResumeFault,
    err: &mut E,
) -> Result<Exit, AllocError> {
    let state = options.state.as_deref().unwrap_or("");
    let name = match place_of(fault) {
        Some(place) => options.files.get(place).map_or("", String::as_str),
        None => state,
    };
    let mut text = Vec::new(alloc);
    text.extend_from_slice(name.as_bytes())?;
    text.extend_from_slice(fault_text(fault))?;
    match fault {
        ResumeFault::State(StateFileFault::Memory) => return Err(AllocError),
        ResumeFault::State(StateFileFault::Device(reason)) => {
            text.extend_from_slice(&reason_line(alloc, reason)?)?;
        }
        ResumeFault::State(StateFileFault::Locked(Some(process))) => {
            text.extend_from_slice(b"  process ")?;
            add_number(&mut text, process)?;
            text.push(b'\n')?;
        }
        _ => {}
    }
    let _ = say(err, &text);
    Ok(exit_of(fault))
}

/// Writes for each file that is not read from its start on where it goes on.
pub(crate) fn say_resumed<E: ByteOut>(
    alloc: Global,
    files: &[String],
    starts: &[Mark],
    err: &mut E,
) -> Result<(), AllocError> {
    for place in 0..files.len().min(starts.len()) {
        let start = starts[place];
        if start.offset > 0 {
            let mut text = Vec::new(alloc);
            text.extend_from_slice(files[place].as_bytes())?;
            text.extend_from_slice(b": goes on after ")?;
            add_number(&mut text, start.count)?;
            text.extend_from_slice(b" operations, at line ")?;
            add_number(&mut text, start.line.saturating_add(1))?;
            text.push(b'\n')?;
            let _ = say(err, &text);
        }
    }
    Ok(())
}
