//! Opening what a run reads and writes, before anything is sent.
ghost use Rattle.std.specs.Prelude.{◌≡◌, [], IfOk, IfSome, map, string_bytes, vec_len};
ghost use Rattle.relay_run.specs.ReportFile.{AreNewHandles};
ghost use Rattle.relay_run.specs.Written.{BeginsAt};

use crate::noting::Opened;
use crate::opening::open_files;
use crate::options::RunOptions;
use crate::report_file::{
    FileOption, ReportFileFault, ReportOut, handles_of, open_report, say_refused,
};
use crate::resuming::{ResumeFault, Resumed, resume, say_not_resumed};
use crate::skipping::LeavingOut;
use crate::state_file::{StateFile, StateFileFault};
use relay_action::ByteOut;
use relay_sift::SiftNotes;
use relay_words::Exit;
use std::alloc::{AllocError, Global};
use std::fs::File;

/// Why a run does not start. Nothing was sent.
#[derive(Clone, Copy, Debug, PartialEq, Eq)]
pub(crate) enum OpenFault {
    /// It does not go on where its state says.
    Resume(ResumeFault),
    /// The file that this option names was not opened.
    File(FileOption, ReportFileFault),
    /// An allocation failed.
    Memory,
}

impl From<AllocError> for OpenFault {
    fn from(_error: AllocError) -> OpenFault {
        OpenFault::Memory
    }
}

impl From<StateFileFault> for OpenFault {
    fn from(fault: StateFileFault) -> OpenFault {
        OpenFault::Resume(ResumeFault::State(fault))
    }
}

impl From<ResumeFault> for OpenFault {
    fn from(fault: ResumeFault) -> OpenFault {
        OpenFault::Resume(fault)
    }
}

/// What a run goes by: the files that it reads and writes, and where it goes on.
#[derive(Drop)]
pub(crate) struct Devices {
    /// A handle of the file for the reports for each lane, or of none.
    pub handles: Vec<ReportOut>,
    /// Where the lines of invalid operations go, if these are left out.
    pub leaving: Option<LeavingOut<ReportOut>>,
    /// The files that it reads.
    pub sources: Vec<Opened>,
    /// The state by which it goes on, if there is one.
    pub resumed: Option<Resumed>,
}

// The file for the reports, if they are saved, with a handle for each lane.
#[derive(Drop)]
struct Reports {
    file: Option<File>,
    handles: Vec<ReportOut>,
}

// Opens the file for the reports, if they are saved. A run with a state adds to it.
fn open_reports(
    host: &HostRuntime,
    alloc: Global,
    options: &RunOptions,
) -> Result<Option<File>, ReportFileFault> {
    let Some(name) = &options.report else {
        return Ok(None);
    };
    let append = options.append || options.state.is_some();
    let file = open_report(host, alloc, name.as_str(), append, &options.files)?;
    Ok(Some(file))
}

// Does so, with a handle for each lane.
fn open_handles(
    host: &HostRuntime,
    alloc: Global,
    options: &RunOptions,
) -> Result<Reports, ReportFileFault>
    ensures { IfOk result (λ r. AreNewHandles r.handles.items) }
{
    let file = open_reports(host, alloc, options)?;
    let handles = handles_of(alloc, &file, options.config.lanes)?;
    Ok(Reports { file, handles })
}

// The paths that the file for invalid operations may not be: those that are read, and that for the
// reports.
fn taken_paths(alloc: Global, options: &RunOptions) -> Result<Vec<String>, AllocError> {
    let mut paths = Vec::new(alloc);
    for path in &options.files {
        paths.push(String::from_str(alloc, path.as_str())?)?;
    }
    if let Some(path) = &options.report {
        paths.push(String::from_str(alloc, path.as_str())?)?;
    }
    Ok(paths)
}

// Opens the file for the lines of invalid operations, if these are left out, with a handle for each
// file that is read.
fn open_leaving(
    host: &HostRuntime,
    alloc: Global,
    options: &RunOptions,
) -> Result<Option<LeavingOut<ReportOut>>, ReportFileFault> {
    let Some(name) = &options.skip_invalid else {
        return Ok(None);
    };
    let paths = taken_paths(alloc, options)?;
    let file = Some(open_report(host, alloc, name.as_str(), options.append, &paths)?);
    let files = handles_of(alloc, &file, options.config.producers)?;
    let notes = SiftNotes::shared(alloc)?;
    Ok(Some(LeavingOut { files, notes }))
}

// The files that a run writes.
#[derive(Drop)]
struct Outputs {
    reports: Reports,
    leaving: Option<LeavingOut<ReportOut>>,
}

// Opens them.
fn open_outputs(
    host: &HostRuntime,
    alloc: Global,
    options: &RunOptions,
) -> Result<Outputs, OpenFault>
    ensures { IfOk result (λ o. AreNewHandles o.reports.handles.items) }
{
    let reports = match open_handles(host, alloc, options) {
        Ok(reports) => reports,
        Err(fault) => return Err(OpenFault::File(FileOption::Report, fault)),
    };
    match open_leaving(host, alloc, options) {
        Ok(leaving) => Ok(Outputs { reports, leaving }),
        Err(fault) => Err(OpenFault::File(FileOption::SkipInvalid, fault)),
    }
}

// Takes the file of the state, if there is one.
fn take_state(
    host: HostRuntime,
    alloc: Global,
    options: &RunOptions,
) -> Result<Option<StateFile>, StateFileFault>
    ensures { IfOk result (λ o. IfSome o (λ f. f ≡ [])) }
{
    match &options.state {
        Some(path) => Ok(Some(StateFile::lock(host, alloc, path.as_str())?)),
        None => Ok(None),
    }
}

// Goes on where the state says, if there is one.
fn resume_from(
    alloc: Global,
    options: &RunOptions,
    state: Option<StateFile>,
    report: Option<File>,
    sources: &mut [Opened],
) -> Result<Option<Resumed>, ResumeFault>
    requires { IfSome state (λ f. f ≡ []) }
    ensures { IfOk result (BeginsAt (map string_bytes options.now.files.items)) }
{
    match state {
        Some(state) => {
            let least = options.config.epoch;
            Ok(Some(resume(alloc, state, report, &options.files, sources, least)?))
        }
        None => Ok(None),
    }
}

// Goes on with these files.
fn go_on(
    alloc: Global,
    options: &RunOptions,
    state: Option<StateFile>,
    outputs: Outputs,
    sources: Vec<Opened>,
) -> Result<Devices, OpenFault>
    requires handles { AreNewHandles outputs.reports.handles.items }
    requires state { IfSome state (λ f. f ≡ []) }
    ensures handles { IfOk result (λ d. AreNewHandles d.handles.items) }
    ensures sources { IfOk result (λ d. vec_len d.sources ≡ vec_len sources) }
    ensures begun { IfOk result (λ d. BeginsAt (map string_bytes options.now.files.items) d.resumed) }
{
    let Outputs { reports, leaving } = outputs;
    let Reports { file, handles } = reports;
    let mut sources = sources;
    let resumed = resume_from(alloc, options, state, file, &mut sources)?;
    Ok(Devices {
        handles,
        leaving,
        sources,
        resumed,
    })
}

/// Takes the file of the state, opens the files that are written and those that are read, and goes on
/// where the state says, each as far as the options ask for it.
pub(crate) fn open_devices(
    host: HostRuntime,
    alloc: Global,
    options: &RunOptions,
) -> Result<Devices, OpenFault>
    ensures handles { IfOk result (λ d. AreNewHandles d.handles.items) }
    ensures sources { IfOk result (λ d. vec_len d.sources ≡ vec_len options.now.files) }
    ensures begun { IfOk result (λ d. BeginsAt (map string_bytes options.now.files.items) d.resumed) }
{
    let state = take_state(host, alloc, options)?;
    let outputs = open_outputs(&host, alloc, options)?;
    let sources = open_files(&host, alloc, &options.files)?;
    go_on(alloc, options, state, outputs, sources)
}

// The path that this option names, if it does.
fn path_of(options: &RunOptions, option: FileOption) -> &str {
    let path = match option {
        FileOption::Report => &options.report,
        FileOption::SkipInvalid => &options.skip_invalid,
    };
    path.as_deref().unwrap_or("")
}

/// Writes why a run does not start, and returns the exit status. `AllocError`: an allocation failed,
/// here or before.
pub(crate) fn say_not_started<E: ByteOut>(
    alloc: Global,
    options: &RunOptions,
    fault: OpenFault,
    err: &mut E,
) -> Result<Exit, AllocError> {
    match fault {
        OpenFault::Resume(fault) => say_not_resumed(alloc, options, fault, err),
        OpenFault::File(option, fault) => {
            say_refused(alloc, option, path_of(options, option), fault, err)
        }
        OpenFault::Memory => Err(AllocError),
    }
}
