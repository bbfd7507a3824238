//! Sending files of operations to an index: the function behind `relay run`.
ghost use Rattle.std.specs.Prelude.{◌≡◌, IfOk, IfSome, IsTrue, length, map, string_bytes, true, vec_len};
ghost use Rattle.std.specs.Prelude.{◌≤◌, [], is_some, slice_get};
ghost use Rattle.relay_http.specs.WrittenRequest.{is_host};
ghost use Rattle.relay_run.specs.Places.{AllUntold};
ghost use Rattle.relay_run.specs.ReportFile.{AreNewHandles};
ghost use Rattle.relay_run.specs.Saving.{AreNew, AreUntold, lane_seat, seat_of};
ghost use Rattle.relay_run.specs.Settling.{teller_of};
ghost use Rattle.relay_run.specs.Markings.{EndsAsTold};
ghost use Rattle.relay_run.specs.Marks.{HasFiles, IsToldBy, IsToldIf, bound, bounds_in, bounds_of};
ghost use Rattle.relay_run.specs.Marks.{fixed_of, held_by, keeper_fixed};
ghost use Rattle.relay_run.specs.Written.{AreBegun, BeginsAt, GoIf, GoesBy, StartsAt};

use crate::keeping::{Ended, Keeper, Keeping, Kept, end_keeping, kept_of, start_keeping};
use crate::leasing::{config_of, say_no_epoch};
use crate::marking::{Marked, meet_marks};
use crate::noting::{Opened, SharedNote};
use crate::numbering::Numbering;
use crate::opening::{Reader, ReaderOptions, make_readers, notes_of, whole_size};
use crate::options::RunOptions;
use crate::producing::own_text;
use crate::report_file::ReportOut;
use crate::resolving::{is_known, say_unknown};
use crate::resuming::{Resumed, START, say_resumed};
use crate::run::Ran;
use crate::saying::{are_opened, say_left, say_notes, say_ran, say_start};
use crate::settling::{Ends, Telling};
use crate::skipping::{LeavingOut, sift_readers};
use crate::starting::{Devices, open_devices, say_not_started};
use crate::stopping::{SharedStop, Stop, share_stop};
use crate::telling::{SavingTell, make_tells};
use crate::waiting::{Job, run_until};
use crate::watching::{Counters, counters_of, share, start_watch, stop_watch};
use crate::wiring::{RunPace, RunWire, count_wires, make_paces, make_wires};
use relay_action::{ByteIn, ByteOut, write_all};
use relay_keeping::MarkKeeper;
use relay_lane::RelayConfig;
use relay_progress::Show;
use relay_resume::Mark;
use relay_threads::StartFault;
use relay_words::Exit;
use std::alloc::{AllocError, Global};
use std::io::IsTerminal;
use std::sync::{Arc, Wait};
use std::thread::Threads;
use std::time::Clock;

// What the threads of a run share.
#[derive(Drop)]
struct Common {
    // What may stop it.
    stop: Option<SharedStop>,
    counters: Counters,
    // The epoch, if it is that of a state.
    epoch: Option<u32>,
    // Where the files are read from.
    starts: Vec<Mark>,
}

// What the threads of a run tell by, what they share, and what is known of each file.
#[derive(Drop)]
struct Lanes {
    marked: Marked<ReportOut>,
    common: Common,
    notes: Vec<SharedNote>,
    show: Show,
}

// What the threads of a run tell by.
#[derive(Drop)]
struct Told {
    tells: Vec<SavingTell<ReportOut>>,
    inputs: Vec<Telling>,
}

// The wires and paces of a run, and what its lanes and producers are given.
fn job_of<S>(
    host: HostRuntime,
    alloc: Global,
    options: &RunOptions,
    config: RelayConfig,
    told: Told,
    readers: Vec<Option<S>>,
    counters: &Counters,
) -> Result<Job<RunWire, RunPace, S, ReportOut>, AllocError>
where
    S: ByteIn + Drop,
    requires host { IsTrue (is_host (string_bytes options.now.to)) }
    requires new { AreNew told.tells.items × AllUntold told.inputs.items }
    requires inputs { vec_len told.inputs ≡ config.producers }
    ensures config { IfOk result (λ j. j.config ≡ config) }
    ensures tells { IfOk result (λ j. j.tells ≡ told.tells.items) }
    ensures inputs { IfOk result (λ j. j.inputs ≡ told.inputs.items) }
{
    let wires = make_wires(host, alloc, options, &counters.dials)?;
    let wires = count_wires(alloc, wires, &counters.wires)?;
    let paces = make_paces(host, alloc, options.config.lanes)?;
    let Told { tells, inputs } = told;
    Ok(Job::new(config, wires, paces, tells, inputs, readers))
}

// Writes how a run has ended, after what the keeper of its marks took, if there is one, was compared with
// what its threads told, and returns the exit status.
fn say_end<W: Drop, O: ByteOut, E: ByteOut>(
    alloc: Global,
    options: &RunOptions,
    epoch: u32,
    opened: &[bool],
    notes: &[SharedNote],
    common: &Common,
    ended: &Ended,
    marks: Option<MarkKeeper>,
    ran: Option<Result<Ran<W, ReportOut>, StartFault>>,
    out: &mut O,
    err: &mut E,
) -> Result<Exit, AllocError>
    requires opened { length opened.now ≡ vec_len options.now.files }
    requires notes { length notes.now ≡ vec_len options.now.files }
    requires stops { IfSome ran (λ o. IfOk o (λ r. vec_len r.faults
        ≡ vec_len options.now.files)) }
    requires told { IfSome ran (λ o. IfOk o (λ r. IfOk r.end (λ _. IsToldIf (bounds_of marks)
        (map teller_of r.inputs.items) (map seat_of r.tells.items)))) }
    requires goes { GoIf marks ended.now.state }
    requires paths { IfSome ended.now.state (λ s. s.reads.files
        ≡ map string_bytes options.now.files.items) }
{
    let starts = &common.starts;
    match ran {
        Some(Ok(ran)) => say_ran(
            alloc,
            options,
            epoch,
            opened,
            notes,
            starts,
            met_ran(alloc, &options.files, marks, &ended.state, ran),
            &common.stop,
            out,
            err,
        ),
        Some(Err(fault)) => Ok(say_start(fault, err)),
        None => Ok(say_left(err)),
    }
}

// What the threads tell by, and the thread that keeps it, if one does.
fn parts_of(marked: Marked<ReportOut>) -> (Told, Option<Keeping>)
    ensures tells { result.0.tells.items ≡ marked.tells }
    ensures inputs { result.0.inputs.items ≡ marked.inputs }
    ensures fixed { held_by result.1 ≡ marked.fixed }
    ensures told { IsToldIf (bounds_in (held_by result.1)) (map teller_of result.0.inputs.items)
        (map seat_of result.0.tells.items) }
{
    let (tells, inputs, keeping) = marked.into_parts();
    (Told { tells, inputs }, keeping)
}

// Compares what the keeper took with what the threads of a run told, if it has ended with a summary.
fn meet_if(
    alloc: Global,
    files: &[String],
    marks: MarkKeeper,
    state: &Resumed,
    is_whole: bool,
    inputs: Vec<Telling>,
    tells: Vec<SavingTell<ReportOut>>,
) -> Result<(), AllocError>
    requires told { is_whole ≡ true → IsToldBy (bound marks) (map teller_of inputs.items)
        (map seat_of tells.items) }
    requires goes { GoesBy marks state.now }
    requires paths { state.now.reads.files ≡ map string_bytes files.now }
{
    if is_whole {
        meet_marks(alloc, files, marks, state, inputs, tells)?;
    }
    Ok(())
}

// Does so with what a run gave back that has ended, if there is a keeper: in proofs, this shows what is
// before each mark that it gave. If memory is short for that, nothing is shown, and the run ends as ever.
fn met_ran<W: Drop>(
    alloc: Global,
    files: &[String],
    marks: Option<MarkKeeper>,
    state: &Option<Resumed>,
    ran: Ran<W, ReportOut>,
) -> Ran<W, ReportOut>
    requires told { IfOk ran.end (λ _. IsToldIf (bounds_of marks) (map teller_of ran.inputs.items)
        (map seat_of ran.tells.items)) }
    requires goes { GoIf marks state.now }
    requires paths { IfSome state.now (λ s. s.reads.files ≡ map string_bytes files.now) }
    ensures { result.faults ≡ ran.faults }
{
    let Ran {
        faults,
        end,
        tells,
        unsaved,
        inputs,
    } = ran;
    if let (Some(marks), Some(state)) = (marks, state) {
        let _ = meet_if(alloc, files, marks, state, end.is_ok(), inputs, tells);
    }
    Ran {
        faults,
        end,
        tells: Vec::new(alloc),
        unsaved,
        inputs: Vec::new(alloc),
    }
}

// What has become of a run.
#[derive(Drop)]
struct Over {
    // How it has ended; it was left if there is nothing.
    ran: Option<Result<Ran<RunWire, ReportOut>, StartFault>>,
    // The state that was kept, if there is one, and the keeper of its marks.
    ended: Ended,
    marks: Option<MarkKeeper>,
}

// Runs a job, and shows meanwhile how far it has got.
fn run_shown<R, S>(
    rt: R,
    host: HostRuntime,
    options: &RunOptions,
    job: Job<RunWire, RunPace, S, ReportOut>,
    common: &Common,
    show: Show,
) -> Result<Option<Result<Ran<RunWire, ReportOut>, StartFault>>, AllocError>
where
    R: Threads + Wait + Clock + Copy + Send + 'static,
    S: ByteIn + Drop + Send + 'static,
    ensures count { IfOk result (λ o. IfSome o
        (λ ran. IfOk ran (λ r. vec_len r.faults ≡ job.config.producers))) }
    ensures told { IfOk result (λ o. IfSome o (λ ran. IfOk ran (λ r. EndsAsTold job.inputs
        job.tells r.end r.inputs.items r.tells.items))) }
{
    let alloc = host.alloc();
    let watch = start_watch(rt, host, alloc, show, share(&common.counters.dials)?)?;
    let index = options.index.as_deref();
    let limit = options.until.as_ref().map(|_| options.timeout);
    let ran = run_until(rt, alloc, job, index, &common.stop, limit);
    stop_watch(&rt, watch);
    ran
}

// Runs these readers over TCP with this config, and ends the thread beside the run.
fn run_beside<R, S>(
    rt: R,
    host: HostRuntime,
    options: &RunOptions,
    config: RelayConfig,
    readers: Vec<Option<S>>,
    marked: Marked<ReportOut>,
    common: &Common,
    show: Show,
) -> Result<Over, AllocError>
where
    R: Threads + Wait + Clock + Copy + Send + 'static,
    S: ByteIn + Drop + Send + 'static,
    requires host { IsTrue (is_host (string_bytes options.now.to)) }
    requires new { AreNew marked.tells × AllUntold marked.inputs }
    requires inputs { length marked.inputs ≡ config.producers }
    requires paths { HasFiles (map string_bytes options.now.files.items) marked.fixed }
    ensures stops { IfOk result (λ v. IfSome v.ran (λ o. IfOk o (λ r. vec_len r.faults
        ≡ config.producers))) }
    ensures told { IfOk result (λ v. IfSome v.ran (λ o. IfOk o (λ r. IfOk r.end (λ _. IsToldIf
        (bounds_of v.marks) (map teller_of r.inputs.items) (map seat_of r.tells.items))))) }
    ensures goes { IfOk result (λ v. GoIf v.marks v.ended.state) }
    ensures paths { IfOk result (λ v. IfSome v.ended.state (λ s. s.reads.files
        ≡ map string_bytes options.now.files.items)) }
{
    let alloc = host.alloc();
    let (told, keeping) = parts_of(marked);
    let job = job_of(
        host,
        alloc,
        options,
        config,
        told,
        readers,
        &common.counters,
    )?;
    let ran = run_shown(rt, host, options, job, common, show);
    let (ended, marks) = end_keeping(&rt, alloc, keeping);
    Ok(Over {
        ran: ran?,
        ended,
        marks,
    })
}

// Does so, and writes the outcome.
fn run_readers<R, S, O, E>(
    rt: R,
    host: HostRuntime,
    options: &RunOptions,
    config: RelayConfig,
    readers: Vec<Option<S>>,
    lanes: Lanes,
    out: &mut O,
    err: &mut E,
) -> Result<Exit, AllocError>
where
    R: Threads + Wait + Clock + Copy + Send + 'static,
    S: ByteIn + Drop + Send + 'static,
    O: ByteOut,
    E: ByteOut,
    requires host { IsTrue (is_host (string_bytes options.now.to)) }
    requires files { vec_len options.now.files ≡ config.producers }
    requires readers { vec_len readers ≡ vec_len options.now.files }
    requires notes { vec_len lanes.notes ≡ vec_len options.now.files }
    requires new { AreNew lanes.marked.tells × AllUntold lanes.marked.inputs }
    requires inputs { length lanes.marked.inputs ≡ config.producers }
    requires paths { HasFiles (map string_bytes options.now.files.items) lanes.marked.fixed }
{
    let alloc = host.alloc();
    let Lanes {
        marked,
        common,
        notes,
        show,
    } = lanes;
    let opened = are_opened(alloc, &readers)?;
    let over = run_beside(rt, host, options, config, readers, marked, &common, show)?;
    let Over { ran, ended, marks } = over;
    let exit = say_end(
        alloc,
        options,
        config.epoch,
        &opened,
        &notes,
        &common,
        &ended,
        marks,
        ran,
        out,
        err,
    )?;
    ended.say(alloc, exit, err)
}

// Runs these readers without invalid operations, and says how many were left out.
fn run_sifted<R, O, E>(
    rt: R,
    host: HostRuntime,
    options: &RunOptions,
    config: RelayConfig,
    readers: Vec<Option<Reader<R>>>,
    leaving: LeavingOut<ReportOut>,
    lanes: Lanes,
    out: &mut O,
    err: &mut E,
) -> Result<Exit, AllocError>
where
    R: Threads + Wait + Clock + Copy + Send + 'static,
    O: ByteOut,
    E: ByteOut,
    requires host { IsTrue (is_host (string_bytes options.now.to)) }
    requires files { vec_len options.now.files ≡ config.producers }
    requires readers { vec_len readers ≡ vec_len options.now.files }
    requires notes { vec_len lanes.notes ≡ vec_len options.now.files }
    requires new { AreNew lanes.marked.tells × AllUntold lanes.marked.inputs }
    requires inputs { length lanes.marked.inputs ≡ config.producers }
    requires paths { HasFiles (map string_bytes options.now.files.items) lanes.marked.fixed }
{
    let alloc = host.alloc();
    let left_out = Arc::try_clone(&leaving.notes)?;
    let sifted = sift_readers(alloc, readers, leaving, options.index.as_deref())?;
    let exit = run_readers(rt, host, options, config, sifted, lanes, out, err)?;
    say_notes(alloc, options, exit, &left_out, err)
}

// What the threads of a run tell by, what they share, and where the lines of invalid operations go, if
// these are left out.
#[derive(Drop)]
struct Going {
    marked: Marked<ReportOut>,
    common: Common,
    leaving: Option<LeavingOut<ReportOut>>,
}

// What is shown of the progress of a run with this config.
fn show_of(
    host: HostRuntime,
    alloc: Global,
    options: &RunOptions,
    config: RelayConfig,
    sources: &[Opened],
    starts: &[Mark],
) -> Result<Show, AllocError> {
    Ok(Show {
        lines: options.progress,
        over: host.stderr().is_terminal(),
        address: String::from_str(alloc, options.to.as_str())?,
        size: whole_size(sources, starts),
        log: options.log,
        epoch: config.epoch,
        lanes: config.lanes,
    })
}

// The readers of these files.
fn readers_of<R>(
    rt: R,
    alloc: Global,
    options: &RunOptions,
    sources: Vec<Opened>,
    common: &Common,
) -> Result<Vec<Option<Reader<R>>>, AllocError>
where
    R: Threads + Wait + Clock + Copy + Send + 'static,
    ensures { IfOk result (λ v. vec_len v ≡ vec_len sources) }
{
    let reading = ReaderOptions {
        counts: share(&common.counters.readers)?,
        stop: share_stop(&common.stop)?,
        waits: options.until.is_some(),
    };
    make_readers(rt, alloc, sources, &reading)
}

// Runs the files over TCP with this config, and writes the outcome.
fn run_said<R, O, E>(
    rt: R,
    host: HostRuntime,
    options: &RunOptions,
    config: RelayConfig,
    sources: Vec<Opened>,
    going: Going,
    out: &mut O,
    err: &mut E,
) -> Result<Exit, AllocError>
where
    R: Threads + Wait + Clock + Copy + Send + 'static,
    O: ByteOut,
    E: ByteOut,
    requires host { IsTrue (is_host (string_bytes options.now.to)) }
    requires files { vec_len options.now.files ≡ config.producers }
    requires sources { vec_len sources ≡ vec_len options.now.files }
    requires new { AreNew going.marked.tells × AllUntold going.marked.inputs }
    requires inputs { length going.marked.inputs ≡ config.producers }
    requires paths { HasFiles (map string_bytes options.now.files.items) going.marked.fixed }
{
    let alloc = host.alloc();
    let Going {
        marked,
        common,
        leaving,
    } = going;
    let show = show_of(host, alloc, options, config, &sources, &common.starts)?;
    let notes = notes_of(alloc, &sources)?;
    let readers = readers_of(rt, alloc, options, sources, &common)?;
    let lanes = Lanes {
        marked,
        common,
        notes,
        show,
    };
    match leaving {
        Some(leaving) => {
            run_sifted(rt, host, options, config, readers, leaving, lanes, out, err)
        }
        None => run_readers(rt, host, options, config, readers, lanes, out, err),
    }
}

// Does the same in the epoch of the run. If there is none, nothing is sent.
fn run_in_epoch<R, O, E>(
    rt: R,
    host: HostRuntime,
    options: &RunOptions,
    sources: Vec<Opened>,
    going: Going,
    out: &mut O,
    err: &mut E,
) -> Result<Exit, AllocError>
where
    R: Threads + Wait + Clock + Copy + Send + 'static,
    O: ByteOut,
    E: ByteOut,
    requires host { IsTrue (is_host (string_bytes options.now.to)) }
    requires files { vec_len options.now.files ≡ options.now.config.producers }
    requires sources { vec_len sources ≡ vec_len options.now.files }
    requires new { AreNew going.marked.tells × AllUntold going.marked.inputs }
    requires inputs { length going.marked.inputs ≡ options.now.config.producers }
    requires paths { HasFiles (map string_bytes options.now.files.items) going.marked.fixed }
{
    let alloc = host.alloc();
    if let Some(epoch) = going.common.epoch {
        let config = RelayConfig {
            epoch,
            ..options.config
        };
        return run_said(rt, host, options, config, sources, going, out, err);
    }
    match config_of(host, alloc, options) {
        Ok(config) => run_said(rt, host, options, config, sources, going, out, err),
        Err(fault) => say_no_epoch(alloc, &fault, err),
    }
}

// Where the files are read from: from their starts on without a state.
fn starts_of(
    alloc: Global,
    resumed: &Option<Resumed>,
    files: usize,
) -> Result<Vec<Mark>, AllocError>
    ensures count { IfOk result (λ v. vec_len v ≡ files) }
    ensures starts { IfSome resumed.now (λ r. length r.starts ≤ files
        → IfOk result (λ v. StartsAt r.starts v.items)) }
{
    let mut starts = Vec::new(alloc);
    'files: for place in 0..files {
        starts.push(start_at(resumed, place))?;
    }
    Ok(starts)
}

// Where the file at this place is read from.
fn start_at(resumed: &Option<Resumed>, place: usize) -> Mark
    ensures { IfSome resumed.now (λ r. IfSome (slice_get r.starts place) (λ m. result ≡ m)) }
{
    match resumed {
        Some(resumed) => resumed.start(place).unwrap_or(START),
        None => START,
    }
}

// By what the threads of a run with so many lanes tell how far the files are settled, which is kept in
// a state if there is one.
fn ends_of(
    alloc: Global,
    resumed: &Option<Resumed>,
    starts: &[Mark],
    lanes: usize,
) -> Result<Ends, AllocError>
    ensures inputs { IfOk result (λ e. vec_len e.inputs ≡ length starts.now) }
    ensures lanes { IfOk result (λ e. vec_len e.lanes ≡ lanes) }
    ensures new { IfOk result (λ e. AllUntold e.inputs.items × AreUntold e.lanes.items) }
    ensures told { IfOk result (λ e. IsToldIf (bounds_of e.keeper) (map teller_of e.inputs.items)
        (map lane_seat e.lanes.items)) }
    ensures keeper { IfOk result (λ e. IfSome e.keeper (λ k. (k.starts ≡ starts.now)
        × (k.given ≡ []))) }
    ensures kept { IsTrue (is_some resumed.now) → IfOk result (λ e. is_some e.keeper ≡ true) }
{
    match resumed {
        Some(_) => Ends::new(alloc, starts, lanes),
        None => Ends::none(alloc, starts.len(), lanes),
    }
}

// What the threads of a run share.
fn common_of(
    host: HostRuntime,
    alloc: Global,
    options: &RunOptions,
    resumed: &Option<Resumed>,
    starts: Vec<Mark>,
) -> Result<Common, AllocError>
    ensures { IfOk result (λ c. c.starts.items ≡ starts.items) }
{
    let terminal = host.stderr().is_terminal();
    let counters = counters_of(alloc, options.progress, options.log, terminal)?;
    let conflicts = share(&counters.wires)?;
    let stop = Stop::shared(alloc, options.max_reports as u64, conflicts)?;
    Ok(Common {
        stop: Some(stop),
        counters,
        epoch: resumed.as_ref().map(Resumed::epoch),
        starts,
    })
}

// What the thread beside a run does, if there is anything to keep or to look for.
fn keeper_of(
    host: HostRuntime,
    alloc: Global,
    options: &RunOptions,
    kept: Option<Kept>,
    common: &Common,
) -> Result<Option<Keeper>, AllocError>
    ensures { IfOk result (λ o. keeper_fixed o ≡ fixed_of kept) }
{
    let until = own_text(alloc, options.until.as_deref())?;
    if kept.is_none() && until.is_none() {
        return Ok(None);
    }
    let stop = share_stop(&common.stop)?;
    Ok(Some(Keeper::new(host, kept, until, stop)))
}

// Starts that thread, if it does anything.
fn keep_beside<R>(
    rt: R,
    host: HostRuntime,
    alloc: Global,
    options: &RunOptions,
    kept: Option<Kept>,
    common: &Common,
) -> Result<Option<Keeping>, AllocError>
where
    R: Threads + Wait + Clock + Copy + Send + 'static,
    ensures { IfOk result (λ o. held_by o ≡ fixed_of kept) }
{
    match keeper_of(host, alloc, options, kept, common)? {
        Some(keeper) => Ok(Some(start_keeping(rt, alloc, keeper)?)),
        None => Ok(None),
    }
}

// By what the threads of a run tell, with a thread that keeps what they tell and looks for the file that
// ends the run, if it is to do anything.
fn marked_beside<R>(
    rt: R,
    host: HostRuntime,
    options: &RunOptions,
    resumed: Option<Resumed>,
    handles: Vec<ReportOut>,
    ends: Ends,
    common: &Common,
) -> Result<Marked<ReportOut>, AllocError>
where
    R: Threads + Wait + Clock + Copy + Send + 'static,
    requires handles { AreNewHandles handles.items }
    requires lanes { vec_len ends.lanes ≡ vec_len handles }
    requires new { AllUntold ends.inputs.items × AreUntold ends.lanes.items }
    requires told { IsToldIf (bounds_of ends.keeper) (map teller_of ends.inputs.items)
        (map lane_seat ends.lanes.items) }
    requires begun { AreBegun resumed ends.keeper }
    requires paths { BeginsAt (map string_bytes options.now.files.items) resumed }
    ensures new { IfOk result (λ m. AreNew m.tells × AllUntold m.inputs) }
    ensures inputs { IfOk result (λ m. m.inputs ≡ ends.inputs.items) }
    ensures paths { IfOk result (λ m. HasFiles (map string_bytes options.now.files.items)
        m.fixed) }
{
    let alloc = host.alloc();
    let Ends {
        inputs,
        lanes,
        keeper,
    } = ends;
    let numbering = Numbering::of(&common.starts);
    let tells = make_tells(alloc, handles, numbering, &common.stop, lanes)?;
    let kept = kept_of(resumed, keeper);
    let keeping = keep_beside(rt, host, alloc, options, kept, common)?;
    Ok(Marked::new(tells, inputs, keeping))
}

// What the threads of a run tell by and share, of which one keeps the state if there is one.
fn going_of<R>(
    rt: R,
    host: HostRuntime,
    options: &RunOptions,
    resumed: Option<Resumed>,
    starts: Vec<Mark>,
    handles: Vec<ReportOut>,
    leaving: Option<LeavingOut<ReportOut>>,
) -> Result<Going, AllocError>
where
    R: Threads + Wait + Clock + Copy + Send + 'static,
    requires handles { AreNewHandles handles.items }
    requires begun { BeginsAt (map string_bytes options.now.files.items) resumed }
    requires starts { IfSome resumed (λ r. StartsAt r.starts starts.items) }
    ensures new { IfOk result (λ g. AreNew g.marked.tells × AllUntold g.marked.inputs) }
    ensures inputs { IfOk result (λ g. length g.marked.inputs ≡ vec_len starts) }
    ensures paths { IfOk result (λ g. HasFiles (map string_bytes options.now.files.items)
        g.marked.fixed) }
{
    let alloc = host.alloc();
    let ends = ends_of(alloc, &resumed, &starts, handles.len())?;
    let common = common_of(host, alloc, options, &resumed, starts)?;
    let marked = marked_beside(rt, host, options, resumed, handles, ends, &common)?;
    Ok(Going {
        marked,
        common,
        leaving,
    })
}

// Runs these files, and keeps the state meanwhile.
fn run_kept<R, O, E>(
    rt: R,
    host: HostRuntime,
    options: &RunOptions,
    devices: Devices,
    out: &mut O,
    err: &mut E,
) -> Result<Exit, AllocError>
where
    R: Threads + Wait + Clock + Copy + Send + 'static,
    O: ByteOut,
    E: ByteOut,
    requires host { IsTrue (is_host (string_bytes options.now.to)) }
    requires files { vec_len options.now.files ≡ options.now.config.producers }
    requires sources { vec_len devices.sources ≡ vec_len options.now.files }
    requires handles { AreNewHandles devices.handles.items }
    requires begun { BeginsAt (map string_bytes options.now.files.items) devices.resumed }
{
    let alloc = host.alloc();
    let Devices {
        handles,
        leaving,
        sources,
        resumed,
    } = devices;
    let starts = starts_of(alloc, &resumed, sources.len())?;
    say_resumed(alloc, &options.files, &starts, err)?;
    let going = going_of(rt, host, options, resumed, starts, handles, leaving)?;
    run_in_epoch(rt, host, options, sources, going, out, err)
}

// Looks up the address, opens the files, and does the same.
fn run_all<R, O, E>(
    rt: R,
    host: HostRuntime,
    options: &RunOptions,
    out: &mut O,
    err: &mut E,
) -> Result<Exit, AllocError>
where
    R: Threads + Wait + Clock + Copy + Send + 'static,
    O: ByteOut,
    E: ByteOut,
    requires host { IsTrue (is_host (string_bytes options.now.to)) }
    requires files { vec_len options.now.files ≡ options.now.config.producers }
{
    let alloc = host.alloc();
    if !is_known(&host, options.to.as_str(), options.patience) {
        return say_unknown(alloc, options.to.as_str(), err);
    }
    match open_devices(host, alloc, options) {
        Ok(devices) => run_kept(rt, host, options, devices, out, err),
        Err(fault) => say_not_started(alloc, options, fault, err),
    }
}

/// Writes the operations of the files to the index, each file with its own producer (`-` is
/// standard input), and writes the outcome: on `err` a line for each file that was not put in full,
/// in order, with the system's reason or what the line is about beneath it, and for a lane that did
/// not finish; on `out` a line for each operation that could not
/// be settled, by producer and number, and how many were applied, already applied and reported.
/// First the host of the address is looked up, within the patience, and if it is unknown, `err` gets
/// a line, nothing is put, and the exit status is `Device`. If asked for, the reports are also
/// saved, each as soon as it arises: the file for them is opened next, and if it cannot be, nothing
/// is put. Then the files are opened. If the epoch is taken from the index, that comes next; if there is none, `err`
/// gets a line that says why, nothing is put, and the exit status is `Device`, or `Memory`. If
/// progress is asked for, standard error shows meanwhile how far the run has got, and by the log what
/// goes wrong; without a log it shows with the progress, or on a terminal, when no connection can be
/// made.
///
/// A run stops reading once as many operations were reported as may be, or once a whole request got
/// a status by which all more is in vain before anything was applied; what was put by then is
/// delivered or reported. Then `err` gets a line that says why.
///
/// The exit status is `Usage` if the options are invalid, name standard input twice, or save the
/// reports in a file that is read, or in one that is not empty without being told to add to it;
/// then nothing is done. Otherwise a failed allocation takes
/// precedence over a device fault, that over an input fault, and that over reported operations.
pub fn run_files<R, O, E>(
    rt: R,
    host: HostRuntime,
    options: &RunOptions,
    out: &mut O,
    err: &mut E,
) -> Exit
where
    R: Threads + Wait + Clock + Copy + Send + 'static,
    O: ByteOut,
    E: ByteOut,
{
    if !options.is_valid() || !options.reads_input_once() {
        return Exit::Usage;
    }
    if !options.saves_apart() || !options.leaves_apart() || !options.may_resume() {
        return Exit::Usage;
    }
    match run_all(rt, host, options, out, err) {
        Ok(exit) => exit,
        Err(_) => {
            let _ = write_all(err, b"out of memory\n");
            Exit::Memory
        }
    }
}
