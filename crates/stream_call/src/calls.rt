ghost use Rattle.std.specs.Prelude.{◌≡◌, ◌⊎◌, ◌≤◌, ◌-◌, [], IfErr, IfNone, IfOk, IfSome, None};
ghost use Rattle.std.specs.Prelude.{OnOk, Some};
ghost use Rattle.fries_words.specs.Asked.{IsSize};
ghost use Rattle.stream_run.specs.Standing.{Stands};
ghost use Rattle.stream_call.specs.Faults.{stream_status_for};
ghost use Rattle.stream_call.specs.Ended.{AreKept, EndsWhole, HasEndedAt, HasStreamed, IsLeftBy};
ghost use Rattle.stream_call.specs.Ended.{HasStopped, IsUnended, IsUnprinted, end_lines};
ghost use Rattle.stream_call.specs.Ended.{stream_leaves};
ghost use Rattle.stream_call.specs.Ended.{terms, terms_of};
ghost use Rattle.stream_call.specs.Opened.{IsOpened, Opens, every_of as every_in, names_of};
ghost use Rattle.stream_call.specs.Unopened.{IsUnopened};
ghost use Rattle.jobs.specs.Job.{job_view};
ghost use Rattle.jobs.specs.Nodes.{IsSourceOf};
ghost use Rattle.fries_steps.specs.Effects.{Prints};
ghost use Rattle.payments.specs.World.{world};
ghost use Rattle.stream_run.specs.Growing.{IsBooked};
ghost use Rattle.stream_rows.specs.Reader.{fed_of};
ghost use Rattle.stream_turns.specs.Taken.{HasReadText, at};
ghost use Rattle.stream_turns.specs.Turns.{CanTakeTurn};

use crate::begin::begin_files;
use crate::fault::StreamFault;
use crate::lines::{print_end, print_fault};
use crate::opened::Opened;
use crate::resume::resume_files;
use fries_lines::Fault;
use fries_steps::Host;
use fries_words::{StreamFiles, StreamSaving};
use input_pieces::Tap;
use lane_core::Lanes;
use lane_ring::RingLanes;
use payments::{GrowingShelf, Sink};
use std::alloc::Global;
use std::mem;
use std::sync::Wait;
use std::thread::Threads;
use stream_parts::{end_stream, save_if_asked};
use stream_run::{StreamCall, StreamHost, StreamNames, Watch};
use stream_save::StreamSaveFault;
use stream_step::{Stream, parts_go_on};
use stream_turns::{End, Stopped, StreamInputs, run_stream};
use tuple_trace::Gate;
use versions::Refusals;

/// What a stream came to, if it ended.
#[derive(Drop)]
pub struct StreamOutcome {
    /// The status that the program ends with: that of the fault; without one 0, and 8 where a
    /// request was refused.
    pub status: u8,
    /// What ended the stream early, if anything did.
    pub fault: Option<StreamFault>,
    /// The requests that were refused since the call began, in the order of their file.
    pub refused: Refusals,
}

/// Runs a stream of the rows that come by the tap, until its input ends or has a fault.
///
/// The watch is told of each part that has ended, each savepoint, and each reading of the requests
/// that was skipped. At the end the lines of `run` are printed, or the line of a fault.
pub fn stream<R, S, O, T, G, W>(
    host: &Host<'_, R, G>,
    files: &StreamFiles,
    shelf: &mut S,
    out: &mut O,
    tap: &mut T,
    watch: &mut W,
) -> StreamOutcome
where
    R: Threads + Wait + Copy + Send + Sync + 'static,
    S: GrowingShelf,
    O: Sink,
    T: Tap,
    G: Gate + Sync,
    W: Watch,
    requires size { IsSize files.now.size }
    requires closed { (S.state shelf.old).draft ≡ None }
    ensures ran { IfNone result.fault (HasStreamed files.now
        (world (S.state shelf.old) (O.state out.old)) (world (S.state shelf.new) (O.state out.new))
        (T.state tap.old) (T.state tap.new) result.refused) }
    ensures stopped { IfSome result.fault (HasStopped files.now
        (world (S.state shelf.old) (O.state out.old)) (world (S.state shelf.new) (O.state out.new))
        (T.state tap.old) (T.state tap.new) result.refused) }
    ensures status { result.status ≡ stream_status_for result.fault result.refused }
{
    let alloc = host.alloc;
    match open(alloc, files, shelf) {
        Ok(opened) => {
            let opened = Box::into_inner(opened);
            let ran = run_opened(host, files, opened, tap, shelf, watch);
            outcome_of(alloc, ran, out)
        }
        Err(fault) => outcome_with(alloc, Some(fault), Refusals::new(alloc), out),
    }
}

// Prints the lines at the end of a stream, or that of its fault.
fn outcome_of<O: Sink>(alloc: Global, ran: Ran, out: &mut O) -> StreamOutcome
    ensures none { IfNone result.fault ((ran.fault ≡ None) × Prints (end_lines ran.inputs ran.rows)
        (O.state out.old) (O.state out.new) None) }
    ensures some { IfSome result.fault (λ why. (ran.fault ≡ Some why)
        ⊎ (ran.fault ≡ None) × IsUnprinted (end_lines ran.inputs ran.rows) (O.state out.old) why) }
    ensures refused { result.refused ≡ ran.inputs.refused }
    ensures status { result.status ≡ stream_status_for result.fault result.refused }
{
    let fault = end_fault(alloc, &ran, out);
    let mut inputs = ran.inputs;
    let refused = mem::replace(&mut inputs.refused, Refusals::new(alloc));
    outcome_with(alloc, fault, refused, out)
}

// The fault of a stream. If it has none, its lines are printed, and the output may refuse them.
fn end_fault<O: Sink>(alloc: Global, ran: &Ran, out: &mut O) -> Option<StreamFault>
    ensures none { IfNone result ((ran.now.fault ≡ None)
        × Prints (end_lines ran.now.inputs ran.now.rows) (O.state out.old) (O.state out.new) None) }
    ensures some { IfSome result (λ why. (ran.now.fault ≡ Some why) ⊎ (ran.now.fault ≡ None)
        × IsUnprinted (end_lines ran.now.inputs ran.now.rows) (O.state out.old) why) }
{
    match ran.fault {
        Some(fault) => Some(fault),
        None => match print_end(alloc, &ran.inputs, ran.rows, out) {
            Ok(()) => None,
            Err(fault) => Some(StreamFault::Call(fault)),
        },
    }
}

// Prints the line of the fault, if there is one.
fn outcome_with<O: Sink>(
    alloc: Global,
    fault: Option<StreamFault>,
    refused: Refusals,
    out: &mut O,
) -> StreamOutcome
    ensures fault { result.fault ≡ fault }
    ensures refused { result.refused ≡ refused }
    ensures status { result.status ≡ stream_status_for result.fault result.refused }
    ensures none { fault ≡ None → O.state out.new ≡ O.state out.old }
{
    let status = match fault {
        Some(fault) => {
            print_fault(alloc, fault, out);
            fault.status()
        }
        None if refused.is_empty() => 0,
        None => 8,
    };
    StreamOutcome {
        status,
        fault,
        refused,
    }
}

fn open<S: GrowingShelf>(
    alloc: Global,
    files: &StreamFiles,
    shelf: &mut S,
) -> Result<Box<Opened>, StreamFault>
    requires closed { (S.state shelf.old).draft ≡ None }
    ensures opens { IfOk result (λ opened.
        Opens files.now (S.state shelf.old) (S.state shelf.new) opened.value) }
    ensures closed { OnOk result ((S.state shelf.new).draft ≡ None) }
    ensures cause { IfErr result (IsUnopened files.now (S.state shelf.old)
        (S.state shelf.new)) }
{
    if files.alerts.as_str() == files.audit.as_str() {
        return Err(StreamFault::Call(Fault::Usage));
    }
    match &files.saving {
        Some(
            StreamSaving {
                file,
                resume: Some(left_out),
                ..
            },
        ) => resume_files(alloc, files, file, *left_out, shelf),
        _ => begin_files(alloc, files, shelf),
    }
}

// A stream that was run as far as it went.
#[derive(Drop)]
struct Ran {
    inputs: StreamInputs,
    /// How many rows were run.
    rows: u64,
    fault: Option<StreamFault>,
}

fn run_opened<'a, R, S, T, G, W>(
    host: &Host<'a, R, G>,
    files: &'a StreamFiles,
    opened: Opened,
    tap: &mut T,
    shelf: &mut S,
    watch: &mut W,
) -> Ran
where
    R: Threads + Wait + Copy + Send + Sync + 'static,
    S: GrowingShelf,
    T: Tap,
    G: Gate + Sync,
    W: Watch,
    requires size { IsSize files.now.size }
    requires opened { IsOpened files.now opened (S.state shelf.old).files }
    requires closed { (S.state shelf.old).draft ≡ None }
    ensures whole { IfNone result.fault (EndsWhole (terms_of files.now opened)
        (at opened.stream (S.state shelf.old).files opened.inputs (T.state tap.old))
        (stream_leaves result.inputs (T.state tap.new) (S.state shelf.new))) }
    ensures left { IfSome result.fault (IsLeftBy (terms_of files.now opened)
        (at opened.stream (S.state shelf.old).files opened.inputs (T.state tap.old))
        (S.state shelf.old).faults
        (stream_leaves result.inputs (T.state tap.new) (S.state shelf.new))) }
    ensures rows { result.rows ≡ fed_of result.inputs.reader - opened.stream.start.row }
{
    let Opened {
        stream,
        mut inputs,
        source,
        behind,
    } = opened;
    let call = StreamCall {
        host: StreamHost {
            rt: host.rt,
            alloc: host.alloc,
            form: &RingLanes,
            gate: host.gate,
            threads: files.size.threads,
            capacity: files.size.capacity,
        },
        names: names_in(files),
        every: every_of(files),
        behind,
        source,
    };
    let fault = run_to_end(&call, stream, &mut inputs, tap, shelf, watch).err();
    let begun = behind.unwrap_or(0);
    let rows = inputs.reader.fed().saturating_sub(begun);
    Ran {
        inputs,
        rows,
        fault,
    }
}

fn names_in(files: &StreamFiles) -> StreamNames<'_>
    ensures { result ≡ names_of files.now }
{
    StreamNames {
        requests: &files.plan.requests,
        alerts: &files.alerts,
        audit: &files.audit,
        save: match &files.saving {
            Some(saving) => &saving.file,
            None => &files.audit,
        },
    }
}

fn every_of(files: &StreamFiles) -> Option<u64>
    ensures { result ≡ every_in files.now.saving }
{
    match &files.saving {
        Some(saving) => Some(u64::from(saving.every)),
        None => None,
    }
}

// Runs a stream to its end. Its savepoint is written before its last part, so a stream that goes on
// from there makes that part again.
fn run_to_end<R, L: Lanes + Sync, G: Gate + Sync, T: Tap, S: GrowingShelf, W: Watch>(
    call: &StreamCall<'_, R, L, G>,
    stream: Stream,
    inputs: &mut StreamInputs,
    tap: &mut T,
    shelf: &mut S,
    watch: &mut W,
) -> Result<(), StreamFault>
where
    R: Threads + Wait + Sync,
    requires ready { CanTakeTurn call.now.source call.now.every stream inputs.old }
    requires unread { HasReadText (fed_of inputs.old.reader) []
        (at stream (S.state shelf.old).files inputs.old (T.state tap.old)) }
    requires closed { (S.state shelf.old).draft ≡ None }
    requires stands { Stands call.now.behind call.now.names stream (S.state shelf.old).files }
    ensures whole { OnOk result (EndsWhole
        (terms call.now.names call.now.every call.now.source)
        (at stream (S.state shelf.old).files inputs.old (T.state tap.old))
        (stream_leaves inputs.new (T.state tap.new) (S.state shelf.new))) }
    ensures left { IfErr result (IsLeftBy
        (terms call.now.names call.now.every call.now.source)
        (at stream (S.state shelf.old).files inputs.old (T.state tap.old))
        (S.state shelf.old).faults
        (stream_leaves inputs.new (T.state tap.new) (S.state shelf.new))) }
{
    parts_go_on();
    let Stopped { stream, end } = run_stream(call, stream, inputs, tap, shelf, watch)?;
    match end {
        End::Input => end_whole(call, stream, inputs, shelf, watch),
        End::Fault(fault) => {
            save_if_asked(call, stream, &mut inputs.books, shelf, watch)?;
            Err(StreamFault::Call(fault))
        }
    }
}

// Ends a stream whose input has ended: writes its savepoint, and runs the last part. The input may
// have fewer rows than were run before the call.
fn end_whole<R, L: Lanes + Sync, G: Gate + Sync, S: GrowingShelf, W: Watch>(
    call: &StreamCall<'_, R, L, G>,
    stream: Stream,
    inputs: &mut StreamInputs,
    shelf: &mut S,
    watch: &mut W,
) -> Result<(), StreamFault>
where
    R: Threads + Wait + Sync,
    requires source { IsSourceOf (job_view stream.setup.job) call.now.source }
    requires closed { (S.state shelf.old).draft ≡ None }
    requires stands { Stands call.now.behind call.now.names stream (S.state shelf.old).files }
    ensures enough { OnOk result (stream.start.row ≤ fed_of inputs.new.reader) }
    ensures ended { OnOk result ((ended : HasEndedAt
        (terms call.now.names call.now.every call.now.source) stream inputs.new.books
        (S.state shelf.old).files (S.state shelf.new).files)
        × IsBooked ended.is_saved.goes.written inputs.old.books inputs.new.books) }
    ensures left { IfErr result (IsUnended
        (terms call.now.names call.now.every call.now.source) stream (S.state shelf.old)
        (S.state shelf.new) inputs.new) }
    ensures kept { AreKept inputs.old inputs.new }
{
    let row = stream.start.row;
    if inputs.reader.fed() < row {
        return Err(StreamFault::Save(StreamSaveFault::Past(row)));
    }
    save_and_end(call, stream, inputs, shelf, watch)
}

// Writes the savepoint of a stream whose input has ended, and runs the last part.
fn save_and_end<R, L: Lanes + Sync, G: Gate + Sync, S: GrowingShelf, W: Watch>(
    call: &StreamCall<'_, R, L, G>,
    stream: Stream,
    inputs: &mut StreamInputs,
    shelf: &mut S,
    watch: &mut W,
) -> Result<(), StreamFault>
where
    R: Threads + Wait + Sync,
    requires source { IsSourceOf (job_view stream.setup.job) call.now.source }
    requires closed { (S.state shelf.old).draft ≡ None }
    requires stands { Stands call.now.behind call.now.names stream (S.state shelf.old).files }
    ensures ended { OnOk result ((ended : HasEndedAt
        (terms call.now.names call.now.every call.now.source) stream inputs.new.books
        (S.state shelf.old).files (S.state shelf.new).files)
        × IsBooked ended.is_saved.goes.written inputs.old.books inputs.new.books) }
    ensures left { IfErr result (IsUnended
        (terms call.now.names call.now.every call.now.source) stream (S.state shelf.old)
        (S.state shelf.new) inputs.new) }
    ensures kept { AreKept inputs.old inputs.new }
{
    let stream = save_if_asked(call, stream, &mut inputs.books, shelf, watch)?;
    let _last = end_stream(call, stream, &inputs.books, shelf)?;
    Ok(())
}
