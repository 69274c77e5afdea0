// What a stream begins with, anew or behind its savepoint.
ghost use Rattle.std.specs.Prelude.{◌≡◌, ◌<◌, [], IfErr, IfOk, OnOk, false, length, map};
ghost use Rattle.input_pieces.specs.Gathering.{is_over, kept_of};
ghost use Rattle.job_file.specs.RequestSizes.{AreUpTo};
ghost use Rattle.jobs.specs.Job.{job_view};
ghost use Rattle.jobs.specs.JobView.{JobView};
ghost use Rattle.jobs.specs.Nodes.{IsSourceOf};
ghost use Rattle.fries_lines.specs.Lines.{noted as noted_as};
ghost use Rattle.stream_rows.specs.Reader.{IsReadTo, fed_of};
ghost use Rattle.stream_rows.specs.declared.limits.TheConstants.{MAX_ROWS};
ghost use Rattle.versions.specs.declared.limits.TheConstants.{MAX_STREAM_REQUESTS};
ghost use Rattle.stream_call.specs.Opened.{AreStreamRequestsOf};
ghost use Rattle.stream_call.specs.Unopened.{AreNoStreamRequests, HasNoSource, TellNoStream};
ghost use Rattle.stream_call.specs.declared.fault.StreamFault.TheVariants.{Call};
ghost use Rattle.fries_steps.specs.Reading.{IsJobOf};

use fries_lines::{Fault, FileIs, noted};
use fries_steps::{job_in, read_file};
use fries_words::StreamFiles;
use input_pieces::Pieces;
use job_file::read_requests_up_to;
use jobs::{Job, is_source};
use payments::{PFault, Shelf};
use std::alloc::Global;
use stream_intake::Intake;
use stream_rows::RowReader;
use stream_run::{Books, Tally};
use stream_step::{Stream, StreamMode};
use stream_turns::StreamInputs;
use tuple_trace::{Bytes, NoMemory};
use versions::{MAX_STREAM_REQUESTS, Requests};

/// A stream that is to be run.
#[derive(Drop)]
pub(crate) struct Opened {
    pub(crate) stream: Stream,
    pub(crate) inputs: StreamInputs,
    /// The number of a source of its job.
    pub(crate) source: u32,
    /// Behind which row it goes on; `None` if it begins anew.
    pub(crate) behind: Option<u64>,
}

/// Where a stream's rows and files begin.
#[derive(Clone, Copy)]
pub(crate) struct Origin {
    /// How many rows the input leaves out.
    pub(crate) left_out: u64,
    pub(crate) behind: Option<u64>,
    /// How many bytes of the file of the alerts count.
    pub(crate) alerts: u64,
    /// How many bytes of the file of the audit count.
    pub(crate) audit: u64,
}

/// The file of a stream's requests, and what it holds.
#[derive(Drop)]
pub(crate) struct Requested {
    pub(crate) bytes: Bytes,
    pub(crate) requests: Requests,
}

/// What a stream is asked: its job, with the number of a source of it, and its requests.
#[derive(Drop)]
pub(crate) struct Asked {
    // Boxed, as all that has many parts is while a step may fail: each way out drops it.
    pub(crate) job: Box<Job>,
    pub(crate) source: u32,
    pub(crate) file: Requested,
}

/// A value in a block of its own. The one error is out of memory.
pub(crate) fn boxed<T: Drop>(alloc: Global, value: T) -> Result<Box<T>, NoMemory>
    ensures { IfOk result (λ made. made.value ≡ value) }
{
    Ok(Box::new(alloc, value)?)
}

/// Reads the job of a stream, and its requests for the first time.
pub(crate) fn asked_in<S: Shelf>(
    alloc: Global,
    files: &StreamFiles,
    shelf: &mut S,
) -> Result<Asked, Fault>
    ensures job { IfOk result (λ asked. IsJobOf (S.state shelf.old).files
        files.now.plan.job (job_view asked.job.value)) }
    ensures asked { IfOk result (λ asked. AreStreamRequestsOf (S.state shelf.old).files
        files.now.plan.requests (job_view asked.job.value) asked.file.requests) }
    ensures few { IfOk result (λ asked. AreUpTo MAX_STREAM_REQUESTS asked.file.requests) }
    ensures source { IfOk result (λ asked. IsSourceOf (job_view asked.job.value) asked.source) }
    ensures files { (S.state shelf.new).files ≡ (S.state shelf.old).files }
    ensures draft { (S.state shelf.new).draft ≡ (S.state shelf.old).draft }
    ensures kept { OnOk result (S.state shelf.new ≡ S.state shelf.old) }
    ensures cause { IfErr result (λ why. TellNoStream files.now (S.state shelf.old).files
        (S.state shelf.old).faults (S.state shelf.new).faults (Call why)) }
{
    let job = job_in(alloc, &files.plan.job, shelf)?;
    let job = boxed(alloc, job)?;
    let file = requested_in(alloc, &job, files, shelf)?;
    let source = source_of(&job)?;
    Ok(Asked { job, source, file })
}

// Reads the requests of a stream for the first time.
fn requested_in<S: Shelf>(
    alloc: Global,
    job: &Job,
    files: &StreamFiles,
    shelf: &mut S,
) -> Result<Requested, Fault>
    ensures asked { IfOk result (λ file. AreStreamRequestsOf (S.state shelf.old).files
        files.now.plan.requests (job_view job.now) file.requests) }
    ensures few { IfOk result (λ file. AreUpTo MAX_STREAM_REQUESTS file.requests) }
    ensures files { (S.state shelf.new).files ≡ (S.state shelf.old).files }
    ensures draft { (S.state shelf.new).draft ≡ (S.state shelf.old).draft }
    ensures kept { OnOk result (S.state shelf.new ≡ S.state shelf.old) }
    ensures cause { IfErr result (AreNoStreamRequests (S.state shelf.old).files
        files.now.plan.requests (job_view job.now)
        (S.state shelf.old).faults (S.state shelf.new).faults) }
{
    let bytes = read_file(alloc, FileIs::Requests, &files.plan.requests, shelf)?;
    let requests = read_requests_up_to(alloc, job, bytes.as_slice(), MAX_STREAM_REQUESTS)?;
    Ok(Requested { bytes, requests })
}

// The number of a source of the job; the fault of any first row, if the job has none.
fn source_of(job: &Job) -> Result<u32, Fault>
    ensures source { IfOk result (λ source. IsSourceOf (job_view job.now) source) }
    ensures none { IfErr result (λ why. (why ≡ Fault.Payments (PFault.Source 1))
        × HasNoSource (job_view job.now)) }
{
    let mut nodes = job.nodes.as_slice().iter();
    match nodes.position(|node| is_source(&node.func)) {
        Some(place) => Ok(place as u32),
        None => Err(Fault::Payments(PFault::Source(1))),
    }
}

/// How the stream is run.
pub(crate) fn mode_of(files: &StreamFiles) -> StreamMode
    ensures ordered { result.ordered ≡ files.now.plan.ordered }
    ensures exact { result.exact ≡ files.now.exact }
{
    StreamMode {
        ordered: files.plan.ordered,
        exact: files.exact,
    }
}

/// A stream whose file of requests has these bytes, and with the books as they are there. The one
/// error is out of memory.
pub(crate) fn make_opened(
    alloc: Global,
    intake: Box<Intake>,
    seen: Bytes,
    source: u32,
    origin: Origin,
) -> Result<Box<Opened>, NoMemory>
    requires few { origin.left_out < MAX_ROWS }
    ensures stream { IfOk result (λ opened. opened.value.stream ≡ intake.value.stream) }
    ensures known { IfOk result (λ opened. opened.value.inputs.known ≡ intake.value.known) }
    ensures refused { IfOk result (λ opened. opened.value.inputs.refused ≡ intake.value.refused) }
    ensures source { IfOk result (λ opened. opened.value.source ≡ source) }
    ensures behind { IfOk result (λ opened. opened.value.behind ≡ origin.behind) }
    ensures fed { IfOk result (λ opened. fed_of opened.value.inputs.reader ≡ origin.left_out) }
    ensures unread { IfOk result (λ opened. (job : JobView)
        → IsReadTo job origin.left_out opened.value.inputs.reader []) }
    ensures read { IfOk result (λ opened.
        opened.value.inputs.books.read ≡ length intake.value.known.requests) }
    ensures noted { IfOk result (λ opened.
        opened.value.inputs.books.refused.items ≡ map noted_as intake.value.refused) }
    ensures tally { IfOk result (λ opened. opened.value.inputs.books.tally ≡ record {
      alerts = origin.alerts;
      audit = origin.audit;
      unsaved = 0;
      shown = 0;
    }) }
    ensures kept { IfOk result (λ opened. kept_of opened.value.inputs.pieces ≡ []) }
    ensures goes_on { IfOk result (λ opened. is_over opened.value.inputs.pieces ≡ false) }
{
    let noted = noted(alloc, intake.refused.as_slice())?;
    let Intake {
        stream,
        known,
        refused,
    } = Box::into_inner(intake);
    let books = Books {
        refused: noted,
        read: known.requests.len() as u64,
        tally: Tally {
            alerts: origin.alerts,
            audit: origin.audit,
            unsaved: 0,
            shown: 0,
        },
    };
    let inputs = StreamInputs {
        pieces: Pieces::new(alloc),
        reader: RowReader::after(origin.left_out),
        known,
        seen,
        refused,
        books,
    };
    let opened = Opened {
        stream,
        inputs,
        source,
        behind: origin.behind,
    };
    boxed(alloc, opened)
}
