// A stream that goes on from its savepoint.
ghost use Rattle.std.specs.Prelude.{◌≡◌, ◌<◌, ◌≤◌, IfErr, IfOk, List, None, OnErr, OnOk, Some};
ghost use Rattle.job_file.specs.RequestSizes.{AreUpTo};
ghost use Rattle.jobs.specs.Job.{job_view};
ghost use Rattle.jobs.specs.JobView.{JobView};
ghost use Rattle.stream_rows.specs.declared.limits.TheConstants.{MAX_ROWS};
ghost use Rattle.stream_save.specs.StreamReading.{CanSaveStream};
ghost use Rattle.versions.specs.declared.limits.TheConstants.{MAX_STREAM_REQUESTS};
ghost use Rattle.versions.specs.declared.request.Request.{Request};
ghost use Rattle.stream_call.specs.Opened.{AreCutTo, GoesOnFrom, IsCutTo, IsOfFiles, IsOpened};
ghost use Rattle.stream_call.specs.Opened.{IsStreamSaveOf, resume_at, resume_of};
ghost use Rattle.stream_call.specs.Unopened.{AreUnmade, HasOnlyAlerts, IsNoStreamSave, IsShorter};
ghost use Rattle.stream_call.specs.Unopened.{StaysUncut, IsUnopened, Misfits};

use crate::fault::StreamFault;
use crate::opened::{Asked, Opened, Origin, Requested, asked_in, boxed, make_opened, mode_of};
use flow_model::Setup;
use fries_lines::FileIs;
use fries_steps::read_file;
use fries_words::StreamFiles;
use operators::Job;
use payments::GrowingShelf;
use std::alloc::Global;
use stream_intake::resume;
use stream_rows::MAX_ROWS;
use stream_run::fault_of;
use stream_save::{StreamSave, StreamSaveFault, read_stream, read_streams_can_be_saved};
use tuple_trace::{NoMemory, Word};
use versions::{Requests, accepted_requests_stay_accepted, judge_within};

/// Reads the job, the requests and the savepoint of a stream, and cuts its files to the lengths
/// that the savepoint has. The input leaves out `left_out` rows.
///
/// No file changes before all are read.
pub(crate) fn resume_files<S: GrowingShelf>(
    alloc: Global,
    files: &StreamFiles,
    save: &Word,
    left_out: u64,
    shelf: &mut S,
) -> Result<Box<Opened>, StreamFault>
    requires closed { (S.state shelf.old).draft ≡ None }
    ensures opened { IfOk result (λ opened.
        IsOpened files.now opened.value (S.state shelf.new).files) }
    ensures of { IfOk result (λ opened.
        IsOfFiles files.now (S.state shelf.old).files opened.value) }
    ensures from { IfOk result (λ opened. GoesOnFrom (resume_at save.now left_out) files.now
        (S.state shelf.old).files (S.state shelf.new).files opened.value) }
    ensures closed { OnOk result ((S.state shelf.new).draft ≡ None) }
    ensures faults { OnOk result ((S.state shelf.new).faults ≡ (S.state shelf.old).faults) }
    ensures cause { resume_of files.now.saving ≡ Some (resume_at save.now left_out)
        → IfErr result (IsUnopened files.now (S.state shelf.old) (S.state shelf.new)) }
{
    let Asked { job, source, file } = asked_in(alloc, files, shelf)?;
    let Saved { job, save } = saved_in(alloc, job, &file.requests, save, shelf)?;
    let origin = origin_of(&save, left_out)?;
    let Requested { bytes, requests } = file;
    let (job, save) = (Box::into_inner(job), Box::into_inner(save));
    let intake = resume(alloc, job, requests, mode_of(files), save)?;
    let intake = boxed(alloc, intake)?;
    let opened = make_opened(alloc, intake, bytes, source, origin)?;
    cut_files(files, origin, shelf)?;
    Ok(opened)
}

// A job, and a savepoint of a stream of it.
#[derive(Drop)]
struct Saved {
    job: Box<Job>,
    save: Box<StreamSave>,
}

fn saved_in<S: GrowingShelf>(
    alloc: Global,
    job: Box<Job>,
    requests: &Requests,
    name: &Word,
    shelf: &mut S,
) -> Result<Saved, StreamFault>
    requires few { AreUpTo MAX_STREAM_REQUESTS requests.now }
    ensures job { IfOk result (λ saved. saved.job.value ≡ job.value) }
    ensures read { IfOk result (λ saved. IsStreamSaveOf (S.state shelf.old).files name.now
        (job_view job.value) saved.save.value) }
    ensures saved { IfOk result (λ saved. CanSaveStream (job_view job.value) saved.save.value) }
    ensures files { (S.state shelf.new).files ≡ (S.state shelf.old).files }
    ensures draft { (S.state shelf.new).draft ≡ (S.state shelf.old).draft }
    ensures kept { OnOk result (S.state shelf.new ≡ S.state shelf.old) }
    ensures cause { IfErr result (IsNoStreamSave (S.state shelf.old).files name.now
        (job_view job.value) (S.state shelf.old).faults (S.state shelf.new).faults) }
{
    let text = read_file(alloc, FileIs::Save, name, shelf)?;
    let setup = setup_with(alloc, Box::into_inner(job), requests)?;
    let setup = boxed(alloc, setup)?;
    read_streams_can_be_saved(&setup);
    let save = read_stream(alloc, &setup, text.as_slice())?;
    let save = boxed(alloc, save)?;
    let Setup { job, .. } = Box::into_inner(setup);
    let job = boxed(alloc, job)?;
    Ok(Saved { job, save })
}

// A setup of a job and these requests. A savepoint is read by its job alone.
fn setup_with(alloc: Global, job: Job, requests: &Requests) -> Result<Setup, NoMemory>
    requires few { AreUpTo MAX_STREAM_REQUESTS requests.now }
    ensures { IfOk result (λ setup. setup.job ≡ job) }
{
    accepted_requests_stay_accepted();
    let judged = judge_within(alloc, &job, None, requests)?;
    Setup::make_for_stream(alloc, job, judged, false)
}

// Where a stream goes on; a fault if rows would be missing.
fn origin_of(save: &StreamSave, left_out: u64) -> Result<Origin, StreamFault>
    ensures left_out { IfOk result (λ origin. origin.left_out ≡ left_out) }
    ensures within { IfOk result (λ origin. left_out ≤ save.now.start.row) }
    ensures few { IfOk result (λ origin. save.now.start.row < MAX_ROWS) }
    ensures behind { IfOk result (λ origin. origin.behind ≡ Some save.now.start.row) }
    ensures alerts { IfOk result (λ origin. origin.alerts ≡ save.now.alerts) }
    ensures audit { IfOk result (λ origin. origin.audit ≡ save.now.audit) }
    ensures cause { IfErr result (λ why. (job : JobView) (requests : List Request)
        → Misfits job requests left_out save.now why) }
{
    let row = save.start.row;
    if left_out > row || row >= MAX_ROWS {
        return Err(StreamFault::Ahead(row));
    }
    Ok(Origin {
        left_out,
        behind: Some(row),
        alerts: save.alerts,
        audit: save.audit,
    })
}

// Cuts both files to the lengths that count.
fn cut_files<S: GrowingShelf>(
    files: &StreamFiles,
    origin: Origin,
    shelf: &mut S,
) -> Result<(), StreamFault>
    requires closed { (S.state shelf.old).draft ≡ None }
    ensures cut { OnOk result (AreCutTo files.now origin.alerts origin.audit
        (S.state shelf.old).files (S.state shelf.new).files) }
    ensures stopped { OnErr result (HasOnlyAlerts files.now (S.state shelf.old).files
        (S.state shelf.new).files) }
    ensures closed { (S.state shelf.new).draft ≡ None }
    ensures faults { OnOk result ((S.state shelf.new).faults ≡ (S.state shelf.old).faults) }
    ensures cause { IfErr result (AreUnmade files.now (S.state shelf.new).files
        (S.state shelf.old).faults (S.state shelf.new).faults) }
{
    let Origin { alerts, audit, .. } = origin;
    let short = StreamSaveFault::Alerts(alerts);
    cut_file(FileIs::Alerts, &files.alerts, alerts, short, shelf)?;
    let short = StreamSaveFault::Audit(audit);
    cut_file(FileIs::Audit, &files.audit, audit, short, shelf)
}

// Cuts a file to the length that counts. A file that is shorter has the fault `short`.
fn cut_file<S: GrowingShelf>(
    file: FileIs,
    name: &Word,
    size: u64,
    short: StreamSaveFault,
    shelf: &mut S,
) -> Result<(), StreamFault>
    requires closed { (S.state shelf.old).draft ≡ None }
    ensures cut { OnOk result (IsCutTo name.now size (S.state shelf.old).files
        (S.state shelf.new).files) }
    ensures as_before { OnErr result ((S.state shelf.new).files ≡ (S.state shelf.old).files) }
    ensures closed { (S.state shelf.new).draft ≡ None }
    ensures faults { OnOk result ((S.state shelf.new).faults ≡ (S.state shelf.old).faults) }
    ensures cause { IfErr result (StaysUncut file name.now
        (IsShorter (S.state shelf.new).files name.now size short)
        (S.state shelf.old).faults (S.state shelf.new).faults) }
{
    match shelf.cut(name, size) {
        Ok(true) => Ok(()),
        Ok(false) => Err(StreamFault::Save(short)),
        Err(why) => Err(StreamFault::Call(fault_of(file, why))),
    }
}
