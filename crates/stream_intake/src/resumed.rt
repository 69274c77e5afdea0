// Where a stream goes on from its savepoint.
ghost use Rattle.std.specs.Prelude.{◌≡◌, ◌≢◌, ◌<◌, ◌≤◌, ◌+◌, ℕ, All, IfErr, IfOk, Some};
ghost use Rattle.std.specs.Prelude.{drop, length, min, take};
ghost use Rattle.jobs.specs.Job.{job_view};
ghost use Rattle.versions.specs.Judged.{judged_within};
ghost use Rattle.versions.specs.declared.request.Request.{Request};
ghost use Rattle.flow_model.specs.Setup.{setup_view};
ghost use Rattle.stream_save.specs.StreamReading.{CanSaveStream};
ghost use Rattle.stream_step.specs.Pending.{exact_from};
ghost use Rattle.stream_step.specs.Resumed.{IsResumed};
ghost use Rattle.stream_intake.specs.Intake.{IsKnownTo, IsMaskOfNodes, judged_in, refused_after};

use crate::intake::Intake;
use crate::known::{Known, parted};
use crate::mask::JobMask;
use crate::taken::{Taken, learn};
use operators::Job;
use std::alloc::Global;
use stream_law::{accepted_requests_split_within, later_requests_are_judged_later};
use stream_save::{StreamSave, StreamSaveFault};
use stream_step::{Stream, StreamMode};
use versions::{
    MAX_CHANGES, MAX_STREAM_REQUESTS, Requests, accepted_requests_stay_accepted, judge_within,
};

/// The stream that goes on from its savepoint, with the requests of its file as it is read now.
///
/// The first requests were known, as many as the savepoint has read, or all of a shorter file. Of
/// those that were accepted, the first were issued, as many as the savepoint turned, each after the
/// row of its wait. The later requests of the file are taken as [`crate::take`] does.
///
/// # Errors
///
/// [`StreamSaveFault::Count`] if the savepoint turned more of the known requests than are accepted.
/// Else out of memory. Both give up the job, its requests and the savepoint.
pub fn resume(
    alloc: Global,
    job: Job,
    requests: Requests,
    mode: StreamMode,
    save: StreamSave,
) -> Result<Intake, StreamSaveFault>
    requires few { length requests ≤ MAX_STREAM_REQUESTS }
    requires changes { All (λ (request : Request). length request.changes ≤ MAX_CHANGES) requests }
    requires saved { CanSaveStream (job_view job) save }
    ensures resumed { IfOk result (λ intake. IsResumed (job_view job)
        (judged_in intake.stream (take save.read requests)).accepted mode.ordered save
        (setup_view intake.stream.setup)) }
    ensures splits { IfOk result (λ intake. IsMaskOfNodes job.nodes intake.stream.setup.splits) }
    ensures start { IfOk result (λ intake. intake.stream.start ≡ save.start) }
    ensures exact { IfOk result (λ intake. intake.stream.exact
        ≡ exact_from mode.exact intake.stream.start.turned) }
    ensures known { IfOk result (λ intake. intake.known.requests ≡ requests) }
    ensures is_known { IfOk result (λ intake. IsKnownTo requests intake.stream) }
    ensures pending { IfOk result (λ intake. intake.stream.pending
        ≡ drop save.start.turned (judged_in intake.stream requests).accepted) }
    ensures refused { IfOk result (λ intake. intake.refused
        ≡ refused_after intake.stream (take save.read requests) requests) }
    ensures fault { IfErr result (λ fault. fault ≢ StreamSaveFault.NoMemory → (splits : ℕ)
        → IsMaskOfNodes job.nodes splits → (length (judged_within (Some splits) (job_view job)
        (take save.read requests)).accepted < save.start.turned)
        × (fault ≡ StreamSaveFault.Count (length (judged_within (Some splits) (job_view job)
        (take save.read requests)).accepted + 1))) }
{
    later_requests_are_judged_later();
    let read = read_of(&save, &requests);
    let (first, later) = parted(requests, read)?;
    let mut known = Known { requests: first };
    let stream = restored(alloc, job, &known, mode, save)?;
    let Taken { stream, refused } = learn(alloc, stream, &mut known, later)?;
    Ok(Intake {
        stream,
        known,
        refused,
    })
}

// How many of the requests the savepoint has read.
fn read_of(save: &StreamSave, requests: &Requests) -> usize
    ensures { result ≡ min save.now.read (length requests.now) }
{
    (save.read as usize).min(requests.len())
}

// The stream that goes on from its savepoint, which has read the known requests.
fn restored(
    alloc: Global,
    job: Job,
    known: &Known,
    mode: StreamMode,
    save: StreamSave,
) -> Result<Stream, StreamSaveFault>
    requires saved { CanSaveStream (job_view job) save }
    ensures resumed { IfOk result (λ stream. IsResumed (job_view job)
        (judged_in stream known.now.requests).accepted mode.ordered save (setup_view stream.setup)) }
    ensures splits { IfOk result (λ stream. IsMaskOfNodes job.nodes stream.setup.splits) }
    ensures start { IfOk result (λ stream. stream.start ≡ save.start) }
    ensures exact { IfOk result (λ stream. stream.exact
        ≡ exact_from mode.exact stream.start.turned) }
    ensures is_known { IfOk result (λ stream. IsKnownTo known.now.requests stream) }
    ensures pending { IfOk result (λ stream. stream.pending
        ≡ drop save.start.turned (judged_in stream known.now.requests).accepted) }
    ensures enough { IfOk result (λ stream. save.start.turned
        ≤ length (judged_in stream known.now.requests).accepted) }
    ensures fault { IfErr result (λ fault. fault ≢ StreamSaveFault.NoMemory → (splits : ℕ)
        → IsMaskOfNodes job.nodes splits → (length (judged_within (Some splits) (job_view job)
        known.now.requests).accepted < save.start.turned)
        × (fault ≡ StreamSaveFault.Count (length (judged_within (Some splits) (job_view job)
        known.now.requests).accepted + 1))) }
{
    accepted_requests_stay_accepted();
    accepted_requests_split_within();
    let JobMask { job, splits } = JobMask::of(alloc, job)?;
    let judged = judge_within(alloc, &job, Some(splits), &known.requests)?;
    Stream::resume(alloc, job, judged, mode, save)
}
