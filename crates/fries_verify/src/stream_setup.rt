// The setup of a whole stream.
ghost use Rattle.std.specs.Prelude.{IfOk};
ghost use Rattle.jobs.specs.Job.{job_view};
ghost use Rattle.job_file.specs.RequestSizes.{AreFew};
ghost use Rattle.fries_steps.specs.SetupFor.{AreSame};
ghost use Rattle.fries_verify.specs.StreamSetup.{IsStreamSetupFor};

use flow_laws::plans_number_all_nodes;
use flow_model::{Setup, plans_are_least};
use jobs::Job;
use std::alloc::Global;
use stream_intake::JobMask;
use stream_law::accepted_requests_split_within;
use tuple_trace::NoMemory;
use versions::{Requests, accepted_requests_stay_accepted, judge_within};

/// Judges the requests that are made of a job as a stream does, and makes a setup of them.
///
/// A stream settles by the job alone which nodes may be splits, whichever requests come later, and
/// refuses a request that makes a split of another node. Its plans are made for all these splits.
/// The one error is out of memory; it gives up the job.
pub fn stream_setup_of(
    alloc: Global,
    job: Job,
    requests: &Requests,
    ordered: bool,
) -> Result<Setup, NoMemory>
    requires { AreFew requests.now }
    ensures { IfOk result (IsStreamSetupFor AreSame ordered (job_view job) requests.now) }
{
    accepted_requests_stay_accepted();
    accepted_requests_split_within();
    let JobMask { job, splits } = JobMask::of(alloc, job)?;
    let judged = judge_within(alloc, &job, Some(splits), requests)?;
    let setup = Setup::make_for_stream(alloc, job, judged, ordered)?;
    plans_are_least(&setup);
    plans_number_all_nodes(&setup);
    Ok(setup)
}
