ghost use Rattle.std.specs.Prelude.{◌≡◌, IfOk};
ghost use Rattle.stream_intake.specs.Intake.{IsMaskOfNodes};

use crate::intake::none;
use flow_model::Setup;
use operators::Job;
use std::alloc::Global;
use tuple_trace::NoMemory;

/// A job with the mask of the nodes that may be splits in a stream of it.
#[derive(Drop)]
pub struct JobMask {
    pub job: Job,
    pub splits: u64,
}

impl JobMask {
    /// The job with its mask. The one error is out of memory; it gives up the job.
    pub fn of(alloc: Global, job: Job) -> Result<JobMask, NoMemory>
        ensures job { IfOk result (λ made. made.job ≡ job) }
        ensures splits { IfOk result (λ made. IsMaskOfNodes job.nodes made.splits) }
    {
        let Setup { job, splits, .. } = Setup::make_for_stream(alloc, job, none(alloc), false)?;
        Ok(JobMask { job, splits })
    }
}
