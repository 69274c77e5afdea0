// The limits of a stream and its parts.
ghost use Rattle.std.specs.Prelude.{◌≡◌, ◌≤◌};
ghost use Rattle.jobs.specs.Job.{job_view};
ghost use Rattle.stream_rows.specs.Rows.{most_rows_of};

use jobs::{Job, weight};
use payments::WORK_MAX;

/// A stream has fewer rows than this, which is 2^63 - 1.
pub const MAX_ROWS: u64 = (1 << 63) - 1;

/// How many rows one part of a stream may have: 1,048,576 divided by the weight of the job, at
/// least 1,024. Takes no memory.
pub fn most_rows(job: &Job) -> usize
    ensures value { result ≡ most_rows_of (job_view job.now) }
    ensures least { 1024 ≤ result }
{
    (WORK_MAX / weight(job).max(1)) as usize
}
