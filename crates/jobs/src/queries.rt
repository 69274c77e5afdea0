// What is asked of a job.
ghost use Rattle.std.specs.Prelude.{◌≡◌, ◌≤◌};
ghost use Rattle.jobs.specs.Fits.{fits};
ghost use Rattle.jobs.specs.Job.{job_view};
ghost use Rattle.jobs.specs.Nodes.{worker_count};
ghost use Rattle.jobs.specs.Weights.{weight};

use crate::{Func, Job, MAX_WEIGHT, MAX_WORKERS, fitting, limits, weights};

/// Whether a node of the job may have the function: the columns and the table that it names are
/// there and fit. Takes no memory.
pub fn fits(job: &Job, func: &Func) -> bool
    ensures { result ≡ fits (job_view job.now) func.now }
{
    fitting::fits_columns(job.columns.as_slice(), job.tables.as_slice(), func)
        && fitting::fits_table(job.tables.as_slice(), func)
}

/// The weight of the job: how many tuples one row may bring to its nodes that aren't sources. Takes
/// no memory.
pub fn weight(job: &Job) -> u64
    ensures value { result ≡ weight (job_view job.now) }
    ensures limit { result ≤ MAX_WEIGHT }
{
    weights::weight_of(job.nodes.as_slice(), &job.dag)
}

/// How many workers of the job keep a journal: those of its nodes that aren't sources. Takes no
/// memory.
pub fn worker_count(job: &Job) -> u64
    ensures value { result ≡ worker_count job.now.nodes }
    ensures limit { result ≤ MAX_WORKERS }
{
    limits::all_workers(job.nodes.as_slice())
}
