ghost use Rattle.std.specs.Prelude.{◌≡◌, ◌≢◌, ◌≤◌, ◌*◌, All, Ok, Err, IfOk, IfErr, IfSome, length};
ghost use Rattle.std.specs.Prelude.{IsTrue};
ghost use Rattle.jobs.specs.Job.{job_view};
ghost use Rattle.jobs.specs.Limits.{HasShortTexts};
ghost use Rattle.jobs.specs.Nodes.{AreFromSources};
ghost use Rattle.jobs.specs.Weights.{weight as weight_of};
ghost use Rattle.payments.specs.Reading.{rows_of, work_max};
ghost use Rattle.tuple_trace.specs.declared.row.Row.{Row as RowIs};

use crate::join::{has_first, joined};
use crate::shares::reads_of;
use jobs::{Job, weight};
use payments::{PFault, WORK_MAX};
use std::thread::Threads;
use text_threads::Team;
use tuple_trace::Rows;

/// How many bytes a share has at least. A shorter file is read by fewer threads.
const LEAST_SHARE: usize = 64 * 1024;

/// The rows of a payments file of this job, or its first fault, as `read_rows` of `payments`
/// returns them. The file is read by the threads of the team.
///
/// A file of less than 128 KiB is read by one thread. After a fault, or out of memory, the file is
/// read once more by one thread.
pub fn read_rows<R: Threads + Sync>(
    team: &Team<'_, R>,
    job: &Job,
    bytes: &[u8],
) -> Result<Rows, PFault>
    ensures ok { IfOk result (λ rows. rows_of (job_view job.now) bytes.now ≡ Ok rows) }
    ensures sources { IfOk result (λ rows. AreFromSources (job_view job.now) rows) }
    ensures work { IfOk result (λ rows. length rows * weight_of (job_view job.now) ≤ work_max) }
    ensures texts { IfOk result (λ rows. All (λ (row : RowIs). HasShortTexts row.tuple) rows) }
    ensures fault { IfErr result (λ fault. fault ≢ PFault.NoMemory
        → rows_of (job_view job.now) bytes.now ≡ Err fault) }
{
    let count = (team.threads as usize).min(bytes.len() / LEAST_SHARE);
    if count > 1 {
        if let Some(rows) = read_shares(team, job, bytes, count) {
            return Ok(rows);
        }
    }
    payments::read_rows(team.alloc, job, bytes)
}

/// The rows of a payments file of this job, read in at most `count` shares. Each share is read on a
/// thread.
///
/// `None` if the file has a fault or out of memory, and also if the first share has no row.
pub fn read_shares<R: Threads + Sync>(
    team: &Team<'_, R>,
    job: &Job,
    bytes: &[u8],
    count: usize,
) -> Option<Rows>
    ensures ok { IfSome result (λ rows. rows_of (job_view job.now) bytes.now ≡ Ok rows) }
    ensures sources { IfSome result (λ rows. AreFromSources (job_view job.now) rows) }
    ensures work { IfSome result (λ rows. length rows * weight_of (job_view job.now) ≤ work_max) }
    ensures texts { IfSome result (λ rows. All (λ (row : RowIs). HasShortTexts row.tuple) rows) }
{
    let reads = reads_of(team, job, bytes, count).ok()?;
    if !has_first(reads.as_slice()) {
        return None;
    }
    let rows = joined(team.alloc, reads)?;
    if !is_within(job, rows.len()) {
        return None;
    }
    Some(rows)
}

// Whether a run of the job may have this number of rows.
fn is_within(job: &Job, rows: usize) -> bool
    ensures { IsTrue result → rows * weight_of (job_view job.now) ≤ work_max }
{
    (rows as u64).saturating_mul(weight(job)) <= WORK_MAX
}
