ghost use Rattle.std.specs.Prelude.{◌≡◌, ◌≢◌, Ok, Err, IfOk, IfErr};
ghost use Rattle.jobs.specs.Job.{job_view};
ghost use Rattle.job_file.specs.Job.{Excludes, HaveOneFault, IsFaultIn, IsJobIn};
ghost use Rattle.job_file.specs.RequestFile.{requests_of, requests_up_to};
ghost use Rattle.job_file.specs.RequestSizes.{AreFew, AreUpTo};
ghost use Rattle.versions.specs.Kept.{HaveLimits};

use crate::document::document;
use crate::fault::{JobFault, ReqFileFault};
use crate::layout::{Layout, read_layout};
use crate::request_sizes::{list_fault, wide_in_requests};
use crate::requests::read_list;
use crate::wide::wide_in;
use jobs::Job;
use std::alloc::Global;
use versions::{MAX_REQUESTS, Requests};

/// The job that a file writes down.
///
/// # Errors
///
/// The faults are looked for in the order of [`JobFault`], and the first that stands is answered.
/// Of faults of form, the first in the order of the layout is: the keys of a table, then what
/// stands at each, and the columns before the tables, the nodes and the edges. Of sizes, a number
/// that has more than 32 bits or is below 0 comes first; the others come in the order of their
/// limits. [`JobFault::NoMemory`] may come of any file.
pub fn read_job(alloc: Global, bytes: &[u8]) -> Result<Job, JobFault>
    ensures ok { IfOk result (λ job. IsJobIn bytes.now (job_view job)) }
    ensures fault { IfErr result (λ fault. fault ≢ JobFault.NoMemory → IsFaultIn bytes.now fault) }
{
    let members = document(alloc, bytes)?;
    let Layout {
        columns,
        nodes,
        edges,
        tables,
    } = read_layout(alloc, &members)?;
    if let Some((which, number)) = wide_in(&members) {
        return Err(JobFault::Limit(which, number));
    }
    Ok(Job::check(alloc, columns, nodes, edges.as_slice(), tables)?)
}

/// No file both has a fault and is that of a job.
pub fn faulty_is_no_job()
    ensures { Excludes }
{}

/// A file has one first fault alone, out of memory aside.
pub fn files_have_one_fault()
    ensures { HaveOneFault }
{}

/// The requests that a file makes of a job, in the order of the file.
///
/// # Errors
///
/// The faults are looked for in the order of [`ReqFileFault`], and the first that stands is
/// answered. Of faults of form, the first in the order of the layout is: the keys of a table, then
/// what stands at each. Of sizes, an `after` or a `most` that has more than 32 bits or is below 0
/// comes first, then the number of requests, and then request by request its `after`, the number of
/// its changes, and the sizes of their functions. [`ReqFileFault::NoMemory`] may come of any file.
pub fn read_requests(alloc: Global, job: &Job, bytes: &[u8]) -> Result<Requests, ReqFileFault>
    ensures ok { IfOk result (λ requests. requests_of (job_view job.now) bytes.now ≡ Ok requests) }
    ensures few { IfOk result AreFew }
    ensures limits { IfOk result HaveLimits }
    ensures fault { IfErr result (λ fault. fault ≢ ReqFileFault.NoMemory
        → requests_of (job_view job.now) bytes.now ≡ Err fault) }
{
    read_requests_up_to(alloc, job, bytes, MAX_REQUESTS)
}

/// The same, where a file may have up to `most` requests, as that of a stream has.
///
/// # Errors
///
/// Those of [`read_requests`], in their order.
pub fn read_requests_up_to(
    alloc: Global,
    job: &Job,
    bytes: &[u8],
    most: usize,
) -> Result<Requests, ReqFileFault>
    ensures ok { IfOk result (λ requests.
        requests_up_to most (job_view job.now) bytes.now ≡ Ok requests) }
    ensures few { IfOk result (AreUpTo most) }
    ensures limits { IfOk result HaveLimits }
    ensures fault { IfErr result (λ fault. fault ≢ ReqFileFault.NoMemory
        → requests_up_to most (job_view job.now) bytes.now ≡ Err fault) }
{
    let members = document(alloc, bytes)?;
    let requests = read_list(alloc, job, &members)?;
    if let Some((which, number)) = wide_in_requests(&members) {
        return Err(ReqFileFault::Limit(which, number));
    }
    if let Some((which, number)) = list_fault(most, requests.as_slice()) {
        return Err(ReqFileFault::Limit(which, number));
    }
    Ok(requests)
}
