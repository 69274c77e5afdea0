ghost use Rattle.std.specs.Prelude.{◌≡◌, ◌≤◌, ◌+◌, ◌*◌, ◌∷◌, None, Some, List, IfErr, IfOk, OnOk};
ghost use Rattle.std.specs.Prelude.{All, length};
ghost use Rattle.jobs.specs.Job.{job_view};
ghost use Rattle.versions.specs.Judged.{judged, judged_within};
ghost use Rattle.versions.specs.Judging.{fault_within};
ghost use Rattle.versions.specs.Young.{judged_on, IsYoung};
ghost use Rattle.versions.specs.declared.request.Request.{Request as RequestIs};

use crate::judging::late_split;
use crate::{
    Book, MAX_CHANGES, MAX_REQUESTS, MAX_STREAM_REQUESTS, QFault, Request, Requests, accept, judge,
};
use jobs::Job;
use std::alloc::Global;
use tuple_trace::{Items, NoMemory};

/// A request that isn't accepted.
#[derive(Clone, Copy, Debug, PartialEq, Eq)]
pub struct Refused {
    /// Its place in the file, counted from 1.
    pub place: u32,
    pub fault: QFault,
}

/// The refused requests in the order of the file.
pub type Refusals = Items<Refused>;

/// A list of requests, judged.
#[derive(Debug, Drop)]
pub struct Judged {
    /// The accepted requests, in order. Request r is the r-th of these, counted from 1.
    pub accepted: Requests,
    pub refused: Refusals,
}

/// Judges the requests of a job in order, each by the book that those before it leave. A refused
/// request changes nothing.
pub fn judge_all(alloc: Global, job: &Job, requests: &Requests) -> Result<Judged, NoMemory>
    requires count { length requests.now ≤ MAX_REQUESTS }
    requires changes { All (λ request. length request.changes ≤ MAX_CHANGES) requests.now }
    ensures { IfOk result (λ done. done ≡ judged (job_view job.now) requests.now) }
{
    judge_within(alloc, job, None, requests)
}

/// The same, where only the nodes of the mask `splits` may be splits, if there is a mask.
///
/// A stream settles these nodes when it begins, since plans are made for them. A change that makes
/// a split of any other node is then a fault of its request.
pub fn judge_within(
    alloc: Global,
    job: &Job,
    splits: Option<u64>,
    requests: &Requests,
) -> Result<Judged, NoMemory>
    requires count { length requests.now ≤ MAX_STREAM_REQUESTS }
    requires changes { All (λ request. length request.changes ≤ MAX_CHANGES) requests.now }
    ensures { IfOk result (λ done.
        done ≡ judged_within splits (job_view job.now) requests.now) }
{
    let mut bench = Bench {
        splits,
        book: Book::of(alloc, job)?,
        last_after: 0,
        accepted: Requests::new(alloc),
        refused: Refusals::new(alloc),
    };
    for (place, request) in requests.as_slice().iter().enumerate() {
        next(alloc, job, &mut bench, place as u32 + 1, request)?;
    }
    let Bench {
        accepted,
        refused,
        ..
    } = bench;
    Ok(Judged { accepted, refused })
}

/// A list of requests in the middle of its judging.
#[derive(Drop)]
struct Bench {
    splits: Option<u64>,
    book: Book,
    last_after: u64,
    accepted: Requests,
    refused: Refusals,
}

fn next(
    alloc: Global,
    job: &Job,
    bench: &mut Bench,
    place: u32,
    request: &Request,
) -> Result<(), NoMemory>
    requires few { length request.now.changes ≤ MAX_CHANGES }
    requires place { place ≤ MAX_STREAM_REQUESTS }
    requires young { IsYoung (job_view job.now) bench.old.book (place * MAX_CHANGES) }
    ensures young { OnOk result (IsYoung (job_view job.now) bench.new.book (place * MAX_CHANGES + MAX_CHANGES)) }
    ensures judged { OnOk result ((rest : List RequestIs)
        → judged_on (job_view job.now) bench.old place (request.now ∷ rest)
        ≡ judged_on (job_view job.now) bench.new (place + 1) rest) }
{
    match judge_at(bench, job, request) {
        Ok(()) => {
            let book = accept(&bench.book, request)?;
            let request = request.copy(alloc)?;
            bench.book = book;
            bench.last_after = request.after;
            bench.accepted.push(request)?;
        }
        Err(fault) => bench.refused.push(Refused { place, fault })?,
    }
    Ok(())
}

// Whether the next request is accepted, and else its first fault.
fn judge_at(bench: &Bench, job: &Job, request: &Request) -> Result<(), QFault>
    requires { length request.now.changes ≤ MAX_CHANGES }
    ensures ok { OnOk result (fault_within bench.now.splits bench.now.book (job_view job.now)
        request.now bench.now.last_after ≡ None) }
    ensures err { IfErr result (λ fault. fault_within bench.now.splits bench.now.book
        (job_view job.now) request.now bench.now.last_after ≡ Some fault) }
{
    judge(&bench.book, job, request, bench.last_after)?;
    match bench.splits {
        Some(splits) => late_split(splits, request.changes.as_slice()).map_or(Ok(()), Err),
        None => Ok(()),
    }
}
