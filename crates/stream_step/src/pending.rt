// Requests that wait for a later part.
ghost use Rattle.std.specs.Prelude.{◌≡◌, ◌<◌, ◌≤◌, IfOk, map};
ghost use Rattle.std.specs.List.{list_any};
ghost use Rattle.stream_step.specs.Pending.{due_by as due_by_of, first_wait as first_wait_of};
ghost use Rattle.stream_step.specs.Pending.{is_due_by, issued_by, kept_by, left_by};
ghost use Rattle.stream_step.specs.Pending.{lifted as lifted_of};

use std::alloc::Global;
use tuple_trace::NoMemory;
use versions::{Request, Requests};

/// Pending requests, parted by the last row of a part.
#[derive(Drop)]
pub struct Parted {
    /// Those that are issued in the part.
    pub due: Requests,
    /// Those that wait for a later row.
    pub left: Requests,
}

// Parts requests into those that wait for a row up to `last`, and the others. Each due request
// waits for row `fed` at least.
fn part_at(alloc: Global, requests: Requests, last: u64, fed: u64) -> Result<Parted, NoMemory>
    ensures due { IfOk result (λ parted.
        parted.due ≡ map (lifted_of fed) (due_by_of last requests)) }
    ensures left { IfOk result (λ parted. parted.left ≡ left_by last requests) }
{
    let mut parted = Parted {
        due: Requests::new(alloc),
        left: Requests::new(alloc),
    };
    for request in requests.into_vec() {
        if request.after <= last {
            parted.due.push(lifted(request, fed))?;
        } else {
            parted.left.push(request)?;
        }
    }
    Ok(parted)
}

/// Parts requests by a part of a stream whose rows go from `fed` to `last`. Each request that is
/// issued waits for row `fed` at least. In an exact stream, a part with rows issues none. The one
/// error is out of memory.
pub fn parted_by(
    alloc: Global,
    exact: Option<u64>,
    requests: Requests,
    last: u64,
    fed: u64,
) -> Result<Parted, NoMemory>
    ensures due { IfOk result (λ parted.
        parted.due ≡ map (lifted_of fed) (issued_by exact fed last requests)) }
    ensures left { IfOk result (λ parted. parted.left ≡ kept_by exact fed last requests) }
{
    if exact.is_some() && fed < last {
        return Ok(Parted {
            due: Requests::new(alloc),
            left: requests,
        });
    }
    part_at(alloc, requests, last, fed)
}

/// The requests, waiting for row `fed` at least. The one error is out of memory.
pub fn all_lifted(alloc: Global, requests: Requests, fed: u64) -> Result<Requests, NoMemory>
    ensures { IfOk result (λ all. all ≡ map (lifted_of fed) requests) }
{
    let mut all = Requests::new(alloc);
    for request in requests.into_vec() {
        all.push(lifted(request, fed))?;
    }
    Ok(all)
}

/// The request, waiting for row `fed` at least. Takes no memory.
pub fn lifted(request: Request, fed: u64) -> Request
    ensures { result ≡ lifted_of fed request }
{
    Request {
        after: request.after.max(fed),
        changes: request.changes,
    }
}

/// Whether one of the requests asks for a row up to `row`.
pub fn some_due(requests: &[Request], row: u64) -> bool
    ensures { result ≡ list_any (is_due_by row) requests.now }
{
    requests.iter().any(|request| request.after <= row)
}

/// The first row after `fed` that one of the requests asks for, or `last` if that comes before.
pub fn first_wait(requests: &[Request], fed: u64, last: u64) -> u64
    ensures first { result ≡ first_wait_of fed last requests.now }
    ensures later { fed < last → fed < result }
    ensures within { result ≤ last }
{
    let mut end = last;
    for request in requests {
        if request.after > fed {
            end = end.min(request.after);
        }
    }
    end
}
