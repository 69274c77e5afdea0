ghost use Rattle.std.specs.Prelude.{◌≡◌, ◌≤◌, ◌+◌, ◌++◌, [], All, IfOk, OnOk, drop, length, take};
ghost use Rattle.versions.specs.declared.limits.TheConstants.{MAX_CHANGES, MAX_STREAM_REQUESTS};
ghost use Rattle.versions.specs.declared.request.Request.{Request};

use std::alloc::Global;
use std::mem;
use stream_step::appended;
use tuple_trace::{Items, NoMemory};
use versions::Requests;

/// The requests that were read of a stream's file so far, as they were asked.
///
/// Its type keeps the limits of a stream: at most `MAX_STREAM_REQUESTS` requests, with at most
/// `MAX_CHANGES` changes each.
#[derive(Drop)]
pub struct Known {
    pub requests: Requests,
    ghost few: { length requests ≤ MAX_STREAM_REQUESTS },
    ghost changes: { All (λ (request : Request). length request.changes ≤ MAX_CHANGES) requests },
}

impl Known {
    /// No requests. Takes no memory.
    pub(crate) fn none(alloc: Global) -> Known
        ensures { result.requests ≡ [] }
    {
        Known {
            requests: Requests::new(alloc),
        }
    }

    /// More requests are known, after the others. The one error is out of memory; none are known
    /// then.
    pub(crate) fn extend(&mut self, alloc: Global, more: Requests) -> Result<(), NoMemory>
        requires few { length self.old.requests + length more ≤ MAX_STREAM_REQUESTS }
        requires changes { All (λ (request : Request). length request.changes ≤ MAX_CHANGES) more }
        ensures { OnOk result (self.new.requests ≡ self.old.requests ++ more) }
    {
        let known = mem::replace(self, Known::none(alloc));
        let requests = appended(known.requests, more)?;
        *self = Known { requests };
        Ok(())
    }
}

/// A list in two pieces, the first of which has so many items. The one error is out of memory.
pub(crate) fn parted<T: Drop>(
    items: Items<T>,
    count: usize,
) -> Result<(Items<T>, Items<T>), NoMemory>
    requires { count ≤ length items }
    ensures first { IfOk result (λ both. both.0 ≡ take count items) }
    ensures second { IfOk result (λ both. both.1 ≡ drop count items) }
{
    let mut first = items.into_vec();
    let second = first.split_off(count)?;
    Ok((Items::from_vec(first), Items::from_vec(second)))
}

/// The items of a list after so many. The one error is out of memory.
pub(crate) fn after<T: Drop>(items: Items<T>, count: usize) -> Result<Items<T>, NoMemory>
    requires { count ≤ length items }
    ensures { IfOk result (λ later. later ≡ drop count items) }
{
    let (_first, later) = parted(items, count)?;
    Ok(later)
}
