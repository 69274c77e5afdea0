// What a later reading of the file of requests has.
ghost use Rattle.std.specs.Prelude.{◌≡◌, ◌≤◌, ◌+◌, ◌++◌, All, IfOk, OnOk, length};
ghost use Rattle.versions.specs.declared.request.Request.{Request};
ghost use Rattle.stream_intake.specs.Intake.{
  IsKnownTo,
  accepted_after,
  judged_in,
  known_after,
  refused_after,
};

use crate::known::{Known, after};
use std::alloc::Global;
use stream_law::{accepted_requests_split_within, later_requests_are_judged_later};
use stream_step::Stream;
use tuple_trace::NoMemory;
use versions::{
    Judged, MAX_CHANGES, MAX_STREAM_REQUESTS, Refusals, Requests, accepted_requests_stay_accepted,
    judge_within,
};

/// A stream after a reading of its file of requests.
#[derive(Drop)]
pub struct Taken {
    /// The stream, of which the requests that this reading added are pending, if they are accepted.
    pub stream: Stream,
    /// Those that this reading added and that are refused, by their places in the file.
    pub refused: Refusals,
}

/// Takes what a later reading of the file has beyond the known requests. They are known then.
///
/// They are judged after the known ones, and only the nodes of the stream's mask may become splits.
/// The known ones of the reading aren't looked at. A reading with no more requests than are known
/// changes nothing, as one that was torn. The one error is out of memory; it gives up the stream.
pub fn take(
    alloc: Global,
    stream: Stream,
    known: &mut Known,
    found: Requests,
) -> Result<Taken, NoMemory>
    requires known { IsKnownTo known.old.requests stream }
    requires few { length found ≤ MAX_STREAM_REQUESTS }
    requires changes { All (λ (request : Request). length request.changes ≤ MAX_CHANGES) found }
    ensures known { OnOk result (known.new.requests ≡ known_after known.old.requests found) }
    ensures is_known { IfOk result (λ taken. IsKnownTo known.new.requests taken.stream) }
    ensures setup { IfOk result (λ taken. taken.stream.setup ≡ stream.setup) }
    ensures start { IfOk result (λ taken. taken.stream.start ≡ stream.start) }
    ensures exact { IfOk result (λ taken. taken.stream.exact ≡ stream.exact) }
    ensures pending { IfOk result (λ taken. taken.stream.pending ≡ stream.pending
        ++ accepted_after stream known.old.requests (known_after known.old.requests found)) }
    ensures refused { IfOk result (λ taken. taken.refused
        ≡ refused_after stream known.old.requests (known_after known.old.requests found)) }
{
    let count = known.requests.len();
    if found.len() <= count {
        return Ok(Taken {
            stream,
            refused: Refusals::new(alloc),
        });
    }
    let more = after(found, count)?;
    learn(alloc, stream, known, more)
}

/// Takes requests that come after the known ones. They are known then. The one error is out of
/// memory; it gives up the stream.
pub(crate) fn learn(
    alloc: Global,
    stream: Stream,
    known: &mut Known,
    more: Requests,
) -> Result<Taken, NoMemory>
    requires known { IsKnownTo known.old.requests stream }
    requires few { length known.old.requests + length more ≤ MAX_STREAM_REQUESTS }
    requires changes { All (λ (request : Request). length request.changes ≤ MAX_CHANGES) more }
    ensures known { OnOk result (known.new.requests ≡ known.old.requests ++ more) }
    ensures is_known { IfOk result (λ taken.
        IsKnownTo (known.old.requests ++ more) taken.stream) }
    ensures setup { IfOk result (λ taken. taken.stream.setup ≡ stream.setup) }
    ensures start { IfOk result (λ taken. taken.stream.start ≡ stream.start) }
    ensures exact { IfOk result (λ taken. taken.stream.exact ≡ stream.exact) }
    ensures pending { IfOk result (λ taken. taken.stream.pending ≡ stream.pending
        ++ accepted_after stream known.old.requests (known.old.requests ++ more)) }
    ensures refused { IfOk result (λ taken. taken.refused
        ≡ refused_after stream known.old.requests (known.old.requests ++ more)) }
{
    later_requests_are_judged_later();
    accepted_requests_stay_accepted();
    accepted_requests_split_within();
    let Judged { accepted, refused } = judge_more(alloc, &stream, known, more)?;
    let stream = stream.add(accepted)?;
    Ok(Taken { stream, refused })
}

// Judges requests that come after the known ones. They are known then.
fn judge_more(
    alloc: Global,
    stream: &Stream,
    known: &mut Known,
    more: Requests,
) -> Result<Judged, NoMemory>
    requires known { IsKnownTo known.old.requests stream.now }
    requires few { length known.old.requests + length more ≤ MAX_STREAM_REQUESTS }
    requires changes { All (λ (request : Request). length request.changes ≤ MAX_CHANGES) more }
    ensures known { OnOk result (known.new.requests ≡ known.old.requests ++ more) }
    ensures accepted { IfOk result (λ judged. judged.accepted
        ≡ accepted_after stream.now known.old.requests (known.old.requests ++ more)) }
    ensures refused { IfOk result (λ judged. judged.refused
        ≡ refused_after stream.now known.old.requests (known.old.requests ++ more)) }
{
    later_requests_are_judged_later();
    let accepted = stream.setup.request_count() + stream.pending.len();
    let refused = known.requests.len() - accepted;
    known.extend(alloc, more)?;
    let all = judge_all_of(alloc, stream, known)?;
    Ok(Judged {
        accepted: after(all.accepted, accepted)?,
        refused: after(all.refused, refused)?,
    })
}

/// Judges all known requests, as the stream does. The one error is out of memory.
fn judge_all_of(alloc: Global, stream: &Stream, known: &Known) -> Result<Judged, NoMemory>
    ensures { IfOk result (λ judged. judged ≡ judged_in stream.now known.now.requests) }
{
    let splits = Some(stream.setup.splits);
    judge_within(alloc, &stream.setup.job, splits, &known.requests)
}
