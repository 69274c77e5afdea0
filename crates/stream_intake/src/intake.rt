ghost use Rattle.std.specs.Prelude.{◌≡◌, ◌≤◌, [], All, IfOk, length};
ghost use Rattle.versions.specs.declared.request.Request.{Request};
ghost use Rattle.flow_model.specs.Begin.{at_first};
ghost use Rattle.flow_model.specs.Setup.{setup_view};
ghost use Rattle.stream_step.specs.Pending.{exact_from};
ghost use Rattle.stream_intake.specs.Intake.{IsKnownTo, IsMaskOfNodes, judged_in};

use crate::known::Known;
use crate::taken::{Taken, learn};
use operators::Job;
use std::alloc::Global;
use stream_step::{Stream, StreamMode};
use tuple_trace::NoMemory;
use versions::{Judged, MAX_CHANGES, MAX_STREAM_REQUESTS, Refusals, Requests};

/// A stream with what was read of its file of requests, at its beginning or where it goes on.
#[derive(Drop)]
pub struct Intake {
    pub stream: Stream,
    /// The requests that were read.
    pub known: Known,
    /// Those that no earlier reading refused, by their places in the file.
    pub refused: Refusals,
}

/// The stream of which no row was fed, with the requests of its first reading. The accepted ones
/// are pending. The one error is out of memory; it gives up the job and its requests.
///
/// Which nodes may be splits is settled by the job: those that it makes splits, and those that a
/// request may make one with more than one piece. So a request is judged in the same way, whether
/// the first reading has it or a later one.
pub fn begin(
    alloc: Global,
    job: Job,
    requests: Requests,
    mode: StreamMode,
) -> Result<Intake, NoMemory>
    requires few { length requests ≤ MAX_STREAM_REQUESTS }
    requires changes { All (λ (request : Request). length request.changes ≤ MAX_CHANGES) requests }
    ensures job { IfOk result (λ intake. intake.stream.setup.job ≡ job) }
    ensures ordered { IfOk result (λ intake. intake.stream.setup.ordered ≡ mode.ordered) }
    ensures none { IfOk result (λ intake. intake.stream.setup.judged.accepted ≡ []) }
    ensures first { IfOk result (λ intake.
        intake.stream.start ≡ at_first (setup_view intake.stream.setup)) }
    ensures splits { IfOk result (λ intake. IsMaskOfNodes job.nodes intake.stream.setup.splits) }
    ensures known { IfOk result (λ intake. intake.known.requests ≡ requests) }
    ensures is_known { IfOk result (λ intake. IsKnownTo requests intake.stream) }
    ensures exact { IfOk result (λ intake. intake.stream.exact
        ≡ exact_from mode.exact intake.stream.start.turned) }
    ensures pending { IfOk result (λ intake.
        intake.stream.pending ≡ (judged_in intake.stream requests).accepted) }
    ensures refused { IfOk result (λ intake.
        intake.refused ≡ (judged_in intake.stream requests).refused) }
{
    let stream = Stream::begin(alloc, job, none(alloc), mode)?;
    let mut known = Known::none(alloc);
    let Taken { stream, refused } = learn(alloc, stream, &mut known, requests)?;
    Ok(Intake {
        stream,
        known,
        refused,
    })
}

/// No requests, judged. Takes no memory.
pub(crate) fn none(alloc: Global) -> Judged
    ensures accepted { result.accepted ≡ [] }
    ensures refused { result.refused ≡ [] }
{
    Judged {
        accepted: Requests::new(alloc),
        refused: Refusals::new(alloc),
    }
}
