// The setup of a part.
ghost use Rattle.std.specs.Prelude.{◌≡◌, ◌≤◌, IfOk, length};
ghost use Rattle.flow_model.specs.Setup.{setup_view};
ghost use Rattle.savepoint.specs.Parts.{first_of};
ghost use Rattle.stream_replay.specs.inner.Progress.{IsOfWhole, with_all};

use crate::whole::{Whole, copies};
use flow_model::{Plans, Setup};
use std::alloc::Global;
use tuple_trace::NoMemory;
use versions::{Judged, Refusals};

/// The setup with the first of all requests, so many of them, and these refused ones. The one error
/// is out of memory; it gives up the setup.
pub(crate) fn with_first(
    alloc: Global,
    setup: Setup,
    whole: &Whole<'_>,
    count: usize,
    refused: Refusals,
) -> Result<Setup, NoMemory>
    requires there { count ≤ length whole.now.requests }
    requires of_whole { IsOfWhole whole.now (setup_view setup) }
    ensures view { IfOk result (λ made.
        setup_view made ≡ first_of (with_all whole.now (setup_view setup)) count) }
    ensures job { IfOk result (λ made. made.job ≡ setup.job) }
    ensures refused { IfOk result (λ made. made.judged.refused ≡ refused) }
{
    let Setup {
        job,
        topology,
        splits,
        ordered,
        ..
    } = setup;
    let accepted = copies(alloc, &whole.requests.as_slice()[..count])?;
    let plans = Plans::from_slice(alloc, &whole.plans.as_slice()[..count])?;
    Ok(Setup {
        job,
        topology,
        judged: Judged { accepted, refused },
        plans,
        splits,
        ordered,
    })
}
