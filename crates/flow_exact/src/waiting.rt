// Requests that are taken out of a setup, and put back one by one.
ghost use Rattle.std.specs.Prelude.{◌≡◌, ◌++◌, ◌∷◌, [], IfOk};
ghost use Rattle.jobs.specs.Job.{job_view};
ghost use Rattle.versions.specs.Judged.{AreAccepted};
ghost use Rattle.flow_model.specs.Planned.{IsPlanned, extended};
ghost use Rattle.flow_model.specs.Setup.{setup_view};
ghost use Rattle.savepoint.specs.Parts.{first_of};

use cover_planner::Plan;
use flow_model::{Plans, Setup};
use std::alloc::Global;
use tuple_trace::NoMemory;
use versions::{Judged, Request, Requests};

/// Requests, and the plan of each.
#[derive(Drop)]
pub(crate) struct Planned {
    pub requests: Requests,
    pub plans: Plans,
}

/// A setup without its accepted requests, and these.
#[derive(Drop)]
pub(crate) struct Emptied {
    pub setup: Setup,
    pub waiting: Planned,
}

/// Takes the accepted requests and their plans out of a setup. Takes no memory.
pub(crate) fn take_requests(alloc: Global, setup: Setup) -> Emptied
    ensures setup { setup_view result.setup ≡ first_of (setup_view setup) 0 }
    ensures refused { result.setup.judged.refused ≡ setup.judged.refused }
    ensures requests { result.waiting.requests ≡ (setup_view setup).requests }
    ensures plans { result.waiting.plans ≡ (setup_view setup).plans }
{
    let Setup {
        job,
        topology,
        judged,
        plans,
        splits,
        ordered,
    } = setup;
    let Judged { accepted, refused } = judged;
    let judged = Judged {
        accepted: Requests::new(alloc),
        refused,
    };
    let setup = Setup {
        job,
        topology,
        judged,
        plans: Plans::new(alloc),
        splits,
        ordered,
    };
    let waiting = Planned {
        requests: accepted,
        plans,
    };
    Emptied { setup, waiting }
}

/// The setup with a copy of one more accepted request, which has this plan. The one error is out of
/// memory; it gives up the setup.
pub(crate) fn grown(
    alloc: Global,
    setup: Setup,
    request: &Request,
    plan: Plan,
) -> Result<Setup, NoMemory>
    requires accepted { AreAccepted (job_view setup.job)
        (setup.judged.accepted ++ request.now ∷ []) }
    requires planned { ∥ IsPlanned (extended (setup_view setup) (request.now ∷ []) (plan ∷ [])) ∥₁ }
    ensures setup { IfOk result (λ made.
        setup_view made ≡ extended (setup_view setup) (request.now ∷ []) (plan ∷ [])) }
    ensures refused { IfOk result (λ made. made.judged.refused ≡ setup.judged.refused) }
{
    let Setup {
        job,
        topology,
        judged,
        plans,
        splits,
        ordered,
    } = setup;
    let Judged { accepted, refused } = judged;
    let own = Planned {
        requests: accepted,
        plans,
    };
    let Planned { requests, plans } = with_copy(alloc, own, request, plan)?;
    let judged = Judged {
        accepted: requests,
        refused,
    };
    Ok(Setup {
        job,
        topology,
        judged,
        plans,
        splits,
        ordered,
    })
}

fn with_copy(
    alloc: Global,
    own: Planned,
    request: &Request,
    plan: Plan,
) -> Result<Planned, NoMemory>
    ensures requests { IfOk result (λ made. made.requests ≡ own.requests ++ request.now ∷ []) }
    ensures plans { IfOk result (λ made. made.plans ≡ own.plans ++ plan ∷ []) }
{
    let mut own = own;
    own.requests.push(request.copy(alloc)?)?;
    own.plans.push(plan)?;
    Ok(own)
}
