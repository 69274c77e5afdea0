ghost use Rattle.std.specs.Prelude.{◌≡◌, ◌++◌, ℕ, ◌<◌, ◌^◌, All, IfOk, List, length, if◌then◌else◌};
ghost use Rattle.cover_planner.specs.declared.cover.Plan.{Plan as PlanIs};
ghost use Rattle.jobs.specs.Job.{job_view};
ghost use Rattle.versions.specs.declared.request.Change.{Change as ChangeIs};
ghost use Rattle.versions.specs.declared.request.Request.{Request as RequestIs};
ghost use Rattle.flow_model.specs.Planned.{ArePlansFrom, ArePlansOf};

use crate::{Plans, masks};
use cover_planner::plan;
use operators::Job;
use std::alloc::Global;
use tuple_trace::NoMemory;
use versions::Request;

/// The plan of each request, where the nodes of `splits` may make pieces of a tuple. Where rows and
/// requests are to have one order, a plan is made for the nodes that the requests up to its own
/// change, and else for those that its own changes.
pub fn plans_of(
    alloc: Global,
    job: &Job,
    splits: u64,
    ordered: bool,
    requests: &[Request],
) -> Result<Plans, NoMemory>
    requires splits { splits < 2 ^ length job.now.nodes }
    requires inside { All (λ (request : RequestIs). All
        (λ (change : ChangeIs). change.node < length job.now.nodes) request.changes) requests.now }
    ensures { IfOk result (λ plans. ArePlansOf (job_view job.now) splits ordered requests.now
        plans) }
{
    plans_after(alloc, job, splits, ordered, &[], requests)
}

/// The plan of each of the later requests, as [`plans_of`] would make it of all. The earlier
/// requests keep the plans that they have.
pub fn plans_after(
    alloc: Global,
    job: &Job,
    splits: u64,
    ordered: bool,
    earlier: &[Request],
    later: &[Request],
) -> Result<Plans, NoMemory>
    requires splits { splits < 2 ^ length job.now.nodes }
    requires earlier { All (λ (request : RequestIs). All
        (λ (change : ChangeIs). change.node < length job.now.nodes) request.changes) earlier.now }
    requires later { All (λ (request : RequestIs). All
        (λ (change : ChangeIs). change.node < length job.now.nodes) request.changes) later.now }
    ensures { IfOk result (λ plans. (old : List PlanIs) → length old ≡ length earlier.now
        → ArePlansFrom (length earlier.now) (job_view job.now) splits ordered
        (earlier.now ++ later.now) (old ++ plans)) }
{
    let copies = masks::copies(job.nodes.as_slice());
    let mut plans = Plans::new(alloc);
    let mut so_far = masks::changed_by(job.dag.nodes(), earlier);
    for request in later {
        let changed = masks::changed(job.dag.nodes(), request.changes.as_slice());
        so_far |= changed;
        let asked = planned(ordered, so_far, changed);
        plans.push(plan(&job.dag, splits, copies, asked))?;
    }
    Ok(plans)
}

/// The set that is planned.
fn planned(ordered: bool, so_far: u64, changed: u64) -> u64
    ensures { result ≡ (if ordered then so_far else changed) }
{
    if ordered { so_far } else { changed }
}
