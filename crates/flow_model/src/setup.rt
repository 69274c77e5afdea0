ghost use Rattle.std.specs.Prelude.{◌≡◌, ◌<◌, ◌≤◌, ◌+◌, ◌-◌, ◌^◌, ◌++◌, ◌||◌, ℕ, true, false};
ghost use Rattle.std.specs.Prelude.{IsTrue, Some, IfOk, length, slice_get};
ghost use Rattle.flow_dag.specs.Masks.{Has, has};
ghost use Rattle.jobs.specs.Job.{job_view};
ghost use Rattle.jobs.specs.Nodes.{IsSourceOf};
ghost use Rattle.flow_model.specs.SetupView.{setup_view_of, splits_of};
ghost use Rattle.versions.specs.Judged.{AreAccepted};
ghost use Rattle.flow_model.specs.Planned.{ArePlansFrom, IsExact, IsExactFor, IsExactForStream};
ghost use Rattle.flow_model.specs.Planned.{IsFollowed, IsPlanned, is_made_split, splits_at};
ghost use Rattle.flow_model.specs.Topology.{topology_of};
ghost use Rattle.flow_model.specs.Waiting.{waiting_for, with_afters};
ghost use Rattle.versions.specs.Kept.{AreInOrder};

use crate::topology::Topology;
use crate::{masks, plans};
use cover_planner::Plan;
use operators::Job;
use std::alloc::Global;
use tuple_trace::{Items, NoMemory};
use versions::{
    Judged, Request, Requests, accepted_requests_keep_kinds, accepted_requests_name_nodes,
};

/// The plans of the accepted requests, in their order.
pub type Plans = Items<Plan>;

/// What a run goes by: a job with its topology, the requests that were accepted, and the plan of
/// each. Accepted requests are counted from 1.
///
/// Its type keeps that the topology is the job's, that the accepted requests, judged by themselves,
/// are all accepted, and that each has the planner's plan.
#[derive(Drop)]
pub struct Setup {
    pub job: Job,
    pub topology: Topology,
    pub judged: Judged,
    pub plans: Plans,
    /// The mask of the nodes that may make pieces of a tuple: those whose function, in the job or
    /// by a request, is a split. In a stream also those that a later request may make one.
    pub splits: u64,
    /// Whether rows and requests have one order: each plan is then made for all that the requests
    /// up to its own change.
    pub ordered: bool,
    ghost topology_is: { topology ≡ topology_of (job_view job) },
    ghost accepted: { AreAccepted (job_view job) judged.accepted },
    ghost planned: { ∥ IsPlanned (setup_view_of (job_view job) judged.accepted plans splits ordered)
        ∥₁ },
}

impl Setup {
    ghost use Rattle.flow_model.specs.Requests.{afters};
    ghost use Rattle.flow_model.specs.Setup.{setup_view};

    /// The setup of a job and its judged requests, with the plan of each accepted one. A refusal
    /// gives both up.
    pub fn make(alloc: Global, job: Job, judged: Judged) -> Result<Setup, NoMemory>
        requires { AreAccepted (job_view job) judged.accepted }
        ensures job { IfOk result (λ setup. setup.job ≡ job) }
        ensures judged { IfOk result (λ setup. setup.judged ≡ judged) }
        ensures exact { IfOk result (λ setup. IsExact (setup_view setup)) }
        ensures ordered { IfOk result (λ setup. setup.ordered ≡ false) }
    {
        Setup::planned(alloc, job, judged, 0, false)
    }

    /// The same, with plans under which rows and requests have one order.
    pub fn make_ordered(alloc: Global, job: Job, judged: Judged) -> Result<Setup, NoMemory>
        requires { AreAccepted (job_view job) judged.accepted }
        ensures job { IfOk result (λ setup. setup.job ≡ job) }
        ensures judged { IfOk result (λ setup. setup.judged ≡ judged) }
        ensures exact { IfOk result (λ setup. IsExact (setup_view setup)) }
        ensures ordered { IfOk result (λ setup. setup.ordered ≡ true) }
    {
        Setup::planned(alloc, job, judged, 0, true)
    }

    /// The setup with which a stream begins, in this mode. Its mask of splits also holds the nodes
    /// that later requests may make splits, so that [`Setup::follow`] leaves all plans as they are.
    pub fn make_for_stream(
        alloc: Global,
        job: Job,
        judged: Judged,
        ordered: bool,
    ) -> Result<Setup, NoMemory>
        requires { AreAccepted (job_view job) judged.accepted }
        ensures job { IfOk result (λ setup. setup.job ≡ job) }
        ensures judged { IfOk result (λ setup. setup.judged ≡ judged) }
        ensures exact { IfOk result (λ setup. IsExactForStream (setup_view setup)) }
        ensures ordered { IfOk result (λ setup. setup.ordered ≡ ordered) }
    {
        let spare = masks::may_become_splits(job.nodes.as_slice());
        Setup::planned(alloc, job, judged, spare, ordered)
    }

    /// The setup with the plans of this mode. The nodes of `spare` are held to be splits too.
    fn planned(
        alloc: Global,
        job: Job,
        judged: Judged,
        spare: u64,
        ordered: bool,
    ) -> Result<Setup, NoMemory>
        requires accepted { AreAccepted (job_view job) judged.accepted }
        requires inside { spare < 2 ^ length job.nodes }
        requires sources { (node : ℕ) → IsSourceOf (job_view job) node → ¬ Has spare node }
        ensures job { IfOk result (λ setup. setup.job ≡ job) }
        ensures judged { IfOk result (λ setup. setup.judged ≡ judged) }
        ensures exact { IfOk result (λ setup. IsExactFor
            (λ node. splits_at setup.job.nodes setup.judged.accepted node || has spare node)
            (setup_view setup)) }
        ensures ordered { IfOk result (λ setup. setup.ordered ≡ ordered) }
    {
        accepted_requests_name_nodes();
        accepted_requests_keep_kinds();
        let splits = masks::splits(job.nodes.as_slice(), judged.accepted.as_slice()) | spare;
        let plans = plans::plans_of(alloc, &job, splits, ordered, judged.accepted.as_slice())?;
        let topology = Topology::of(alloc, &job)?;
        Ok(Setup {
            job,
            topology,
            judged,
            plans,
            splits,
            ordered,
        })
    }

    /// The setup, followed by later requests: the accepted ones, each with its plan, and the
    /// refused ones. Its own requests and their plans stay as they are. Out of memory gives all up.
    ///
    /// The later requests make splits only of nodes that the mask of splits holds.
    pub fn follow(self, alloc: Global, later: Judged) -> Result<Setup, NoMemory>
        requires accepted { AreAccepted (setup_view self).job
            ((setup_view self).requests ++ later.accepted) }
        requires splits { (node : ℕ) → IsTrue (is_made_split later.accepted node)
            → Has (splits_of (setup_view self)) node }
        ensures followed { IfOk result (λ setup.
            IsFollowed (setup_view self) later.accepted (setup_view setup)) }
        ensures refused { IfOk result (λ setup.
            setup.judged.refused ≡ self.judged.refused ++ later.refused) }
    {
        accepted_requests_name_nodes();
        accepted_requests_keep_kinds();
        let plans = self.plans_of_later(alloc, later.accepted.as_slice())?;
        let Setup {
            job,
            topology,
            judged,
            plans: own_plans,
            splits,
            ordered,
        } = self;
        let judged = Judged {
            accepted: appended(judged.accepted, later.accepted)?,
            refused: appended(judged.refused, later.refused)?,
        };
        let all_plans = appended(own_plans, plans)?;
        Ok(Setup {
            job,
            topology,
            judged,
            plans: all_plans,
            splits,
            ordered,
        })
    }

    // The plans of later requests, for the mask of splits that the setup has.
    fn plans_of_later(&self, alloc: Global, later: &[Request]) -> Result<Plans, NoMemory>
        requires { AreAccepted (setup_view self.now).job
            ((setup_view self.now).requests ++ later.now) }
        ensures { IfOk result (λ plans. ArePlansFrom (length (setup_view self.now).requests)
            (setup_view self.now).job (splits_of (setup_view self.now))
            (setup_view self.now).ordered ((setup_view self.now).requests ++ later.now)
            ((setup_view self.now).plans ++ plans)) }
    {
        accepted_requests_name_nodes();
        let earlier = self.judged.accepted.as_slice();
        plans::plans_after(alloc, &self.job, self.splits, self.ordered, earlier, later)
    }

    /// The setup with its requests, in their order, waiting for these rows. Its plans stay. Takes
    /// no memory.
    pub fn waiting_for(self, afters: &[u64]) -> Setup
        requires one_each { length afters.now ≡ length (setup_view self).requests }
        requires in_order { AreInOrder 0 (with_afters afters.now (setup_view self).requests) }
        ensures { setup_view result ≡ waiting_for afters.now (setup_view self) }
    {
        let Setup {
            job,
            topology,
            judged,
            plans,
            splits,
            ordered,
        } = self;
        let Judged { accepted, refused } = judged;
        let accepted = with_afters(accepted, afters);
        Setup {
            job,
            topology,
            judged: Judged { accepted, refused },
            plans,
            splits,
            ordered,
        }
    }

    /// How many requests were accepted. Takes no memory.
    pub fn request_count(&self) -> usize
        ensures { result ≡ length (setup_view self.now).requests }
    {
        self.judged.accepted.len()
    }

    /// The row after which an accepted request is issued; requests are counted from 1. Takes no
    /// memory.
    pub fn after(&self, request: u64) -> u64
        requires one { 1 ≤ request }
        requires there { request ≤ length (setup_view self.now).requests }
        ensures { slice_get (afters (setup_view self.now).requests) (request - 1) ≡ Some result }
    {
        self.judged.accepted.as_slice()[(request - 1) as usize].after
    }
}

// The items of both lists, one after the other.
fn appended<T: Drop>(first: Items<T>, second: Items<T>) -> Result<Items<T>, NoMemory>
    ensures { IfOk result (λ both. both ≡ first ++ second) }
{
    let mut both = first.into_vec();
    both.append(&mut second.into_vec())?;
    Ok(Items::from_vec(both))
}

// The requests, waiting for these rows.
fn with_afters(requests: Requests, afters: &[u64]) -> Requests
    requires { length afters.now ≤ length requests }
    ensures { result ≡ with_afters afters.now requests }
{
    let mut requests = requests.into_vec();
    for place in 0..afters.len() {
        requests[place].after = afters[place];
    }
    Requests::from_vec(requests)
}
