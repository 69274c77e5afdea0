ghost use Rattle.std.specs.Prelude.{◌≡◌, ◌<◌, ◌≤◌, Some, length, option_copied, option_map};
ghost use Rattle.std.specs.Prelude.{slice_get};
ghost use Rattle.flow_model.specs.SetupView.{Worker as WorkerIs};
ghost use Rattle.flow_model.specs.Setup.{setup_view};
ghost use Rattle.flow_model.specs.Topology.{worker_of};
ghost use Rattle.flow_model.specs.Workers.{nth_worker, workers_in};
ghost use Rattle.flow_model.specs.Covers.{covers, is_head, plan_of};

use crate::{Setup, WorkerAt};
use cover_planner::Plan;
use flow_dag::MAX_NODES;
use jobs::{MAX_WORKERS, worker_count};

impl Setup {
    /// How many workers there are: those of the nodes that aren't sources. Takes no memory.
    pub fn workers(&self) -> u32
        ensures value { result ≡ length (workers_in (setup_view self.now).job) }
        ensures limit { result ≤ MAX_WORKERS }
    {
        worker_count(&self.job) as u32
    }

    /// Where a worker is. Workers are numbered through the nodes in order. Takes no memory.
    pub fn worker_at(&self, worker: u32) -> WorkerAt
        requires { worker < length (workers_in (setup_view self.now).job) }
        ensures at { result ≡ worker_of (nth_worker (setup_view self.now).job worker) }
        ensures limit { result.node < length (setup_view self.now).job.nodes }
    {
        self.topology.workers.as_slice()[worker as usize]
    }

    /// The node of a worker. Takes no memory.
    pub fn node_of(&self, worker: u32) -> u32
        requires { worker < length (workers_in (setup_view self.now).job) }
        ensures node { option_map (λ (who : WorkerIs). who.node)
            (slice_get (workers_in (setup_view self.now).job) worker) ≡ Some result }
        ensures at { result ≡ (nth_worker (setup_view self.now).job worker).node }
        ensures limit { result < MAX_NODES }
    {
        self.worker_at(worker).node
    }

    /// Whether a request covers the node of a worker. Requests are counted from 1. Takes no memory.
    pub fn covers(&self, worker: u32, request: u64) -> bool
        requires { worker < length (workers_in (setup_view self.now).job) }
        ensures { option_map (λ (who : WorkerIs). covers (setup_view self.now) request who.node)
            (slice_get (workers_in (setup_view self.now).job) worker) ≡ Some result }
    {
        match self.plan_of(request) {
            Some(plan) => plan.covers_node(self.node_of(worker)),
            None => false,
        }
    }

    /// Whether the node of a worker is a head of what a request covers. Takes no memory.
    pub fn is_head(&self, worker: u32, request: u64) -> bool
        requires { worker < length (workers_in (setup_view self.now).job) }
        ensures { option_map (λ (who : WorkerIs). is_head (setup_view self.now) request who.node)
            (slice_get (workers_in (setup_view self.now).job) worker) ≡ Some result }
    {
        match self.plan_of(request) {
            Some(plan) => plan.is_head(self.node_of(worker)),
            None => false,
        }
    }

    /// The plan of a request, if there is such a request. Takes no memory.
    pub fn plan_of(&self, request: u64) -> Option<&Plan>
        ensures { option_copied result ≡ plan_of (setup_view self.now) request }
    {
        let place = request.checked_sub(1)?;
        self.plans.as_slice().get(place as usize)
    }
}
