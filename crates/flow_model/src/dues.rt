// The next request that covers a worker.
ghost use Rattle.std.specs.Prelude.{◌≡◌, ℕ, ◌<◌, ◌↔◌, IsTrue, Some, length, slice_get};
ghost use Rattle.flow_dag.specs.Masks.{Has, has};
ghost use Rattle.flow_model.specs.Begin.{last_after};
ghost use Rattle.flow_model.specs.Dues.{IsDueAfter, edges_in, is_on};
ghost use Rattle.flow_model.specs.Setup.{setup_view};
ghost use Rattle.flow_model.specs.Workers.{nth_worker, workers_in};

use crate::Setup;
use cover_planner::Plan;
use flow_dag::{has_wide_bit, with_wide_bit};
use marker_align::{Due, LaneSet};

impl Setup {
    /// Returns the first request after `last` that covers a worker. Looks at the requests from
    /// there on, up to the one that it finds. Takes no memory.
    pub fn due_after(&self, worker: u32, last: u64) -> Option<Due>
        requires { worker < length (workers_in (setup_view self.now).job) }
        ensures { IsDueAfter (setup_view self.now)
            (nth_worker (setup_view self.now).job worker).node
            (edges_in (setup_view self.now).job worker) last result }
    {
        let node = self.node_of(worker);
        let plans = self.plans.as_slice();
        for place in last..plans.len() as u64 {
            let plan = &plans[place as usize];
            if plan.covers_node(node) {
                return Some(self.due_of(plan, place + 1, worker));
            }
        }
        None
    }

    /// Returns the latest of the first `turned` requests that covers a worker, 0 if none does.
    /// Looks at each of them. Takes no memory.
    pub fn last_covering(&self, worker: u32, turned: u64) -> u64
        requires { worker < length (workers_in (setup_view self.now).job) }
        ensures { result ≡ last_after (setup_view self.now)
            (nth_worker (setup_view self.now).job worker).node turned }
    {
        let mut last = 0;
        for before in 0..turned {
            if self.covers(worker, before + 1) {
                last = before + 1;
            }
        }
        last
    }

    // The due of a plan's request at a worker.
    fn due_of(&self, plan: &Plan, request: u64, worker: u32) -> Due
        requires { worker < length (workers_in (setup_view self.now).job) }
        ensures request { result.request ≡ request }
        ensures head { result.head
            ≡ has plan.now.heads (nth_worker (setup_view self.now).job worker).node }
        ensures cover { result.cover ≡ plan.now.nodes }
        ensures lanes { (place edge : ℕ)
            → slice_get (edges_in (setup_view self.now).job worker) place ≡ Some edge
            → has result.lanes place ≡ has plan.now.edges edge }
    {
        Due {
            request,
            head: plan.is_head(self.node_of(worker)),
            lanes: self.places_on(plan.edges, worker),
            cover: plan.nodes,
        }
    }

    // The places of the worker's lanes in that are on one of these edges.
    fn places_on(&self, edges: u128, worker: u32) -> LaneSet
        requires { worker < length (workers_in (setup_view self.now).job) }
        ensures { (place : ℕ) → Has result place
            ↔ IsTrue (is_on edges (slice_get (edges_in (setup_view self.now).job worker) place)) }
    {
        let mut places = 0u128;
        for (place, number) in self.lanes_in(worker).iter().enumerate() {
            if has_wide_bit(edges, self.lane(*number).edge) {
                places = with_wide_bit(places, place as u32);
            }
        }
        places
    }
}
