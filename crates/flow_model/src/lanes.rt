ghost use Rattle.std.specs.Prelude.{◌≡◌, ◌<◌, ℕ, IfNone, IfSome, None, Option, Some, length};
ghost use Rattle.std.specs.Prelude.{slice_get};
ghost use Rattle.flow_dag.specs.Masks.{has};
ghost use Rattle.operators.specs.Ports.{out_ports};
ghost use Rattle.flow_model.specs.Covers.{covers_edge};
ghost use Rattle.flow_model.specs.Lanes.{lane_of, lanes, lanes_in, out_numbers, senders};
ghost use Rattle.flow_model.specs.Setup.{setup_view};
ghost use Rattle.flow_model.specs.Topology.{IsNumberOf, out_edges};
ghost use Rattle.flow_model.specs.Workers.{workers_in};

use crate::{Lane, OutEdge, Setup, WorkerAt};
use flow_dag::MAX_EDGES;
use tuple_trace::Tuple;

impl Setup {
    /// The lane with a number. Takes no memory.
    pub fn lane(&self, number: u32) -> Lane
        requires { number < length (lanes (setup_view self.now).job) }
        ensures lane { slice_get (lanes (setup_view self.now).job) number ≡ Some result }
        ensures edge { result.edge < MAX_EDGES }
        ensures receiver { result.receiver < length (workers_in (setup_view self.now).job) }
    {
        self.topology.lanes.as_slice()[number as usize]
    }

    /// The numbers of the lanes into a worker, rising. Takes no memory.
    pub fn lanes_in(&self, worker: u32) -> &[u32]
        requires { worker < length (workers_in (setup_view self.now).job) }
        ensures { result.now ≡ lanes_in (setup_view self.now).job worker }
    {
        self.topology.lanes_in.as_slice()[worker as usize].as_slice()
    }

    /// The numbers of the lanes out of a worker, rising. Takes no memory.
    pub fn lanes_out(&self, worker: u32) -> &[u32]
        requires { worker < length (workers_in (setup_view self.now).job) }
        ensures { result.now ≡ out_numbers (setup_view self.now).job worker }
    {
        self.topology.lanes_out.as_slice()[worker as usize].as_slice()
    }

    /// The edges out of a node. Takes no memory.
    pub fn out_edges(&self, node: u32) -> &[OutEdge]
        requires { node < length (setup_view self.now).job.nodes }
        ensures { result.now ≡ out_edges (setup_view self.now).job node }
    {
        self.topology.out_edges.as_slice()[node as usize].as_slice()
    }

    /// The ports of the edges out of a node, in the order of these edges. Takes no memory.
    pub fn ports(&self, node: u32) -> &[u32]
        requires { node < length (setup_view self.now).job.nodes }
        ensures { result.now ≡ out_ports (setup_view self.now).job.edges node }
    {
        self.topology.ports.as_slice()[node as usize].as_slice()
    }

    /// Returns the number of the lane of a tuple that the sender at an index of a node puts on a
    /// port, or `None` if no edge leaves the node by that port. A source has one sender, the
    /// feeder. Takes no memory.
    pub fn route(&self, sender: WorkerAt, port: u32, tuple: &Tuple) -> Option<u32>
        requires { sender.place < length (senders (setup_view self.now).job sender.node) }
        ensures some { IfSome result (λ number. (from : Option ℕ)
            → slice_get (senders (setup_view self.now).job sender.node) sender.place ≡ Some from
            → IsNumberOf (setup_view self.now).job
            (lane_of (setup_view self.now).job from sender.node port tuple.now) number) }
        ensures none { IfNone result ((from : Option ℕ)
            → lane_of (setup_view self.now).job from sender.node port tuple.now ≡ None) }
    {
        self.topology.route(&self.job, sender, port, tuple)
    }

    /// The edges that a request covers, as a mask. Takes no memory.
    pub fn covered_edges(&self, request: u64) -> u128
        ensures { (edge : ℕ) → has result edge ≡ covers_edge (setup_view self.now) request edge }
    {
        match self.plan_of(request) {
            Some(plan) => plan.edges,
            None => 0,
        }
    }

    /// Whether a request covers an edge. Takes no memory.
    pub fn covers_edge(&self, request: u64, edge: u32) -> bool
        requires { edge < MAX_EDGES }
        ensures { result ≡ covers_edge (setup_view self.now) request edge }
    {
        match self.plan_of(request) {
            Some(plan) => plan.covers_edge(edge),
            None => false,
        }
    }
}
