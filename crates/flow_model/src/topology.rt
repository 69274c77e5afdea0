// The workers and lanes of a job.
ghost use Rattle.std.specs.Prelude.{◌≡◌, ◌<◌, ℕ, IfOk, IfSome, IfNone, Option, Some, None, length};
ghost use Rattle.std.specs.Prelude.{option_copied, slice_get};
ghost use Rattle.flow_dag.specs.declared.edge.Edge.{Edge as EdgeIs};
ghost use Rattle.jobs.specs.Job.{job_view};
ghost use Rattle.flow_model.specs.Lanes.{lane_along, lane_of as lane_to, senders};
ghost use Rattle.flow_model.specs.Topology.{IsNumberOf, first_with, out_edge, topology_of};

use crate::tables;
use operators::{Job, Ports, lane_of};
use std::alloc::Global;
use tuple_trace::{Items, NoMemory, Tuple};

/// Where a worker is: its node, and its place among the workers of the node, from 0.
#[derive(Clone, Copy, Debug, PartialEq, Eq)]
pub struct WorkerAt {
    pub node: u32,
    pub place: u32,
}

/// A lane: its edge, the worker that sends on it (`None` if the feeder does), and the worker that
/// receives.
#[derive(Clone, Copy, Debug, PartialEq, Eq)]
pub struct Lane {
    pub edge: u32,
    pub sender: Option<u32>,
    pub receiver: u32,
}

/// An edge out of a node, as its senders see it.
#[derive(Clone, Copy, Debug, PartialEq, Eq)]
pub struct OutEdge {
    pub port: u32,
    /// The number of the edge.
    pub edge: u32,
    /// The number of its first lane. Its lanes follow each other by their senders, and for one
    /// sender by their receivers.
    pub first_lane: u32,
    /// The number of the first worker of the node where it ends.
    pub first_receiver: u32,
    /// How many workers that node has.
    pub receivers: u32,
}

/// The numbers of some lanes, rising.
pub type LaneNumbers = Items<u32>;

/// The edges out of a node, by their numbers.
pub type OutEdges = Items<OutEdge>;

/// The workers and lanes of a job, so that nobody looks through nodes, edges or lanes while tuples
/// flow.
#[derive(Debug, Drop)]
pub struct Topology {
    /// By their numbers.
    pub workers: Items<WorkerAt>,
    /// By their numbers.
    pub lanes: Items<Lane>,
    /// The lanes in, by worker.
    pub lanes_in: Items<LaneNumbers>,
    /// The lanes out, by worker.
    pub lanes_out: Items<LaneNumbers>,
    /// The edges out, by node.
    pub out_edges: Items<OutEdges>,
    /// The ports of the edges out, by node.
    pub ports: Items<Ports>,
}

impl Topology {
    /// The topology of a job.
    pub fn of(alloc: Global, job: &Job) -> Result<Topology, NoMemory>
        ensures { IfOk result (λ topology. topology ≡ topology_of (job_view job.now)) }
    {
        let workers = tables::workers_of(alloc, job)?;
        let lanes = tables::all_lanes(alloc, job)?;
        let lanes_in = tables::numbers_in_each(alloc, workers.len(), lanes.as_slice())?;
        let lanes_out = tables::numbers_out_each(alloc, workers.len(), lanes.as_slice())?;
        let all = tables::all_out_edges(alloc, job)?;
        let out_edges = tables::edges_by_node(alloc, job, all.as_slice())?;
        let ports = tables::ports_by_node(alloc, job)?;
        Ok(Topology {
            workers,
            lanes,
            lanes_in,
            lanes_out,
            out_edges,
            ports,
        })
    }

    /// Returns the number of the lane of a tuple that the sender at an index of a node puts on a
    /// port, or `None` if no edge leaves the node by that port. A source has one sender, the
    /// feeder. Takes no memory.
    pub fn route(&self, job: &Job, sender: WorkerAt, port: u32, tuple: &Tuple) -> Option<u32>
        requires topology { self.now ≡ topology_of (job_view job.now) }
        requires sender { sender.place < length (senders (job_view job.now) sender.node) }
        ensures some { IfSome result (λ number. (from : Option ℕ)
            → slice_get (senders (job_view job.now) sender.node) sender.place ≡ Some from
            → IsNumberOf (job_view job.now)
            (lane_to (job_view job.now) from sender.node port tuple.now) number) }
        ensures none { IfNone result ((from : Option ℕ)
            → lane_to (job_view job.now) from sender.node port tuple.now ≡ None) }
    {
        let outs = self.out_edges.as_slice()[sender.node as usize].as_slice();
        match out_with(outs, port) {
            Some(out) => Some(lane_by(job, out, sender, tuple)),
            None => None,
        }
    }
}

// The first edge on a port.
fn out_with(outs: &[OutEdge], port: u32) -> Option<&OutEdge>
    ensures { option_copied result ≡ first_with port outs.now }
{
    for out in outs {
        if out.port == port {
            return Some(out);
        }
    }
    None
}

// The lane of a tuple along an edge.
fn lane_by(job: &Job, out: &OutEdge, sender: WorkerAt, tuple: &Tuple) -> u32
    requires sender { sender.place < length (senders (job_view job.now) sender.node) }
    requires there { (edge : EdgeIs) × (slice_get (job_view job.now).edges out.now.edge ≡ Some edge)
        × (edge.from ≡ sender.node) × (out.now ≡ out_edge (job_view job.now) (out.now.edge, edge)) }
    ensures { (from : Option ℕ)
        → slice_get (senders (job_view job.now) sender.node) sender.place ≡ Some from
        → (edge : EdgeIs) → slice_get (job_view job.now).edges out.now.edge ≡ Some edge
        → IsNumberOf (job_view job.now)
        (lane_along (job_view job.now) from (Some (out.now.edge, edge)) tuple.now) result }
{
    let receiver = lane_of(job, out.edge, tuple);
    out.first_lane + sender.place * out.receivers + receiver
}
