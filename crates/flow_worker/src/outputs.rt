// The lanes of a function's outputs.
ghost use Rattle.std.specs.Prelude.{◌≡◌, [], length, map, reverse};
ghost use Rattle.jobs.specs.Job.{job_view};
ghost use Rattle.flow_model.specs.SetupView.{Worker as WorkerOfJob};
ghost use Rattle.flow_model.specs.Replay.{put_out};
ghost use Rattle.flow_model.specs.Topology.{out_edges};
ghost use Rattle.flow_worker.specs.Pairs.{EachOne, EachPair};
ghost use Rattle.flow_worker.specs.Endpoints.{Appended, HasRoomFor, LaneOutIs};
ghost use Rattle.flow_worker.specs.Steps.{items_at, place_from};
ghost use Rattle.flow_worker.specs.Worker.{IsSenderAt, lane_numbers_out};

use crate::lanes_out::LanesOut;
use flow_model::OutEdge;
use lane_core::Lanes;
use operators::{Job, Output, Outs, lane_of};
use std::alloc::Global;
use std::mem;
use tuple_trace::{Item, Tuple};

// Returns the place, among the lanes out, of a tuple's lane on a port; `None` if no edge leaves the
// node on that port. Takes no memory. It is not inlined: so the output stays in one piece and is
// moved as one.
#[inline(never)]
fn place_of(job: &Job, node: u32, edges: &[OutEdge], port: u32, tuple: &Tuple) -> Option<usize>
    requires { edges.now ≡ out_edges (job_view job.now) node }
    ensures { result ≡ place_from (job_view job.now) 0 edges.now port tuple.now }
{
    let mut first = 0;
    for edge in edges {
        if edge.port == port {
            if edge.receivers == 1 {
                return Some(first);
            }
            return Some(first + lane_of(job, edge.edge, tuple) as usize);
        }
        first += edge.receivers as usize;
    }
    None
}

// The outputs, the last first. One output alone, as most functions make it, isn't touched.
fn last_first(outputs: Vec<Output>) -> Vec<Output>
    ensures { reverse result.items ≡ outputs.items }
{
    let mut outputs = outputs;
    if outputs.len() > 1 {
        outputs.reverse();
    }
    outputs
}

/// Adds each output to the waiting items of its lane, in order. The list of outputs is left empty,
/// with its memory. Takes no memory.
pub fn enqueue_outputs<L: Lanes>(
    alloc: Global,
    job: &Job,
    node: u32,
    edges: &[OutEdge],
    outs: &mut LanesOut<L>,
    made: &mut Outs,
)
    requires who { (who : WorkerOfJob)
        × IsSenderAt (job_view job.now) node who (lane_numbers_out outs.old) }
    requires edges { edges.now ≡ out_edges (job_view job.now) node }
    requires room { EachOne (HasRoomFor (length made.old)) outs.old }
    ensures emptied { made.new ≡ [] }
    ensures outs { (who : WorkerOfJob) → IsSenderAt (job_view job.now) node who
        (lane_numbers_out outs.old)
        → EachPair (Appended (λ (out : LaneOutIs). items_at (job_view job.now)
        (map (put_out (job_view job.now) who) made.old) out.number)) outs.old outs.new }
{
    let mut left = last_first(mem::replace(made, Outs::new(alloc)).into_vec());
    while let Some(output) = left.pop() {
        if let Some(place) = place_of(job, node, edges, output.port, &output.tuple) {
            outs.push_at(place, Item::Carry(output.tuple));
        }
    }
    *made = Outs::from_vec(left);
}
