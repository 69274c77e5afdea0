// One row by itself.
ghost use Rattle.std.specs.Prelude.{◌≡◌, ◌++◌, ℕ, IfOk, OnOk, option_map, slice_get};
ghost use Rattle.std.specs.FinMap.{empty};
ghost use Rattle.std.specs.List.{enumerate_from};
ghost use Rattle.flow_dag.specs.declared.edge.Edge.{Edge as EdgeIs};
ghost use Rattle.jobs.specs.Job.{job_view};
ghost use Rattle.operators.specs.Meaning.{step};
ghost use Rattle.flow_model.specs.Alone.{alone as alone_of, bare_visit as bare_visit_at};
ghost use Rattle.flow_model.specs.Alone.{landing as landing_of, lands as lands_over};
ghost use Rattle.flow_model.specs.Lanes.{first_on};

use flow_dag::Edge;
use flow_model::{Landing, Landings};
use jobs::{Func, Job, is_sink};
use keyed_state::Keyed;
use operators::{Outs, Visited, out_ports};
use std::alloc::Global;
use tuple_trace::{Items, NoMemory, Row, Tuple, Visit};

/// The functions of all nodes, one for each, in the order of their numbers.
pub type FuncTable = Items<Func>;

/// What comes to the sinks if one row is sent through the graph of a job by itself, and each node
/// has the one function of the table.
///
/// No worker, lane or request is known here, and each count begins anew: it tells what becomes of
/// a row if no node counts. A node that the table doesn't have lets nothing pass.
pub fn alone(alloc: Global, job: &Job, table: &FuncTable, row: &Row) -> Result<Landings, NoMemory>
    ensures { IfOk result (λ landings. landings
        ≡ alone_of (job_view job.now) (slice_get table.now) row.now) }
{
    let mut landings = Landings::new(alloc);
    if let Some(edge) = first_edge(job.dag.all_edges(), row.source, 0) {
        let graph = Graph {
            alloc,
            job,
            table: table.as_slice(),
            nodes: job.nodes.len(),
        };
        graph.deliver(edge.to, &row.tuple, &mut landings)?;
    }
    Ok(landings)
}

/// A job, with one function for each node.
#[derive(Clone, Copy)]
struct Graph<'a> {
    alloc: Global,
    job: &'a Job,
    table: &'a [Func],
    /// Through how many nodes a tuple may go at most.
    nodes: usize,
}

impl Graph<'_> {
    // Processes a tuple at a node and its outputs downstream.
    fn deliver(self, node: u32, tuple: &Tuple, landings: &mut Landings) -> Result<(), NoMemory>
        ensures { OnOk result (landings.new ≡ landings.old
            ++ lands_over (job_view self.entry.job.now) (slice_get self.entry.table.now)
            self.entry.nodes node tuple.now) }
    {
        if self.nodes == 0 {
            return Ok(());
        }
        let Some(func) = self.table.get(node as usize) else {
            return Ok(());
        };
        if is_sink(func) {
            return landings.push(landing(node, tuple)?);
        }
        let outs = self.outputs(node, func, tuple)?;
        let onward = Graph {
            alloc: self.alloc,
            job: self.job,
            table: self.table,
            nodes: self.nodes - 1,
        };
        for output in outs.as_slice() {
            match first_edge(self.job.dag.all_edges(), node, output.port) {
                Some(edge) => onward.deliver(edge.to, &output.tuple, landings)?,
                None => {}
            }
        }
        Ok(())
    }

    // What a node makes of a tuple, with no counts from before.
    fn outputs(self, node: u32, func: &Func, tuple: &Tuple) -> Result<Outs, NoMemory>
        ensures { IfOk result (λ outs. outs ≡ (step (job_view self.entry.job.now)
            (bare_visit_at node) func.now empty tuple.now).1) }
    {
        let visit = Visit {
            node,
            worker: 0,
            last: 0,
        };
        let mut counts = Keyed::new(self.alloc);
        let mut outs = Outs::new(self.alloc);
        let ports = out_ports(self.alloc, self.job, node)?;
        let here = Visited {
            job: self.job,
            ports: ports.as_slice(),
            visit,
        };
        here.apply(self.alloc, func, &mut counts, tuple, &mut outs)?;
        Ok(outs)
    }
}

fn landing(node: u32, tuple: &Tuple) -> Result<Landing, NoMemory>
    ensures { IfOk result (λ landing. landing ≡ landing_of node tuple.now) }
{
    let fields = tuple.copy()?.fields;
    Ok(Landing {
        sink: node,
        row: tuple.row,
        fields,
    })
}

// The first edge that leaves a node on a port.
fn first_edge(edges: &[Edge], node: u32, port: u32) -> Option<Edge>
    ensures { result ≡ option_map (λ (found : ℕ × EdgeIs). found.1)
        (first_on node port (enumerate_from 0 edges.now)) }
{
    for edge in edges {
        if edge.from == node && edge.port == port {
            return Some(*edge);
        }
    }
    None
}
