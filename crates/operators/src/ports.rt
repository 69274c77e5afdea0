// The ports of a node, and how many outputs leave by them.
ghost use Rattle.std.specs.Prelude.{◌≡◌, ◌==◌, IfOk};
ghost use Rattle.std.specs.List.{list_any};
ghost use Rattle.jobs.specs.Job.{job_view};
ghost use Rattle.operators.specs.Ports.{most_outputs, out_ports};

use jobs::{Func, Job, Shape, fan_out};
use std::alloc::Global;
use tuple_trace::{Items, NoMemory};

/// The ports of the edges that leave a node, in the order of the job's edges.
pub type Ports = Items<u32>;

/// Looks through the job's edges for the ports of a node: once for a node, before tuples flow.
///
/// A node that the job doesn't have has no ports.
pub fn out_ports(alloc: Global, job: &Job, node: u32) -> Result<Ports, NoMemory>
    ensures { IfOk result (λ ports. ports ≡ out_ports (job_view job.now).edges node) }
{
    let mut ports = Ports::new(alloc);
    let edges = job.dag.all_edges();
    for edge in edges {
        if edge.from == node {
            ports.push(edge.port)?;
        }
    }
    Ok(ports)
}

/// The most outputs that a function makes of one tuple, at a node with these ports.
///
/// Takes no memory.
pub fn most_outputs(func: &Func, ports: &[u32]) -> usize
    ensures { result ≡ most_outputs func.now ports.now }
{
    match func.kind().row().shape {
        Shape::Nothing => 0,
        Shape::AtMostOne => 1,
        Shape::Pieces => fan_out(func) as usize,
        Shape::Copies => ports.len(),
    }
}

/// Whether the port is among these.
pub(crate) fn has_port(ports: &[u32], port: u32) -> bool
    ensures { result ≡ list_any (λ p. p == port) ports.now }
{
    ports.iter().any(|p| *p == port)
}
