// The edges of a node.
ghost use Rattle.std.specs.Prelude.{◌≡◌, ◌≤◌, ◌&&◌, All, MatchOption, length, take};
ghost use Rattle.flow_dag.specs.Edges.{IsInside, IsOutside};
ghost use Rattle.jobs.specs.Places.{FindsFailure};
ghost use Rattle.jobs.specs.Ports.{are_ports, has_edge, has_port, has_ports, is_entered};
ghost use Rattle.jobs.specs.Ports.{leads_twice, may_enter, may_leave, out_count};

use crate::{Func, NodeDef, is_source};
use flow_dag::{Edge, MAX_EDGES, MAX_NODES};

/// The first edge that has an end which is none of the first `count` nodes.
pub fn wrong_end(count: u32, edges: &[Edge]) -> Option<u32>
    requires { length edges.now ≤ MAX_EDGES }
    ensures { MatchOption result (All (IsInside count) edges.now) (λ i. IsOutside count edges.now i
        × All (IsInside count) (take i edges.now)) }
{
    for (i, edge) in edges.iter().enumerate() {
        if edge.from >= count || edge.to >= count {
            return Some(i as u32);
        }
    }
    None
}

/// The first node whose edges aren't those of its kind.
pub fn wrong_ports(nodes: &[NodeDef], edges: &[Edge]) -> Option<u32>
    requires nodes { length nodes.now ≤ MAX_NODES }
    requires edges { length edges.now ≤ MAX_EDGES }
    ensures { FindsFailure (λ v node. are_ports edges.now v node.func) nodes.now result }
{
    for i in 0..nodes.len() {
        if !are_ports(edges, i as u32, &nodes[i].func) {
            return Some(i as u32);
        }
    }
    None
}

// Whether the edges of a node with this function are those of its kind, on the ports from 0 on,
// each to another node.
fn are_ports(edges: &[Edge], node: u32, func: &Func) -> bool
    requires { length edges.now ≤ MAX_EDGES }
    ensures { result ≡ are_ports edges.now node func.now }
{
    let outs = out_count(edges, node);
    are_all(
        may_enter(func, is_entered(edges, node)),
        may_leave(func, outs),
        has_ports(edges, node, outs),
        !leads_twice(edges, node),
    )
}

fn are_all(a: bool, b: bool, c: bool, d: bool) -> bool
    ensures { result ≡ (a && b && c && d) }
{
    a && b && c && d
}

fn may_enter(func: &Func, entered: bool) -> bool
    ensures { result ≡ may_enter func.now entered }
{
    if is_source(func) { !entered } else { entered }
}

fn may_leave(func: &Func, outs: u32) -> bool
    ensures { result ≡ may_leave func.now outs }
{
    let row = func.kind().row();
    row.least_outs <= outs && outs <= row.most_outs
}

fn is_entered(edges: &[Edge], node: u32) -> bool
    ensures { result ≡ is_entered edges.now node }
{
    edges.iter().any(|edge| edge.to == node)
}

pub fn out_count(edges: &[Edge], node: u32) -> u32
    requires { length edges.now ≤ MAX_EDGES }
    ensures { result ≡ out_count edges.now node }
{
    let mut count = 0u32;
    for edge in edges {
        if edge.from == node {
            count += 1;
        }
    }
    count
}

// Whether an edge leaves the node on each port below this number.
fn has_ports(edges: &[Edge], node: u32, ports: u32) -> bool
    ensures { result ≡ has_ports edges.now node ports }
{
    for port in 0..ports {
        if !has_port(edges, node, port) {
            return false;
        }
    }
    true
}

/// Whether an edge leaves the node on the port. Takes no memory.
pub fn has_port(edges: &[Edge], node: u32, port: u32) -> bool
    ensures { result ≡ has_port edges.now node port }
{
    edges
        .iter()
        .any(|edge| edge.from == node && edge.port == port)
}

// Whether two of the node's edges lead to one node.
fn leads_twice(edges: &[Edge], node: u32) -> bool
    ensures { result ≡ leads_twice edges.now node }
{
    for (i, edge) in edges.iter().enumerate() {
        if edge.from == node && has_edge(&edges[i + 1..], node, edge.to) {
            return true;
        }
    }
    false
}

fn has_edge(edges: &[Edge], from: u32, to: u32) -> bool
    ensures { result ≡ has_edge edges.now from to }
{
    edges.iter().any(|edge| edge.from == from && edge.to == to)
}
