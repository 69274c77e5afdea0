// How many tuples one row may bring to a node.
ghost use Rattle.std.specs.Prelude.{◌≡◌, ◌<◌, ◌≤◌, ℕ, length, option_copied, slice_index};
ghost use Rattle.jobs.specs.Nodes.{is_source_node};
ghost use Rattle.jobs.specs.Weights.{added_by, brought_to, fan_out_at, node_weight, weighed};
ghost use Rattle.jobs.specs.Weights.{weight_of, weight_from, with_edge, with_more};

use crate::node::is_source;
use crate::{Func, NodeDef};
use flow_dag::{Dag, Edge, MAX_NODES};

/// The weight of a job with these nodes and with the edges of this graph. Takes no memory.
pub fn weight_of(nodes: &[NodeDef], dag: &Dag) -> u64
    requires { dag.now.nodes ≡ length nodes.now }
    ensures { result ≡ weight_of nodes.now dag.now.edges }
{
    sum(nodes, &node_weights(nodes, dag))
}

// The weights of the nodes. In the graph's order each node follows its senders, so it is weighed
// once.
fn node_weights(nodes: &[NodeDef], dag: &Dag) -> [u32; MAX_NODES]
    requires { dag.now.nodes ≡ length nodes.now }
    ensures { (v : ℕ) → v < length nodes.now
        → slice_index result v ≡ node_weight nodes.now dag.now.edges v }
{
    let edges = dag.all_edges();
    let mut weights = [0u32; MAX_NODES];
    for i in 0..dag.nodes() {
        let v = dag.order(i);
        weights[v as usize] = weighed(nodes, edges, &weights, v);
    }
    weights
}

// The weight of a node, by those of its senders.
fn weighed(nodes: &[NodeDef], edges: &[Edge], weights: &[u32; MAX_NODES], v: u32) -> u32
    ensures { result ≡ weighed nodes.now edges.now (slice_index weights.now) v }
{
    if is_source_node(nodes.get(v as usize)) {
        return 1;
    }
    brought_to(nodes, edges, weights, v)
}

// What the edges that enter a node bring, cut.
fn brought_to(nodes: &[NodeDef], edges: &[Edge], weights: &[u32; MAX_NODES], v: u32) -> u32
    ensures { result ≡ brought_to nodes.now edges.now (slice_index weights.now) v }
{
    let mut sum = 0u32;
    for edge in edges {
        sum = with_edge(nodes, weights, v, sum, *edge);
    }
    sum
}

fn with_edge(nodes: &[NodeDef], weights: &[u32; MAX_NODES], v: u32, sum: u32, edge: Edge) -> u32
    ensures { result ≡ with_edge nodes.now (slice_index weights.now) v sum edge }
{
    if edge.to != v {
        return sum;
    }
    let weight = weight_at(weights, edge.from);
    with_more(sum, weight, fan_out_at(nodes.get(edge.from as usize)))
}

fn weight_at(weights: &[u32; MAX_NODES], v: u32) -> u32
    ensures { result ≡ slice_index weights.now v }
{
    match weights.get(v as usize) {
        Some(weight) => *weight,
        None => 0,
    }
}

fn with_more(sum: u32, weight: u32, fan: u32) -> u32
    ensures { result ≡ with_more sum weight fan }
{
    let more = u64::from(weight) * u64::from(fan);
    u64::from(sum).saturating_add(more).min(1_048_576) as u32
}

fn is_source_node(node: Option<&NodeDef>) -> bool
    ensures { result ≡ is_source_node (option_copied node.entry) }
{
    match node {
        Some(node) => is_source(&node.func),
        None => false,
    }
}

fn fan_out_at(node: Option<&NodeDef>) -> u32
    ensures { result ≡ fan_out_at (option_copied node.entry) }
{
    match node {
        Some(node) => node.roof,
        None => 1,
    }
}

// The sum of the weights of the nodes that aren't sources.
fn sum(nodes: &[NodeDef], weights: &[u32; MAX_NODES]) -> u64
    requires { length nodes.now ≤ MAX_NODES }
    ensures { result ≡ weight_from (slice_index weights.now) 0 nodes.now }
{
    let mut sum = 0u64;
    for v in 0..nodes.len() {
        sum += u64::from(added_by(&nodes[v].func, weights[v]));
    }
    sum
}

fn added_by(func: &Func, weight: u32) -> u32
    ensures { result ≡ added_by func.now weight }
{
    if is_source(func) { 0 } else { weight }
}
