ghost use Rattle.std.specs.Prelude.{◌≡◌, ℕ, ◌<◌, ◌≤◌, ◌↔◌, IfOk, IfErr, IsTrue, length, slice_get};
ghost use Rattle.std.specs.Prelude.{Some};
ghost use Rattle.flow_dag.specs.Masks.{Has};
ghost use Rattle.flow_dag.specs.Paths.{Reaches};
ghost use Rattle.flow_dag.specs.Edges.{HasEdge};
ghost use Rattle.flow_dag.specs.Dag.{IsDag};
ghost use Rattle.flow_dag.specs.Fault.{IsFaultOf};
ghost use Rattle.flow_dag.specs.Graph.{IsEdge};

use crate::edge::Edge;
use crate::fault::DagFault;
use crate::graph::Graph;
use crate::reach::Reach;
use crate::{MAX_EDGES, MAX_NODES, children, mask, order};
use std::alloc::{AllocError, Global};
use std::marker::Model;

/// A directed acyclic graph of 1 to 64 nodes and at most 128 edges, no two of which have the same
/// ends.
///
/// It keeps the edges as they were given, an order of the nodes in which every edge leads forward,
/// and for each node two masks, of the nodes from which a path leads to it and of those to which
/// one leads from it. That the graph is lawful is part of its value, so whoever holds a `Dag` knows
/// it.
#[derive(Drop)]
pub struct Dag {
    nodes: u32,
    edges: Vec<Edge>,
    order: Vec<u32>,
    reach: Reach,
    ghost lawful: { IsDag nodes edges.items order.items },
}

impl Model for Dag {
    ghost use Rattle.flow_dag.specs.Dag.{DagView};
    ghost use Rattle.flow_dag.specs.Reach.{IsReachOf};

    ghost Value = { DagView };

    ghost view = { λ d. record {
      nodes = d.nodes;
      edges = d.edges.items;
      order = d.order.items;
      lawful = d.lawful;
    } };

    ghost invariant = { λ d. IsReachOf d.edges.items d.reach };
}

impl Dag {
    /// The graph of the nodes 0 to `n - 1` with these edges.
    ///
    /// # Errors
    ///
    /// The faults are looked for in the order of [`DagFault`], and the first that stands is
    /// answered. Memory is taken only once the graph is known to be lawful.
    pub fn check(alloc: Global, n: u32, edges: &[Edge]) -> Result<Dag, DagFault>
        requires some { 1 ≤ n }
        requires nodes { n ≤ MAX_NODES }
        requires count { length edges.now ≤ MAX_EDGES }
        ensures graph { IfOk result (λ dag. (dag.nodes ≡ n) × (dag.edges ≡ edges.now)) }
        ensures fault { IfErr result (IsFaultOf n edges.now) }
    {
        children::check_ends(n, edges)?;
        let reach = Reach::of(n, edges)?;
        if let Some(node) = reach.first_on_cycle(n) {
            return Err(DagFault::Cycle(node));
        }
        let order = order::topological_order(alloc, n, &reach.below)?;
        let edges = Vec::from_slice(alloc, edges)?;
        Ok(Dag {
            nodes: n,
            edges,
            order,
            reach,
        })
    }

    /// An equal graph with memory of its own.
    pub fn copy(&self) -> Result<Dag, AllocError>
        ensures { IfOk result (λ copy. copy ≡ self.now) }
    {
        let alloc = *self.edges.allocator();
        let edges = Vec::from_slice(alloc, &self.edges)?;
        let order = Vec::from_slice(alloc, &self.order)?;
        Ok(Dag {
            nodes: self.nodes,
            edges,
            order,
            reach: self.reach,
        })
    }

    /// How many nodes the graph has.
    pub fn nodes(&self) -> u32
        ensures nodes { result ≡ self.now.nodes }
        ensures size { (1 ≤ result) × (result ≤ MAX_NODES) }
    {
        self.nodes
    }

    /// How many edges the graph has.
    pub fn edges(&self) -> u32
        ensures edges { result ≡ length self.now.edges }
        ensures count { result ≤ MAX_EDGES }
    {
        self.edges.len() as u32
    }

    /// All edges, as they were given.
    pub fn all_edges(&self) -> &[Edge]
        ensures edges { result.now ≡ self.now.edges }
        ensures count { length result.now ≤ MAX_EDGES }
    {
        self.edges.as_slice()
    }

    /// The edge at place `i` of the list that the graph was made from.
    pub fn edge(&self, i: u32) -> Edge
        requires { i < length self.now.edges }
        ensures { slice_get self.now.edges i ≡ Some result }
    {
        self.edges[i as usize]
    }

    /// The node at place `i` of an order in which every edge leads from an earlier node to a later
    /// one.
    pub fn order(&self, i: u32) -> u32
        requires { i < self.now.nodes }
        ensures { slice_get self.now.order i ≡ Some result }
    {
        self.order[i as usize]
    }

    /// Whether a path of two or more nodes leads from `a` to `b`.
    pub fn reaches(&self, a: u32, b: u32) -> bool
        requires from { a < self.now.nodes }
        requires to { b < self.now.nodes }
        ensures { IsTrue result ↔ Reaches (HasEdge self.now.edges) a b }
    {
        mask::has_bit(self.reach.below[a as usize], b)
    }

    /// The mask of the nodes from which a path leads to `node`. The node itself isn't among them.
    pub fn above(&self, node: u32) -> u64
        requires { node < self.now.nodes }
        ensures { (a : ℕ) → Has result a ↔ Reaches (HasEdge self.now.edges) a node }
    {
        self.reach.above[node as usize]
    }

    /// The mask of the nodes to which a path leads from `node`. The node itself isn't among them.
    pub fn below(&self, node: u32) -> u64
        requires { node < self.now.nodes }
        ensures { (b : ℕ) → Has result b ↔ Reaches (HasEdge self.now.edges) node b }
    {
        self.reach.below[node as usize]
    }

    /// The bare shape of the graph, which can be copied.
    pub fn graph(&self) -> Graph
        ensures nodes { result.n ≡ self.now.nodes }
        ensures edges { (a b : ℕ) → IsEdge result a b ↔ HasEdge self.now.edges a b }
    {
        Graph {
            n: self.nodes,
            child: self.reach.child,
        }
    }
}
