ghost use Rattle.std.specs.Prelude.{ℕ, ◌<◌, ◌↔◌, ◌⊎◌};
ghost use Rattle.flow_dag.specs.Masks.{Has};
ghost use Rattle.flow_dag.specs.Rows.{RowHas};
ghost use Rattle.flow_dag.specs.Edges.{HasEdge};
ghost use Rattle.cover_planner.specs.Cover.{IsDownstream, IsUpstream, IsCoveredEdge, MarksEdges};

use crate::reach;
use flow_dag::{Dag, MAX_NODES};

/// The covered edges, as rows of children: those that lead from a member or a node below one to a
/// member or a node above one.
pub fn covered_children(dag: &Dag, members: u64) -> [u64; MAX_NODES]
    requires { (m : ℕ) → Has members m → m < dag.now.nodes }
    ensures { (a b : ℕ) → RowHas result a b
        ↔ IsCoveredEdge (HasEdge dag.now.edges) (Has members) a b }
{
    let from = downstream(dag, members);
    let to = upstream(dag, members);
    between(&dag.graph().child, from, to)
}

/// The members and the nodes below one.
fn downstream(dag: &Dag, members: u64) -> u64
    requires { (m : ℕ) → Has members m → m < dag.now.nodes }
    ensures { (a : ℕ) → Has result a ↔ IsDownstream (HasEdge dag.now.edges) (Has members) a }
{
    members | reach::below_all(dag, members)
}

/// The members and the nodes above one.
fn upstream(dag: &Dag, members: u64) -> u64
    requires { (m : ℕ) → Has members m → m < dag.now.nodes }
    ensures { (a : ℕ) → Has result a ↔ IsUpstream (HasEdge dag.now.edges) (Has members) a }
{
    members | reach::above_all(dag, members)
}

/// The rows with only the pairs from a node of the one set to a node of the other.
fn between(rows: &[u64; MAX_NODES], from: u64, to: u64) -> [u64; MAX_NODES]
    ensures { (a b : ℕ) → RowHas result a b ↔ (RowHas rows.now a b × Has from a × Has to b) }
{
    let mut kept = [0u64; MAX_NODES];
    for a in 0..MAX_NODES as u32 {
        if flow_dag::has_bit(from, a) {
            kept[a as usize] = rows[a as usize] & to;
        }
    }
    kept
}

/// The neighbours of each node, along an edge or against it.
pub fn either_way(children: &[u64; MAX_NODES], parents: &[u64; MAX_NODES]) -> [u64; MAX_NODES]
    ensures { (a b : ℕ) → RowHas result a b ↔ (RowHas children.now a b ⊎ RowHas parents.now a b) }
{
    let mut joined = [0u64; MAX_NODES];
    for a in 0..MAX_NODES {
        joined[a] = children[a] | parents[a];
    }
    joined
}

/// The places of the edges that the rows have.
pub fn marked(dag: &Dag, children: &[u64; MAX_NODES]) -> u128
    ensures { MarksEdges dag.now.edges (RowHas children.now) result }
{
    let mut mask = 0u128;
    for i in 0..dag.edges() {
        let edge = dag.edge(i);
        if flow_dag::has_bit(children[edge.from as usize], edge.to) {
            mask = flow_dag::with_wide_bit(mask, i);
        }
    }
    mask
}
