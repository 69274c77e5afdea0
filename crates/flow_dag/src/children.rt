ghost use Rattle.std.specs.Prelude.{ℕ, ◌<◌, ◌≤◌, ◌↔◌, IfOk, IfErr, OnOk, All, length};
ghost use Rattle.flow_dag.specs.Rows.{RowHas};
ghost use Rattle.flow_dag.specs.Edges.{HasEdge, IsInside, HaveDistinctEnds};
ghost use Rattle.flow_dag.specs.Fault.{IsFaultOf};

use crate::edge::Edge;
use crate::fault::DagFault;
use crate::{MAX_EDGES, MAX_NODES, mask};

/// Refuses an edge with an end outside of the graph.
pub fn check_ends(n: u32, edges: &[Edge]) -> Result<(), DagFault>
    requires { length edges.now ≤ MAX_EDGES }
    ensures inside { OnOk result (All (IsInside n) edges.now) }
    ensures fault { IfErr result (IsFaultOf n edges.now) }
{
    for (i, edge) in edges.iter().enumerate() {
        if edge.from >= n || edge.to >= n {
            return Err(DagFault::NodeRange(i as u32));
        }
    }
    Ok(())
}

/// The children of each node. Refuses an edge with the ends of an earlier one.
pub fn children(n: u32, edges: &[Edge]) -> Result<[u64; MAX_NODES], DagFault>
    requires nodes { n ≤ MAX_NODES }
    requires count { length edges.now ≤ MAX_EDGES }
    requires inside { All (IsInside n) edges.now }
    ensures child { IfOk result (λ child. (a b : ℕ) → RowHas child a b ↔ HasEdge edges.now a b) }
    ensures distinct { OnOk result (HaveDistinctEnds edges.now) }
    ensures fault { IfErr result (IsFaultOf n edges.now) }
{
    let mut child = [0u64; MAX_NODES];
    for (i, edge) in edges.iter().enumerate() {
        let row = child[edge.from as usize];
        if mask::has_bit(row, edge.to) {
            return Err(DagFault::Repeated(i as u32));
        }
        child[edge.from as usize] = mask::with_bit(row, edge.to);
    }
    Ok(child)
}
