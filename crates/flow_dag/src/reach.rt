ghost use Rattle.std.specs.Prelude.{ℕ, ◌<◌, ◌≤◌, IfOk, IfErr, OnOk, All, length, MatchOption};
ghost use Rattle.flow_dag.specs.Rows.{RowHas};
ghost use Rattle.flow_dag.specs.Edges.{IsInside, HaveDistinctEnds};
ghost use Rattle.flow_dag.specs.Fault.{IsFaultOf};
ghost use Rattle.flow_dag.specs.Reach.{IsReachOf};

use crate::edge::Edge;
use crate::fault::DagFault;
use crate::{MAX_EDGES, MAX_NODES, children, mask, rows};

/// The edges of a graph and the paths over them, as rows of masks.
#[derive(Clone, Copy)]
pub struct Reach {
    /// For each node those to which an edge leads from it.
    pub child: [u64; MAX_NODES],
    /// For each node those from which a path leads to it.
    pub above: [u64; MAX_NODES],
    /// For each node those to which a path leads from it.
    pub below: [u64; MAX_NODES],
}

impl Reach {
    /// The rows of `n` nodes that are joined by these edges. Refuses an edge with the ends of an
    /// earlier one.
    pub fn of(n: u32, edges: &[Edge]) -> Result<Reach, DagFault>
        requires nodes { n ≤ MAX_NODES }
        requires count { length edges.now ≤ MAX_EDGES }
        requires inside { All (IsInside n) edges.now }
        ensures reach { IfOk result (IsReachOf edges.now) }
        ensures distinct { OnOk result (HaveDistinctEnds edges.now) }
        ensures fault { IfErr result (IsFaultOf n edges.now) }
    {
        let child = children::children(n, edges)?;
        let below = rows::closure(n, &child);
        Ok(Reach {
            child,
            above: rows::transposed(&below),
            below,
        })
    }

    /// The least node from which a path leads back to it.
    pub fn first_on_cycle(&self, n: u32) -> Option<u32>
        requires { n ≤ MAX_NODES }
        ensures { MatchOption result
            ((a : ℕ) → a < n → ¬ RowHas self.now.below a a)
            (λ a. (a < n) × RowHas self.now.below a a
            × ((b : ℕ) → b < a → ¬ RowHas self.now.below b b)) }
    {
        (0..n).find(|&node| mask::has_bit(self.below[node as usize], node))
    }
}
