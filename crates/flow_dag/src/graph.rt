use crate::MAX_NODES;

/// The bare shape of a graph: which node has an edge to which.
#[derive(Clone, Copy, Debug, PartialEq, Eq)]
pub struct Graph {
    /// How many nodes there are, at most 64.
    pub n: u32,
    /// Bit `b` of `child[a]` is set where an edge leads from `a` to `b`.
    pub child: [u64; MAX_NODES],
}
