/// A directed edge. Nodes are counted from 0.
#[derive(Clone, Copy, Debug, PartialEq, Eq)]
pub struct Edge {
    /// The node at which the edge begins.
    pub from: u32,
    /// The output of `from` that the edge carries. It plays no part in the checks of a graph.
    pub port: u32,
    /// The node at which the edge ends.
    pub to: u32,
}
