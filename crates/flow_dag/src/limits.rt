// The limits of a graph.

/// The most nodes of a graph: a set of nodes is one word of 64 bits.
pub const MAX_NODES: usize = 64;

/// The most edges of a graph: a set of edges is one word of 128 bits.
pub const MAX_EDGES: usize = 128;
