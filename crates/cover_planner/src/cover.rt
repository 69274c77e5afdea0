ghost use Rattle.std.specs.Prelude.{◌<◌, ◌↔◌, IsTrue};
ghost use Rattle.flow_dag.specs.Masks.{Has};

use flow_dag::{MAX_EDGES, MAX_NODES, has_bit, has_wide_bit};

/// The part of a node that isn't covered.
pub const NO_PART: u8 = 255;

/// What a change covers. In a mask, bit `i` stands for node `i`, or for the edge at place `i`.
#[derive(Clone, Copy, Debug, PartialEq, Eq)]
pub struct Plan {
    /// The nodes that the plan was made for.
    pub asked: u64,
    /// The asked nodes, the splits above them, and the nodes whose copies come to asked nodes along
    /// two edges or more.
    pub members: u64,
    /// The members and the ends of the covered edges.
    pub nodes: u64,
    /// The edges that lie on a path from a member to a member.
    pub edges: u128,
    /// The covered nodes with no covered edge into them.
    pub heads: u64,
    /// The number of each node's part, from 0 in the order of the least nodes of the parts, and
    /// [`NO_PART`] where the node isn't covered.
    pub part: [u8; MAX_NODES],
}

impl Plan {
    /// Whether the plan covers a node.
    pub fn covers_node(&self, node: u32) -> bool
        requires { node < MAX_NODES }
        ensures { IsTrue result ↔ Has self.now.nodes node }
    {
        has_bit(self.nodes, node)
    }

    /// Whether the plan covers an edge.
    pub fn covers_edge(&self, edge: u32) -> bool
        requires { edge < MAX_EDGES }
        ensures { IsTrue result ↔ Has self.now.edges edge }
    {
        has_wide_bit(self.edges, edge)
    }

    /// Whether a node is a head of what the plan covers.
    pub fn is_head(&self, node: u32) -> bool
        requires { node < MAX_NODES }
        ensures { IsTrue result ↔ Has self.now.heads node }
    {
        has_bit(self.heads, node)
    }
}
