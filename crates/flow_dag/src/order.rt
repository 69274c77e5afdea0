ghost use Rattle.std.specs.Prelude.{ℕ, ◌<◌, ◌≤◌, IfOk, length, slice_index};
ghost use Rattle.flow_dag.specs.Masks.{Has};
ghost use Rattle.flow_dag.specs.Rows.{RowHas};
ghost use Rattle.flow_dag.specs.Order.{IsTopologicalOrder};

use crate::{MAX_NODES, mask};
use std::alloc::{AllocError, Global};

/// The first `n` nodes, each before the nodes to which a path leads from it.
pub fn topological_order(
    alloc: Global,
    n: u32,
    below: &[u64; MAX_NODES],
) -> Result<Vec<u32>, AllocError>
    requires nodes { n ≤ MAX_NODES }
    requires acyclic { (a : ℕ) → ¬ RowHas below.now a a }
    requires transitive { (a b c : ℕ) → RowHas below.now a b → RowHas below.now b c
        → RowHas below.now a c }
    ensures { IfOk result (λ order. IsTopologicalOrder (RowHas below.now) n order.items) }
{
    let mut order = Vec::new(alloc);
    for node in 0..n {
        let place = first_in(&order, below[node as usize]);
        order.insert(place, node)?;
    }
    Ok(order)
}

/// The place of the first node that is in the mask, or the length of the list.
fn first_in(nodes: &[u32], mask: u64) -> usize
    requires { (k : ℕ) → k < length nodes.now → slice_index nodes.now k < MAX_NODES }
    ensures within { result ≤ length nodes.now }
    ensures before { (k : ℕ) → k < result → ¬ Has mask (slice_index nodes.now k) }
    ensures found { result < length nodes.now → Has mask (slice_index nodes.now result) }
{
    for (i, node) in nodes.iter().enumerate() {
        if mask::has_bit(mask, *node) {
            return i;
        }
    }
    nodes.len()
}
