ghost use Rattle.std.specs.Prelude.{ℕ, ◌↔◌, ◌⊎◌, MatchBool};
ghost use Rattle.flow_dag.specs.Masks.{Has};
ghost use Rattle.flow_dag.specs.Rows.{RowHas};

/// The members, and the nodes that a covered edge joins with another.
pub fn covered_nodes(members: u64, joined: &[u64; 64]) -> u64
    ensures { (a : ℕ) → Has result a ↔ (Has members a ⊎ ((b : ℕ) × RowHas joined.now a b)) }
{
    let mut nodes = members;
    for (a, row) in joined.iter().enumerate() {
        if !is_empty(*row) {
            nodes = flow_dag::with_bit(nodes, a as u32);
        }
    }
    nodes
}

/// The nodes of the set that have no parent.
pub fn not_entered(nodes: u64, parents: &[u64; 64]) -> u64
    ensures { (a : ℕ) → Has result a ↔ (Has nodes a × ((b : ℕ) → ¬ RowHas parents.now a b)) }
{
    let mut heads = 0u64;
    for (a, row) in parents.iter().enumerate() {
        if flow_dag::has_bit(nodes, a as u32) && is_empty(*row) {
            heads = flow_dag::with_bit(heads, a as u32);
        }
    }
    heads
}

/// Whether no bit of the mask is set.
fn is_empty(mask: u64) -> bool
    ensures { MatchBool result ((b : ℕ) → ¬ Has mask b) ((b : ℕ) × Has mask b) }
{
    mask == 0
}
