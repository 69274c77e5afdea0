ghost use Rattle.std.specs.Prelude.{ℕ, ◌<◌, ◌↔◌};
ghost use Rattle.flow_dag.specs.Masks.{Has};
ghost use Rattle.flow_dag.specs.Paths.{Reaches};
ghost use Rattle.flow_dag.specs.Edges.{HasEdge};

use flow_dag::Dag;

/// The nodes from which a path leads to a node of the set.
pub fn above_all(dag: &Dag, set: u64) -> u64
    requires { (m : ℕ) → Has set m → m < dag.now.nodes }
    ensures { (a : ℕ) → Has result a ↔ ((m : ℕ) × Has set m × Reaches (HasEdge dag.now.edges) a m) }
{
    let mut found = 0u64;
    for m in 0..dag.nodes() {
        if flow_dag::has_bit(set, m) {
            found |= dag.above(m);
        }
    }
    found
}

/// The nodes to which a path leads from a node of the set.
pub fn below_all(dag: &Dag, set: u64) -> u64
    requires { (m : ℕ) → Has set m → m < dag.now.nodes }
    ensures { (a : ℕ) → Has result a ↔ ((m : ℕ) × Has set m × Reaches (HasEdge dag.now.edges) m a) }
{
    let mut found = 0u64;
    for m in 0..dag.nodes() {
        if flow_dag::has_bit(set, m) {
            found |= dag.below(m);
        }
    }
    found
}
