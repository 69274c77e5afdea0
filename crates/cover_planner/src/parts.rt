ghost use Rattle.std.specs.Prelude.{ℕ, ◌<◌, MatchOption};
ghost use Rattle.flow_dag.specs.Masks.{Has};
ghost use Rattle.flow_dag.specs.Rows.{RowHas};
ghost use Rattle.flow_dag.specs.Paths.{IsOrReaches};
ghost use Rattle.cover_planner.specs.Parts.{IsNumbered};

use crate::cover::NO_PART;
use flow_dag::MAX_NODES;

/// Numbers the classes of nodes that are joined, in the order of their least nodes.
pub fn numbered(nodes: u64, joined: &[u64; MAX_NODES]) -> [u8; MAX_NODES]
    requires inside { (a b : ℕ) → RowHas joined.now a b → (a < MAX_NODES) × (b < MAX_NODES) }
    requires symmetric { (a b : ℕ) → RowHas joined.now a b → RowHas joined.now b a }
    requires nodes { (a b : ℕ) → RowHas joined.now a b → Has nodes b }
    ensures { IsNumbered (Has nodes) (IsOrReaches (RowHas joined.now)) result }
{
    let classes = flow_dag::closure(MAX_NODES as u32, joined);
    let mut part = [NO_PART; MAX_NODES];
    let mut next = 0u8;
    for a in 0..MAX_NODES as u32 {
        if flow_dag::has_bit(nodes, a) {
            match first_below(classes[a as usize], a) {
                Some(b) => part[a as usize] = part[b as usize],
                None => {
                    part[a as usize] = next;
                    next += 1;
                }
            }
        }
    }
    part
}

/// The least node of the mask, if it is below `a`.
fn first_below(mask: u64, a: u32) -> Option<u32>
    requires { a < MAX_NODES }
    ensures { MatchOption result
        ((b : ℕ) → b < a → ¬ Has mask b)
        (λ b. (b < a) × Has mask b × ((k : ℕ) → k < b → ¬ Has mask k)) }
{
    (0..a).find(|&b| flow_dag::has_bit(mask, b))
}
