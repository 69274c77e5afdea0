ghost use Rattle.std.specs.Prelude.{◌≢◌, ℕ, ◌<◌, ◌↔◌, MatchBool};
ghost use Rattle.flow_dag.specs.Masks.{Has};
ghost use Rattle.flow_dag.specs.Rows.{RowHas};
ghost use Rattle.flow_dag.specs.Edges.{HasEdge};
ghost use Rattle.cover_planner.specs.Members.{IsMember};

use crate::reach;
use flow_dag::{Dag, MAX_NODES};

/// The asked nodes, those of `splits` from which a path leads to one of them, and those of `copies`
/// with two edges that lead to one.
pub fn members(dag: &Dag, splits: u64, copies: u64, asked: u64) -> u64
    requires { (m : ℕ) → Has asked m → m < dag.now.nodes }
    ensures { (a : ℕ) → Has result a
        ↔ IsMember (HasEdge dag.now.edges) (Has asked) (Has splits) (Has copies) a }
{
    let above = reach::above_all(dag, asked);
    asked | splits & above | copies & forked(&dag.graph().child, asked | above)
}

/// The nodes with two children in the set.
fn forked(children: &[u64; 64], set: u64) -> u64
    ensures { (a : ℕ) → Has result a
        ↔ ((b : ℕ) × (c : ℕ) × (b ≢ c) × (RowHas children.now a b × Has set b)
        × (RowHas children.now a c × Has set c)) }
{
    let mut found = 0u64;
    for (a, row) in children.iter().enumerate() {
        if has_two(*row & set) {
            found = flow_dag::with_bit(found, a as u32);
        }
    }
    found
}

/// Whether two bits of the mask are set.
fn has_two(mask: u64) -> bool
    ensures { MatchBool result
        ((b : ℕ) × (c : ℕ) × (b ≢ c) × Has mask b × Has mask c)
        ((b c : ℕ) → Has mask b → Has mask c → b ≢ c → ⊥) }
{
    let mut one = false;
    for b in 0..MAX_NODES as u32 {
        if flow_dag::has_bit(mask, b) {
            if one {
                return true;
            }
            one = true;
        }
    }
    false
}
