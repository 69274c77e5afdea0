//! The least cover of a change: which nodes and edges of a graph have to take part in it.
//!
//! A change asks some nodes to change. Its *members* are these and, above them, every node that may
//! make pieces of a tuple, and every one whose copies come to asked nodes along two edges or more.
//! Its *cover* is the minimal covering sub-DAG of the members, as the Fries paper (PVLDB 2022) has
//! it: the members and all paths between them, and nothing that could be left out. A *head* of the
//! cover has no covered edge into it, and a *part* is a class of covered nodes that covered edges
//! join. [`plan`] answers all of this as masks, without memory.
//!
//! ```
//! let edge = |from: u32, to: u32| Edge { from, port: 0, to };
//! let dag = Dag::check(rt.alloc(), 3, &[edge(0, 1), edge(1, 2)])?;
//! let plan = plan(&dag, 0, 0, 0b101);
//! assert!(rt; plan.nodes == 0b111 && plan.edges == 0b11 && plan.heads == 0b1);
//! ```
#![tactic(auto)]

mod cover;
mod edges;
mod laws;
mod members;
mod nodes;
mod parts;
mod planner;
mod reach;

pub use cover::{NO_PART, Plan};
pub use laws::paths_stay_covered;
pub use planner::plan;
