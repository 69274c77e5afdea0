//! Directed acyclic graphs of up to 64 nodes, small enough that a set of nodes is one word.
//!
//! A [`Dag`] is made from a list of edges by [`Dag::check`], which says precisely what is wrong
//! with a list that makes none. Afterwards every question about paths is answered from masks that
//! the `Dag` keeps, at once and without memory. In a mask, bit `i` stands for node `i`.
//!
//! A path is a nonempty list of nodes with an edge from each to the next. It *leads* from `a` to
//! `b` where it begins with `a`, ends with `b` and has two or more nodes, so in an acyclic graph no
//! path leads from a node to itself. The contracts say this over the relation of the edges, in
//! `specs/Paths.antt`, and a bit of a mask is the word `Has` of `specs/Masks.antt`; both are meant
//! for the crates above too.
//!
//! ```
//! let edge = |from: u32, to: u32| Edge { from, port: 0, to };
//! let dag = Dag::check(rt.alloc(), 3, &[edge(2, 1), edge(1, 0)])?;
//! assert!(rt; dag.reaches(2, 0) && !dag.reaches(0, 2));
//! assert_eq!(rt; dag.above(0), 0b110);
//! assert_eq!(rt; dag.order(0), 2);
//! ```
#![tactic(auto)]

mod children;
mod dag;
mod edge;
mod fault;
mod graph;
mod limits;
mod mask;
mod order;
mod reach;
mod rows;

pub use dag::Dag;
pub use edge::Edge;
pub use fault::DagFault;
pub use graph::Graph;
pub use limits::{MAX_EDGES, MAX_NODES};
pub use mask::{has_bit, has_wide_bit, with_bit, with_wide_bit};
pub use rows::{closure, transposed};
