//! The law of journals, decided: whether the journal of a worker is finished, of which an audit
//! keeps only the rows and births of the tuples.
#![tactic(auto)]

mod course;
mod duty;
mod in_time;
mod law;
mod marks;

pub use law::{check_law, is_finished};
