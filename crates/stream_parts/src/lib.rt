//! Rows of a stream in as many parts as they need, its savepoint when it is due, and its last part.
#![tactic(auto)]

mod end;
mod rows;
mod save;

pub use end::end_stream;
pub use rows::{rows_after, run_all};
pub use save::{save_if_asked, save_if_due};
