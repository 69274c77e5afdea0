//! Whether the parts of a stream are runs one after another, as its audit tells them: each goes on
//! from where the part before it has ended, and brings all of its rows to their ends.
//!
//! ```text
//! let setup = check_parts(alloc, setup, &rows, audit.as_slice())?;
//! ```
#![tactic(auto)]

mod check;
mod fault;
mod laws;
mod progress;
mod setups;
mod whole;

pub use check::check_parts;
pub use fault::PartFault;
pub use laws::{parts_have_one_verdict, runs_are_told_in_parts};
