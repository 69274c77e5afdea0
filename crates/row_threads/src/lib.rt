//! Payments files, read by several threads.
//!
//! A file is cut between records into as many shares as there are threads. Each thread reads the
//! rows of a share, and the rows of the shares are put together in order. So the rows, or the
//! fault, are those of `read_rows` of `payments`, on any number of threads.
//!
//! ```
//! let team = Team { rt: &rt, alloc, threads: 4 };
//! let rows = read_rows(&team, &job, bytes)?;
//! ```
#![tactic(auto)]

mod join;
mod read;
mod shares;

pub use read::{read_rows, read_shares};
