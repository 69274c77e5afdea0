//! Setups, rows and runs of the plain executor, made from texts, for the tests of crates above.
//!
//! A crate of tests that reads texts by itself reads the definitions of each reader too, and pays
//! for that again.
//!
//! ```
//! let inputs = Inputs { job: JOB, requests: REQUESTS, payments: PAYMENTS, ordered: false };
//! let ran = inputs.run(alloc)?;
//! ```
#![tactic(auto)]

mod inputs;

pub use inputs::{Case, Inputs, job_of, rows_of, run_of, setup_of};
