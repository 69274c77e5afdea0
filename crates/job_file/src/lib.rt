//! Reads a job, and requests to change it, from the bytes of their files.
//!
//! Both files are TOML documents. [`read_job`] answers the job that a file writes down, and
//! [`read_requests`] the requests, or the first fault.
//!
//! ```
//! let job = read_job(alloc, b"columns = [\"amount:cents\"]\n..")?;
//! let requests = read_requests(alloc, &job, b"[[request]]\nafter = 2\n..")?;
//! ```
#![tactic(auto)]

mod carries;
mod changes;
mod columns;
mod conds;
mod document;
mod edges;
mod fault;
mod fault_words;
mod funcs;
mod kinds;
mod layout;
mod literals;
mod names;
mod nodes;
mod numbers;
mod read;
mod request_sizes;
mod requests;
mod steps;
mod tables;
mod wide;

pub use fault::{JobFault, Part, ReqFileFault};
pub use jobs::{Named, Which};
pub use read::{
    faulty_is_no_job, files_have_one_fault, read_job, read_requests, read_requests_up_to,
};
