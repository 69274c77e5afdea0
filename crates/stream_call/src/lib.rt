//! The command `stream`: payments that come for ever, run in parts.
//!
//! ```text
//! let outcome = stream(&host, &files, &mut shelf, &mut out, &mut tap, &mut watch);
//! ```
#![tactic(auto)]

mod begin;
mod calls;
mod fault;
mod lines;
mod opened;
mod resume;

pub use calls::{StreamOutcome, stream};
pub use fault::StreamFault;
