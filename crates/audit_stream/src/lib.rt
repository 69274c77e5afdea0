//! The audit of a stream, put together to the audit of one run.
//!
//! `fries stream` writes the audit of each part after the other. All parts are one run, and
//! [`put_together`] makes the text of its audit of the text of theirs. A checker of audits can read
//! it then.
//!
//! ```text
//! let text = put_together(alloc, &setup.job, audit_stream.as_slice())?;
//! ```
#![tactic(auto)]

mod groups;
mod kinds;
mod laws;
mod places;
mod together;
mod workers;

pub use laws::parts_are_put_together;
pub use places::record_places;
pub use together::put_together;
