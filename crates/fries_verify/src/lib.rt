//! The steps of the command `verify`: the run whose audit a file holds is restored, be it one of
//! `run`, of `live`, of `stream` or of `resume`, and another file is compared with its alerts.
//!
//! ```text
//! let given = Given { requests: &requests, rows: &rows, audit: &name };
//! let done = audited_run(alloc, setup, given, &mut shelf)?;
//! check_alerts(alloc, &done, &other, &mut shelf)?;
//! ```
#![tactic(auto)]

mod alerts;
mod audits;
mod in_parts;
mod laws;
mod stream_setup;
mod waits;
mod whole;

pub use alerts::{check_alerts, verified_lines};
pub use audits::{Given, audited_later_run, audited_live_run, audited_run, audited_stream};
pub use laws::streams_are_shown;
pub use stream_setup::stream_setup_of;
pub use whole::whole_streams_are_shown;
