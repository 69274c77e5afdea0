//! The steps that the commands of `fries` share: a file is read, requests are judged, rows are run,
//! files are written, and lines are printed.
//!
//! Each step meets files and the output by the traits [`payments::Shelf`] and [`payments::Sink`]
//! only. Its clauses say what it leaves of them, and why it failed.
//!
//! ```text
//! let job = job_in(alloc, &name, &mut shelf)?;
//! let requests = requests_in(alloc, &job, &other, &mut shelf)?;
//! let host = Host { rt: &rt, alloc, gate: &OpenGate };
//! let rows = rows_in(&host.team(4), &job, &third, &mut shelf)?;
//! let done = run_on_threads(&host, size, job, &requests, &rows, false)?;
//! ```
#![tactic(auto)]

mod answer;
mod host;
mod job;
mod laws;
mod live;
mod parts;
mod printing;
mod reading;
mod running;
mod setup;
mod writing;

pub use answer::Answer;
pub use host::Host;
pub use job::{first_job, first_requests};
pub use laws::{files_end_whole, same_requests_have_one_setup, saved_runs_go_on};
pub use live::{LiveDone, leave_live, run_live};
pub use parts::{run_first_part, run_later_part};
pub use printing::{print, print_made};
pub use reading::{job_in, read_file, requests_in, rows_in, start_in};
pub use running::{
    Done, Outputs, done_of, leave_run, made_lines, run_in_order, run_on_threads, summary_of,
};
pub use setup::setup_of;
