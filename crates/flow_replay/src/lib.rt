//! What a run does, shown by code: the replay of a journal, one row by itself, and an executor on
//! one thread.
//!
//! What a run is stands in the crate `flow_model`, whose types are handed on from here.
//!
//! ```
//! let record = plain_run(alloc, setup, &rows)?;
//! let journal = &record.journals.as_slice()[0];
//! let start = Start::first(alloc, &record.setup)?;
//! let who = SetupWorker { setup: &record.setup, number: 0 };
//! let done = replay(alloc, &start, who, journal)?;
//! assert!(rt; done.sent.len() == record.setup.lanes_out(0).len());
//! ```
#![tactic(auto)]

mod executor;
mod plain;
mod replaying;
mod row_alone;
mod worker_run;

pub use flow_model::{Landing, Landings, Plans, RunRecord, Setup, States};
pub use plain::plain_run;
pub use replaying::{LaneItems, LaneLists, Replayed, replay};
pub use row_alone::{FuncTable, alone};
