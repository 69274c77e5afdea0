//! The engine: a run of a setup on several threads.
//!
//! An [`Engine`] says where a run takes place: on how many threads, and over which form of lanes.
//! Workers and the feeder of a setup are made over these lanes. The workers move between threads
//! until all are done, and the lanes are settled. [`run_flow`] returns the setup, the feed and what
//! each worker left; [`Flown::record`] makes the record of them. [`run_from`] does the same from a
//! beginning on, as from a savepoint. [`run_with`] takes another form of feeder, as a live one.
//!
//! ```
//! let engine = Engine::new(&rt, alloc, &RingLanes, &OpenGate, 4, 16);
//! let flown = run_flow(&engine, setup, &FeedRows::all(&rows))?;
//! let record = flown.record(alloc)?;
//! ```
#![tactic(auto)]

mod flown;
mod recorded;
mod run;

pub use flow_runners::Engine;
pub use flown::Flown;
pub use run::{run_flow, run_from, run_with};
