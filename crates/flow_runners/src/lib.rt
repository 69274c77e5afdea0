//! Workers that move between threads.
//!
//! [`run_all`] runs the workers of a job and a feeder on the threads of an engine until all are
//! done. A worker is popped off a queue by one thread, takes some turns there, and is pushed back for
//! another. What comes back are the same workers, each once and in order.
//!
//! Workers that run at their own pace, and control messages that reach each of them at once, are
//! those of the Fries paper (PVLDB 2022).
//!
//! ```
//! let (lanes, gate) = (QueueLanes::new(*rt), OpenGate);
//! let engine = Engine::new(rt, alloc, &lanes, &gate, 4, 16);
//! let flow = Flow { setup: &setup, rows: &FeedRows::all(&rows) };
//! let ran = run_all::<_, _, _, _, Brand>(&engine, &flow, workers, feeder)?;
//! ```
#![tactic(auto)]

mod alone;
mod crew;
mod flow;
mod lead;
mod run;
mod threads;

pub use flow::Flow;
pub use flow_runner::{Beginning, Engine};
pub use run::{Ran, run_all};
