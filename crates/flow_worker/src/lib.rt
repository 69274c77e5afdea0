//! A worker of a node: its lanes, its hands, its journal, and one turn after another.
//!
//! [`Worker::make`] makes it over the endpoints of its lanes, in any form. [`Worker::turn`] puts
//! what waits, takes into empty hands, polls the control box, decides, and does at most one act: it
//! turns for a request, processes a tuple, or closes. After [`Turn::Done`] it is taken apart by
//! [`Worker::finish`]. A worker knows no thread and no other worker.
//!
//! Alignment of markers, heads that turn at a control message, and functions that change with the
//! markers are those of the Fries paper (PVLDB 2022).
//!
//! ```
//! let mut need = lanes.need();
//! let who = SetupWorker { setup: &setup, number: 0 };
//! let mut worker = Worker::make(alloc, who, ins, outs, owner)?;
//! let turn = worker.turn(&mut need, &setup, &OpenGate);
//! ```
#![tactic(auto)]

mod acts;
mod lane_in;
mod lane_out;
mod lanes_in;
mod lanes_out;
mod laws;
mod masks;
mod outputs;
mod parts;
mod worker;

pub use laws::control_overtakes_tuples;
pub use parts::{Opened, Parts, Worked};
pub use worker::{Turn, Worker, WorkerStart};
