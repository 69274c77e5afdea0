//! One worker that moves between threads, and the queue in which it stands meanwhile.
//!
//! A [`Runner`] is a worker with its number and its setup. A thread gives it a visit, which is some
//! turns in a row. Between visits it stands in a [`Queue`], whose rule says that no runner is lost
//! or doubled. A thread has a pass of that queue. The pass counts the numbers of the runners that
//! its thread popped and hasn't pushed back.
//!
//! An [`Engine`] is what a run hands down to each of its steps. [`step`] is what a thread does in a
//! loop, and [`pause`] what it does after a step that moved nothing. [`take`] and [`give`] pop and
//! push one runner. [`open`] makes a queue with its first pass; [`share`] gives out a pass, and
//! [`unite`] takes it back.
//!
//! ```
//! let Some(mut runner) = take(engine.rt, &queue, &mut pass) else {
//!     return Ok(None);
//! };
//! match runner.visit(&mut need, engine.gate) {
//!     Turn::Done => Ok(Some(runner.into_worker())),
//!     _ => give(engine.rt, &queue, &mut pass, runner).map(|()| None),
//! }
//! ```
#![tactic(auto)]

mod charter;
mod engine;
mod idle;
mod moves;
mod parts;
mod rule;
mod runner;
mod steps;

pub use charter::{Beginning, Charter};
pub use engine::Engine;
pub use idle::{PATIENCE, pause};
pub use moves::{give, open, share, take, unite};
pub use parts::{Held, PartPromise, Ticket, start_part};
pub use rule::{EachOnce, Queue, Tally};
pub use runner::{Runner, VISIT};
pub use steps::{Stepped, round, step};
