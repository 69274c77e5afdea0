//! Lanes: the bounded ways along which tuples, markers and ends go from one worker to another, in
//! order.
//!
//! A lane has a sending end and a receiving end, each of which one worker holds. What was sent is
//! what was taken, followed by what lies on the lane. What is put has to be steady: a lane's tuples
//! and markers agree about which request came first.
//!
//! ```
//! let lanes = QueueLanes::new(rt);
//! let mut need = lanes.need();
//! let (mut tx, mut rx) = lanes.make(alloc, 0, 16, origin)?;
//! if let Err(item) = tx.put(&mut need, item) {
//!     // The lane is full.
//! }
//! let next = rx.take(&mut need);
//! ```
#![tactic(auto)]

mod apart;
mod endpoints;
mod form;
mod queue;

pub use apart::are_apart;
pub use endpoints::{Rx, Tx};
pub use form::{Lanes, Left, Origin};
pub use queue::{QueueLanes, QueueRx, QueueTx};
