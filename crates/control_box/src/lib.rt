//! A control box: how the feeder tells a worker that a request is due, past everything that waits
//! in the worker's lanes.
//!
//! A box has two numbers, posted and turned. The poster raises posted to the number of a due, and
//! the owner raises turned one by one as it turns its dues. At every moment posted is at most
//! turned + 1, and neither number falls. No call waits, and only [`make_box`] takes memory. The
//! idea of control messages that overtake data is that of the Fries paper (PVLDB 2022).
//!
//! ```
//! let (mut poster, mut owner) = make_box(alloc)?;
//! if poster.ready(1) {
//!     poster.post(1);
//! }
//! assert!(rt; owner.poll() == 1 && !poster.ready(2));
//! owner.turned(1);
//! assert!(rt; poster.ready(2));
//! ```
#![tactic(auto)]

mod endpoints;
mod rule;

pub use endpoints::{Owner, Poster, make_box};
