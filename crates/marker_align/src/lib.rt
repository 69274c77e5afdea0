//! What a worker does next: turn for a request, process a tuple, close, or nothing.
//!
//! A worker holds at most one item of each of its lanes in a hand. A request turns at a worker when
//! its marker has come on every covered lane, which is the alignment of markers of the Fries paper
//! (PVLDB 2022), or at a head when the request was posted in its box.
//!
//! ```
//! match decide(&hands, due, posted, start) {
//!     Act::Turn(request) => turn(request),
//!     Act::Process(place) => process(place),
//!     Act::Close => close(),
//!     Act::Nothing => {}
//! }
//! ```
#![tactic(auto)]

mod decision;
mod held;
mod limits;

pub use decision::{Act, Due, LaneSet, decide, decide_among};
pub use held::{Hand, Hands, Holder};
pub use limits::{LANE_SET_BITS, MAX_LANES_IN};
