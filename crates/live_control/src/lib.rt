//! Live requests: an operator releases the requests of a run, one by one, while rows flow.
//!
//! Each line feed that [`hear`] takes from an input releases the next request. It tells so over a
//! line, whose two endpoints are a [`Teller`] and an [`Inbox`]. No call over a line waits.
//!
//! ```
//! let (mut teller, inbox) = line(alloc)?;
//! let heard = hear(&mut asks, &mut teller, 1);
//! let (told, last_load) = meet(teller, inbox);
//! assert!(rt; told == u64::from(heard.releases) && last_load <= told);
//! ```
#![tactic(auto)]

mod asks;
mod endpoints;
mod hearing;
mod host;
mod live_feeder;
mod memory;
mod rule;

pub use asks::{Asks, Failed};
pub use endpoints::{Inbox, Teller, line, meet};
pub use hearing::{Heard, hear};
pub use host::StdIn;
pub use live_feeder::LiveFeeder;
pub use memory::MemoryAsks;
