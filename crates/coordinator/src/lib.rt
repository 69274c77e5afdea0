//! The feeder: it puts rows on the lanes of the sources, issues the requests, and ends the lanes.
//!
//! [`Feeding`] is what a run asks of its feeder, and [`Feeder`] is the one that issues each request
//! at the row that the request names. A turn waits for nobody: it does one thing, or says why not.
//! The idea of control messages that overtake data is that of the Fries paper (PVLDB 2022).
//!
//! ```
//! let mut feeder = Feeder::make(alloc, &setup, outs, posters, ())?;
//! let rows = FeedRows::all(&rows);
//! while feeder.turn(&mut need, &setup, &rows, &gate) != FeedTurn::Done {}
//! let parts = feeder.finish();
//! ```
#![tactic(auto)]

mod boxes;
mod conservation;
mod feeder;
mod feeding;
mod laws;
mod outs;
mod place;
mod state;

pub use conservation::finished_lanes_are_conserved;
pub use feeder::Feeder;
pub use feeding::{FeedParts, FeedTurn, Feeding};
pub use laws::feeders_follow_the_feed;
pub use state::FeederState;
