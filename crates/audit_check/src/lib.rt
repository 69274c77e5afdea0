//! The first passes of a checker of audits: the shape of a text, the refused requests, and the
//! feed. `audit_journal` and `audit_restore` have the later ones.
//!
//! ```text
//! let start = Start::first(alloc, &setup)?;
//! let both = check_text(alloc, &setup, &start, refused.as_slice(), &rows, text.as_slice())?;
//! ```
#![tactic(auto)]

mod entries;
mod feed;
mod feeds;
mod lines;
mod names;
mod records;
mod refused;
mod shape;
mod spelling;
mod steps;
mod text;
mod told;

pub use feed::check_feed;
pub use refused::check_refused;
pub use shape::read_audit;
pub use steps::feed_of_rows;
pub use text::check_text;
pub use told::{Counted, Told};
