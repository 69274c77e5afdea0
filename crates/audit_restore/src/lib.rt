//! A checker of one given audit: it restores the run that the text is the audit of, or says what is
//! wrong with the text. The audit of a part of a stream tells no counts, and has a checker of its
//! own.
//!
//! ```text
//! let start = Start::first(alloc, &setup)?;
//! let ran = check_audit(alloc, setup, &start, &rows, text.as_slice())?;
//! let ran = check_part(alloc, setup, &start, refused.as_slice(), &rows, text.as_slice())?;
//! ```
#![tactic(auto)]

mod by_lane;
mod check;
mod counts;
mod feed;
mod in_range;
mod lanes;
mod order;
mod part;
mod restore;
mod sending;
mod standing;
mod taking;

pub use check::check_audit;
pub use in_range::counts_are_in_range;
pub use part::check_part;
