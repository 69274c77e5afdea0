//! The audit of a stream, cut into the audits of its parts.
//!
//! A stream writes one header, and then the records of each part, with nothing between two parts. A
//! part begins with refused requests and the feeder's records, of which `stopped` is the last. It
//! ends with the records of workers. So the border of two parts is seen from their records.
//!
//! ```
//! if let Some(mut parts) = AuditParts::of(alloc, audit.as_slice())? {
//!     while let Some(part) = parts.next_part()? {
//!         // Each part's text is an audit of its own.
//!         println!(rt; "{} records, {} rows", part.records, part.fed)?;
//!     }
//! }
//! ```
#![tactic(auto)]

mod cells;
mod filling;
mod laws;
mod part;
mod parts;
mod writing;

pub use cells::{begins_with, cell};
pub use laws::{
    parts_are_cut_at_borders, parts_join_to_the_records, written_parts_are_found,
    written_streams_are_read,
};
pub use part::AuditPart;
pub use parts::AuditParts;
pub use writing::write_record;
