//! What the workers and the feeder of a run did, and the texts that are written of it.
//!
//! A journal is the list of steps of one worker. The texts are CSV, as the default writer of `csv`
//! writes it.
//!
//! ```
//! let alerts = alerts_text(alloc, &setup.job, &record.journals)?;
//! let (feeds, journals, states) = (&record.feeds, &record.journals, &record.states);
//! let audit = audit_text(alloc, &setup.job, refused, feeds, journals, states)?;
//! ```
#![tactic(auto)]

mod alerts;
mod audit;
mod audit_lines;
mod journal;
mod laws;
mod lines;

pub use alerts::{alerts_header_text, alerts_part_text, alerts_text, sink_text};
pub use audit::{Noted, RefusalCode, audit_header_text, audit_part_text, audit_text};
pub use audit_lines::AuditLines;
pub use journal::{Entry, Feed, Feeds, Journal, Journals, States};
pub use laws::{parts_follow_one_header, records_are_written_in_turn};
