//! The texts of a run's alerts and audit, made by several threads.
//!
//! What a run leaves is cut into pieces of a few thousand records. Each thread writes its share of
//! the pieces, each as a part of the text. So each text is that of `sink_journal`, on any number of
//! threads, but it is never copied into one.
//!
//! ```
//! let team = Team { rt: &rt, alloc, threads: 4 };
//! let alerts = team.alerts_text(&setup.job, &record.journals)?;
//! ```
#![tactic(auto)]

mod alerts;
mod audit;
mod piece;
mod pieces;
mod team;
mod text;

pub use audit::Audited;
pub use team::Team;
pub use text::Text;
