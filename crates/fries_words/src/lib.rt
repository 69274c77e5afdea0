//! The words of a command line: which command they ask for, and with which files and numbers.
//!
//! ```text
//! let command = command_of(rt.alloc(), &words)?;
//! match command {
//!     Command::Check(job) => ..,
//!     ..
//! }
//! ```
#![tactic(auto)]

mod apps;
mod command;
mod form;
mod help;
mod parts;
mod stream;
mod stream_values;
mod topic;
mod values;

pub use command::{
    AuditOf, Command, EngineSize, First, Make, PlanFiles, ResumeFiles, RunFiles, SaveFiles,
    VerifyFiles, WordsFault, command_of,
};
pub use help::{help_text, version_text};
pub use stream::{
    MAX_EVERY, MAX_FROM, StreamFiles, StreamSaving, USUAL_EVERY, is_stream, stream_of,
};
pub use topic::Topic;
