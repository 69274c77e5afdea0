//! What the program prints: faults with their statuses, plans, refused requests, sizes and
//! summaries.
//!
//! ```text
//! let line = fault_line(alloc, Fault::Read(FileIs::Job))?;
//! assert_eq!(line.as_bytes(), b"fault 5 job\n");
//! ```
#![tactic(auto)]

mod counts;
mod fault;
mod fault_words;
mod lines;
mod plan_lines;
mod refused_lines;

pub use counts::{alert_count, row_count};
pub use fault::{Fault, FileIs};
pub use lines::{Sizes, Summary, fault_line, sizes_line, summary_line};
pub use plan_lines::push_plans;
pub use refused_lines::{noted, push_refused, refused_are_noted};
