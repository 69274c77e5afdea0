//! A run in two parts, with a savepoint between them.
//!
//! The first part is a run of the first rows, with the requests that are issued up to there. The
//! second part goes on with the counts of each worker. Nothing runs here.
//!
//! ```
//! let first = run_first_part(..)?;
//! let second = run_later_part(..)?;
//! let whole = join(alloc, setup, first, second)?;
//! ```
#![tactic(auto)]

mod examples;
mod fault;
mod parts;
mod records;
mod saves;

pub use examples::{a_forgotten_count_is_no_part, saved_halves_are_read, two_halves_are_parts};
pub use fault::SaveFault;
pub use parts::parts_are_a_run;
pub use records::{first_of, join};
pub use saves::{first_parts_can_be_saved, savepoints_are_read_again};
