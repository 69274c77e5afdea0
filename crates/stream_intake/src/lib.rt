//! What a stream does with its file of requests, which is read again before each part.
//!
//! What was read once counts. A later reading is looked at only beyond the requests that are known.
//!
//! ```text
//! let Intake { stream, mut known, refused } = begin(alloc, job, requests, false)?;
//! let Taken { stream, refused } = take(alloc, stream, &mut known, found)?;
//! let part = stream.next_part(alloc, last)?;
//! ```
#![tactic(auto)]

mod intake;
mod known;
mod laws;
mod mask;
mod resumed;
mod taken;

pub use intake::{Intake, begin};
pub use known::Known;
pub use laws::saved_streams_go_on;
pub use mask::JobMask;
pub use resumed::resume;
pub use taken::{Taken, take};
