//! A stream of rows, run in parts for ever. After each part, the parts so far are one run so far.
#![tactic(auto)]

mod ended;
mod laws;
mod mode;
mod parts;
mod pending;
mod resumed;
mod stream;

pub use laws::parts_go_on;
pub use mode::StreamMode;
pub use parts::{LastPart, NextPart};
pub use stream::{Stream, appended};
