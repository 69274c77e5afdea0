//! Turns of a stream: each takes what came of its input, and what was appended to its requests.
#![tactic(auto)]

mod inputs;
mod later;
mod run;
mod turns;

pub use inputs::StreamInputs;
pub use later::take_later;
pub use run::{Stopped, run_stream};
pub use turns::{End, Turned, turn};
