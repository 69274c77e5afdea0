//! The savepoint of a stream: its text, and what a text tells.
//!
//! A stream is a run in parts that goes on for ever. Its savepoint stands at the end of a part.
//!
//! ```text
//! let text = stream_text(alloc, &setup.job, &save)?;
//! let again = read_stream(alloc, &setup, text.as_slice())?;
//! ```
#![tactic(auto)]

mod examples;
mod fault;
mod head;
mod laws;
mod read;
mod stream_save;
mod text;
mod waits;

pub use examples::saved_streams_are_read;
pub use fault::StreamSaveFault;
pub use laws::{read_streams_can_be_saved, stream_savepoints_are_read_again};
pub use read::read_stream;
pub use stream_save::StreamSave;
pub use text::stream_text;
