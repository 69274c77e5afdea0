//! A part of a stream: it is run by an engine, written to the files, and told to a watch.
#![tactic(auto)]

mod books;
mod call;
mod files;
mod host;
mod names;
mod part;
mod save;
mod step;
mod texts;
mod watch;

pub use books::{Books, Tally};
pub use call::StreamCall;
pub use files::{append_part, fault_of, store_save};
pub use host::StreamHost;
pub use names::StreamNames;
pub use part::{PartRan, run_part};
pub use save::save_stream;
pub use step::run_rows;
pub use texts::PartTexts;
pub use watch::{PartEnd, Watch};
