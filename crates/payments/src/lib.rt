//! Payments: the rows of a file, and the files and streams that a run reads and writes.
//!
//! A payments file is CSV. [`read_rows`] answers its rows, or its first fault with the place where
//! it stands. What lies outside the program is met by the traits [`Shelf`] and [`Sink`] alone, so
//! that a run is the same over the host and over a fake in memory.
//!
//! ```
//! let rows = read_rows(alloc, &job, b"source,account,amount\ncard,ann,12.50\n")?;
//! assert!(rt; rows.len() == 1);
//! store(&mut shelf, &name, text.as_slice())?;
//! ```
#![tactic(auto)]

mod cells;
mod fault_words;
mod growing;
mod host;
mod host_draft;
mod host_fault;
mod make;
mod memory;
mod read;
mod records;
mod row;
mod shelf;
mod spelling;
mod storing;
mod sure;

pub use cells::is_header;
pub use growing::{GrowingShelf, extend_all};
pub use host::{HostShelf, StdOut};
pub use host_fault::HostFault;
pub use make::make_rows;
pub use memory::{Calls, MemoryShelf, MemorySink};
pub use read::{PFault, read_rows};
pub use records::TextRecords;
pub use row::{WORK_MAX, row_from};
pub use shelf::{Shelf, ShelfFault, Sink, SinkFault};
pub use storing::{store, store_parts, write_all};
pub use sure::{SureShelf, SureSink};
