//! The file of a savepoint: its text, and what a text tells.
//!
//! ```text
//! let start = start_of(alloc, &ran, 8)?;
//! let text = save_text(alloc, &setup.job, &start)?;
//! let again = read_save(alloc, &setup, 10, text.as_slice())?;
//! ```
#![tactic(auto)]

mod cells;
mod issued;
mod placed;
mod read;
mod records;
mod save_sheet;
mod sheet;
mod spelling;
mod start;
mod text;

pub use cells::Cells;
pub use issued::issued_up_to;
pub use placed::Placed;
pub use read::{PlacedCounts, read_counts, read_save, start_with};
pub use records::cell;
pub use save_sheet::SaveSheet;
pub use spelling::head_number;
pub use start::{copy_of_start, start_of};
pub use text::save_text;
