//! The rows of payments that come in pieces.
//!
//! ```
//! let mut reader = RowReader::new();
//! while let Some(piece) = pieces.next_piece(&mut tap)? {
//!     let sound = reader.read(alloc, &job, piece.as_slice())?;
//!     println!(rt; "{} rows", sound.rows.len())?;
//! }
//! ```
#![tactic(auto)]

mod behind;
mod laws;
mod limits;
mod reader;
mod row;
mod sound;

pub use behind::rows_behind;
pub use laws::{cut_texts_join, files_are_streams, rows_of_pieces_go_on};
pub use limits::{MAX_ROWS, most_rows};
pub use reader::RowReader;
pub use sound::SoundRows;
