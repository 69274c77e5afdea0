//! An input of bytes that never has to end, in pieces that are cut between records of CSV.
//!
//! A [`Tap`] is read as its bytes come. [`Pieces`] gives what came up to the last whole record, and
//! keeps the rest for the next piece. So the records of the pieces, one after another, are those of
//! the whole input.
//!
//! ```
//! let mut tap = HostTap::new(rt.reader());
//! let mut pieces = Pieces::new(alloc);
//! while let Some(piece) = pieces.next_piece(&mut tap)? {
//!     println!(rt; "{} bytes", piece.len())?;
//! }
//! ```
#![tactic(auto)]

mod cut;
mod fault;
mod host;
mod laws;
mod limits;
mod memory;
mod pieces;
mod place;
mod reading;
mod sure;
mod tank;
mod tap;

pub use cut::last_cut;
pub use fault::PieceFault;
pub use host::HostTap;
pub use laws::{
    cut_pieces_are_read_one_by_one, cut_texts_are_read_in_two, pieces_join_to_what_was_read,
};
pub use limits::{MAX_RECORD, READ_SIZE};
pub use memory::{MemoryTap, TapStep};
pub use pieces::Pieces;
pub use sure::SureTap;
pub use tap::{Tap, TapFailed};
