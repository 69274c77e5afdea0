//! The plain data of a flow: values, tuples with their traces, source rows and lane items, and the
//! small types that they are made of.
//!
//! Nothing here knows of jobs, workers or requests. Contracts see each collection as a list and
//! each text as a list of bytes.
//!
//! ```
//! let mut word = Txt::from_slice(alloc, b"ann")?;
//! assert!(rt; word.as_slice() == b"ann" && spread(word.as_slice(), 1) == 0);
//! assert!(rt; digits_up_to(b"0042", 99) == Some(42));
//! ```
#![tactic(auto)]

mod births;
mod digits;
mod feed_rows;
mod fields;
mod gate;
mod items;
mod limits;
mod place;
mod reserved;
mod row;
mod text;
mod tuple;
mod value;

pub use births::Births;
pub use digits::digits_up_to;
pub use feed_rows::FeedRows;
pub use fields::Fields;
pub use gate::{Gate, OpenGate};
pub use items::{Items, NoMemory};
pub use limits::{MAX_CAPACITY, MAX_NODE_WORKERS, MAX_THREADS, USUAL_CAPACITY};
pub use place::spread;
pub use reserved::Reserved;
pub use row::{Row, Rows};
pub use text::{Bytes, Txt, Word};
pub use tuple::{Item, Tuple, Visit, Visits};
pub use value::{Value, number_in, text_in};
