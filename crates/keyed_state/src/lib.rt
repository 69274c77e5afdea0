//! Finite maps from texts, and the counters that a node keeps by key.
//!
//! ```
//! let mut counts = Keyed::new(alloc);
//! counts.add(b"ann", 5)?;
//! counts.carry(Carry::Scale(1, 2));
//! assert!(rt; counts.raised(b"ann", 1) == 3);
//! ```
#![tactic(auto)]

mod carry;
mod counts;
mod entries;
mod keyed;
mod number;
mod text_map;

pub use carry::Carry;
pub use entries::TextEntries;
pub use keyed::Keyed;
pub use number::clamp;
pub use text_map::TextMap;
