//! What the program tells people on standard error, beside the fixed lines on standard output.
//!
//! ```text
//! let refused = outcome.refused.as_slice();
//! let call = Call { words: &words, not_utf8: None, fault: outcome.fault, refused };
//! let told = advice(alloc, call, &mut HostLook::new(rt))?;
//! ```
#![tactic(auto)]

mod advice_text;
mod audit_places;
mod call;
mod codes;
mod look;
mod row_places;
mod shown;
mod stream_text;
mod table;

pub use advice_text::{advice, skipped_rows};
pub use call::Call;
pub use codes::{help_of, help_of_refusal, help_of_stream};
pub use look::{HostLook, Look, ShelfLook};
pub use stream_text::stream_advice;
pub use table::{Help, HelpIn};
