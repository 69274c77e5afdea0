//! What is wrong with the words of a command line that has no form, told to people in sentences.
//!
//! ```text
//! let told = word_fault(alloc, &words)?;
//! // "`run` takes 5 names (..), and here are 4: AUDIT is missing. Type `fries run --help`."
//! ```
#![tactic(auto)]

mod forms;
mod names;
mod nearest;
mod options;
mod shown;
mod told;

pub use names::name_at;
pub use options::value_of;
pub use shown::push_shown;
pub use told::{opening, word_fault};
