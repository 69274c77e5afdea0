//! What a job file or a request file tells of the place of a fault in it: names, lines, what stands
//! there and what is wanted.
//!
//! ```text
//! let place = job_place(alloc, bytes, fault)?;
//! // place.note is what stands in brackets after the code, place.detail is a sentence
//! ```
#![tactic(auto)]

mod columns;
mod forms;
mod job_places;
mod lines;
mod members;
mod owners;
mod place;
mod request_places;
mod search;
mod shapes;
mod sizes;
mod unknown_keys;

pub use job_places::job_place;
pub use lines::line_at;
pub use members::TomlFile;
pub use place::Place;
pub use request_places::{push_reason, push_refused, request_place};
