//! What two calls of the program do together: `save`, and then `resume` over the same files.
//!
//! Nothing runs here. Each clause of `fries` is of one call, and the law is of the answers of two.
//!
//! ```
//! saved_calls_are_one_run();
//! ```
#![tactic(auto)]

mod laws;

pub use laws::saved_calls_are_one_run;
