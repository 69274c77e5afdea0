//! The top call of `fries`: consistent live reconfiguration of a pipelined dataflow.
//!
//! The program changes operators while tuples flow, and is proved to let no row see half of a
//! change. [`fries`] is the call that `main` makes; its contract is what the program promises.
//!
//! ```text
//! let host = Host { rt: &rt, alloc: rt.alloc(), gate: &OpenGate };
//! let outcome = fries(&host, &words, &mut shelf, &mut out, &mut asks);
//! ExitCode::from(outcome.status)
//! ```
#![tactic(auto)]

mod check;
mod exact;
mod first;
mod inputs;
mod laws;
mod live;
mod make;
mod outcome;
mod plan;
mod resume;
mod run;
mod save;
mod top;
mod verify;

pub use fries_steps::Host;
pub use laws::sure_calls_end_well;
pub use outcome::Outcome;
pub use top::fries;
