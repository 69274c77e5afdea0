//! Why a text is the audit of no run, in the words that are printed, and what an audit notes of a
//! refused request.
//!
//! ```
//! assert_eq!(format!(alloc, "{}", AuditFault::Feed(3)), "V3 record 3");
//! ```
#![tactic(auto)]

mod fault;
mod limits;

pub use fault::AuditFault;
pub use limits::LAST_REFUSAL_CODE;
