//! Requests to change the functions of a job, and which of them are accepted.
//!
//! A request names nodes, and gives each a new function and a carry for its counts. It says of each
//! node which version it was written for, so that a request which others have overtaken is refused.
//! [`judge_all`] goes through a list of requests in order. Plans and tuples are unknown here.
//!
//! ```
//! let judged = judge_all(alloc, &job, &requests)?;
//! let refused = judged.refused.len();
//! assert!(rt; judged.accepted.len() + refused == requests.len());
//! ```
#![tactic(auto)]

mod book;
mod fault;
mod in_order;
mod judging;
mod laws;
mod limits;
mod request;

pub use book::{Book, Current, accept};
pub use fault::QFault;
pub use in_order::{Judged, Refusals, Refused, judge_all, judge_within};
pub use judging::judge;
pub use laws::{
    accepted_requests_are_in_order, accepted_requests_carry_well, accepted_requests_keep_kinds,
    accepted_requests_may_wait, accepted_requests_name_nodes, accepted_requests_stay_accepted,
};
pub use limits::{MAX_AFTER, MAX_CHANGES, MAX_REQUESTS, MAX_STREAM_REQUESTS};
pub use request::{Change, Changes, Request, Requests};
