//! The rows for which the requests of a live run waited, read from the text of an audit.
//!
//! In a live run a request is issued when an input releases it, so its wait stands only in the
//! feed. A text of any kind shows waits, and those fit the requests. For the audit of a live run
//! they are the run's own.
//!
//! Each `fed` record of a text is a row, and an `issued` record shows how many rows came before.
//! Let there be three rows, and requests that ask for 2, 0 and 0 rows.
//!
//! | first fields of the records | waits |
//! |---|---|
//! | fed, fed, issued, fed, issued, issued | 2, 3, 3 |
//! | issued, fed, issued, fed, fed, issued | 2, 2, 3 |
//! | fed, fed, issued, fed | 2, 3, 3 |
//! | none | 3, 3, 3 |
//!
//! ```
//! let waits = shown_waits(alloc, setup.judged.accepted.as_slice(), &rows, text)?;
//! shown_waits_fit();
//! let setup = setup.waiting_for(waits.as_slice());
//! ```
#![tactic(auto)]

mod laws;
mod waits;

pub use laws::{live_runs_show_their_waits, runs_that_wait_as_shown_are_live, shown_waits_fit};
pub use waits::shown_waits;
