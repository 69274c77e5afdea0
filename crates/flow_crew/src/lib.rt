//! What stands before and after the workers of a run.
//!
//! [`Crew::make`] makes each lane of a setup in some form, each worker with its control box over
//! its lanes, and the endpoints and boxes of the feeder. Between the two, workers and feeder take
//! turns until all are done. [`end_run`] then takes the workers apart and settles each lane. The
//! feed and what the workers leave are the record of a run.
//!
//! ```
//! let Crew { workers, posters, outs } = Crew::make(alloc, &form, &setup, 16)?;
//! let feeder = Feeder::make(alloc, &setup, outs, posters, ())?;
//! // .. turns ..
//! let (parts, ()) = feeder.finish();
//! let Ended { feeds, workers } = end_run(alloc, &form, &mut need, &setup, workers, parts)?;
//! ```
#![tactic(auto)]

mod all_endpoints;
mod crew;
mod ended;
mod laws;
mod settle;
mod side;

pub use all_endpoints::AllEndpoints;
pub use crew::Crew;
pub use ended::{Ended, end_run};
pub use laws::{endpoints_stay_matched, workers_read_no_rows};
pub use settle::settle_all;
pub use side::Side;
