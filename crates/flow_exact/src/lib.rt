//! A run in which the border of each request is its row.
//!
//! The rows up to a request's border meet old functions at all nodes that it changes, and later
//! rows meet new ones. [`run_exactly`] runs the rows up to each border, and then the request in a
//! part without a row. All parts are one run.
//!
//! ```
//! let record = run_exactly(&engine, setup, &rows)?;
//! ```
#![tactic(auto)]

mod course;
mod parts;
mod run;
mod trail;
mod waiting;

pub use run::run_exactly;
