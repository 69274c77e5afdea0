//! Laws above the model of a run: what a run from any beginning on leaves the rows that it feeds,
//! and that plans and setups are determined by what they are made of.
//!
//! Nothing runs here but a look at rows and at plans. The laws are called for their contracts, as
//! those of `flow_model` are for runs from the beginning of all.
//!
//! ```
//! later_rows_are_whole(&setup, &rows);
//! let flown = run_from(&engine, setup, &FeedRows::all(&rows), start)?;
//! ```
#![tactic(auto)]

mod plans;
mod rows;

pub use plans::{plans_are_determined, plans_number_all_nodes, setups_are_determined};
pub use rows::later_rows_are_whole;
