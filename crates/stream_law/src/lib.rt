//! The laws of a run in many parts, each of which goes on from where all before it have ended.
//!
//! Rows and requests may come part by part. What was run so far is a `SoFar`, and what comes next a
//! `RunPart`. A request that is issued between two rows has a border there: rows up to it meet the
//! nodes that it changes only before their turns, and later rows only after them. Nothing runs
//! here: each function proves what its clauses say, and does nothing.
//!
//! ```
//! part_runs_are_next_parts();
//! a_part_more_is_a_run();
//! ```
#![tactic(auto)]

mod borders;
mod examples;
mod later;
mod parts;
mod rows;

pub use borders::{parts_between_rows_are_exact, parts_without_rows_set_borders};
pub use examples::{late_requests_go_first, unlifted_requests_are_no_part};
pub use later::{
    accepted_requests_split_within, first_readings_are_judged_alike,
    later_requests_are_judged_later, later_requests_extend_a_setup,
};
pub use parts::{
    a_part_more_is_a_run, part_runs_are_next_parts, parts_in_a_row_are_a_run, parts_keep_the_laws,
    parts_show_what_the_run_shows,
};
pub use rows::{rows_before_a_beginning_do_not_matter, runs_of_any_rows_keep_the_laws};
