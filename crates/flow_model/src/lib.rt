//! What a run is: the setup that it goes by, the record that it leaves, and the definitions of
//! both.
//!
//! No run is made here. Contracts of whatever makes one cite these definitions, which know no
//! queue, no capacity and no thread. [`WorkerState`] is what one worker has in force.
//!
//! ```
//! let setup = Setup::make(alloc, job, judge_all(alloc, &job, &requests)?)?;
//! for worker in 0..setup.workers() {
//!     if setup.is_head(worker, 1) {
//!         post_to(worker);
//!     }
//! }
//! ```
#![tactic(auto)]

mod changes;
mod consistent;
mod dues;
mod examples;
mod in_force;
mod journals;
mod landing;
mod lanes;
mod laws;
mod masks;
mod ordered;
mod plans;
mod record;
mod runs;
mod setup;
mod setup_worker;
mod start;
mod tables;
mod topology;
mod worker_state;
mod workers;

pub use consistent::runs_are_consistent;
pub use examples::{
    a_late_turn_is_unlawful, a_missed_payment_is_no_run, an_exchanged_item_is_no_run,
    four_payments_are_a_run, four_payments_are_whole, four_payments_keep_the_laws,
    markers_part_old_from_new, markers_stand_before_their_turn, payments_alone,
    payments_have_an_order, requests_wait_for_their_rows, two_ways_are_a_run,
};
pub use in_force::InForce;
pub use journals::{lawful_journals_have_points, replays_go_on, the_law_goes_on};
pub use landing::{Landing, Landings};
pub use laws::{
    changed_nodes_are_asked, heads_are_unentered, plans_are_least, requests_keep_kinds,
    setups_are_planned, sources_are_unentered, workers_have_few_lanes,
};
pub use ordered::ordered_runs_are_serial;
pub use record::RunRecord;
pub use runs::{
    runs_are_fresh, runs_are_one_table, runs_are_whole, runs_keep_steady, workers_keep_steady,
};
pub use setup::{Plans, Setup};
pub use setup_worker::SetupWorker;
pub use sink_journal::States;
pub use start::Start;
pub use topology::{Lane, LaneNumbers, OutEdge, OutEdges, Topology, WorkerAt};
pub use worker_state::{WorkerFunc, WorkerState};
